// Moving a settings record, by the form that the script names.
ghost use Rattle.replay.specs.Moved.{SaysTheSame};

use rules::refusals::Refusal;

#[derive(Clone, Copy)]
pub enum Form {
    One,
    Two,
}

impl Form {
    // By its digit's value.
    pub(crate) fn of(digit: u8) -> Option<Form> {
        match digit {
            settings::FORM_1 => Some(Form::One),
            settings::FORM_2 => Some(Form::Two),
            _ => None,
        }
    }
}

// What is written says what the record says.
pub(crate) fn moved(form: Form, record: &[u8], area: &mut [u8]) -> Result<usize, Refusal>
    ensures { SaysTheSame «record».now result area.new }
{
    match form {
        Form::One => settings::to_form_1(record, area),
        Form::Two => settings::to_form_2(record, area),
    }
}
