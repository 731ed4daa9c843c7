// The forms of a record, and in what they differ: the largest read.
ghost use Rattle.std.specs.Prelude.{◌≡◌};
ghost use Rattle.rules.specs.Settings as rules;
ghost use Rattle.rules.specs.Settings.Moving.{other_form};
ghost use Rattle.settings.specs.Forms.{code_of, IsFormOf};

use crate::{FORM_1, FORM_2};
use rules::forms;

// The most that a largest read may be in each.
const FORM_1_TOP: u16 = 132;

const FORM_2_TOP: u16 = 1024;

#[derive(Clone, Copy)]
pub(crate) enum Form {
    One,
    Two,
}

impl Form {
    // The form that a record's first byte says.
    pub(crate) fn of(code: u8) -> Option<Form>
        ensures { IsFormOf code result }
    {
        match code {
            FORM_1 => Some(Form::One),
            FORM_2 => Some(Form::Two),
            _ => None,
        }
    }

    // The byte that a record of this form begins with.
    pub(crate) fn code(self) -> u8
        ensures { result ≡ code_of self }
    {
        match self {
            Form::One => FORM_1,
            Form::Two => FORM_2,
        }
    }

    // The form that it is moved to.
    pub(crate) fn other(self) -> Form
        ensures { code_of result ≡ other_form (code_of self) }
    {
        match self {
            Form::One => Form::Two,
            Form::Two => Form::One,
        }
    }

    // The bytes of a largest read.
    pub(crate) fn largest_read_bytes(self) -> u8
        ensures { result ≡ rules.largest_read_bytes (code_of self) }
    {
        match self {
            Form::One => forms::BYTE,
            Form::Two => forms::WORD_BYTES,
        }
    }

    // And the most that it may be.
    pub(crate) fn top_largest_read(self) -> u16
        ensures { result ≡ rules.top_largest_read (code_of self) }
    {
        match self {
            Form::One => FORM_1_TOP,
            Form::Two => FORM_2_TOP,
        }
    }
}
