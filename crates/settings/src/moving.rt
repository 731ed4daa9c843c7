// Moving a record to the other form, into the front of a lent area.
ghost use Rattle.std.specs.Prelude.{◌≡◌, ◌≤◌, length};
ghost use Rattle.rules.specs.Messages.Layout.{framed};
ghost use Rattle.rules.specs.Settings.{form1, form2, largest_read_section, section_in};
ghost use Rattle.rules.specs.Settings.Moving as rules;
ghost use Rattle.settings.specs.Forms.{code_of};
ghost use Rattle.areas.specs.Writes.{Writes};
ghost use Rattle.areas.specs.InFront.{InFront};

use crate::forms::Form;
use crate::sections::section_in;
use crate::{
    ATTRIBUTES_SECTION, CHARACTERISTICS_SECTION, LARGEST_READ_SECTION, SET_SECTION, is_sound,
};
use areas::Writer;
use rules::refusals::Refusal;

// A sound record of the other form.
fn is_movable(form: Form, record: &[u8]) -> bool
    ensures { result ≡ rules.is_movable (code_of form) «record».now }
{
    is_sound(record) & (fields::byte_at(record, 0) == form.other().code())
}

// Its largest read, 0 where it has none.
fn largest_read_of(record: &[u8]) -> u16
    ensures { result ≡ rules.largest_read_of «record».now }
{
    fields::word_at(section_in(LARGEST_READ_SECTION, record), 0)
}

// A section behind its length.
fn put_section(n: u8, record: &[u8], w: &mut Writer)
    requires { 1 ≤ n }
    ensures { Writes (framed (section_in n «record».now)) w.old w.new }
{
    let section = section_in(n, record);
    w.put_word(section.len() as u16);
    w.put_bytes(section);
}

// The section of the largest read, as another form has it.
fn put_largest_read(form: Form, record: &[u8], w: &mut Writer)
    ensures { Writes (framed (rules.largest_read_as (code_of form) (section_in largest_read_section «record».now))) w.old w.new }
{
    let section = section_in(LARGEST_READ_SECTION, record);
    if section.is_empty() {
        return w.put_word(0);
    }
    let width = form.largest_read_bytes();
    w.put_word(width as u16);
    w.put_number(width, fields::word_at(section, 0) as u32);
}

fn put_moved(form: Form, record: &[u8], w: &mut Writer)
    ensures { Writes (rules.moved (code_of form) «record».now) w.old w.new }
{
    w.put_byte(form.code());
    put_section(CHARACTERISTICS_SECTION, record, w);
    put_section(ATTRIBUTES_SECTION, record, w);
    put_section(SET_SECTION, record, w);
    put_largest_read(form, record, w);
}

// The first refusal that applies, with the area untouched, else the record in the form.
fn move_to(form: Form, record: &[u8], area: &mut [u8]) -> Result<usize, Refusal>
    ensures { InFront (rules.move (code_of form) (length area.old) «record».now) area.old result area.new }
{
    if area.len() < rules::MOVING_AREA {
        return Err(Refusal::SmallArea);
    }
    if !is_movable(form, record) {
        return Err(Refusal::UnsoundRecord);
    }
    if form.top_largest_read() < largest_read_of(record) {
        return Err(Refusal::TooLarge);
    }
    let mut w = Writer { area, at: 0 };
    put_moved(form, record, &mut w);
    Ok(w.at)
}

// A record of form 2, in form 1.
pub fn to_form_1(record: &[u8], area: &mut [u8]) -> Result<usize, Refusal>
    ensures { InFront (rules.move form1 (length area.old) «record».now) area.old result area.new }
{
    move_to(Form::One, record, area)
}

// A record of form 1, in form 2.
pub fn to_form_2(record: &[u8], area: &mut [u8]) -> Result<usize, Refusal>
    ensures { InFront (rules.move form2 (length area.old) «record».now) area.old result area.new }
{
    move_to(Form::Two, record, area)
}
