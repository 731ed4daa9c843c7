// The settings record, forms 1 and 2: whether it breaks a rule, its sections, the attributes that it lists, and moving it from form
// to form.
#![tactic(auto)]

ghost use Rattle.std.specs.Prelude.{◌≡◌};
ghost use Rattle.rules.specs.Settings.{is_sound, found_section, table_in};

mod forms;
mod moving;
mod sections;
mod sound;

use crate::forms::Form;
pub use crate::moving::{to_form_1, to_form_2};
use crate::sections::section_in;

// The forms: the first byte of a record, where any may stand.
pub const FORM_1: u8 = 1;

pub const FORM_2: u8 = 2;

// The sections, in this order: numbers, since any number may be asked for.
pub const CHARACTERISTICS_SECTION: u8 = 1;

pub const ATTRIBUTES_SECTION: u8 = 2;

pub const SET_SECTION: u8 = 3;

pub const LARGEST_READ_SECTION: u8 = 4;

const SECTION_COUNT: u8 = LARGEST_READ_SECTION;

// Characteristics: selector and value of each.
pub const SWITCH_SIZE: usize = 3;

pub const SELECTOR_BYTES: usize = rules::forms::WORD_BYTES as usize;

const SWITCH_COUNT: usize = 4;

// A pair of an attribute section: a code and its value.
const PAIR_SIZE: usize = 2;

// The record breaks no rule.
pub fn is_sound(record: &[u8]) -> bool
    ensures { result ≡ is_sound «record».now }
{
    let Some(form) = Form::of(fields::byte_at(record, 0)) else {
        return false;
    };
    sections::are_whole(SECTION_COUNT, sections::behind_form(record))
        & sound::switches(section_in(CHARACTERISTICS_SECTION, record))
        & sound::pairs(section_in(ATTRIBUTES_SECTION, record))
        & sound::set(section_in(SET_SECTION, record))
        & sound::largest_read(form, section_in(LARGEST_READ_SECTION, record))
}

// Section n of the line's own record where it is not empty, otherwise of the site's: a part of the record. Empty when either record
// breaks a rule, or no section has this number.
pub fn section<'a>(n: u8, own: &'a [u8], site: &'a [u8]) -> &'a [u8]
    ensures { result.now ≡ found_section n own.now site.now }
{
    let is_one = (CHARACTERISTICS_SECTION <= n) & (n <= SECTION_COUNT);
    let both = is_sound(own) & is_sound(site);
    if !(is_one & both) {
        return &[];
    }
    let found = section_in(n, own);
    if found.is_empty() {
        return section_in(n, site);
    }
    found
}

// All attributes, as a section of pairs says them: a code that is not listed has 0.
pub fn table_of(section: &[u8]) -> [u8; rules::CODE_COUNT]
    ensures { result ≡ table_in section.now }
{
    let mut table = [0u8; rules::CODE_COUNT];
    for pair in section.chunks_exact(PAIR_SIZE) {
        table[pair[0] as usize] = pair[1];
    }
    table
}
