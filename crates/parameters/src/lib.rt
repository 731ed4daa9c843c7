// Parameter lists: a walk of one, and a parameter into an area. `kind` is the type of the message that a list stands in: Initiate,
// Read Characteristics or Characteristics.
#![tactic(auto)]

ghost use Rattle.std.specs.Prelude.{◌≡◌};
ghost use Rattle.parameters.specs.Lists.{ParameterIs, sound_from};

use crate::kinds::ListKind;
use fields::{byte_at, word_at};

mod each;
mod kinds;
mod put;

pub use crate::each::Parameters;
pub use crate::put::put_setting;

// Bytes in front of a parameter's value: SELECTOR, or PARMTYPE and a count. Bytes of the longest value: CHARACTER, MASK and
// ATTRIBUTES.
pub const HEAD: usize = 2;

pub const LONGEST_VALUE: usize = 3;

// Where the bytes of a value stand.
const FIRST: usize = HEAD;

const SECOND: usize = HEAD + 1;

const THIRD: usize = HEAD + 2;

// One parameter of a list: its SELECTOR, the bytes behind it (CHARACTER, MASK and ATTRIBUTES, or a VALUE; 0 where there are
// fewer), unused bits set to 0, and where the next one begins. The three bytes are no array, since users take each by name.
#[derive(Clone, Copy, Debug, PartialEq, Eq, Default)]
pub struct Parameter {
    pub selector: u16,
    pub first: u8,
    pub second: u8,
    pub third: u8,
    pub next: usize,
}

// Every parameter from a place on is whole and defined. Each kind has a walk of its own, because a step of a walk whose kind is known
// takes half as many instructions.
pub fn is_sound_list(kind: u8, s: &[u8], from: usize) -> bool
    ensures { result ≡ sound_from kind from s.now }
{
    match ListKind::of(kind) {
        ListKind::Initiation => are_sound(rules::INITIATE, s, from),
        ListKind::Question => are_sound(rules::READ_CHARACTERISTICS, s, from),
        ListKind::Setting => are_sound(rules::CHARACTERISTICS, s, from),
    }
}

// The same of a kind that is known. A plain loop, because the library's `all` is compiled once for the three and asks for the kind in
// each step.
#[inline(always)]
fn are_sound(kind: u8, s: &[u8], from: usize) -> bool
    ensures { result ≡ sound_from kind from s.now }
{
    let list = ListKind::of(kind);
    for p in Parameters::starting_at(kind, s, from) {
        let sound = (p.next <= s.len()) & list.defines(p);
        if !sound {
            return false;
        }
    }
    true
}

// The parameter that begins at a place; from the end on it is empty, and the next one begins at the same place. Inlined, so that a
// walk of a known kind works out no more than its user looks at.
#[inline(always)]
pub fn parameter_at(kind: u8, s: &[u8], at: usize) -> Parameter
    ensures { ParameterIs kind at s.now result }
{
    if s.len() <= at {
        return Parameter {
            next: at,
            ..Parameter::default()
        };
    }
    let masks = ListKind::of(kind).masks_at(s, at);
    Parameter {
        selector: word_at(s, at),
        first: byte_at(s, at + FIRST) & byte_at(masks, 0),
        second: byte_at(s, at + SECOND) & byte_at(masks, 1),
        third: byte_at(s, at + THIRD) & byte_at(masks, 2),
        next: at + HEAD + masks.len(),
    }
}
