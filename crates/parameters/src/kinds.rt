// The kinds of parameter lists: which bits of a parameter's value are used, and whether the parameter is defined.
ghost use Rattle.std.specs.Prelude.{◌≡◌, ◌<◌, length, drop, map};
ghost use Rattle.rules.specs.Messages.Parameters.{defined_selector, defined_value, question_limits, value_limits, limits_of};
ghost use Rattle.parameters.specs.Lists.{shape_of, kind_shape, mask, known_bytes};

use crate::Parameter;
use fields::{byte_at, word_at};
use rules::{bits, selectors};

// Of a byte the bits that are used.
const ALL_BITS: u8 = u8::MAX;

const SEVEN_BITS: u8 = bits::WHOLE_MASK;

const FOUR_BITS: u8 = bits::FOUR_BITS - 1;

const ONE_BIT: u8 = bits::ONE_BIT - 1;

// Where the count of an Initiate's parameter stands, behind PARMTYPE.
const COUNT: usize = 1;

// A value of as many bytes as one byte can count.
static WHOLE_BYTES: [u8; u8::MAX as usize] = [ALL_BITS; u8::MAX as usize];

// The values of INPUT-COUNT-STATE.
const FIRST_COUNT_STATE: u16 = 1;

const LAST_COUNT_STATE: u16 = 3;

// Initiate, Read Characteristics and Characteristics have a list each.
#[derive(Clone, Copy, Debug, PartialEq, Eq)]
pub(crate) enum ListKind {
    Initiation,
    Question,
    Setting,
}

impl ListKind {
    // The kind of the list in a message of this type.
    pub(crate) fn of(kind: u8) -> ListKind
        ensures { kind_shape result ≡ shape_of kind }
    {
        match kind {
            rules::INITIATE => ListKind::Initiation,
            rules::READ_CHARACTERISTICS => ListKind::Question,
            _ => ListKind::Setting,
        }
    }

    // For each byte of the value of the parameter that begins at a place, a mask that has 1 at its used bits.
    pub(crate) fn masks_at(self, s: &[u8], at: usize) -> &'static [u8]
        requires { at < length s.now }
        ensures { result.now ≡ map mask (limits_of (kind_shape self) (drop at s.now)) }
    {
        match self {
            ListKind::Initiation => &WHOLE_BYTES[..byte_at(s, at + COUNT) as usize],
            ListKind::Question => question_masks(word_at(s, at)),
            ListKind::Setting => setting_masks(word_at(s, at)),
        }
    }

    // The parameter and its value are defined.
    pub(crate) fn defines(self, p: Parameter) -> bool
        ensures { result ≡ (kind_shape self).defined (known_bytes p) }
    {
        match self {
            ListKind::Initiation => true,
            ListKind::Question => is_defined(p.selector),
            ListKind::Setting => has_defined_value(p),
        }
    }
}

fn is_defined(selector: u16) -> bool
    ensures { result ≡ defined_selector selector }
{
    (selectors::FIRST..=selectors::LAST).contains(&selector)
}

fn has_defined_value(p: Parameter) -> bool
    ensures { result ≡ defined_value (known_bytes p) }
{
    if p.selector != selectors::INPUT_COUNT_STATE {
        return is_defined(p.selector);
    }
    let state = u16::from_le_bytes([p.first, p.second]);
    (FIRST_COUNT_STATE..=LAST_COUNT_STATE).contains(&state)
}

fn question_masks(selector: u16) -> &'static [u8]
    ensures { result.now ≡ map mask (question_limits selector) }
{
    match selector {
        selectors::CHARACTER_ATTRIBUTES => &[ALL_BITS],
        _ => &[],
    }
}

fn setting_masks(selector: u16) -> &'static [u8]
    ensures { result.now ≡ map mask (value_limits selector) }
{
    match selector {
        selectors::CHARACTER_ATTRIBUTES => &[ALL_BITS, ALL_BITS, SEVEN_BITS],
        selectors::INPUT_COUNT_STATE => &[ALL_BITS, ALL_BITS],
        selectors::ERROR_PROCESSING => &[FOUR_BITS],
        n if is_defined(n) => &[ONE_BIT],
        _ => &[],
    }
}
