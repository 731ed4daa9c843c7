// What each section may hold.
ghost use Rattle.std.specs.Prelude.{◌≡◌};
ghost use Rattle.rules.specs.Settings as rules;
ghost use Rattle.settings.specs.Forms.{code_of};

use crate::forms::Form;
use crate::{PAIR_SIZE, SELECTOR_BYTES, SWITCH_COUNT, SWITCH_SIZE};
use rules::{bits, out_of_band, selectors};

// The n-th switch is this one, on or off.
fn is_switch(section: &[u8], n: u8, selector: u16) -> bool
    ensures { result ≡ rules.is_switch section.now n selector }
{
    let at = n as usize * SWITCH_SIZE;
    (fields::word_at(section, at) == selector)
        & (fields::byte_at(section, at + SELECTOR_BYTES) < bits::ONE_BIT)
}

// None, or all four.
pub(crate) fn switches(section: &[u8]) -> bool
    ensures { result ≡ rules.sound_switches section.now }
{
    section.is_empty()
        | (section.len() == SWITCH_COUNT * SWITCH_SIZE)
            & is_switch(section, 0, selectors::RAISE_INPUT)
            & is_switch(section, 1, selectors::NORMAL_ECHO)
            & is_switch(section, 2, selectors::ESCAPE_RECOGNITION)
            & is_switch(section, 3, selectors::AUTO_PROMPT)
}

// A value that a pair may have: not 0, no unused bit, not deferred-clear.
fn is_listed(value: u8) -> bool
    ensures { result ≡ rules.is_listed value }
{
    (1 <= value)
        & (value <= bits::WHOLE_MASK)
        & (value % out_of_band::VALUES != out_of_band::DEFERRED_CLEAR)
}

// Whole pairs, their codes ascending.
pub(crate) fn pairs(section: &[u8]) -> bool
    ensures { result ≡ rules.sound_pairs 0 section.now }
{
    let mut least: u16 = 0;
    for pair in section.chunks_exact(PAIR_SIZE) {
        let code = pair[0] as u16;
        let sound = (least <= code) & is_listed(pair[1]);
        if !sound {
            return false;
        }
        least = code + 1;
    }
    section.len() % PAIR_SIZE == 0
}

// A termination set: its last byte is not 0.
pub(crate) fn set(section: &[u8]) -> bool
    ensures { result ≡ rules.sound_set section.now }
{
    (section.len() <= rules::SET_SIZE) & (section.last().copied() != Some(0))
}

// None, or as the form has it.
pub(crate) fn largest_read(form: Form, section: &[u8]) -> bool
    ensures { result ≡ rules.sound_largest_read (code_of form) section.now }
{
    section.is_empty()
        | (section.len() == form.largest_read_bytes() as usize)
            & (fields::word_at(section, 0) <= form.top_largest_read())
}
