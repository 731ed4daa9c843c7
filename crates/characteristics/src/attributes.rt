// Character attributes.
ghost use Rattle.std.specs.Prelude.{◌≡◌, get_or, set};
ghost use Rattle.rules.specs.Choice.{any_is};
ghost use Rattle.rules.specs.Characteristics as rules;

use crate::Host;
use rules::{bits, out_of_band};

impl Host {
    // What a character's attribute is.
    pub(crate) fn attribute(self, c: u8) -> u8
        ensures { result ≡ get_or self.attributes c 0 }
    {
        self.attributes[c as usize]
    }
}

// Of the seven used bits, the new one where the mask has 1, the old one where it has 0.
fn masked(mask: u8, old: u8, new: u8) -> u8
    ensures { result ≡ rules.masked rules.attribute_bits mask old new }
{
    ((old & !mask) | (new & mask)) & bits::WHOLE_MASK
}

// CHARACTER, MASK and ATTRIBUTES act on one place of the table.
pub(crate) fn with_attribute(
    mut table: [u8; rules::CODE_COUNT],
    character: u8,
    mask: u8,
    attributes: u8,
) -> [u8; rules::CODE_COUNT]
    ensures { result ≡ set table character (rules.masked rules.attribute_bits mask (get_or table character 0) attributes) }
{
    let at = character as usize;
    table[at] = masked(mask, table[at], attributes);
    table
}

// A character of the table is deferred-clear.
pub(crate) fn any_deferred_clear(table: &[u8]) -> bool
    ensures { result ≡ any_is rules.is_deferred_clear table.now }
{
    table.iter().any(|attribute| attribute % out_of_band::VALUES == out_of_band::DEFERRED_CLEAR)
}
