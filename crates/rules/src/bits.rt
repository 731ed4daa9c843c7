// How many values a field of so many bits has, as in specs/Messages/Parameters.antt, and two and three bits of FLAGS besides. One
// less is the mask of its bits.

pub const ONE_BIT: u8 = 2;

pub const TWO_BITS: u8 = 4;

pub const THREE_BITS: u8 = 8;

pub const FOUR_BITS: u8 = 16;

pub const SEVEN_BITS: u8 = 128;

// The used bits of an attribute, as a mask.
pub const WHOLE_MASK: u8 = SEVEN_BITS - 1;
