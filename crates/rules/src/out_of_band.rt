// The out-of-band field of an attribute: how many values it has, and what they say; 0 is none.
use crate::bits;

pub const VALUES: u8 = bits::TWO_BITS;

pub const IMMEDIATE_CLEAR: u8 = 1;

pub const DEFERRED_CLEAR: u8 = 2;

pub const HELLO: u8 = 3;
