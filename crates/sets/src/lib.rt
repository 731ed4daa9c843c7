// Termination sets.
#![tactic(auto)]

ghost use Rattle.std.specs.Prelude.{◌≡◌, ◌≤◌, length, take};
ghost use Rattle.rules.specs.Messages.Codec.{set_size};
ghost use Rattle.rules.specs.StartRead as sets;
ghost use Rattle.rules.specs.StartRead.{in_set};
ghost use Rattle.sets.specs.View.{set_of, CountedSet};

use rules::bits;

// Codes that a byte of a set holds, from its lowest bit on.
const CODES_A_BYTE: u8 = 8;

// The bytes of the universal set: the others would be 0.
const UNIVERSAL: [u8; 4] = [0b1111_1111, 0b1111_1100, 0b0101_1011, 0b1111_1111];

// Its first `len` bytes were given; codes behind them are not in it. An array, since a line has no heap.
#[derive(Clone, Copy)]
pub struct Set {
    pub bytes: [u8; rules::SET_SIZE],
    pub len: u8,
}

impl Set {
    // The set that these bytes are.
    pub fn of(given: &[u8]) -> Set
        ensures { (set_of result ≡ take set_size given.now) × CountedSet result }
    {
        let kept = &given[..given.len().min(rules::SET_SIZE)];
        let mut held = [0u8; rules::SET_SIZE];
        held[..kept.len()].copy_from_slice(kept);
        let len = kept.len() as u8;
        Set { bytes: held, len }
    }

    // The universal set: codes 0 to 31 except 8, 9, 18, 21, 23.
    pub fn universal() -> Set
        ensures { (set_of result ≡ sets.universal) × CountedSet result }
    {
        Set::of(&UNIVERSAL)
    }

    // A code is in the set: its bit is 1, in a byte that the set has.
    pub fn has(self, c: u8) -> bool
        ensures { result ≡ in_set (set_of self) c }
    {
        let at = c / CODES_A_BYTE;
        if self.len <= at {
            return false;
        }
        (self.bytes[at as usize] >> (c % CODES_A_BYTE)) % bits::ONE_BIT == fields::ON
    }
}
