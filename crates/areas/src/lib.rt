// Bytes and numbers into a lent area, one behind another. Where there is no room, nothing changes.
#![tactic(auto)]

ghost use Rattle.std.specs.Prelude.{[], ◌∷◌, ◌++◌};
ghost use Rattle.rules.specs.Messages.Layout.{word_bytes, bytes_of};

use rules::forms;

// A lent area, and the place of the next byte in it.
#[derive(Drop)]
pub struct Writer<'a> {
    pub area: &'a mut [u8],
    pub at: usize,
}

impl<'a> Writer<'a> {
    ghost use Rattle.areas.specs.Writes.{Writes};

    pub fn put_byte(&mut self, b: u8)
        ensures { Writes (b ∷ []) self.old self.new }
    {
        if self.at < self.area.len() {
            self.area[self.at] = b;
            self.at += 1;
        }
    }

    // Two bytes.
    pub fn put_pair(&mut self, first: u8, second: u8)
        ensures { Writes (bytes_of 1 first ++ bytes_of 1 second) self.old self.new }
    {
        self.put_byte(first);
        self.put_byte(second);
    }

    // A number in so many bytes, low byte first.
    pub fn put_number(&mut self, count: u8, n: u32)
        ensures { Writes (bytes_of count n) self.old self.new }
    {
        let mut rest = n;
        for _ in 0..count {
            self.put_byte((rest % forms::BYTE_VALUES) as u8);
            rest /= forms::BYTE_VALUES;
        }
    }

    // The bytes of a slice.
    pub fn put_bytes(&mut self, bytes: &[u8])
        ensures { Writes bytes.now self.old self.new }
    {
        for &byte in bytes {
            self.put_byte(byte);
        }
    }

    // Two bytes, low byte first.
    pub fn put_word(&mut self, n: u16)
        ensures { Writes (bytes_of word_bytes n) self.old self.new }
    {
        self.put_number(forms::WORD_BYTES, u32::from(n));
    }
}
