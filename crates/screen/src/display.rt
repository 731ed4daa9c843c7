// What the terminal gets: each byte through a writer into its area, and the screen as it leaves it. Where there is no room, a byte is
// shown and not stored.
ghost use Rattle.std.specs.Prelude.{replicate, [], ◌∷◌};
ghost use Rattle.rules.specs.Screen as rules;

use crate::Screen;
use crate::echo::Echo;
use areas::Writer;
use rules::characters;

impl Screen {
    ghost use Rattle.screen.specs.View.{Shows};

    // One byte.
    #[tactic(auto, unfolding(rules::specs::Screen::shown_all))]
    pub fn put(&mut self, b: u8, w: &mut Writer)
        ensures { Shows (b ∷ []) self.old self.new w.old w.new }
    {
        *self = self.after(b);
        w.put_byte(b);
    }

    // The bytes of a slice, one behind the other.
    pub fn write(&mut self, text: &[u8], w: &mut Writer)
        ensures { Shows text.now self.old self.new w.old w.new }
    {
        for &byte in text {
            self.put(byte, w);
        }
    }

    // Two bytes.
    fn pair(&mut self, first: u8, second: u8, w: &mut Writer)
        ensures { Shows (first ∷ second ∷ []) self.old self.new w.old w.new }
    {
        self.put(first, w);
        self.put(second, w);
    }

    // One byte so many times.
    fn repeat(&mut self, times: u16, b: u8, w: &mut Writer)
        ensures { Shows (replicate times b) self.old self.new w.old w.new }
    {
        for _ in 0..times {
            self.put(b, w);
        }
    }

    // What a typed character echoes. Inlined, because a key and its rub-out then take 26 instructions fewer.
    #[inline(always)]
    pub fn echo(&mut self, n: u8, w: &mut Writer)
        ensures { Shows (rules.echo self.old.column n) self.old self.new w.old w.new }
    {
        match Echo::of(self.column, n) {
            Echo::Mark(b) => self.put(b, w),
            Echo::Spaces(count) => self.repeat(count, characters::SP, w),
            Echo::Control(b) => self.pair(characters::CARET, b, w),
            Echo::Nothing => {}
        }
    }

    // A terminator's: 13 is CR LF.
    pub fn echo_terminator(&mut self, n: u8, w: &mut Writer)
        ensures { Shows (rules.echo_terminator self.old.column n) self.old self.new w.old w.new }
    {
        if n == characters::CR {
            self.pair(characters::CR, characters::LF, w);
        } else {
            self.echo(n, w);
        }
    }

    // A text's, each character's from where the one before left the cursor.
    pub fn echo_all(&mut self, text: &[u8], w: &mut Writer)
        ensures { Shows (rules.echo_all self.old.column text.now) self.old self.new w.old w.new }
    {
        for &character in text {
            self.echo(character, w);
        }
    }

    // Back, a space over the mark, and back again.
    fn rub_one(&mut self, w: &mut Writer)
        ensures { Shows (rules.BS ∷ rules.SP ∷ rules.BS ∷ []) self.old self.new w.old w.new }
    {
        self.pair(characters::BS, characters::SP, w);
        self.put(characters::BS, w);
    }

    // A mark at a time, the last one first.
    pub fn rub_out(&mut self, marks: usize, w: &mut Writer)
        ensures { Shows (rules.rub_out marks) self.old self.new w.old w.new }
    {
        for _ in 0..marks {
            self.rub_one(w);
        }
    }
}
