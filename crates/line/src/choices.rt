// How a read takes a key: what decides between the rules.
ghost use Rattle.std.specs.Prelude.{◌≡◌, List, ℕ};
ghost use Rattle.rules.specs.State as rules;
ghost use Rattle.rules.specs.Steps.{is_edit_key, is_token_start, raised_by};
ghost use Rattle.line.specs.declared.Line.{Line};
ghost use Rattle.line.specs.declared.Reading.{Reading};
ghost use Rattle.line.specs.View.{reading_of};
ghost use Rattle.line.specs.With.{lent};

use crate::Terms;
use crate::steps::{DELETE_KEY, DELETE_LINE_KEY, DELETE_WORD_KEY, REDISPLAY_KEY};
use rules::characters;

// Small accents: the small letters of ISO 8859-1 above ASCII whose capital it has too. The division sign is no letter.
const FIRST_SMALL_ACCENT: u8 = 224;

const LAST_SMALL_ACCENT: u8 = 254;

const DIVISION_SIGN: u8 = 247;

// From a small letter to the capital.
const SMALL_SHIFT: u8 = b'a' - b'A';

// DDD: up to which 127 and 23 edit, and with which alone 21 and 18 do.
const DISABLES_LINES: u8 = 1;

const DISABLES_NOTHING: u8 = 0;

// The raised form: a small letter of ASCII or a small accent as its capital, any other code as it is.
fn raised(c: u8) -> u8
    ensures { result ≡ rules.raised c }
{
    if c.is_ascii_lowercase()
        | (FIRST_SMALL_ACCENT <= c) & (c <= LAST_SMALL_ACCENT) & (c != DIVISION_SIGN)
    {
        return c - SMALL_SHIFT;
    }
    c
}

impl Terms {
    // DDD: from 1 on 21 and 18 do not edit, from 2 on nothing does.
    pub(crate) fn is_edit_key(self, c: u8) -> bool
        ensures { (text : List ℕ) (l : Line) (r : Reading) → result ≡ is_edit_key c (reading_of (lent self text l) r) }
    {
        match c {
            DELETE_KEY | DELETE_WORD_KEY => self.disables <= DISABLES_LINES,
            DELETE_LINE_KEY | REDISPLAY_KEY => self.disables == DISABLES_NOTHING,
            _ => false,
        }
    }

    pub(crate) fn is_token_start(self, c: u8) -> bool
        ensures { (text : List ℕ) (l : Line) (r : Reading) → result ≡ is_token_start c (reading_of (lent self text l) r) }
    {
        match c {
            characters::ESC | characters::CSI => self.recognises,
            _ => false,
        }
    }

    pub(crate) fn raised_by(self, c: u8) -> u8
        ensures { (text : List ℕ) (l : Line) (r : Reading) → result ≡ raised_by rules.codes (reading_of (lent self text l) r) c }
    {
        if self.raises {
            return raised(c);
        }
        c
    }
}
