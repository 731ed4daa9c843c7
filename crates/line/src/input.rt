// What stands after a read's prompt, in front of its text.
ghost use Rattle.std.specs.Prelude.{◌≡◌, [], ◌∷◌, reverse, ◌+◌, ◌-◌, ◌≤◌, ◌<◌, min, length, take};
ghost use Rattle.rules.specs.Numbers.{input_size};
ghost use Rattle.rules.specs.Choice.{bit};
ghost use Rattle.rules.specs.Editing as rules;
ghost use Rattle.line.specs.declared.Line.{Line};
ghost use Rattle.line.specs.View.{reading_of};
ghost use Rattle.line.specs.With.{lent};
ghost use Rattle.line.specs.Bounded.{CountedReading};
ghost use Rattle.line.specs.ReadChanges.{Shortened, Appends, ShownFrom, RubsOut, LeftByDeleteWord, of_class, idling, shown_at};

use crate::{Reading, Terms};
use screen::RubOut;

// A word's character, an ASCII letter or digit, or one between words.
fn is_of(word: bool, n: u8) -> bool
    ensures { result ≡ of_class word n }
{
    n.is_ascii_alphanumeric() == word
}

// Where the characters of one class at a text's end begin.
fn end_before(text: &[u8], word: bool) -> usize
    ensures { result ≡ length text.now - rules.leading (of_class word) (reverse text.now) }
{
    // by place: what the library says of a reversed iterator does not give it
    for last in (0..text.len()).rev() {
        if !is_of(word, text[last]) {
            return last + 1;
        }
    }
    0
}

impl Reading {
    // Its first characters left; LOW-WATER falls to the new end if lower.
    pub(crate) fn shortened(self, left: u16, t: Terms) -> Reading
        requires { left ≤ self.input_len }
        ensures { Shortened left t self result }
    {
        let end = t.end_of_prompt as u32 + left as u32;
        Reading {
            input_len: left,
            low_water: (self.low_water as u32).min(end) as u16,
            hidden_lf: self.hidden_lf & (0 < left),
            ..self
        }
    }

    // One character more.
    pub(crate) fn push(self, text: &mut [u8; rules::INPUT_SIZE], c: u8) -> Reading
        requires counted_reading { CountedReading self text.old }
        requires input_len_bound { self.input_len < input_size }
        ensures { Appends (c ∷ []) self text.old result text.new }
    {
        text[self.input_len as usize] = c;
        Reading {
            input_len: self.input_len + 1,
            ..self
        }
    }

    // More characters.
    pub(crate) fn push_all(self, text: &mut [u8; rules::INPUT_SIZE], cs: &[u8]) -> Reading
        requires counted_reading { CountedReading self text.old }
        requires cs_bound { self.input_len + length cs.now ≤ input_size }
        ensures { Appends cs.now self text.old result text.new }
    {
        let start = self.input_len as usize;
        text[start..start + cs.len()].copy_from_slice(cs);
        Reading {
            input_len: self.input_len + cs.len() as u16,
            ..self
        }
    }

    pub(crate) fn with_idle(self, idle: u16) -> Reading
        ensures { result ≡ idling idle self }
    {
        Reading { idle, ..self }
    }

    // Its data's display begins at this column.
    pub(crate) fn with_display_column(self, column: u16) -> Reading
        ensures { result ≡ shown_at column self }
    {
        Reading {
            display_column: column,
            ..self
        }
    }

    // The end of the buffer.
    pub(crate) fn end(self, t: Terms) -> u32
        ensures { result ≡ t.end_of_prompt + self.input_len }
    {
        t.end_of_prompt as u32 + self.input_len as u32
    }

    // Where its displayed characters begin: behind the LF that F hides.
    pub(crate) fn first_shown(self) -> usize
        ensures { ShownFrom self result }
    {
        usize::from(self.hidden_lf & (0 < self.input_len))
    }

    // How many of its first characters are displayed.
    fn shown_of(self, left: u16) -> usize
        ensures { result ≡ left - bit self.hidden_lf }
    {
        (left as usize).saturating_sub(usize::from(self.hidden_lf))
    }

    // The marks and spaces to rub out when all but its first characters are deleted: none in a read that does not echo. The LF
    // that F hides, in front of `start`, takes no column; it is deleted when no character is left, and counts as one worked out.
    pub(crate) fn find_marks(self, left: u16, text: &[u8], t: Terms) -> RubOut
        requires { CountedReading self text.now }
        ensures { (l : Line) → RubsOut left (reading_of (lent t text.now l) self) result }
    {
        if t.echoes {
            let start = self.first_shown();
            let end = self.input_len as usize;
            let kept = self.shown_of(left);
            let from = self.display_column;
            let found = screen::rub::find_marks(kept, from, &text[start..end]);
            if 0 < left {
                return found;
            }
            return RubOut {
                marks: found.marks,
                columns: found.columns + start,
            };
        }
        RubOut {
            marks: 0,
            columns: 0,
        }
    }

    // How many characters 127 leaves.
    pub(crate) fn left_by_delete(self) -> u16
        ensures { result ≡ self.input_len - 1 }
    {
        self.input_len.saturating_sub(1)
    }

    // How many characters 23 leaves.
    pub(crate) fn left_by_delete_word(self, text: &[u8]) -> u16
        requires { CountedReading self text.now }
        ensures { LeftByDeleteWord text.now self result }
    {
        let input = &text[..self.input_len as usize];
        let spaces = end_before(input, false);
        end_before(&input[..spaces], true) as u16
    }
}
