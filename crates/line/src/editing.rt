// Deleting from a read's input, and showing it again.
ghost use Rattle.std.specs.Prelude.{ℕ, ◌≤◌, List};
ghost use Rattle.rules.specs.State.{codes};
ghost use Rattle.rules.specs.Turns.{Fate};
ghost use Rattle.rules.specs.Editing as rules;
ghost use Rattle.rules.specs.Numbers.{input_size};
ghost use Rattle.line.specs.declared.Line.{Line};
ghost use Rattle.line.specs.View.{reading_of};
ghost use Rattle.line.specs.ReadChanges.{InOnePass};
ghost use Rattle.line.specs.With.{lent};
ghost use Rattle.line.specs.Promise.{DoesOn};

use crate::{Reading, Terms, Work};
use rules::characters;

// The carriage return and line feed of a redisplay.
const NEW_LINE: [u8; 2] = [characters::CR, characters::LF];

// Does nothing: what it requires, `deletes` has to show of the columns worked out.
fn in_one_pass(columns: usize, left: u16, r: Reading, text: &[u8; rules::INPUT_SIZE], t: Terms)
    requires { (l : Line) → InOnePass left (reading_of (lent t text.now l) r) columns }
{}

impl Work {
    // Deletes all but the first characters, without rubbing out.
    pub(crate) fn deletes_without_rubbing(self, left: u16, r: Reading, t: Terms) -> Work
        requires input_len_bound { r.input_len ≤ input_size }
        requires left_bound { left ≤ r.input_len }
        ensures rule { (fate : ℕ → Fate ℕ) (text : List ℕ) (l : Line) (a m : List ℕ) →
            DoesOn (λ k. rules.deletes_without_rubbing fate left (reading_of k r)) (lent t text l) self a m
            result a m }
    {
        let next = r.shortened(left, t);
        self.with_read(next)
    }

    // Deletes them and, in a read that echoes, rubs them out.
    pub(crate) fn deletes(
        self,
        terminal: &mut [u8],
        left: u16,
        r: Reading,
        text: &[u8; rules::INPUT_SIZE],
        t: Terms,
    ) -> Work
        requires input_len_bound { r.input_len ≤ input_size }
        requires left_bound { left ≤ r.input_len }
        ensures rule { (fate : ℕ → Fate ℕ) (l : Line) (m : List ℕ) →
            DoesOn (λ k. rules.deletes codes fate left (reading_of k r)) (lent t text.now l) self terminal.old m result terminal.new m }
    {
        let found = r.find_marks(left, text, t);
        in_one_pass(found.columns, left, r, text, t);
        let rubbed = self.rub_out(terminal, found.marks);
        rubbed.deletes_without_rubbing(left, r, t)
    }

    // What follows the prompt, from where the cursor stands.
    fn displays_data(
        self,
        terminal: &mut [u8],
        r: Reading,
        text: &[u8; rules::INPUT_SIZE],
        t: Terms,
    ) -> Work
        requires input_len_bound { r.input_len ≤ input_size }
        ensures rule { (l : Line) (m : List ℕ) →
            DoesOn (λ k. rules.displays_data codes (reading_of k r)) (lent t text.now l) self terminal.old m result terminal.new m }
    {
        let next = r.with_display_column(self.flow.terminal.screen.column);
        let begun = self.with_read(next);
        if t.echoes {
            let start = r.first_shown();
            let end = r.input_len as usize;
            return begun.echo_all(terminal, &text[start..end]);
        }
        begun
    }

    // The prompt, and the echo of what follows it if the read echoes.
    pub(crate) fn displays(
        self,
        terminal: &mut [u8],
        r: Reading,
        text: &[u8; rules::INPUT_SIZE],
        t: Terms,
    ) -> Work
        requires input_len_bound { r.input_len ≤ input_size }
        requires prompt_len_bound { t.prompt_len ≤ input_size }
        ensures rule { (l : Line) (m : List ℕ) →
            DoesOn (λ k. rules.displays codes (reading_of k r)) (lent t text.now l) self terminal.old m result terminal.new m }
    {
        let start = rules::INPUT_SIZE - t.prompt_len as usize;
        let prompted = self.write(terminal, &text[start..]);
        prompted.displays_data(terminal, r, text, t)
    }

    // CR LF, and the display again.
    pub(crate) fn redisplays(
        self,
        terminal: &mut [u8],
        r: Reading,
        text: &[u8; rules::INPUT_SIZE],
        t: Terms,
    ) -> Work
        requires input_len_bound { r.input_len ≤ input_size }
        requires prompt_len_bound { t.prompt_len ≤ input_size }
        ensures rule { (l : Line) (m : List ℕ) →
            DoesOn (λ k. rules.redisplays codes (reading_of k r)) (lent t text.now l) self terminal.old m result terminal.new m }
    {
        let next = self.write(terminal, &NEW_LINE);
        next.displays(terminal, r, text, t)
    }
}
