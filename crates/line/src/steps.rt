// A step takes a key as data, a terminator, an edit or a part of a token.
ghost use Rattle.std.specs.Prelude.{ℕ, ◌+◌, ◌≤◌, ◌<◌, List};
ghost use Rattle.rules.specs.Numbers.{input_size, token_size};
ghost use Rattle.rules.specs.State.{codes};
ghost use Rattle.rules.specs.Steps as rules;
ghost use Rattle.line.specs.declared.Line.{Line};
ghost use Rattle.line.specs.View.{reading_of};
ghost use Rattle.line.specs.With.{lent};
ghost use Rattle.line.specs.ReadChanges.{HasRoom};
ghost use Rattle.line.specs.Promise.{DoesAcross};

use crate::read_data::{Completion, NO_ENDING, ONE_ENDING};
use crate::{Reading, Terms, Work};
use rules::characters;

// Codes that edit, by step rule 6.
pub(crate) const DELETE_KEY: u8 = characters::DEL;

pub(crate) const DELETE_WORD_KEY: u8 = 23;

pub(crate) const DELETE_LINE_KEY: u8 = 21;

pub(crate) const REDISPLAY_KEY: u8 = 18;

// UU: what 127 or 23 does with nothing to delete.
const UNDERFLOW_RINGS: u8 = 1;

const UNDERFLOW_COMPLETES: u8 = 2;

// Where the text is lent to be changed it stands before the areas: so a proof knows its length after a call too. `r` is the read
// that is pending, which the act's method has opened.
impl Work {
    // A token that fits completes the read.
    fn ends_by_token(
        self,
        r: Reading,
        text: &mut [u8; rules::INPUT_SIZE],
        t: Terms,
        messages: &mut [u8],
    ) -> Work
        requires prompt_len_bound { r.input_len + self.flow.typed.token_len + t.prompt_len ≤ input_size }
        ensures rule { (l : Line) (a : List ℕ) →
            DoesAcross (λ k. rules.ends_by_token codes (reading_of k r)) (lent t text.old l) self a messages.old (lent t text.new l)
            result a messages.new }
    {
        let typed = self.flow.typed;
        let token = typed.token;
        let size = typed.token_len as usize;
        let next = r.push_all(text, &token[..size]);
        let by = typed.token_completion();
        let without = typed.without_token();
        let ready = self.with_typed(without);
        ready.completes(messages, by, size as u16, next, text, t)
    }

    // A whole token: one that does not fit stays held.
    pub(crate) fn takes_token(
        self,
        r: Reading,
        text: &mut [u8; rules::INPUT_SIZE],
        t: Terms,
        messages: &mut [u8],
    ) -> Work
        requires has_room { HasRoom t r }
        ensures rule { (l : Line) (a : List ℕ) →
            DoesAcross (λ k. rules.takes_token codes (reading_of k r)) (lent t text.old l) self a messages.old (lent t text.new l) result
            a messages.new }
    {
        let typed = self.flow.typed;
        if r.end(t) + typed.token_len as u32 <= t.max_length as u32 {
            return self.ends_by_token(r, text, t, messages);
        }
        self.completes(messages, Completion::Absentee, NO_ENDING, r, text, t)
    }

    // Rules 1 and 3.
    pub(crate) fn adds_to_token(
        self,
        c: u8,
        r: Reading,
        text: &mut [u8; rules::INPUT_SIZE],
        t: Terms,
        messages: &mut [u8],
    ) -> Work
        requires has_room { HasRoom t r }
        requires token_len_bound { self.flow.typed.token_len < token_size }
        ensures rule { (l : Line) (a : List ℕ) →
            DoesAcross (λ k. rules.adds_to_token codes c (reading_of k r)) (lent t text.old l) self a messages.old
            (lent t text.new l) result a messages.new }
    {
        let typed = self.flow.typed;
        let next = typed.tokened(c);
        let ready = self.with_typed(next);
        if next.is_held() {
            return ready.takes_token(r, text, t, messages);
        }
        ready
    }

    // Rule 7, data.
    pub(crate) fn takes_data(
        self,
        c: u8,
        r: Reading,
        text: &mut [u8; rules::INPUT_SIZE],
        t: Terms,
        terminal: &mut [u8],
        messages: &mut [u8],
    ) -> Work
        requires has_room { HasRoom t r }
        ensures rule { (l : Line) →
            DoesAcross (λ k. rules.takes_data codes c (reading_of k r)) (lent t text.old l) self terminal.old messages.old
            (lent t text.new l) result terminal.new messages.new }
    {
        let next = r.push(text, c);
        let mut shown = self.with_read(next);
        if t.echoes {
            shown = shown.echo(terminal, c);
        }
        if r.end(t) + 1 == t.max_length as u32 {
            return shown.completes(messages, Completion::FullBuffer, NO_ENDING, next, text, t);
        }
        shown
    }

    // Rule 5, a terminator.
    pub(crate) fn terminates(
        self,
        c: u8,
        r: Reading,
        text: &mut [u8; rules::INPUT_SIZE],
        t: Terms,
        terminal: &mut [u8],
        messages: &mut [u8],
    ) -> Work
        requires has_room { HasRoom t r }
        ensures rule { (l : Line) →
            DoesAcross (λ k. rules.terminates codes c (reading_of k r)) (lent t text.old l) self terminal.old messages.old
            (lent t text.new l) result terminal.new messages.new }
    {
        let next = r.push(text, c);
        let mut shown = self;
        if t.terminator_echo & t.echoes {
            shown = shown.echo_terminator(terminal, c);
        }
        shown.completes(messages, Completion::Terminator, ONE_ENDING, next, text, t)
    }

    // 127 or 23 with nothing to delete.
    fn underflows(
        self,
        c: u8,
        r: Reading,
        text: &mut [u8; rules::INPUT_SIZE],
        t: Terms,
        terminal: &mut [u8],
        messages: &mut [u8],
    ) -> Work
        requires has_room { HasRoom t r }
        ensures rule { (l : Line) →
            DoesAcross (λ k. rules.underflows codes c (reading_of k r)) (lent t text.old l) self terminal.old messages.old
            (lent t text.new l) result terminal.new messages.new }
    {
        let underflow = t.underflow;
        if underflow == UNDERFLOW_COMPLETES {
            let next = r.push(text, c);
            return self.completes(messages, Completion::Underflow, ONE_ENDING, next, text, t);
        }
        if underflow == UNDERFLOW_RINGS {
            return self.put(terminal, characters::BEL);
        }
        self
    }

    // 127 and 23, which leave so many characters.
    fn erases(
        self,
        left: u16,
        c: u8,
        r: Reading,
        text: &mut [u8; rules::INPUT_SIZE],
        t: Terms,
        terminal: &mut [u8],
        messages: &mut [u8],
    ) -> Work
        requires has_room { HasRoom t r }
        requires left_bound { left ≤ r.input_len }
        ensures rule { (l : Line) →
            DoesAcross (λ k. rules.erases codes left c (reading_of k r)) (lent t text.old l) self terminal.old messages.old
            (lent t text.new l) result terminal.new messages.new }
    {
        let count = r.input_len;
        if count == 0 {
            return self.underflows(c, r, text, t, terminal, messages);
        }
        self.deletes(terminal, left, r, text, t)
    }

    // Rule 6.
    pub(crate) fn edits(
        self,
        c: u8,
        r: Reading,
        text: &mut [u8; rules::INPUT_SIZE],
        t: Terms,
        terminal: &mut [u8],
        messages: &mut [u8],
    ) -> Work
        requires has_room { HasRoom t r }
        ensures rule { (l : Line) →
            DoesAcross (λ k. rules.edits codes c (reading_of k r)) (lent t text.old l) self terminal.old messages.old
            (lent t text.new l) result terminal.new messages.new }
    {
        if c == DELETE_KEY {
            let left = r.left_by_delete();
            return self.erases(left, c, r, text, t, terminal, messages);
        }
        if c == DELETE_WORD_KEY {
            let left = r.left_by_delete_word(text);
            return self.erases(left, c, r, text, t, terminal, messages);
        }
        if c == DELETE_LINE_KEY {
            return self.deletes(terminal, 0, r, text, t);
        }
        self.redisplays(terminal, r, text, t)
    }
}
