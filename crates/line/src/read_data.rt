// A read completes.
ghost use Rattle.std.specs.Prelude.{ℕ, ◌≤◌, ◌≡◌, true, length, List, None};
ghost use Rattle.rules.specs.Numbers.{input_size};
ghost use Rattle.rules.specs.State.{codes};
ghost use Rattle.rules.specs.Messages.Codec as codec;
ghost use Rattle.rules.specs.ReadData as rules;
ghost use Rattle.message.specs.Found.{held_in};
ghost use Rattle.writing.specs.Spans.{spans_of, inside};
ghost use Rattle.line.specs.declared.Line.{Line};
ghost use Rattle.line.specs.View.{view, reading_of};
ghost use Rattle.line.specs.Bounded.{CountedReading};
ghost use Rattle.line.specs.With.{lent, on_flow};
ghost use Rattle.line.specs.Completions.{code_of};
ghost use Rattle.line.specs.Promise.{on, Does};

use crate::{Reading, Terms, Work};
use fields::Span;
use message::{Message, ReadDataFields};

// What completes a read, by its code (000, 4.16.4).
#[derive(Clone, Copy, Debug, PartialEq, Eq)]
pub(crate) enum Completion {
    Terminator = 0,
    ValidToken = 1,
    InvalidToken = 2,
    OutOfBand = 3,
    FullBuffer = 4,
    Timeout = 5,
    Unread = 6,
    Underflow = 7,
    Absentee = 8,
}

impl Completion {
    fn code(self) -> u8
        ensures { result ≡ code_of self }
    {
        self as u8
    }
}

// How many characters at the end of a read are a terminator or an underflow code; a token's are as many as it has.
pub(crate) const NO_ENDING: u16 = 0;

pub(crate) const ONE_ENDING: u16 = 1;

impl Work {
    // A partial token is dropped.
    fn loses_partial(self) -> Work
        ensures rule { (l : Line) (t m : List ℕ) → Does (rules.loses_partial codes) (on l self) t m (on l result) t m }
    {
        let typed = self.flow.typed;
        if typed.is_partial() {
            let next = typed.without_token();
            return self.with_typed(next);
        }
        self
    }

    // The Read Data of a read; its data stands in front of the text.
    fn read_data_of(self, by: Completion, ending: u16, r: Reading, t: Terms) -> Message
        requires ending_bound { ending ≤ r.input_len }
        ensures { (text : List ℕ) (k l : Line) → CountedReading r text →
            (held_in text result ≡ codec.message
            (rules.read_data_of codes (code_of by) ending (reading_of (lent t text l) r) (view (on_flow self.flow k))))
            × (inside (length text) (spans_of result) ≡ true) }
    {
        let cursor = self.flow.terminal.screen;
        let more = u8::from(self.flow.typed.has_more_data());
        let vertical = screen::columns::change(cursor.line as u16, t.line as u16);
        let horizontal = screen::columns::change(cursor.column, t.column);
        let text = Span {
            start: 0,
            len: r.input_len,
        };
        Message::ReadData(ReadDataFields {
            code: by.code(),
            more,
            low_water: r.low_water,
            vertical,
            horizontal,
            terminator: r.input_len - ending,
            text,
        })
    }

    // Read Data.
    fn sends_read_data(
        self,
        messages: &mut [u8],
        by: Completion,
        ending: u16,
        r: Reading,
        text: &[u8; rules::INPUT_SIZE],
        t: Terms,
    ) -> Work
        requires input_len_bound { r.input_len ≤ input_size }
        requires ending_bound { ending ≤ r.input_len }
        ensures rule { (k l : Line) (a : List ℕ) →
            Does (rules.sends_read_data codes (code_of by) ending (reading_of (lent t text.now l) r)) (on k self) a messages.old
            (on k result) a
            messages.new }
    {
        let message = self.read_data_of(by, ending, r, t);
        self.send(messages, message, text)
    }

    // This read, which may be the flow's with a character more, completes; so many characters at the end are a terminator, token or
    // underflow code.
    pub(crate) fn completes(
        self,
        messages: &mut [u8],
        by: Completion,
        ending: u16,
        r: Reading,
        text: &[u8; rules::INPUT_SIZE],
        t: Terms,
    ) -> Work
        requires input_len_bound { r.input_len ≤ input_size }
        requires ending_bound { ending ≤ r.input_len }
        ensures rule { (k l : Line) (a : List ℕ) →
            Does (rules.completes codes (code_of by) ending (reading_of (lent t text.now l) r)) (on k self) a messages.old (on k result) a
            messages.new }
        ensures ended { result.flow.pending ≡ None }
    {
        let ready = self.loses_partial();
        let mut answered = ready.sends_read_data(messages, by, ending, r, text, t);
        answered.flow.pending = None;
        answered
    }
}
