// Write: its output, what it tells of it, the lock and the redisplay. Flags and affixes are taken as the message
// has them, as the rules take them.
ghost use Rattle.std.specs.Prelude.{ℕ, ◌≤◌, ◌≡◌, not, List, length, drop};
ghost use Rattle.rules.specs.Numbers.{input_size};
ghost use Rattle.rules.specs.State.{State, codes};
ghost use Rattle.rules.specs.Messages.Forms as forms;
ghost use Rattle.rules.specs.Choice.{is_empty};
ghost use Rattle.rules.specs.Write as rules;
ghost use Rattle.fields.specs.Spans.{span_of};
ghost use Rattle.message.specs.Found.{write_in};
ghost use Rattle.screen.specs.View as screen;
ghost use Rattle.line.specs.declared.Line.{Line};
ghost use Rattle.line.specs.With.{lent};
ghost use Rattle.line.specs.Promise.{on, Does, DoesOn};

use crate::{Terms, Work};
use message::{Message, WriteFields};
use rules::characters;
use screen::Screen;

// UU: 1 locks; any other leaves the line unlocked, and 3 redisplays.
const LEAVES_LOCKED: u8 = 1;

const REDISPLAY_AFTER: u8 = 3;

// PP and QQ: 0 is none, 1 a number of lines, 2 a character.
const NEW_LINES: u8 = 1;

const CHARACTER: u8 = 2;

// The longest prefix or postfix: CR, and as many LF as a byte can say.
const LONGEST_AFFIX: usize = rules::forms::BYTE_VALUES as usize;

// The place of the first byte that is written: behind an LF that the mark leaves out.
fn first_written(skips: bool, own: &[u8]) -> usize
    ensures within { result ≤ length own.now }
    ensures left { drop result own.now ≡ rules.unskipped skips own.now }
{
    if own.len() == 0 {
        return 0;
    }
    if skips & (own[0] == characters::LF) {
        return 1;
    }
    0
}

// A prefix or a postfix of this code has bytes.
fn has_affix(code: u8) -> bool
    ensures { (value : ℕ) → result ≡ not (is_empty (rules.affix_bytes code value)) }
{
    (code == NEW_LINES) | (code == CHARACTER)
}

// There is something to put out.
fn has_output(f: WriteFields, data: &[u8]) -> bool
    ensures { (s : List ℕ) → «data».now ≡ span_of s f.text → result ≡ rules.has_output (write_in s f) }
{
    has_affix(f.prefix) | (data.len() != 0) | has_affix(f.postfix) | (f.newline == fields::ON)
}

impl Work {
    // Don't-discard turns discarding off.
    fn stops_discarding(self, keeps: u8) -> Work
        ensures rule { (l : Line) (t m : List ℕ) → Does (rules.stops_discarding keeps) (on l self) t m (on l result) t m }
    {
        let mut next = self;
        if keeps == fields::ON {
            next.flow.terminal.discarding = false;
        }
        next
    }

    // Own bytes, or a part of them. A first LF is left out where the mark is set, and where there are any the mark falls.
    fn writes_own(self, terminal: &mut [u8], own: &[u8]) -> Work
        ensures rule { (l : Line) (m : List ℕ) → Does (rules.writes_own own.now) (on l self) terminal.old m (on l result) terminal.new m }
    {
        let start = first_written(self.flow.terminal.skip_linefeed, own);
        let mut written = self.write(terminal, &own[start..]);
        written.flow.terminal.skip_linefeed = (own.len() == 0)
            & written.flow.terminal.skip_linefeed;
        written
    }

    // A prefix or a postfix.
    fn writes_affix(self, terminal: &mut [u8], code: u8, value: u8) -> Work
        ensures rule { (l : Line) (m : List ℕ) →
            Does (rules.writes_own (rules.affix_bytes code value)) (on l self) terminal.old m (on l result)
            terminal.new m }
    {
        if code == NEW_LINES {
            let mut lines = [characters::LF; LONGEST_AFFIX];
            lines[0] = characters::CR;
            let end = value as usize + 1;
            return self.writes_own(terminal, &lines[..end]);
        }
        if code == CHARACTER {
            let character = [value];
            return self.writes_own(terminal, &character);
        }
        self
    }

    // L: an LF at the very end, which sets the mark.
    fn ends_line(self, terminal: &mut [u8], newline: u8) -> Work
        ensures rule { (l : Line) (m : List ℕ) → Does (rules.ends_line newline) (on l self) terminal.old m (on l result) terminal.new m }
    {
        if newline == fields::ON {
            let mut ended = self.put(terminal, characters::LF);
            ended.flow.terminal.skip_linefeed = true;
            return ended;
        }
        self
    }

    // Prefix, data, postfix and L's LF, unless output is discarded.
    fn writes_output(self, terminal: &mut [u8], f: WriteFields, data: &[u8]) -> Work
        ensures rule { (s : List ℕ) → «data».now ≡ span_of s f.text → (l : Line) (m : List ℕ) →
            Does (rules.writes_output (write_in s f)) (on l self) terminal.old m (on l result) terminal.new m }
    {
        if self.flow.terminal.discarding {
            return self;
        }
        let prefixed = self.writes_affix(terminal, f.prefix, f.prefix_value);
        let written = prefixed.writes_own(terminal, data);
        let postfixed = written.writes_affix(terminal, f.postfix, f.postfix_value);
        postfixed.ends_line(terminal, f.newline)
    }

    // Write Completion: whether output was lost, and how far the cursor has moved.
    fn sends_completion(self, messages: &mut [u8], wants: u8, some: bool, before: Screen) -> Work
        ensures rule { (x : forms.Message ℕ) (b : State ℕ) → some ≡ rules.has_output x →
            screen.screen_view before ≡ b.terminal.screen → (l : Line) (t : List ℕ) →
            Does (rules.sends_completion wants x b) (on l self) t messages.old (on l result) t messages.new }
    {
        if wants == fields::ON {
            let known = self.flow.terminal;
            let cursor = known.screen;
            let lost = fields::bit_of(known.discarding & some);
            let horizontal = screen::columns::change(cursor.column, before.column) as u16;
            let vertical = screen::columns::change(cursor.line as u16, before.line as u16) as u16;
            return self.sends_plain(
                messages,
                Message::WriteCompletion {
                    lost,
                    horizontal,
                    vertical,
                },
            );
        }
        self
    }

    // A Write, in order; its data stands in the lent slice.
    pub(crate) fn writes_out(
        self,
        terminal: &mut [u8],
        messages: &mut [u8],
        f: WriteFields,
        s: &[u8],
        text: &[u8; rules::INPUT_SIZE],
        t: Terms,
    ) -> Work
        requires prompt_len_bound { t.prompt_len ≤ input_size }
        ensures rule { (l : Line) →
            DoesOn (λ k. rules.writes_out codes (write_in s.now f)) (lent t text.now l) self terminal.old messages.old result
            terminal.new messages.new }
    {
        let before = self.flow.terminal.screen;
        let data = fields::span_of(s, f.text);
        let some = has_output(f, data);
        let kept = self.stops_discarding(f.keeps_output);
        let written = kept.writes_output(terminal, f, data);
        let said = written.sends_completion(messages, f.wants_completion, some, before);
        let mut shown = said.sets_locked(f.lock == LEAVES_LOCKED);
        // a pending read is redisplayed as 18 does
        if f.lock == REDISPLAY_AFTER {
            if let Some(r) = shown.flow.pending {
                shown = shown.redisplays(terminal, r, text, t);
            }
        }
        shown
    }
}
