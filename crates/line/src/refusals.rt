// The table of refusals: row 1 for a call that is lent areas, the others for a host message.
ghost use Rattle.std.specs.Prelude.{ℕ, ◌≡◌, List, true};
ghost use Rattle.rules.specs.Messages.Forms as forms;
ghost use Rattle.rules.specs.Messages.Codec as codec;
ghost use Rattle.rules.specs.Messages.Codec.{sound_length, defined_fields};
ghost use Rattle.rules.specs.State.{State};
ghost use Rattle.rules.specs.Calls as rules;
ghost use Rattle.rules.specs.Calls.{are_roomy, is_hosts, is_pending};
ghost use Rattle.rules.specs.Refusals.{number_of, answered};
ghost use Rattle.message.specs.Found.{start_read_in, write_in, held_in};
ghost use Rattle.line.specs.View.{view};
ghost use Rattle.line.specs.Bounded.{Counted};
ghost use Rattle.line.specs.Host.{message_of};
ghost use Rattle.line.specs.Answers.{refusal};
ghost use Rattle.line.specs.Refusals.{row, row_of, early_row, late_row};

use crate::events::HostMessage;
use crate::{Answer, Line};
use message::{StartReadFields, WriteFields};
use rules::refusals::Refusal;

// Both areas are large enough.
pub(crate) fn are_roomy(terminal: usize, messages: usize) -> bool
    ensures { result ≡ are_roomy terminal messages }
{
    (rules::TERMINAL_AREA <= terminal) & (rules::MESSAGE_AREA <= messages)
}

// The number of row 1, or 0 where it does not apply: an answer holds a number.
pub(crate) fn row_of(roomy: bool) -> u8
    ensures { result ≡ row_of roomy }
{
    if roomy {
        rules::ACCEPTED
    } else {
        Refusal::SmallArea.number()
    }
}

// A row of the table, which applies where its test is not passed.
fn row(refused: Refusal, passed: bool) -> Result<(), Refusal>
    ensures { answered result ≡ row (number_of refused) passed }
{
    if passed { Ok(()) } else { Err(refused) }
}

// A message has a length that can be.
fn is_sound_length(size: usize) -> bool
    ensures { result ≡ sound_length size }
{
    (rules::SHORTEST_MESSAGE <= size) & (size <= rules::MESSAGE_SIZE)
}

// A type that a host sends. A match over the kinds is no plainer: its last arm is reached in four ways, whose facts have no name.
fn is_hosts(kind: u8) -> bool
    ensures { result ≡ is_hosts kind }
{
    let servers = (kind == rules::READ_DATA)
        | (kind == rules::OUT_OF_BAND)
        | (kind == rules::WRITE_COMPLETION)
        | (kind == rules::DISCARD_STATE)
        | (kind == rules::INPUT_COUNT)
        | (kind == rules::INPUT_STATE);
    (rules::INITIATE <= kind) & (kind <= rules::INPUT_STATE) & !servers
}

// Neither K nor V, and a display that starts at 0.
fn carries_start_read(f: StartReadFields) -> bool
    ensures { (s : List ℕ) → result ≡ rules.carries_start_read (start_read_in s f) }
{
    (f.start_of_display == 0) & (f.continues == fields::OFF) & (f.vertical == fields::OFF)
}

// No transparent output.
fn carries_write(f: WriteFields) -> bool
    ensures { (s : List ℕ) → result ≡ rules.carries_write (write_in s f) }
{
    f.transparent == fields::OFF
}

// First Initiate, and only once; Start Read with no read pending.
fn is_timely(kind: u8, initiated: bool, pending: bool) -> bool
    ensures { (s : State ℕ) → initiated ≡ s.host.initiated → pending ≡ is_pending s.pending_read → result ≡ rules.is_timely kind s }
{
    if initiated {
        return (kind != rules::INITIATE) & !((kind == rules::START_READ) & pending);
    }
    kind == rules::INITIATE
}

impl Line {
    // A refusal writes nothing and hands the line back as it was.
    pub(crate) fn refuse(self, refused: Refusal) -> Answer
        ensures { result ≡ refusal (number_of refused) self }
    {
        self.refuse_with(refused.number())
    }

    // The same, by its number.
    pub(crate) fn refuse_with(self, number: u8) -> Answer
        ensures { result ≡ refusal number self }
    {
        Answer {
            line: self,
            number,
            terminal: 0,
            messages: 0,
        }
    }

    // The row that applies before the message is read.
    pub(crate) fn early_row(self, s: &[u8], terminal: usize, messages: usize) -> Result<(), Refusal>
        ensures { answered result ≡ early_row terminal messages s.now (view self) }
    {
        row(Refusal::SmallArea, are_roomy(terminal, messages))?;
        row(Refusal::WrongLength, is_sound_length(s.len()))?;
        let kind = fields::byte_at(s, rules::forms::MSGTYPE);
        row(Refusal::WrongType, is_hosts(kind))?;
        let pending = self.flow.pending.is_some();
        row(Refusal::WrongTime, is_timely(kind, self.initiated, pending))
    }

    // A Start Read that was read asks for no more than this line's largest read.
    fn passes_test(self, m: HostMessage) -> bool
        ensures { (s : List ℕ) (x : forms.Message ℕ) → held_in s (message_of m) ≡ codec.message x → defined_fields x ≡ true →
            result ≡ rules.passes_test (view self) x }
    {
        match m {
            HostMessage::StartRead(f) => f.max_length <= self.largest_read,
            _ => true,
        }
    }

    // Row 6 does not apply.
    fn carries(self, m: HostMessage, s: &[u8]) -> bool
        requires { Counted self }
        ensures { (x : forms.Message ℕ) → held_in s.now (message_of m) ≡ codec.message x → result ≡ rules.is_carried_by (view self) x }
    {
        match m {
            HostMessage::StartRead(f) => carries_start_read(f),
            HostMessage::Write(f) => carries_write(f),
            HostMessage::ReadCharacteristics(parameters) => {
                let host = self.host_in();
                let list = fields::span_of(s, parameters);
                host.carries_questions(list)
            }
            HostMessage::Characteristics(parameters) => {
                let host = self.host_in();
                let list = fields::span_of(s, parameters);
                host.carries_settings(list)
            }
            _ => true,
        }
    }

    // The row that applies to a message that was read.
    pub(crate) fn late_row(self, m: HostMessage, s: &[u8]) -> Result<(), Refusal>
        requires { Counted self }
        ensures { (x : forms.Message ℕ) → held_in s.now (message_of m) ≡ codec.message x → defined_fields x ≡ true →
            answered result ≡ late_row (view self) x }
    {
        row(Refusal::Unsound, self.passes_test(m))?;
        row(Refusal::NotCarried, self.carries(m, s))
    }
}
