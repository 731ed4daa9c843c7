// The fourteen messages of the Network Command Terminal protocol: their fields, and decoding them.
#![tactic(auto)]

ghost use Rattle.std.specs.Prelude.{◌≡◌, true, length};
ghost use Rattle.rules.specs.Messages.Forms.{type_in};
ghost use Rattle.rules.specs.Messages.Codec as codec;
ghost use Rattle.message.specs.Found.{Finds, as_held, found_number};

use crate::sizes::fixed;
use fields::{Span, byte_at, word_at};
use rules::refusals::Refusal;
use rules::{bits, forms};

mod flags;
mod listed;
mod sizes;
mod spans;
mod start_read;
mod texts;

pub use crate::start_read::is_sound_start_read;

// Out-of-Band's CHARACTER, Write Completion's HORIZONTAL-POS and VERTICAL-POS, and Input Count's COUNT.
const CHARACTER: usize = 2;

const HORIZONTAL: usize = 2;

const VERTICAL: usize = 4;

const COUNT: usize = 2;

// The last completion code that 000 defines, and the last value of a Write's PP and QQ.
pub const LAST_COMPLETION_CODE: u8 = 13;

pub const LAST_FIX: u8 = 2;

// Fields are numbers: encoding takes any, and refuses those that are not defined.
#[derive(Clone, Copy)]
pub struct InitiateFields {
    pub version: u8,
    pub eco: u8,
    pub modification: u8,
    // eight bytes
    pub revision: Span,
    pub parameters: Span,
}

#[derive(Clone, Copy)]
pub struct StartReadFields {
    // FLAGS from bit 0: UU, C, F, V, K
    pub underflow: u8,
    pub clears_type_ahead: u8,
    pub formats: u8,
    pub vertical: u8,
    pub continues: u8,
    // II, DDD, N, T
    pub raises: u8,
    pub disables: u8,
    pub silent: u8,
    pub terminator_echo: u8,
    // Q, ZZ, EE
    pub timed: u8,
    pub set_choice: u8,
    pub escapes: u8,
    pub max_length: u16,
    pub end_of_data: u16,
    pub timeout: u16,
    pub end_of_prompt: u16,
    pub start_of_display: u16,
    pub low_water: u16,
    pub set: Span,
    pub text: Span,
}

#[derive(Clone, Copy)]
pub struct ReadDataFields {
    pub code: u8,
    pub more: u8,
    pub low_water: u16,
    pub vertical: u8,
    pub horizontal: u8,
    pub terminator: u16,
    pub text: Span,
}

#[derive(Clone, Copy)]
pub struct WriteFields {
    // FLAGS from bit 0: UU, L, D, B, E
    pub lock: u8,
    pub newline: u8,
    pub keeps_output: u8,
    pub first: u8,
    pub last: u8,
    // PP, QQ, S, T
    pub prefix: u8,
    pub postfix: u8,
    pub wants_completion: u8,
    pub transparent: u8,
    pub prefix_value: u8,
    pub postfix_value: u8,
    pub text: Span,
}

#[derive(Clone, Copy)]
pub enum Message {
    Initiate(InitiateFields),
    StartRead(StartReadFields),
    ReadData(ReadDataFields),
    OutOfBand {
        discard: u8,
        character: u8,
    },
    Unread {
        condition: u8,
    },
    ClearInput,
    Write(WriteFields),
    WriteCompletion {
        lost: u8,
        horizontal: u16,
        vertical: u16,
    },
    DiscardState {
        kept: u8,
    },
    ReadCharacteristics {
        parameters: Span,
    },
    Characteristics {
        parameters: Span,
    },
    CheckInput,
    InputCount {
        count: u16,
    },
    InputState {
        nonzero: u8,
    },
    // a message of another type, which can be held and is never written
    Other {
        kind: u8,
        body: Span,
    },
}

// Decodes a message without a line: 2, 3 or 5 in that order, else its fields, with spans that lie in the slice.
pub fn decode(s: &[u8]) -> Result<Message, Refusal>
    ensures { Finds s.now (as_held (codec.read s.now)) result }
{
    let size = s.len();
    let sized = (rules::SHORTEST_MESSAGE <= size) & (size <= rules::MESSAGE_SIZE);
    if !sized {
        return Err(Refusal::WrongLength);
    }
    decode_as(byte_at(s, forms::MSGTYPE), s)
}

// A message of this type: a number, since a slice may begin with any.
fn decode_as(kind: u8, s: &[u8]) -> Result<Message, Refusal>
    requires sized { codec.sound_length (length s.now) ≡ true }
    requires typed { kind ≡ type_in s.now }
    ensures { Finds s.now (as_held (codec.read s.now)) result }
{
    let flag = byte_at(s, forms::FLAGS) % bits::ONE_BIT;
    let count = word_at(s, COUNT);
    match kind {
        rules::INITIATE => listed::decode_initiate(s),
        rules::START_READ => start_read::decode_start_read(s),
        rules::READ_DATA => texts::decode_read_data(s),
        rules::OUT_OF_BAND => {
            let message = Message::OutOfBand {
                discard: flag,
                character: byte_at(s, CHARACTER),
            };
            fixed(forms::OUT_OF_BAND_HEADER, s, message)
        }
        rules::UNREAD => fixed(forms::BARE_HEADER, s, Message::Unread { condition: flag }),
        rules::CLEAR_INPUT => fixed(forms::BARE_HEADER, s, Message::ClearInput),
        rules::WRITE => texts::decode_write(s),
        rules::WRITE_COMPLETION => {
            let message = Message::WriteCompletion {
                lost: flag,
                horizontal: word_at(s, HORIZONTAL),
                vertical: word_at(s, VERTICAL),
            };
            fixed(forms::WRITE_COMPLETION_HEADER, s, message)
        }
        rules::DISCARD_STATE => fixed(forms::BARE_HEADER, s, Message::DiscardState { kept: flag }),
        rules::READ_CHARACTERISTICS => listed::decode_read_characteristics(s),
        rules::CHARACTERISTICS => listed::decode_characteristics(s),
        rules::CHECK_INPUT => fixed(forms::BARE_HEADER, s, Message::CheckInput),
        rules::INPUT_COUNT => fixed(forms::INPUT_COUNT_HEADER, s, Message::InputCount { count }),
        rules::INPUT_STATE => fixed(forms::BARE_HEADER, s, Message::InputState { nonzero: flag }),
        _ => Err(Refusal::WrongType),
    }
}

// The number of what was found; of a message it is 0.
pub fn found_number(f: Result<Message, Refusal>) -> u8
    ensures { result ≡ found_number f }
{
    match f {
        Ok(_) => rules::ACCEPTED,
        Err(refusal) => refusal.number(),
    }
}
