// Start Read: its fields and its test.
ghost use Rattle.std.specs.Prelude.{◌≡◌, ℕ, List, length};
ghost use Rattle.rules.specs.Numbers.{input_size};
ghost use Rattle.rules.specs.StartRead.{sound_start_read};
ghost use Rattle.rules.specs.Messages.Forms as forms;
ghost use Rattle.fields.specs.Spans.{span_of};
ghost use Rattle.message.specs.Found.{IsType, StartReadIs, start_read_in, Finds, decoded_as};

use crate::flags::Flags;
use crate::spans::rest_from;
use crate::{Message, StartReadFields, sizes};
use fields::{Span, byte_at, three_at, word_at};
use rules::refusals::Refusal;
use rules::{bits, forms};

// Where the fields behind FLAGS stand; behind SET_COUNT begins the termination set.
const MAX_LENGTH: usize = 4;

const END_OF_DATA: usize = 6;

const TIMEOUT: usize = 8;

const END_OF_PROMPT: usize = 10;

const START_OF_DISPLAY: usize = 12;

const LOW_WATER: usize = 14;

const SET_COUNT: usize = 16;

// The last value of UU, of II and EE, of ZZ, and of DDD.
const LAST_UNDERFLOW: u8 = 2;

const LAST_SWITCH: u8 = 2;

const LAST_SET_CHOICE: u8 = 2;

const LAST_DISABLE: u8 = 3;

fn start_read_fields(s: &[u8]) -> StartReadFields
    requires { IsType forms.start_read s.now }
    ensures { StartReadIs s.now result }
{
    let count = byte_at(s, SET_COUNT) as u16;
    let set = Span {
        start: forms::START_READ_HEADER,
        len: count,
    };
    let mut flags = Flags {
        rest: three_at(s, forms::FLAGS),
    };
    StartReadFields {
        underflow: flags.take(bits::TWO_BITS),
        clears_type_ahead: flags.take(bits::ONE_BIT),
        formats: flags.take(bits::ONE_BIT),
        vertical: flags.take(bits::ONE_BIT),
        continues: flags.take(bits::ONE_BIT),
        raises: flags.take(bits::TWO_BITS),
        disables: flags.take(bits::THREE_BITS),
        silent: flags.take(bits::ONE_BIT),
        terminator_echo: flags.take(bits::ONE_BIT),
        timed: flags.take(bits::ONE_BIT),
        set_choice: flags.take(bits::TWO_BITS),
        escapes: flags.take(bits::TWO_BITS),
        max_length: word_at(s, MAX_LENGTH),
        end_of_data: word_at(s, END_OF_DATA),
        timeout: word_at(s, TIMEOUT),
        end_of_prompt: word_at(s, END_OF_PROMPT),
        start_of_display: word_at(s, START_OF_DISPLAY),
        low_water: word_at(s, LOW_WATER),
        set,
        text: rest_from(s, forms::START_READ_HEADER + count),
    }
}

pub fn is_sound_start_read(f: StartReadFields) -> bool
    ensures { (s : List ℕ) → length (span_of s f.text) ≡ f.text.len → result ≡ sound_start_read input_size (start_read_in s f) }
{
    let largest = f.max_length as usize;
    let shown = f.end_of_data.saturating_sub(f.start_of_display);
    (f.underflow <= LAST_UNDERFLOW)
        & (f.raises <= LAST_SWITCH)
        & (f.set_choice <= LAST_SET_CHOICE)
        & (f.escapes <= LAST_SWITCH)
        & (f.disables <= LAST_DISABLE)
        & (f.end_of_prompt <= f.end_of_data)
        & (f.low_water <= f.end_of_data)
        & (f.start_of_display <= f.end_of_data)
        & (f.end_of_data <= f.max_length)
        & (f.text.len == shown)
        & (largest <= rules::INPUT_SIZE)
}

pub(crate) fn decode_start_read(s: &[u8]) -> Result<Message, Refusal>
    requires { IsType forms.start_read s.now }
    ensures { Finds s.now (decoded_as forms.start_read s.now) result }
{
    let count = byte_at(s, SET_COUNT);
    sizes::at_least(forms::START_READ_HEADER + count as u16, s)?;
    let f = start_read_fields(s);
    if (count as usize <= rules::SET_SIZE) & is_sound_start_read(f) {
        return Ok(Message::StartRead(f));
    }
    Err(Refusal::Unsound)
}
