// One line of the console end: its state by value, and the four calls on it.
#![tactic(auto)]

ghost use Rattle.line.specs.Bounded.{CountedFlow};

use characteristics::Switches;
use screen::Screen;
use sets::Set;

mod acts;
mod arrival;
mod calls;
mod changes;
mod choices;
mod editing;
mod events;
mod host;
mod initiate;
mod input;
mod keys;
mod read_data;
mod refusals;
mod sending;
mod settings;
mod shows;
mod start_read;
mod steps;
mod taking;
mod tokens;
mod waiting;
mod write;

// What is known of the terminal. `dropped` stands before the flags because the flow is then copied faster.
#[derive(Clone, Copy, Default)]
pub struct Terminal {
    pub screen: Screen,
    pub dropped: u16,
    pub discarding: bool,
    pub quoting: bool,
    // a Write locked the line: a step does nothing
    pub locked: bool,
    // the skip-linefeed mark: of the next own bytes of a Write a first LF is left out
    pub skip_linefeed: bool,
}

// Typed and not yet in a read: how many keys wait, and a partial or held token. The counts are bytes, so that the flow has 40.
#[derive(Clone, Copy, Default)]
pub struct Typed {
    pub keys_len: u8,
    pub token: [u8; rules::TOKEN_SIZE],
    pub token_len: u8,
}

// What is fixed for the whole of a read. Any line can be asked for its dropped count, so no field may exclude a value: UU and DDD
// stand as numbers, and Q beside TIMEOUT.
#[derive(Clone, Copy, Default)]
pub struct Terms {
    pub underflow: u8,
    pub disables: u8,
    pub raises: bool,
    pub recognises: bool,
    pub echoes: bool,
    pub terminator_echo: bool,
    // code 1 is to be written before the prompt: kept here because the rule that writes it is not lent the switches
    pub auto_prompt: bool,
    pub timed: bool,
    pub timeout: u16,
    pub max_length: u16,
    pub end_of_prompt: u16,
    // of the prompt as it is displayed
    pub prompt_len: u16,
    // the note of column and line
    pub column: u16,
    pub line: u8,
}

// How a read goes on. `idle`, which every key sets, stands before what is copied in one piece.
#[derive(Clone, Copy, Default)]
pub struct Reading {
    pub idle: u16,
    // of what stands after its prompt
    pub input_len: u16,
    pub low_water: u16,
    // the column where the data's display last began
    pub display_column: u16,
    // the first character is the LF that F hides
    pub hidden_lf: bool,
}

// What the rules change besides the arrays. The order of fields was timed before the read was an Option (docs/PERFORMANCE.md).
#[derive(Clone, Copy, Default)]
pub struct Flow {
    pub pending: Option<Reading>,
    pub typed: Typed,
    pub terminal: Terminal,
}

const _: () = prove!(std::mem::size_of::<Flow>() == 40);

// A key as it was typed; quoted, it is data whatever its code.
#[derive(Clone, Copy, Debug, PartialEq, Eq, Default)]
pub struct Key {
    pub code: u8,
    pub quoted: bool,
}

// The line between calls: arrays with their counts, since it has no heap. What lies behind a count is left over.
#[derive(Clone, Copy)]
pub struct Line {
    pub attributes: [u8; rules::CODE_COUNT],
    // keys that wait
    pub keys: [Key; rules::TYPE_AHEAD_SIZE],
    // what stands after the read's prompt, from the front; the prompt as it is displayed, at the end
    pub text: [u8; rules::INPUT_SIZE],
    // the read's termination set, and the last given with ZZ 1 or loaded
    pub set: Set,
    pub last_set: Set,
    // the largest MAX-LENGTH that a Start Read may have
    pub largest_read: u16,
    // Initiate was accepted
    pub initiated: bool,
    pub switches: Switches,
    pub terms: Terms,
    pub flow: Flow,
}

// A call's answer: the next line, the number of page 01's table (0 is done), and the bytes written to the front of each area. A number,
// since callers and what is proved of whole runs hold it against the table.
#[derive(Clone, Copy)]
pub struct Answer {
    pub line: Line,
    pub number: u8,
    pub terminal: usize,
    pub messages: usize,
}

// A call on its way: what the rules change, and the next place in each area. Text and terms are lent to its methods side by side:
// a struct of both would want a twin, since some methods change the text and others only read it.
#[derive(Clone, Copy)]
struct Work {
    flow: Flow,
    at: usize,
    sent: usize,
    ghost counted: { CountedFlow flow },
}
