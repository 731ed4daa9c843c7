// The numbers of page 01 and 000 for the crates above. First the sizes, as in specs/Numbers.antt.
#![tactic(auto)]

pub mod bits;
pub mod characters;
pub mod forms;
pub mod out_of_band;
pub mod refusals;
pub mod selectors;

pub const INPUT_SIZE: usize = 1024;

pub const TYPE_AHEAD_SIZE: usize = 64;

pub const TOKEN_SIZE: usize = 16;

pub const MESSAGE_SIZE: usize = 2048;

// bytes of the shortest message (specs/Messages/Codec.antt)
pub const SHORTEST_MESSAGE: usize = 1;

pub const TERMINAL_AREA: usize = 32768;

pub const MESSAGE_AREA: usize = 2048;

pub const MOVING_AREA: usize = 600;

// character codes, each with its attribute
pub const CODE_COUNT: usize = 256;

// the most bytes of a termination set (specs/Messages/Codec.antt)
pub const SET_SIZE: usize = 32;

pub const TOP_COLUMN: u16 = 999;

pub const TOP_DROPPED: u16 = 65535;

// The number of a call that is accepted, as in specs/Numbers.antt; of each refusal `refusals` has it.

pub const ACCEPTED: u8 = 0;

// MSGTYPE, as in specs/Messages/Forms.antt: numbers, since any byte may stand there, and a message may be held of any.

pub const INITIATE: u8 = 1;

pub const START_READ: u8 = 2;

pub const READ_DATA: u8 = 3;

pub const OUT_OF_BAND: u8 = 4;

pub const UNREAD: u8 = 5;

pub const CLEAR_INPUT: u8 = 6;

pub const WRITE: u8 = 7;

pub const WRITE_COMPLETION: u8 = 8;

pub const DISCARD_STATE: u8 = 9;

pub const READ_CHARACTERISTICS: u8 = 10;

pub const CHARACTERISTICS: u8 = 11;

pub const CHECK_INPUT: u8 = 12;

pub const INPUT_COUNT: u8 = 13;

pub const INPUT_STATE: u8 = 14;
