// SELECTOR of each characteristic that is named here (000, 4.17.2), and the first and the last that are defined.
pub const FIRST: u16 = 0x0201;

pub const CHARACTER_ATTRIBUTES: u16 = 0x0202;

pub const RAISE_INPUT: u16 = 0x0204;

pub const NORMAL_ECHO: u16 = 0x0205;

pub const ESCAPE_RECOGNITION: u16 = 0x0206;

pub const INPUT_COUNT_STATE: u16 = 0x0208;

pub const AUTO_PROMPT: u16 = 0x0209;

pub const ERROR_PROCESSING: u16 = 0x020A;

pub const LAST: u16 = ERROR_PROCESSING;
