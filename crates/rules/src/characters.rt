// Character codes, as in specs/Screen.antt and specs/Token.antt.

pub const SOH: u8 = 1;

pub const BEL: u8 = 7;

pub const BS: u8 = 8;

pub const HT: u8 = 9;

pub const LF: u8 = 10;

pub const CR: u8 = 13;

pub const ESC: u8 = 27;

// the last of the controls below the marks
pub const LAST_CONTROL: u8 = 31;

pub const SP: u8 = 32;

pub const SEMICOLON: u8 = b';';

pub const QUESTION: u8 = b'?';

pub const LETTER_O: u8 = b'O';

pub const BRACKET: u8 = b'[';

pub const CARET: u8 = b'^';

pub const DEL: u8 = 127;

pub const CSI: u8 = 155;
