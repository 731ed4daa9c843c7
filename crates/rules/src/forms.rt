// How a message stands in bytes, as in specs/Messages/Forms.antt: where its type and its flags are, and how many bytes stand in
// front of its list or its text. Of a message that has neither these are all its bytes.

pub const MSGTYPE: usize = 0;

pub const FLAGS: usize = 1;

// MSGTYPE alone, and with FLAGS of one byte
pub const TYPE_HEADER: u16 = 1;

pub const BARE_HEADER: u16 = 2;

pub const INITIATE_HEADER: u16 = 13;

// with the count of its termination set
pub const START_READ_HEADER: u16 = 17;

pub const READ_DATA_HEADER: u16 = 8;

pub const OUT_OF_BAND_HEADER: u16 = 3;

pub const WRITE_HEADER: u16 = 5;

pub const WRITE_COMPLETION_HEADER: u16 = 6;

pub const INPUT_COUNT_HEADER: u16 = 4;

// Initiate's REVISION
pub const REVISION_SIZE: u16 = 8;

// bytes of FLAGS, of most messages, of a Start Read and of a Write, and of a byte and a word
pub const FLAG_BYTES: u8 = 1;

pub const START_READ_FLAG_BYTES: u8 = 3;

pub const WRITE_FLAG_BYTES: u8 = 2;

pub const BYTE: u8 = 1;

pub const WORD_BYTES: u8 = 2;

// how many values a byte has, as in specs/Messages/Layout.antt
pub const BYTE_VALUES: u32 = 256;

// FLAGS of one byte in which no flag is set
pub const NO_FLAGS: u8 = 0;
