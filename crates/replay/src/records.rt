// A settings record as its bytes come: digits, or '-' for a record of no bytes.
use crate::hex::{HALF_BYTE, value_of};

// Bytes for which there is room: no sound record has so many, so of a longer one it is enough to keep the front.
const ROOM: u16 = rules::MOVING_AREA as u16 + 1;

const DIGITS_A_BYTE: u16 = 2;

const MOST_DIGITS: u16 = DIGITS_A_BYTE * ROOM;

#[derive(Clone, Copy)]
pub enum Record {
    // so many digits
    Digits(u16),
    Dash,
}

// A byte begins anew with the first of its two digits.
fn byte_with(begun: u8, count: u16, value: u8) -> u8 {
    if count % DIGITS_A_BYTE == 0 {
        return value << HALF_BYTE;
    }
    begun | value
}

// The count of digits with one more. Bytes are kept from a place on; past the room it only counts whether the digits are even.
fn with_digit(count: u16, value: u8, from: u16, kept: &mut [u8]) -> u16 {
    if MOST_DIGITS < count {
        return MOST_DIGITS;
    }
    let at = usize::from(from) + usize::from(count / DIGITS_A_BYTE);
    if let Some(byte) = kept.get_mut(at) {
        *byte = byte_with(*byte, count, value);
    }
    count + 1
}

impl Record {
    pub(crate) fn begun() -> Record {
        Record::Digits(0)
    }

    // With one more byte of its text; None if that is no record's.
    pub(crate) fn with(self, byte: u8, from: u16, kept: &mut [u8]) -> Option<Record> {
        match self {
            Record::Digits(0) if byte == b'-' => Some(Record::Dash),
            Record::Digits(count) => {
                let value = value_of(byte)?;
                Some(Record::Digits(with_digit(count, value, from, kept)))
            }
            Record::Dash => None,
        }
    }

    // The count of its bytes, if it is a whole record.
    pub(crate) fn length(self) -> Option<u16> {
        match self {
            Record::Digits(0) => None,
            Record::Digits(count) => {
                (count % DIGITS_A_BYTE == 0).then_some(count / DIGITS_A_BYTE)
            }
            Record::Dash => Some(0),
        }
    }
}
