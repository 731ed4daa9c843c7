// A message's bytes up to its parameter list, put into an area.
#![tactic(auto)]

ghost use Rattle.message.specs.Found.{held_in};
ghost use Rattle.areas.specs.Writes.{Writes};
ghost use Rattle.fronts.specs.Front.{front_bytes};

use crate::heads::{
    put_initiate, put_input_count, put_out_of_band, put_read_data, put_write, put_write_completion,
};
use crate::start_read::put_start_read;
use areas::Writer;
use message::Message;
use rules::forms;

mod flags;
mod heads;
mod put;
mod start_read;

// Whatever its fields hold; nothing of a type that is not known.
pub fn put_message(m: Message, s: &[u8], w: &mut Writer)
    ensures { Writes (front_bytes (held_in s.now m)) w.old w.new }
{
    match m {
        Message::Initiate(f) => put_initiate(f, s, w),
        Message::StartRead(f) => put_start_read(f, s, w),
        Message::ReadData(f) => put_read_data(f, s, w),
        Message::OutOfBand { discard, character } => put_out_of_band(discard, character, w),
        Message::Unread { condition } => w.put_pair(rules::UNREAD, condition),
        Message::ClearInput => w.put_pair(rules::CLEAR_INPUT, forms::NO_FLAGS),
        Message::Write(f) => put_write(f, s, w),
        Message::WriteCompletion {
            lost,
            horizontal,
            vertical,
        } => put_write_completion(lost, horizontal, vertical, w),
        Message::DiscardState { kept } => w.put_pair(rules::DISCARD_STATE, kept),
        Message::ReadCharacteristics { .. } => {
            w.put_pair(rules::READ_CHARACTERISTICS, forms::NO_FLAGS)
        }
        Message::Characteristics { .. } => { w.put_pair(rules::CHARACTERISTICS, forms::NO_FLAGS) }
        Message::CheckInput => w.put_pair(rules::CHECK_INPUT, forms::NO_FLAGS),
        Message::InputCount { count } => put_input_count(count, w),
        Message::InputState { nonzero } => w.put_pair(rules::INPUT_STATE, nonzero),
        Message::Other { .. } => {}
    }
}
