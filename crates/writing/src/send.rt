// Messages for a line that sends them: each behind its length, into an area.
ghost use Rattle.writing.specs.Framed.{Frames};

use crate::spans::Spans;
use areas::Writer;
use fronts::put_message;
use message::Message;
use rules::forms;

// A message behind its length in two bytes: whole, or the front of one whose parameter list the caller puts.
pub fn put_framed(m: Message, s: &[u8], w: &mut Writer)
    ensures { Frames s.now m w.old w.new }
{
    let size = Spans::of(m).size();
    w.put_number(forms::WORD_BYTES, size);
    put_message(m, s, w);
}
