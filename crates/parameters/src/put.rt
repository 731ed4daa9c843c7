// A parameter into an area.
ghost use Rattle.std.specs.Prelude.{◌++◌};
ghost use Rattle.rules.specs.Messages.Layout.{word_bytes, bytes_of};
ghost use Rattle.areas.specs.Writes.{Writes};

use areas::Writer;

// One parameter of a Characteristics: its SELECTOR, and the bytes of its value.
pub fn put_setting(selector: u16, value: &[u8], w: &mut Writer)
    ensures { Writes (bytes_of word_bytes selector ++ value.now) w.old w.new }
{
    w.put_word(selector);
    w.put_bytes(value);
}
