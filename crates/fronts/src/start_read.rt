// Start Read.
ghost use Rattle.std.specs.Prelude.{◌≡◌};
ghost use Rattle.rules.specs.Messages.Layout.{number_of};
ghost use Rattle.rules.specs.Messages.Forms.{start_read_widths};
ghost use Rattle.message.specs.declared.Message.TheVariants as variants;
ghost use Rattle.message.specs.Found.{held_in, flags_of};
ghost use Rattle.areas.specs.Writes.{Writes};
ghost use Rattle.fronts.specs.Front.{front_bytes, start_read_words};

use crate::flags::packed;
use crate::put::put_span;
use areas::Writer;
use message::StartReadFields;
use rules::{bits, forms};

// How many values a byte has, in the type of a length.
const BYTE_VALUES: usize = forms::BYTE_VALUES as usize;

fn start_read_flags(f: StartReadFields) -> u32
    ensures { result ≡ number_of start_read_widths (flags_of f) }
{
    packed(&[
        (f.underflow, bits::TWO_BITS),
        (f.clears_type_ahead, bits::ONE_BIT),
        (f.formats, bits::ONE_BIT),
        (f.vertical, bits::ONE_BIT),
        (f.continues, bits::ONE_BIT),
        (f.raises, bits::TWO_BITS),
        (f.disables, bits::THREE_BITS),
        (f.silent, bits::ONE_BIT),
        (f.terminator_echo, bits::ONE_BIT),
        (f.timed, bits::ONE_BIT),
        (f.set_choice, bits::TWO_BITS),
        (f.escapes, bits::TWO_BITS),
    ])
}

// The words of the head.
fn put_words(f: StartReadFields, w: &mut Writer)
    ensures { Writes (start_read_words f) w.old w.new }
{
    w.put_word(f.max_length);
    w.put_word(f.end_of_data);
    w.put_word(f.timeout);
    w.put_word(f.end_of_prompt);
    w.put_word(f.start_of_display);
    w.put_word(f.low_water);
}

pub(crate) fn put_start_read(f: StartReadFields, s: &[u8], w: &mut Writer)
    ensures { Writes (front_bytes (held_in s.now (variants.StartRead f))) w.old w.new }
{
    let set = fields::span_of(s, f.set);
    w.put_byte(rules::START_READ);
    w.put_number(forms::START_READ_FLAG_BYTES, start_read_flags(f));
    put_words(f, w);
    w.put_byte((set.len() % BYTE_VALUES) as u8);
    w.put_bytes(set);
    put_span(s, f.text, w);
}
