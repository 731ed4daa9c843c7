// Each message but Start Read, up to its parameter list.
ghost use Rattle.std.specs.Prelude.{◌≡◌, ℕ, List, replicate};
ghost use Rattle.rules.specs.Messages.Layout.{byte, number_of, write_groups};
ghost use Rattle.rules.specs.Messages.Forms.{revision_size, write_widths};
ghost use Rattle.message.specs.declared.Message.TheVariants as variants;
ghost use Rattle.fields.specs.Spans.{span_of};
ghost use Rattle.message.specs.Found.{held_in};
ghost use Rattle.areas.specs.Writes.{Writes};
ghost use Rattle.fronts.specs.Front.{front_bytes, write_flags};

use crate::flags::packed;
use crate::put::put_span;
use areas::Writer;
use fields::Span;
use message::{InitiateFields, ReadDataFields, WriteFields};
use rules::{bits, forms};

// Bytes of Initiate's REVISION.
const REVISION_SIZE: usize = forms::REVISION_SIZE as usize;

// REVISION out of a span; 0 for each byte that it does not have.
fn put_revision(s: &[u8], p: Span, w: &mut Writer)
    ensures { Writes (write_groups (replicate revision_size byte) (span_of s.now p)) w.old w.new }
{
    let t = fields::span_of(s, p);
    // by place: past the end of a slice stands 0
    for i in 0..REVISION_SIZE {
        w.put_byte(fields::byte_at(t, i));
    }
}

pub(crate) fn put_initiate(f: InitiateFields, s: &[u8], w: &mut Writer)
    ensures { Writes (front_bytes (held_in s.now (variants.Initiate f))) w.old w.new }
{
    w.put_pair(rules::INITIATE, forms::NO_FLAGS);
    w.put_pair(f.version, f.eco);
    w.put_byte(f.modification);
    put_revision(s, f.revision, w);
}

pub(crate) fn put_read_data(f: ReadDataFields, s: &[u8], w: &mut Writer)
    ensures { Writes (front_bytes (held_in s.now (variants.ReadData f))) w.old w.new }
{
    let flags = packed(&[(f.code, bits::FOUR_BITS), (f.more, bits::ONE_BIT)]);
    w.put_byte(rules::READ_DATA);
    w.put_number(forms::FLAG_BYTES, flags);
    w.put_word(f.low_water);
    w.put_pair(f.vertical, f.horizontal);
    w.put_word(f.terminator);
    put_span(s, f.text, w);
}

pub(crate) fn put_out_of_band(discard: u8, character: u8, w: &mut Writer)
    ensures { (s : List ℕ) → Writes (front_bytes (held_in s (variants.OutOfBand discard character))) w.old w.new }
{
    w.put_byte(rules::OUT_OF_BAND);
    w.put_pair(discard, character);
}

fn write_flags(f: WriteFields) -> u32
    ensures { result ≡ number_of write_widths (write_flags f) }
{
    packed(&[
        (f.lock, bits::TWO_BITS),
        (f.newline, bits::ONE_BIT),
        (f.keeps_output, bits::ONE_BIT),
        (f.first, bits::ONE_BIT),
        (f.last, bits::ONE_BIT),
        (f.prefix, bits::TWO_BITS),
        (f.postfix, bits::TWO_BITS),
        (f.wants_completion, bits::ONE_BIT),
        (f.transparent, bits::ONE_BIT),
    ])
}

pub(crate) fn put_write(f: WriteFields, s: &[u8], w: &mut Writer)
    ensures { Writes (front_bytes (held_in s.now (variants.Write f))) w.old w.new }
{
    w.put_byte(rules::WRITE);
    w.put_number(forms::WRITE_FLAG_BYTES, write_flags(f));
    w.put_pair(f.prefix_value, f.postfix_value);
    put_span(s, f.text, w);
}

pub(crate) fn put_write_completion(lost: u8, horizontal: u16, vertical: u16, w: &mut Writer)
    ensures { (s : List ℕ) →
        Writes (front_bytes (held_in s (variants.WriteCompletion lost horizontal vertical))) w.old w.new }
{
    w.put_pair(rules::WRITE_COMPLETION, lost);
    w.put_word(horizontal);
    w.put_word(vertical);
}

pub(crate) fn put_input_count(count: u16, w: &mut Writer)
    ensures { (s : List ℕ) → Writes (front_bytes (held_in s (variants.InputCount count))) w.old w.new }
{
    w.put_pair(rules::INPUT_COUNT, forms::NO_FLAGS);
    w.put_word(count);
}
