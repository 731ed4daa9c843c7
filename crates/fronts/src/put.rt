// The bytes of a span of a slice into an area.
ghost use Rattle.fields.specs.Spans.{span_of};
ghost use Rattle.areas.specs.Writes.{Writes};

use areas::Writer;
use fields::Span;

pub(crate) fn put_span(s: &[u8], p: Span, w: &mut Writer)
    ensures { Writes (span_of s.now p) w.old w.new }
{
    w.put_bytes(fields::span_of(s, p));
}
