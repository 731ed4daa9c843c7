// Fields of a message: numbers in a slice, low byte first, spans of it, and flags as numbers. All are total: past the end of a
// slice stands 0, and a span stops there.
#![tactic(auto)]

ghost use Rattle.std.specs.Prelude.{◌≡◌, drop};
ghost use Rattle.rules.specs.Choice.{bit};
ghost use Rattle.fields.specs.Spans.{span_of};
ghost use Rattle.rules.specs.Messages.Layout.{word_bytes, byte_at, number_at};

// A span of the lent slice: where it starts, and how long it is.
#[derive(Clone, Copy, Debug, Default, PartialEq, Eq)]
pub struct Span {
    pub start: u16,
    pub len: u16,
}

pub fn byte_at(s: &[u8], at: usize) -> u8
    ensures { result ≡ byte_at s.now at }
{
    s.get(at).copied().unwrap_or(0)
}

// What stands from a place on.
fn rest_from(s: &[u8], at: usize) -> &[u8]
    ensures { result.now ≡ drop at s.now }
{
    &s[s.len().min(at)..]
}

// Two bytes, low byte first.
pub fn word_at(s: &[u8], at: usize) -> u16
    ensures { result ≡ number_at word_bytes at s.now }
{
    let rest = rest_from(s, at);
    u16::from_le_bytes([byte_at(rest, 0), byte_at(rest, 1)])
}

// Three bytes, low byte first.
pub fn three_at(s: &[u8], at: usize) -> u32
    ensures { result ≡ number_at 3 at s.now }
{
    let rest = rest_from(s, at);
    u32::from_le_bytes([byte_at(rest, 0), byte_at(rest, 1), byte_at(rest, 2), 0])
}

// A flag as a number.
pub const OFF: u8 = 0;

pub const ON: u8 = 1;

// What `u8::from` gives, in the words of the rules; two edits hold it to them.
pub fn bit_of(test: bool) -> u8
    ensures { result ≡ bit test }
{
    u8::from(test)
}

// The bytes of a span; what would lie past the end is left out.
pub fn span_of(s: &[u8], p: Span) -> &[u8]
    ensures { result.now ≡ span_of s.now p }
{
    let start = p.start as usize;
    let end = start + p.len as usize;
    &s[s.len().min(start)..s.len().min(end)]
}
