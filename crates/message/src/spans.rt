// Spans of the lent slice.
ghost use Rattle.std.specs.Prelude.{◌≡◌, ◌≤◌, length};
ghost use Rattle.rules.specs.Numbers.{message_size};
ghost use Rattle.fields.specs.Spans.{span_of};
ghost use Rattle.message.specs.Found.{RestFrom};

use fields::Span;

// What stands from a place on, up to the end.
pub(crate) fn rest_from(s: &[u8], at: u16) -> Span
    requires { length s.now ≤ message_size }
    ensures { RestFrom at s.now result }
{
    let size = s.len() as u16;
    Span {
        start: at,
        len: size.saturating_sub(at),
    }
}
