// Parameter lists into an area.
ghost use Rattle.std.specs.Prelude.{◌≡◌, true};
ghost use Rattle.rules.specs.Choice.{joined};
ghost use Rattle.rules.specs.Messages.Forms.{characteristics};
ghost use Rattle.fields.specs.Spans.{span_of};
ghost use Rattle.parameters.specs.Lists.{sound_from, parameters_from};
ghost use Rattle.areas.specs.Writes.{Writes};
ghost use Rattle.writing.specs.Spans.{list_bytes};

use areas::Writer;
use fields::Span;
use parameters::{Parameters, put_setting};

// The parameters of a Characteristics, unused bits set to 0.
fn put_settings(t: &[u8], w: &mut Writer)
    requires { sound_from characteristics 0 t.now ≡ true }
    ensures { Writes (joined (parameters_from characteristics 0 t.now)) w.old w.new }
{
    // how many bytes a value has is known only from where its parameter begins
    let mut at = 0;
    for p in Parameters::new(rules::CHARACTERISTICS, t) {
        let value = [p.first, p.second, p.third];
        let count = p.next - at - parameters::HEAD;
        put_setting(p.selector, &value[..count], w);
        at = p.next;
    }
}

// The list of a message; in the others every bit is used.
pub(crate) fn put_list(kind: u8, list: Span, s: &[u8], w: &mut Writer)
    requires { kind ≡ characteristics → sound_from characteristics 0 (span_of s.now list) ≡ true }
    ensures { Writes (list_bytes kind (span_of s.now list)) w.old w.new }
{
    let t = fields::span_of(s, list);
    if kind == rules::CHARACTERISTICS {
        return put_settings(t, w);
    }
    w.put_bytes(t);
}
