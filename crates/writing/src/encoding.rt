// Writing a message to the front of an area: 1, 2, 3 or 5 with the area untouched, else its bytes.
ghost use Rattle.std.specs.Prelude.{◌≡◌, length};
ghost use Rattle.rules.specs.Messages.Codec.{defined_kind};
ghost use Rattle.rules.specs.Refusals.{answered};
ghost use Rattle.areas.specs.InFront.{InFront};
ghost use Rattle.writing.specs.Writing.{first_refusal, writing, copied};

use crate::fits::fits_message;
use crate::lists::put_list;
use crate::spans::Spans;
use areas::Writer;
use fronts::put_message;
use message::Message;
use rules::refusals::Refusal;

fn is_known(kind: u8) -> bool
    ensures { result ≡ defined_kind kind }
{
    (rules::INITIATE..=rules::INPUT_STATE).contains(&kind)
}

// The first refusal that applies; `passes` is the last test.
fn may_write(room: usize, size: u32, kind: u8, passes: bool) -> Result<(), Refusal>
    ensures { answered result ≡ first_refusal room size kind passes }
{
    if room < rules::MESSAGE_AREA {
        return Err(Refusal::SmallArea);
    }
    if rules::MESSAGE_SIZE < size as usize {
        return Err(Refusal::WrongLength);
    }
    if !is_known(kind) {
        return Err(Refusal::WrongType);
    }
    if !passes {
        return Err(Refusal::Unsound);
    }
    Ok(())
}

// The length is judged by the spans' own lengths, before a span that lies outside the slice is refused.
pub fn encode(m: Message, s: &[u8], area: &mut [u8]) -> Result<usize, Refusal>
    ensures { InFront (writing (length area.old) s.now m) area.old result area.new }
{
    let p = Spans::of(m);
    let lies = p.lie_in(s.len());
    let fits = fits_message(m, s);
    may_write(area.len(), p.size(), p.kind, lies & fits)?;
    let mut w = Writer { area, at: 0 };
    put_message(m, s, &mut w);
    put_list(p.kind, p.list, s, &mut w);
    Ok(w.at)
}

// Decodes a message and encodes it again. What was found is taken apart by let-else (docs/DECISIONS.md, language forms).
pub fn copy(s: &[u8], area: &mut [u8]) -> Result<usize, Refusal>
    ensures { InFront (copied (length area.old) s.now) area.old result area.new }
{
    let found = message::decode(s);
    let Ok(m) = found else {
        return Err(found.unwrap_err());
    };
    encode(m, s, area)
}
