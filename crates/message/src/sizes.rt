// How many bytes a message has.
ghost use Rattle.std.specs.Prelude.{◌≤◌, ◌↔◌, length, IsOk, IsOkUnless};
ghost use Rattle.rules.specs.declared.refusals.Refusal.TheVariants.{Unsound};
ghost use Rattle.rules.specs.Messages.Forms.{type_in};
ghost use Rattle.message.specs.Found.{IsFixed, Finds, decoded_as};

use crate::Message;
use rules::refusals::Refusal;

// So many bytes, or more.
pub(crate) fn at_least(size: u16, s: &[u8]) -> Result<(), Refusal>
    ensures ok { IsOk result ↔ (size ≤ length s.now) }
    ensures unsound { IsOkUnless result Unsound }
{
    if s.len() < size as usize {
        return Err(Refusal::Unsound);
    }
    Ok(())
}

// A message of a fixed length: this one, if there are so many bytes and no more.
pub(crate) fn fixed(size: u16, s: &[u8], message: Message) -> Result<Message, Refusal>
    requires { IsFixed size s.now message }
    ensures { Finds s.now (decoded_as (type_in s.now) s.now) result }
{
    if s.len() != size as usize {
        return Err(Refusal::Unsound);
    }
    Ok(message)
}
