// Messages that end in a parameter list.
ghost use Rattle.std.specs.Prelude.{◌≤◌, length};
ghost use Rattle.rules.specs.Messages.Forms as forms;
ghost use Rattle.rules.specs.Numbers.{message_size};
ghost use Rattle.message.specs.Found.{IsType, ListIn, Finds, decoded_as};

use crate::spans::rest_from;
use crate::{InitiateFields, Message, sizes};
use fields::{Span, byte_at};
use parameters::is_sound_list;
use rules::forms;
use rules::refusals::Refusal;

// Initiate's version, in three bytes, and REVISION.
const VERSION: usize = 2;

const ECO: usize = 3;

const MODIFICATION: usize = 4;

const REVISION: u16 = 5;

// The list of a message of this type, which stands behind so many bytes and is whole.
fn list(kind: u8, header: u16, s: &[u8]) -> Result<Span, Refusal>
    requires { length s.now ≤ message_size }
    ensures { ListIn kind header s.now result }
{
    sizes::at_least(header, s)?;
    if !is_sound_list(kind, s, header as usize) {
        return Err(Refusal::Unsound);
    }
    Ok(rest_from(s, header))
}

pub(crate) fn decode_initiate(s: &[u8]) -> Result<Message, Refusal>
    requires { IsType forms.initiate s.now }
    ensures { Finds s.now (decoded_as forms.initiate s.now) result }
{
    let parameters = list(rules::INITIATE, forms::INITIATE_HEADER, s)?;
    let revision = Span {
        start: REVISION,
        len: forms::REVISION_SIZE,
    };
    Ok(Message::Initiate(InitiateFields {
        version: byte_at(s, VERSION),
        eco: byte_at(s, ECO),
        modification: byte_at(s, MODIFICATION),
        revision,
        parameters,
    }))
}

pub(crate) fn decode_read_characteristics(s: &[u8]) -> Result<Message, Refusal>
    requires { IsType forms.read_characteristics s.now }
    ensures { Finds s.now (decoded_as forms.read_characteristics s.now) result }
{
    let parameters = list(rules::READ_CHARACTERISTICS, forms::BARE_HEADER, s)?;
    Ok(Message::ReadCharacteristics { parameters })
}

pub(crate) fn decode_characteristics(s: &[u8]) -> Result<Message, Refusal>
    requires { IsType forms.characteristics s.now }
    ensures { Finds s.now (decoded_as forms.characteristics s.now) result }
{
    let parameters = list(rules::CHARACTERISTICS, forms::BARE_HEADER, s)?;
    Ok(Message::Characteristics { parameters })
}
