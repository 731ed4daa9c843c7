// Messages that end in DATA.
ghost use Rattle.rules.specs.Messages.Forms as forms;
ghost use Rattle.message.specs.declared.Message.TheVariants as variants;
ghost use Rattle.message.specs.Found.{IsType, FieldsIn, Finds, decoded_as};

use crate::flags::Flags;
use crate::spans::rest_from;
use crate::{LAST_COMPLETION_CODE, LAST_FIX, Message, ReadDataFields, WriteFields, sizes};
use fields::{byte_at, word_at};
use rules::refusals::Refusal;
use rules::{bits, forms};

// Where the fields of a Read Data stand.
const LOW_WATER: usize = 2;

const VERTICAL: usize = 4;

const HORIZONTAL: usize = 5;

const TERMINATOR: usize = 6;

// And the fields of a Write behind its FLAGS.
const PREFIX_VALUE: usize = 3;

const POSTFIX_VALUE: usize = 4;

// The fields, whatever they hold: the reader below tests the length and the values.
fn read_data_fields(s: &[u8]) -> ReadDataFields
    requires { IsType forms.read_data s.now }
    ensures { FieldsIn forms.read_data s.now (variants.ReadData result) }
{
    let mut flags = Flags {
        rest: byte_at(s, forms::FLAGS) as u32,
    };
    ReadDataFields {
        code: flags.take(bits::FOUR_BITS),
        more: flags.take(bits::ONE_BIT),
        low_water: word_at(s, LOW_WATER),
        vertical: byte_at(s, VERTICAL),
        horizontal: byte_at(s, HORIZONTAL),
        terminator: word_at(s, TERMINATOR),
        text: rest_from(s, forms::READ_DATA_HEADER),
    }
}

pub(crate) fn decode_read_data(s: &[u8]) -> Result<Message, Refusal>
    requires { IsType forms.read_data s.now }
    ensures { Finds s.now (decoded_as forms.read_data s.now) result }
{
    sizes::at_least(forms::READ_DATA_HEADER, s)?;
    let f = read_data_fields(s);
    if LAST_COMPLETION_CODE < f.code {
        return Err(Refusal::Unsound);
    }
    Ok(Message::ReadData(f))
}

fn write_fields(s: &[u8]) -> WriteFields
    requires { IsType forms.write s.now }
    ensures { FieldsIn forms.write s.now (variants.Write result) }
{
    let mut flags = Flags {
        rest: word_at(s, forms::FLAGS) as u32,
    };
    WriteFields {
        lock: flags.take(bits::TWO_BITS),
        newline: flags.take(bits::ONE_BIT),
        keeps_output: flags.take(bits::ONE_BIT),
        first: flags.take(bits::ONE_BIT),
        last: flags.take(bits::ONE_BIT),
        prefix: flags.take(bits::TWO_BITS),
        postfix: flags.take(bits::TWO_BITS),
        wants_completion: flags.take(bits::ONE_BIT),
        transparent: flags.take(bits::ONE_BIT),
        prefix_value: byte_at(s, PREFIX_VALUE),
        postfix_value: byte_at(s, POSTFIX_VALUE),
        text: rest_from(s, forms::WRITE_HEADER),
    }
}

pub(crate) fn decode_write(s: &[u8]) -> Result<Message, Refusal>
    requires { IsType forms.write s.now }
    ensures { Finds s.now (decoded_as forms.write s.now) result }
{
    sizes::at_least(forms::WRITE_HEADER, s)?;
    let f = write_fields(s);
    if (f.prefix <= LAST_FIX) & (f.postfix <= LAST_FIX) {
        return Ok(Message::Write(f));
    }
    Err(Refusal::Unsound)
}
