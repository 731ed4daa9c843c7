// Whether every field fits its place, and the message would not be read as 5. How many values a field has stands in `fronts` too,
// which packs them: one table for both would be public, and each would still go over it in its own way.
ghost use Rattle.std.specs.Prelude.{◌≡◌, []};
ghost use Rattle.rules.specs.Messages.Layout.{widths_of, fits};
ghost use Rattle.rules.specs.Messages.Forms.{form_of, start_read};
ghost use Rattle.message.specs.declared.Message.TheVariants as variants;
ghost use Rattle.fields.specs.Spans.{span_of};
ghost use Rattle.message.specs.Found.{start_read_in};
ghost use Rattle.parameters.specs.Lists.{sound_from};
ghost use Rattle.writing.specs.Fits.{Fits, FitsIn};

use fields::Span;
use message::{
    InitiateFields, LAST_COMPLETION_CODE, LAST_FIX, Message, ReadDataFields, StartReadFields,
    WriteFields,
};
use rules::{bits, forms};

// The most bytes of a termination set.
const SET_SIZE: u16 = rules::SET_SIZE as u16;

fn fits_read_data(f: ReadDataFields) -> bool
    ensures { Fits (variants.ReadData f) result }
{
    (f.code < bits::FOUR_BITS) & (f.more < bits::ONE_BIT) & (f.code <= LAST_COMPLETION_CODE)
}

fn fits_write(f: WriteFields) -> bool
    ensures { Fits (variants.Write f) result }
{
    (f.lock < bits::TWO_BITS)
        & (f.newline < bits::ONE_BIT)
        & (f.keeps_output < bits::ONE_BIT)
        & (f.first < bits::ONE_BIT)
        & (f.last < bits::ONE_BIT)
        & (f.prefix < bits::TWO_BITS)
        & (f.postfix < bits::TWO_BITS)
        & (f.wants_completion < bits::ONE_BIT)
        & (f.transparent < bits::ONE_BIT)
        & (f.prefix <= LAST_FIX)
        & (f.postfix <= LAST_FIX)
}

// Every flag of a Start Read; its words always fit.
fn fits_flags(f: StartReadFields) -> bool
    ensures { result ≡ fits (widths_of (form_of start_read).head) (start_read_in [] f).numbers }
{
    (f.underflow < bits::TWO_BITS)
        & (f.clears_type_ahead < bits::ONE_BIT)
        & (f.formats < bits::ONE_BIT)
        & (f.vertical < bits::ONE_BIT)
        & (f.continues < bits::ONE_BIT)
        & (f.raises < bits::TWO_BITS)
        & (f.disables < bits::THREE_BITS)
        & (f.silent < bits::ONE_BIT)
        & (f.terminator_echo < bits::ONE_BIT)
        & (f.timed < bits::ONE_BIT)
        & (f.set_choice < bits::TWO_BITS)
        & (f.escapes < bits::TWO_BITS)
}

fn fits_start_read(f: StartReadFields) -> bool
    ensures { Fits (variants.StartRead f) result }
{
    let flags = fits_flags(f);
    let sound = message::is_sound_start_read(f);
    flags & (f.set.len <= SET_SIZE) & sound
}

fn fits_list(kind: u8, p: Span, s: &[u8]) -> bool
    ensures { result ≡ sound_from kind 0 (span_of s.now p) }
{
    let t = fields::span_of(s, p);
    parameters::is_sound_list(kind, t, 0)
}

fn fits_initiate(f: InitiateFields, s: &[u8]) -> bool
    ensures { FitsIn s.now (variants.Initiate f) result }
{
    let whole = fits_list(rules::INITIATE, f.parameters, s);
    (f.revision.len == forms::REVISION_SIZE) & whole
}

pub(crate) fn fits_message(m: Message, s: &[u8]) -> bool
    ensures { FitsIn s.now m result }
{
    match m {
        Message::Initiate(f) => fits_initiate(f, s),
        Message::StartRead(f) => fits_start_read(f),
        Message::ReadData(f) => fits_read_data(f),
        Message::OutOfBand { discard, .. } => discard < bits::ONE_BIT,
        Message::Unread { condition } => condition < bits::ONE_BIT,
        Message::ClearInput => true,
        Message::Write(f) => fits_write(f),
        Message::WriteCompletion { lost, .. } => lost < bits::ONE_BIT,
        Message::DiscardState { kept } => kept < bits::ONE_BIT,
        Message::ReadCharacteristics { parameters } => fits_list(
            rules::READ_CHARACTERISTICS,
            parameters,
            s,
        ),
        Message::Characteristics { parameters } => fits_list(rules::CHARACTERISTICS, parameters, s),
        Message::CheckInput => true,
        // named, because what a word holds fits only since it is one
        Message::InputCount { count } => true,
        Message::InputState { nonzero } => nonzero < bits::ONE_BIT,
        Message::Other { .. } => false,
    }
}
