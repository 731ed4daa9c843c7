// The type and the spans of a message, by which its length is known and whether it lies in a slice.
ghost use Rattle.std.specs.Prelude.{◌≡◌};
ghost use Rattle.message.specs.Found.{lies};
ghost use Rattle.writing.specs.Spans.{bare, with_text, with_list};

use fields::Span;
use message::Message;
use rules::forms;

// `header` is how many bytes stand in front of the list, or of the text; a set has its count among them. A span that a message
// does not have is empty.
#[derive(Clone, Copy, Default)]
pub(crate) struct Spans {
    pub kind: u8,
    pub header: u16,
    pub list: Span,
    pub set: Span,
    pub text: Span,
    pub revision: Span,
}

// No spans.
fn bare(kind: u8, header: u16) -> Spans
    ensures { result ≡ bare kind header }
{
    Spans {
        kind,
        header,
        ..Spans::default()
    }
}

fn with_text(kind: u8, header: u16, text: Span) -> Spans
    ensures { result ≡ with_text kind header text }
{
    Spans {
        text,
        ..bare(kind, header)
    }
}

fn with_list(kind: u8, header: u16, list: Span) -> Spans
    ensures { result ≡ with_list kind header list }
{
    Spans {
        list,
        ..bare(kind, header)
    }
}

// A span lies in a slice of this length.
fn lies(p: Span, size: usize) -> bool
    ensures { result ≡ lies size p }
{
    p.start as usize + p.len as usize <= size
}

impl Spans {
    ghost use Rattle.writing.specs.Spans.{spans_of, spanned_size, inside};

    #[tactic(auto, unfolding(crate::specs::Spans::spans_of))]
    pub(crate) fn of(m: Message) -> Spans
        ensures { result ≡ spans_of m }
    {
        match m {
            Message::Initiate(f) => Spans {
                list: f.parameters,
                revision: f.revision,
                ..bare(rules::INITIATE, forms::INITIATE_HEADER)
            },
            Message::StartRead(f) => Spans {
                set: f.set,
                text: f.text,
                ..bare(rules::START_READ, forms::START_READ_HEADER)
            },
            Message::ReadData(f) => with_text(rules::READ_DATA, forms::READ_DATA_HEADER, f.text),
            Message::OutOfBand { .. } => bare(rules::OUT_OF_BAND, forms::OUT_OF_BAND_HEADER),
            Message::Unread { .. } => bare(rules::UNREAD, forms::BARE_HEADER),
            Message::ClearInput => bare(rules::CLEAR_INPUT, forms::BARE_HEADER),
            Message::Write(f) => with_text(rules::WRITE, forms::WRITE_HEADER, f.text),
            Message::WriteCompletion { .. } => {
                bare(rules::WRITE_COMPLETION, forms::WRITE_COMPLETION_HEADER)
            }
            Message::DiscardState { .. } => bare(rules::DISCARD_STATE, forms::BARE_HEADER),
            Message::ReadCharacteristics { parameters } => {
                with_list(rules::READ_CHARACTERISTICS, forms::BARE_HEADER, parameters)
            }
            Message::Characteristics { parameters } => {
                with_list(rules::CHARACTERISTICS, forms::BARE_HEADER, parameters)
            }
            Message::CheckInput => bare(rules::CHECK_INPUT, forms::BARE_HEADER),
            Message::InputCount { .. } => bare(rules::INPUT_COUNT, forms::INPUT_COUNT_HEADER),
            Message::InputState { .. } => bare(rules::INPUT_STATE, forms::BARE_HEADER),
            Message::Other { kind, body } => with_text(kind, forms::TYPE_HEADER, body),
        }
    }

    // How long the message is, by the lengths of its spans.
    pub(crate) fn size(self) -> u32
        ensures { result ≡ spanned_size self }
    {
        u32::from(self.header)
            + u32::from(self.list.len)
            + u32::from(self.set.len)
            + u32::from(self.text.len)
    }

    // Each lies in a slice of this length.
    #[tactic(auto, unfolding(crate::specs::Spans::inside))]
    pub(crate) fn lie_in(self, size: usize) -> bool
        ensures { result ≡ inside size self }
    {
        lies(self.list, size)
            & lies(self.set, size)
            & lies(self.text, size)
            & lies(self.revision, size)
    }
}
