// Initiate, and the answer to it.
ghost use Rattle.std.specs.Prelude.{ℕ, List, ◌++◌};
ghost use Rattle.rules.specs.Messages.Layout.{word_bytes, bytes_of, framed};
ghost use Rattle.rules.specs.Calls.{sent_bytes};
ghost use Rattle.rules.specs.Host as rules;
ghost use Rattle.areas.specs.Writes.{Writes};
ghost use Rattle.rules.specs.Turns.{sends};
ghost use Rattle.line.specs.declared.Line.{Line};
ghost use Rattle.line.specs.Promise.{on, Does};

use crate::Work;
use areas::Writer;
use fields::Span;
use message::{InitiateFields, Message};
use rules::{characters, forms};

// VERSION, ECO and MOD.
const VERSION: u8 = 1;

const ECO: u8 = 0;

const MODIFICATION: u8 = 0;

const REVISION_SIZE: usize = forms::REVISION_SIZE as usize;

// Each parameter's PARMTYPE and its count 2, as one word; PARAMETERS: bytes of all three.
const MESSAGE_PARAMETER: u16 = 0x0201;

const INPUT_PARAMETER: u16 = 0x0202;

const SUPPORTED_PARAMETER: u16 = 0x0203;

const PARAMETERS: u16 = 12;

// A bit for each of messages 1 to 14.
const MESSAGES_1_TO_14: u16 = 0x7FFE;

// One parameter of Initiate: its type and the count 2 in one word, and its value.
fn put_parameter(head: u16, value: u16, w: &mut Writer)
    ensures { Writes (bytes_of word_bytes head ++ bytes_of word_bytes value) w.old w.new }
{
    w.put_word(head);
    w.put_word(value);
}

// Version 1.0.0, eight spaces, and parameters 1 (message size), 2 (input size) and 3 (messages 1 to 14).
fn put_initiate(w: &mut Writer)
    ensures { Writes (framed (sent_bytes (rules.our_initiate {D = ℕ}))) w.old w.new }
{
    let spaces = [characters::SP; REVISION_SIZE];
    let revision = Span {
        start: 0,
        len: forms::REVISION_SIZE,
    };
    let parameters = Span {
        start: forms::REVISION_SIZE,
        len: PARAMETERS,
    };
    let head = Message::Initiate(InitiateFields {
        version: VERSION,
        eco: ECO,
        modification: MODIFICATION,
        revision,
        parameters,
    });
    writing::put_framed(head, &spaces, w);
    put_parameter(MESSAGE_PARAMETER, rules::MESSAGE_SIZE as u16, w);
    put_parameter(INPUT_PARAMETER, rules::INPUT_SIZE as u16, w);
    put_parameter(SUPPORTED_PARAMETER, MESSAGES_1_TO_14, w);
}

impl Work {
    // Our Initiate answers the host's.
    pub(crate) fn initiates(self, messages: &mut [u8]) -> Work
        ensures rule { (l : Line) (t : List ℕ) → Does (sends rules.our_initiate) (on l self) t messages.old (on l result) t messages.new }
    {
        let mut w = Writer {
            area: messages,
            at: self.sent,
        };
        put_initiate(&mut w);
        self.sent_up_to(w.at)
    }
}
