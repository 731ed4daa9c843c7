// Read Characteristics: whether its answer is carried, and the answer.
ghost use Rattle.std.specs.Prelude.{◌≡◌, List, ℕ, ◌+◌, ◌≤◌, min, length};
ghost use Rattle.rules.specs.Numbers.{message_area};
ghost use Rattle.rules.specs.Messages.Forms.{read_characteristics};
ghost use Rattle.rules.specs.Messages.Parameters.{selector};
ghost use Rattle.rules.specs.State as rules;
ghost use Rattle.rules.specs.State.{State, with_host};
ghost use Rattle.rules.specs.Characteristics.{switch_of, reported};
ghost use Rattle.rules.specs.Calls.{carries_questions};
ghost use Rattle.parameters.specs.Lists.{ParameterIs, used_at};
ghost use Rattle.areas.specs.Writes.{Writes};
ghost use Rattle.characteristics.specs.View.{switches_of, host_view};
ghost use Rattle.characteristics.specs.Lists.{longest_answer, questions_in, answers_from, answer_to, report_bytes};

use crate::settings::all_carried;
use crate::{Host, Switches};
use areas::Writer;
use fields::Span;
use message::Message;
use parameters::{Parameter, Parameters, put_setting};
use rules::{bits, forms, selectors};

// Bytes of an answer for character attributes, and of a switch.
const ATTRIBUTE_ANSWER: usize = parameters::HEAD + parameters::LONGEST_VALUE;

const SWITCH_ANSWER: usize = parameters::HEAD + SWITCH_VALUE;

// A switch's value has one byte.
const SWITCH_VALUE: usize = 1;

// Bytes in front of the answers: the message's length, MSGTYPE and FLAGS.
const FRAMED_HEADER: usize = forms::WORD_BYTES as usize + forms::BARE_HEADER as usize;

// How many bytes the answer to one question takes.
fn size_of_one(n: u16) -> usize
    ensures { ((h : rules.Host) (p : List ℕ) → n ≡ selector p → result ≡ length (reported h p)) × (result ≤ longest_answer) }
{
    if n == selectors::CHARACTER_ATTRIBUTES {
        return ATTRIBUTE_ANSWER;
    }
    SWITCH_ANSWER
}

// How many bytes the answer takes with its length; one more than the area has where it does not fit.
fn report_size(list: &[u8]) -> usize
    ensures { (h : rules.Host) → result ≡ min (message_area + 1) (length (answer_to list.now h)) }
{
    let mut size = FRAMED_HEADER;
    for p in Parameters::new(rules::READ_CHARACTERISTICS, list) {
        size += size_of_one(p.selector);
        if rules::MESSAGE_AREA < size {
            return rules::MESSAGE_AREA + 1;
        }
    }
    size
}

impl Switches {
    // What a switch's selector reports.
    fn value(self, selector: u16) -> bool
        ensures { result ≡ switch_of selector (switches_of self) }
    {
        match selector {
            selectors::RAISE_INPUT => self.raising,
            selectors::NORMAL_ECHO => self.echoing,
            selectors::ESCAPE_RECOGNITION => self.recognising,
            _ => self.prompting,
        }
    }
}

impl Host {
    // All are of the five, and the answer and its length fit the message area.
    pub fn carries_questions(self, list: &[u8]) -> bool
        ensures { (s : State ℕ) → result ≡ carries_questions (with_host (host_view self) s) (questions_in list.now) }
    {
        all_carried(rules::READ_CHARACTERISTICS, list) && report_size(list) <= rules::MESSAGE_AREA
    }

    // The answer to one question: CHARACTER, a MASK of the seven used bits and ATTRIBUTES, or a switch.
    fn put_answer(self, p: Parameter, w: &mut Writer)
        ensures { (i : ℕ) (s : List ℕ) → ParameterIs read_characteristics i s p →
            Writes (reported (host_view self) (used_at read_characteristics i s)) w.old w.new }
    {
        if p.selector == selectors::CHARACTER_ATTRIBUTES {
            let attributes = self.attribute(p.first);
            return put_setting(p.selector, &[p.first, bits::WHOLE_MASK, attributes], w);
        }
        let value = fields::bit_of(self.switches.value(p.selector));
        put_setting(p.selector, &[value], w);
    }

    // The answers to all questions, in order.
    fn put_answers(self, list: &[u8], w: &mut Writer)
        ensures { Writes (answers_from 0 list.now (host_view self)) w.old w.new }
    {
        for p in Parameters::new(rules::READ_CHARACTERISTICS, list) {
            self.put_answer(p, w);
        }
    }

    // The answer behind its length where it is carried; else nothing.
    pub fn put_report(self, list: &[u8], w: &mut Writer)
        ensures { Writes (report_bytes (host_view self) list.now) w.old w.new }
    {
        if !self.carries_questions(list) {
            return;
        }
        let size = report_size(list);
        let parameters = Span {
            start: 0,
            len: (size - FRAMED_HEADER) as u16,
        };
        writing::put_framed(Message::Characteristics { parameters }, list, w);
        self.put_answers(list, w);
    }
}
