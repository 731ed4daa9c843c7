// The calls: each makes an event, a keystroke two; the act that it meets is chosen and done, and the flow put back.
ghost use Rattle.std.specs.Prelude.{◌≡◌, length, true};
ghost use Rattle.rules.specs.Calls as rules;
ghost use Rattle.rules.specs.Calls.{are_roomy};
ghost use Rattle.line.specs.Bounded.{Bounded};
ghost use Rattle.line.specs.Host.{Accepted};
ghost use Rattle.line.specs.Answers.{Answers};

use crate::events::{Event, HostMessage};
use crate::keys::move_keys;
use crate::refusals::{are_roomy, row_of};
use crate::{Answer, Line, Work};
use rules::refusals::Refusal;

impl Line {
    // A keystroke arrives, and one step follows, which goes by the line as arrival left it.
    pub fn key(self, code: u8, terminal: &mut [u8], messages: &mut [u8]) -> Answer
        requires { Bounded self }
        ensures { Answers (rules.key code) self terminal.old messages.old result terminal.new messages.new }
    {
        let roomy = are_roomy(terminal.len(), messages.len());
        let mut next = self;
        let typed = next.flow.typed;
        let terms = next.terms;
        let at = code as usize;
        let key = Event::Key {
            code,
            attribute: next.attributes[at],
            initiated: next.initiated,
        };
        let arrival = next.flow.act_if(roomy, key, terms);
        move_keys(&mut next.keys, typed.keys_len as usize, arrival);
        let w = Work {
            flow: next.flow,
            at: 0,
            sent: 0,
        };
        let arrived = w.acts_on_key(arrival, terminal, messages, &next.text, terms);
        let waiting = arrived.flow.typed;
        let set = next.set;
        let first_left = next.keys[0];
        let lookup = arrived.flow.look_up_for_step(first_left, set, terms);
        let act = arrived.flow.act_if(roomy, Event::Step(lookup), terms);
        move_keys(&mut next.keys, waiting.keys_len as usize, act);
        let done = arrived.acts_on_step(act, terminal, messages, &mut next.text, terms);
        next.flow = done.flow;
        Answer {
            line: next,
            number: row_of(roomy),
            terminal: done.at,
            messages: done.sent,
        }
    }

    // A bare step.
    pub fn step(self, terminal: &mut [u8], messages: &mut [u8]) -> Answer
        requires { Bounded self }
        ensures { Answers rules.step self terminal.old messages.old result terminal.new messages.new }
    {
        let roomy = are_roomy(terminal.len(), messages.len());
        let mut next = self;
        let typed = next.flow.typed;
        let terms = next.terms;
        let set = next.set;
        let first = next.keys[0];
        let lookup = next.flow.look_up_for_step(first, set, terms);
        let act = next.flow.act_if(roomy, Event::Step(lookup), terms);
        move_keys(&mut next.keys, typed.keys_len as usize, act);
        let w = Work {
            flow: next.flow,
            at: 0,
            sent: 0,
        };
        let done = w.acts_on_step(act, terminal, messages, &mut next.text, terms);
        next.flow = done.flow;
        Answer {
            line: next,
            number: row_of(roomy),
            terminal: done.at,
            messages: done.sent,
        }
    }

    // A second has passed.
    pub fn tick(self, terminal: &mut [u8], messages: &mut [u8]) -> Answer
        requires { Bounded self }
        ensures { Answers rules.tick self terminal.old messages.old result terminal.new messages.new }
    {
        let roomy = are_roomy(terminal.len(), messages.len());
        let flow = self.flow;
        let typed = flow.typed;
        let mut next = self;
        let terms = next.terms;
        let held = typed.is_held();
        let act = flow.act_if(roomy, Event::Tick { held }, terms);
        move_keys(&mut next.keys, typed.keys_len as usize, act);
        let w = Work {
            flow,
            at: 0,
            sent: 0,
        };
        let done = w.acts_on_tick(act, messages, &next.text, terms);
        next.flow = done.flow;
        Answer {
            line: next,
            number: row_of(roomy),
            terminal: done.at,
            messages: done.sent,
        }
    }

    // A host message that is accepted, in areas that are large enough.
    fn obeys(self, m: HostMessage, s: &[u8], terminal: &mut [u8], messages: &mut [u8]) -> Answer
        requires bounded { Bounded self }
        requires accepted { Accepted self s.now m }
        requires messages_value { are_roomy (length terminal.old) (length messages.old) ≡ true }
        ensures { Answers (rules.message s.now) self terminal.old messages.old result terminal.new messages.new }
    {
        let mut next = self.set_by(m, s);
        let flow = next.flow;
        let terms = next.terms;
        let act = flow.act_of(Event::Host(m), terms);
        let w = Work {
            flow,
            at: 0,
            sent: next.reports(m, s, messages),
        };
        let done = w.acts_on_host(act, s, terminal, messages, &next.text, terms);
        next.flow = done.flow;
        Answer {
            line: next,
            number: rules::ACCEPTED,
            terminal: done.at,
            messages: done.sent,
        }
    }

    // The host sends a message. What was read is taken apart by let-else (docs/DECISIONS.md, language forms).
    pub fn host(self, s: &[u8], terminal: &mut [u8], messages: &mut [u8]) -> Answer
        requires { Bounded self }
        ensures { Answers (rules.message s.now) self terminal.old messages.old result terminal.new messages.new }
    {
        if let Err(early) = self.early_row(s, terminal.len(), messages.len()) {
            return self.refuse(early);
        }
        let found = message::decode(s);
        let Ok(m) = found else {
            let number = message::found_number(found);
            return self.refuse_with(number);
        };
        let Some(h) = HostMessage::of(m) else {
            return self.refuse(Refusal::WrongType);
        };
        if let Err(late) = self.late_row(h, s) {
            return self.refuse(late);
        }
        self.obeys(h, s, terminal, messages)
    }
}
