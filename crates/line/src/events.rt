// An incoming event, and the act that it meets.
ghost use Rattle.std.specs.Prelude.{ℕ, ◌≡◌, true, false, List};
ghost use Rattle.line.specs.declared.Line.{Line};
ghost use Rattle.line.specs.Bounded.{CountedTyped};
ghost use Rattle.line.specs.With.{on_flow, lent};
ghost use Rattle.line.specs.Host.{host_message_of};
ghost use Rattle.line.specs.Events.{LookedUp, is_act_of, event_rule};
ghost use Rattle.line.specs.Acts.{Meets};
ghost use Rattle.line.specs.declared.acts.Act.TheVariants.{Nothing, Obeys};
ghost use Rattle.line.specs.declared.events.Event.TheVariants.{Host};
ghost use Rattle.line.specs.declared.events.HostMessage as hosts;

use crate::acts::{Act, Taken};
use crate::{Flow, Terms};
use fields::Span;
use message::{InitiateFields, Message, StartReadFields, WriteFields};

// The messages that a host sends; a set, text and parameters stand in the lent slice.
#[derive(Clone, Copy)]
pub(crate) enum HostMessage {
    Initiate(InitiateFields),
    StartRead(StartReadFields),
    Unread(u8),
    ClearInput,
    Write(WriteFields),
    ReadCharacteristics(Span),
    Characteristics(Span),
    CheckInput,
}

impl HostMessage {
    // None of a message that only servers send, or of a type that nobody sends.
    pub(crate) fn of(m: Message) -> Option<HostMessage>
        ensures { result ≡ host_message_of m }
    {
        let sent = match m {
            Message::Initiate(f) => HostMessage::Initiate(f),
            Message::StartRead(f) => HostMessage::StartRead(f),
            Message::Unread { condition } => HostMessage::Unread(condition),
            Message::ClearInput => HostMessage::ClearInput,
            Message::Write(f) => HostMessage::Write(f),
            Message::ReadCharacteristics { parameters } => {
                HostMessage::ReadCharacteristics(parameters)
            }
            Message::Characteristics { parameters } => HostMessage::Characteristics(parameters),
            Message::CheckInput => HostMessage::CheckInput,
            _ => return None,
        };
        Some(sent)
    }
}

// What a call brings, with what is looked up for it besides the flow and the terms. A key is its arrival: a step follows it.
#[derive(Clone, Copy)]
pub(crate) enum Event {
    // its attribute, and whether Initiate was accepted
    Key {
        code: u8,
        attribute: u8,
        initiated: bool,
    },
    // whether a whole token is held
    Tick {
        held: bool,
    },
    Step(Lookup),
    Host(HostMessage),
}

// What is looked up for a step: whether a whole token is held, and how the first key would be taken.
#[derive(Clone, Copy)]
pub(crate) struct Lookup {
    pub(crate) held: bool,
    pub(crate) taken: Taken,
}

impl Flow {
    // The act that an event meets; a host message is its own. The flow is lent, since a copy of it is not compiled away.
    pub(crate) fn act_of(&self, e: Event, t: Terms) -> Act
        requires { CountedTyped self.now.typed }
        ensures rule { (s : List ℕ) (l : Line) → LookedUp s (on_flow self.now (lent t l.text l)) e →
            Meets (event_rule s e) s (on_flow self.now (lent t l.text l)) result }
        ensures kind { is_act_of e result ≡ true }
        ensures obeys { (m : hosts.HostMessage) → e ≡ Host m → result ≡ Obeys m }
    {
        match e {
            Event::Key {
                code,
                attribute,
                initiated,
            } => self.act_of_key(code, initiated, attribute, t),
            Event::Tick { held } => self.act_of_tick(held, t),
            Event::Step(lookup) => self.act_of_step(lookup, t),
            Event::Host(m) => Act::Obeys(m),
        }
    }

    // In areas that are too small it meets none.
    pub(crate) fn act_if(&self, roomy: bool, e: Event, t: Terms) -> Act
        requires { CountedTyped self.now.typed }
        ensures rule { (s : List ℕ) (l : Line) → roomy ≡ true → LookedUp s (on_flow self.now (lent t l.text l)) e →
            Meets (event_rule s e) s (on_flow self.now (lent t l.text l)) result }
        ensures none { roomy ≡ false → result ≡ Nothing }
        ensures kind { is_act_of e result ≡ true }
    {
        if roomy {
            return self.act_of(e, t);
        }
        Act::Nothing
    }
}
