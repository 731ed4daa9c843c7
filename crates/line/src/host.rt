// What an accepted host message does to the flow. What it sets, and the report, are in settings.rt.
ghost use Rattle.std.specs.Prelude.{ℕ, ◌≤◌, List, [], ◌∷◌};
ghost use Rattle.rules.specs.Numbers.{input_size};
ghost use Rattle.rules.specs.State.{codes};
ghost use Rattle.rules.specs.Messages.Forms.{plain, unread};
ghost use Rattle.rules.specs.ReadData as reads;
ghost use Rattle.line.specs.declared.Line.{Line};
ghost use Rattle.line.specs.With.{on_flow, lent};
ghost use Rattle.line.specs.Host.{StartableMessage, Prompts, flow_rule};
ghost use Rattle.line.specs.Promise.{on, Does, DoesOn};

use crate::events::HostMessage;
use crate::read_data::{Completion, NO_ENDING};
use crate::{Terms, Work};
use message::Message;

// Unread's condition.
const ALWAYS: u8 = 0;

impl Work {
    // Input Count: the keys that wait and the bytes of a token.
    fn checks_input(self, messages: &mut [u8]) -> Work
        ensures rule { (l : Line) (t : List ℕ) → Does reads.checks_input (on l self) t messages.old (on l result) t messages.new }
    {
        let typed = self.flow.typed;
        let waiting = typed.keys_len + typed.token_len;
        let count = waiting as u16;
        self.sends_plain(messages, Message::InputCount { count })
    }

    // Unread: always, or only with nothing typed.
    fn unreads(
        self,
        messages: &mut [u8],
        condition: u8,
        text: &[u8; rules::INPUT_SIZE],
        t: Terms,
    ) -> Work
        ensures rule { (l : Line) (a : List ℕ) →
            DoesOn (λ k. reads.unreads codes (plain unread (condition ∷ []))) (lent t text.now l) self a messages.old result a
            messages.new }
    {
        let Some(r) = self.flow.pending else {
            return self;
        };
        let typed = self.flow.typed;
        let nothing = (typed.keys_len == 0) & (typed.token_len == 0) & (r.input_len == 0);
        if (condition == ALWAYS) | nothing {
            return self.completes(messages, Completion::Unread, NO_ENDING, r, text, t);
        }
        self
    }

    // By its type.
    pub(crate) fn obeys(
        self,
        m: HostMessage,
        s: &[u8],
        terminal: &mut [u8],
        messages: &mut [u8],
        text: &[u8; rules::INPUT_SIZE],
        t: Terms,
    ) -> Work
        requires prompt_len_bound { t.prompt_len ≤ input_size }
        requires startable_message { StartableMessage s.now m }
        ensures rule { (l : Line) → Prompts t l m →
            DoesOn (λ k. flow_rule s.now (on_flow self.flow k) m) (lent t text.now l) self terminal.old messages.old
            result terminal.new messages.new }
    {
        match m {
            HostMessage::Initiate(_) => self.initiates(messages),
            HostMessage::StartRead(f) => self.begins(terminal, messages, f, s, text, t),
            HostMessage::Unread(condition) => self.unreads(messages, condition, text, t),
            HostMessage::ClearInput => self.clears(terminal, text, t),
            HostMessage::Write(f) => self.writes_out(terminal, messages, f, s, text, t),
            HostMessage::ReadCharacteristics(_) => self,
            HostMessage::Characteristics(_) => self,
            HostMessage::CheckInput => self.checks_input(messages),
        }
    }
}
