// A message goes to the host, behind its length.
ghost use Rattle.std.specs.Prelude.{ℕ, ◌≡◌, true, List};
ghost use Rattle.rules.specs.Messages.Forms as forms;
ghost use Rattle.rules.specs.Messages.Forms.{plain};
ghost use Rattle.rules.specs.Messages.Codec as codec;
ghost use Rattle.message.specs.Found.{held_in};
ghost use Rattle.rules.specs.Turns.{sends};
ghost use Rattle.writing.specs.Spans.{spans_of, inside};
ghost use Rattle.writing.specs.Framed.{Sendable};
ghost use Rattle.line.specs.declared.Line.{Line};
ghost use Rattle.line.specs.With.{AfterSent};
ghost use Rattle.line.specs.Promise.{on, Does};

use crate::Work;
use areas::Writer;
use message::Message;

impl Work {
    // The call goes on behind what was sent.
    pub(crate) fn sent_up_to(self, sent: usize) -> Work
        ensures { AfterSent sent self result }
    {
        let mut next = self;
        next.sent = sent;
        next
    }

    // A message without parameters, whose text stands in a slice.
    pub(crate) fn send(self, messages: &mut [u8], m: Message, s: &[u8]) -> Work
        ensures rule { (x : forms.Message ℕ) → Sendable s.now m x → (l : Line) (t : List ℕ) →
            Does (sends x) (on l self) t messages.old (on l result) t messages.new }
    {
        let mut w = Writer {
            area: messages,
            at: self.sent,
        };
        writing::put_framed(m, s, &mut w);
        self.sent_up_to(w.at)
    }

    // A message that has numbers alone.
    pub(crate) fn sends_plain(self, messages: &mut [u8], m: Message) -> Work
        ensures rule { (kind : ℕ) (numbers : List ℕ) →
            ((s : List ℕ) → held_in s m ≡ codec.message (plain kind numbers)) → inside 0 (spans_of m) ≡ true →
            (l : Line) (t : List ℕ) →
            Does (sends (plain kind numbers)) (on l self) t messages.old (on l result) t messages.new }
    {
        self.send(messages, m, &[])
    }
}
