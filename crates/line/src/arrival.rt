// A key arrives; the clear rule.
ghost use Rattle.std.specs.Prelude.{List, ◌≡◌, true, length, get_or, ℕ, ◌+◌, ◌<◌, min};
ghost use Rattle.rules.specs.Numbers.{type_ahead_size, code_count, top_dropped};
ghost use Rattle.rules.specs.State.{codes};
ghost use Rattle.rules.specs.Arrival as rules;
ghost use Rattle.line.specs.declared.Key.{Key};
ghost use Rattle.line.specs.declared.Line.{Line};
ghost use Rattle.line.specs.View.{quoted_key, key_of, pending_of};
ghost use Rattle.line.specs.With.{on_flow, lent};
ghost use Rattle.line.specs.KeyArray.{stored};
ghost use Rattle.line.specs.Promise.{on, Does, DoesOn};
ghost use Rattle.line.specs.Acts.{event_kinds_of, Meets};

use crate::acts::Act;
use crate::read_data::{Completion, NO_ENDING};
use crate::{Flow, Terms, Work};
use message::Message;
use rules::{characters, out_of_band};

// Codes that are controls, by arrival rule 3.
const DISCARD_KEY: u8 = 15;

const QUOTE_KEY: u8 = 22;

const CLEAR_KEY: u8 = 24;

// DDD 3: no key is a control.
const DISABLES_CONTROLS: u8 = 3;

// A count that stops at its top.
fn one_more(n: u16) -> u16
    ensures { result ≡ min top_dropped (n + 1) }
{
    n.saturating_add(1).min(rules::TOP_DROPPED)
}

impl Work {
    // One key more waits; idle is 0. `move_keys` puts the key itself into the array.
    fn keeps(self) -> Work
        requires keys_len_bound { self.flow.typed.keys_len < type_ahead_size }
        ensures rule { (k : Key) (l : Line) → length l.keys ≡ type_ahead_size → (t m : List ℕ) →
            Does (rules.keeps (key_of k).quoted (key_of k).char) (on l self) t m (on (stored k self.flow l) result) t m }
    {
        let mut next = self;
        next.flow.typed.keys_len += 1;
        if let Some(reading) = &mut next.flow.pending {
            reading.idle = 0;
        }
        next
    }

    // No room: BEL, and the dropped count rises up to its top.
    fn drops(self, terminal: &mut [u8]) -> Work
        ensures rule { (c : ℕ) (l : Line) (m : List ℕ) → Does (rules.drops c) (on l self) terminal.old m (on l result) terminal.new m }
    {
        let mut belled = self.put(terminal, characters::BEL);
        belled.flow.terminal.dropped = one_more(belled.flow.terminal.dropped);
        belled
    }

    // Rule 4.
    pub(crate) fn stores(self, terminal: &mut [u8]) -> Work
        ensures rule { (k : Key) (l : Line) → length l.keys ≡ type_ahead_size → (m : List ℕ) →
            Does (rules.stores type_ahead_size (key_of k).quoted (key_of k).char) (on l self) terminal.old m
            (on (stored k self.flow l) result) terminal.new m }
    {
        let typed = self.flow.typed;
        if (typed.keys_len as usize) < rules::TYPE_AHEAD_SIZE {
            return self.keeps();
        }
        self.drops(terminal)
    }

    // Rule 1.
    pub(crate) fn stores_quoted(self, terminal: &mut [u8]) -> Work
        ensures rule { (c : ℕ) → c < code_count → (l : Line) → length l.keys ≡ type_ahead_size → (m : List ℕ) →
            Does (rules.stores_quoted c) (on l self) terminal.old m (on (stored (quoted_key c) self.flow l) result) terminal.new m }
    {
        let mut next = self;
        next.flow.terminal.quoting = false;
        next.stores(terminal)
    }

    // Rule 3, code 22.
    pub(crate) fn quotes(self) -> Work
        ensures rule { (c : ℕ) (l : Line) (t m : List ℕ) → Does (rules.quotes c) (on l self) t m (on l result) t m }
    {
        let mut next = self;
        next.flow.terminal.quoting = true;
        next
    }

    // The lock of a Write.
    pub(crate) fn sets_locked(self, locked: bool) -> Work
        ensures rule { (l : Line) (t m : List ℕ) → Does (rules.sets_locked locked) (on l self) t m (on l result) t m }
    {
        let mut next = self;
        next.flow.terminal.locked = locked;
        next
    }

    // Rule 3, code 15; where it turns discard on, it unlocks. Discard State says 1 where output is not discarded.
    pub(crate) fn flips_discard(self, messages: &mut [u8]) -> Work
        ensures rule { (c : ℕ) (l : Line) (t : List ℕ) →
            Does (rules.flips_discard c) (on l self) t messages.old (on l result) t messages.new }
    {
        let mut next = self;
        next.flow.terminal.discarding = !self.flow.terminal.discarding;
        let kept = fields::bit_of(!next.flow.terminal.discarding);
        let mut said = next.sends_plain(messages, Message::DiscardState { kept });
        if said.flow.terminal.discarding {
            said.flow.terminal.locked = false;
        }
        said
    }

    // Type-ahead and tokens go.
    pub(crate) fn empties_typed(self) -> Work
        ensures rule { (l : Line) (t m : List ℕ) → Does rules.empties_typed (on l self) t m (on l result) t m }
    {
        let next = self.flow.typed.emptied();
        self.with_typed(next)
    }

    // A pending read's input goes, without rubbing out.
    fn clears_without_rubbing(self, t: Terms) -> Work
        ensures rule { (text : List ℕ) (l : Line) (a m : List ℕ) →
            DoesOn (λ k. rules.clears_input codes rules.without_rubbing (pending_of k self.flow.pending)) (lent t text l) self a
            m result a m }
    {
        if let Some(r) = self.flow.pending {
            return self.deletes_without_rubbing(0, r, t);
        }
        self
    }

    // It goes, rubbed out.
    fn clears_rubbing_out(
        self,
        terminal: &mut [u8],
        text: &[u8; rules::INPUT_SIZE],
        t: Terms,
    ) -> Work
        ensures rule { (l : Line) (m : List ℕ) →
            DoesOn (λ k. rules.clears_input codes rules.rubbing_out (pending_of k self.flow.pending)) (lent t text.now l) self terminal.old
            m result terminal.new m }
    {
        if let Some(r) = self.flow.pending {
            return self.deletes(terminal, 0, r, text, t);
        }
        self
    }

    // The clear rule of 24 and Clear Input.
    pub(crate) fn clears(
        self,
        terminal: &mut [u8],
        text: &[u8; rules::INPUT_SIZE],
        t: Terms,
    ) -> Work
        ensures rule { (l : Line) (m : List ℕ) →
            DoesOn (λ k. rules.clear_rule codes rules.rubbing_out) (lent t text.now l) self terminal.old m result terminal.new m }
    {
        let next = self.empties_typed();
        next.clears_rubbing_out(terminal, text, t)
    }

    // Rule 2, hello.
    pub(crate) fn sends_out_of_band(self, messages: &mut [u8], c: u8) -> Work
        ensures rule { (l : Line) (t : List ℕ) →
            Does (rules.sends_out_of_band codes c) (on l self) t messages.old (on l result) t messages.new }
    {
        self.sends_plain(
            messages,
            Message::OutOfBand {
                discard: fields::OFF,
                character: c,
            },
        )
    }

    // Rule 2, immediate clear: a pending read completes, returning no data.
    fn ends_out_of_band(self, messages: &mut [u8], text: &[u8; rules::INPUT_SIZE], t: Terms) -> Work
        ensures rule { (l : Line) (a : List ℕ) →
            DoesOn (λ k. rules.ends_out_of_band codes (pending_of k self.flow.pending)) (lent t text.now l) self a messages.old result a
            messages.new }
    {
        if let Some(r) = self.flow.pending {
            return self.completes(messages, Completion::OutOfBand, NO_ENDING, r, text, t);
        }
        self
    }

    // Rule 2, immediate clear: Out-of-Band, unlocked, the clear rule without rubbing out, then a pending read completes.
    pub(crate) fn clears_at_once(
        self,
        messages: &mut [u8],
        c: u8,
        text: &[u8; rules::INPUT_SIZE],
        t: Terms,
    ) -> Work
        ensures rule { (l : Line) (a : List ℕ) →
            DoesOn (λ k. rules.clears_at_once codes c) (lent t text.now l) self a messages.old result a
            messages.new }
    {
        let said = self.sends_out_of_band(messages, c);
        let unlocked = said.sets_locked(false);
        let emptied = unlocked.empties_typed();
        let cleared = emptied.clears_without_rubbing(t);
        cleared.ends_out_of_band(messages, text, t)
    }
}

// Rule 3, then 4.
fn act_of_control(c: u8) -> Act
    ensures rule { (s : List ℕ) (l : Line) → Meets (rules.controlled codes c) s l result }
    ensures kind { (event_kinds_of result).key ≡ true }
{
    if c == QUOTE_KEY {
        return Act::Quotes;
    }
    if c == CLEAR_KEY {
        return Act::Clears;
    }
    if c == DISCARD_KEY {
        return Act::FlipsDiscard;
    }
    Act::Stores(c)
}

impl Flow {
    // Rules 1 to 4: the first that applies is the only one.
    fn act_after_initiate(self, c: u8, attribute: u8, t: Terms) -> Act
        ensures rule { (s : List ℕ) (l : Line) → attribute ≡ get_or l.attributes c 0 →
            Meets (rules.by_first_rule codes c) s (on_flow self (lent t l.text l)) result }
        ensures kind { (event_kinds_of result).key ≡ true }
    {
        let known = self.terminal;
        if known.quoting {
            return Act::StoresQuoted(c);
        }
        let band = attribute % out_of_band::VALUES;
        if band == out_of_band::HELLO {
            return Act::SendsOutOfBand(c);
        }
        if band == out_of_band::IMMEDIATE_CLEAR {
            return Act::ClearsAtOnce(c);
        }
        if self.pending.is_some() & (t.disables == DISABLES_CONTROLS) {
            return Act::Stores(c);
        }
        act_of_control(c)
    }

    // The arrival rules; before Initiate only rule 4 applies.
    pub(crate) fn act_of_key(self, c: u8, initiated: bool, attribute: u8, t: Terms) -> Act
        ensures rule { (s : List ℕ) (l : Line) → initiated ≡ l.initiated → attribute ≡ get_or l.attributes c 0 →
            Meets (rules.arrives codes c) s (on_flow self (lent t l.text l)) result }
        ensures kind { (event_kinds_of result).key ≡ true }
    {
        if initiated {
            return self.act_after_initiate(c, attribute, t);
        }
        Act::Stores(c)
    }
}
