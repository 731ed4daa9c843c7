// Which act a step or a tick meets, what a step looks up for it, and the first key taken.
ghost use Rattle.std.specs.Prelude.{ℕ, ◌<◌, ◌≤◌, ◌≡◌, true, List, [], length, get_or, Some};
ghost use Rattle.rules.specs.Numbers.{type_ahead_size, input_size};
ghost use Rattle.rules.specs.State.{codes};
ghost use Rattle.rules.specs.StartRead.{in_set};
ghost use Rattle.rules.specs.Turns.{◌then◌};
ghost use Rattle.rules.specs.Steps as rules;
ghost use Rattle.rules.specs.Token.{is_whole};
ghost use Rattle.sets.specs.View.{set_of};
ghost use Rattle.line.specs.declared.Line.{Line};
ghost use Rattle.line.specs.declared.Reading.{Reading};
ghost use Rattle.line.specs.declared.acts.Act.TheVariants.{Takes};
ghost use Rattle.line.specs.View.{no_key, key_of, reading_of};
ghost use Rattle.line.specs.Bounded.{CountedTyped, Bounded};
ghost use Rattle.line.specs.With.{on_flow, lent};
ghost use Rattle.line.specs.TokenChanges.{codes_of};
ghost use Rattle.line.specs.KeyArray.{shifted};
ghost use Rattle.line.specs.Promise.{DoesAcross, DoesOn};
ghost use Rattle.line.specs.Events.{LookedUpForStep};
ghost use Rattle.line.specs.Acts.{CanTakeKey, idle_at_zero, takes_key, taken_rule, HasTakenKey, event_kinds_of, Meets, TakesFirst};

use crate::acts::{Act, Taken};
use crate::events::Lookup;
use crate::{Flow, Key, Reading, Terms, Work};
use sets::Set;

impl Terms {
    // Rules 5, 6 and 7, after raising; `ends`: the code is in the termination set.
    fn takes_plain(self, c: u8, ends: bool) -> Taken
        ensures { (s : List ℕ) (l : Line) (r : Reading) → l.flow.pending ≡ Some r → CanTakeKey r l.flow self →
            ends ≡ in_set (set_of l.set) c →
            Meets (takes_key (lent self l.text l) r then rules.takes_plain codes c (idle_at_zero (lent self l.text l) r)) s
            (lent self l.text l) (Takes result) }
    {
        if ends {
            return Taken::Terminator(c);
        }
        if self.is_edit_key(c) {
            return Taken::Edit(c);
        }
        Taken::Data(c)
    }

    // No key waits: a read with Q and TIMEOUT 0 completes.
    fn act_without_key(self) -> Act
        ensures rule { (s : List ℕ) (l : Line) (r : Reading) → l.flow.pending ≡ Some r →
            Meets (rules.takes_first codes [] (reading_of (lent self l.text l) r)) s (lent self l.text l) result }
        ensures kind { (event_kinds_of result).step ≡ true }
    {
        if self.timed & (self.timeout == 0) {
            return Act::TimesOut;
        }
        Act::Nothing
    }
}

impl Flow {
    // The rules in order.
    fn taken_as(self, key: Key, ends: bool, t: Terms) -> Taken
        requires { CountedTyped self.typed }
        ensures { (s : List ℕ) (l : Line) (r : Reading) → self.pending ≡ Some r → CanTakeKey r self t →
            ends ≡ in_set (set_of l.set) (rules.raised_by codes (reading_of (lent t l.text l) r) (key_of key).char) →
            Meets (takes_key (on_flow self (lent t l.text l)) r then rules.takes codes (key_of key)
            (idle_at_zero (on_flow self (lent t l.text l)) r)) s
            (on_flow self (lent t l.text l)) (Takes result) }
    {
        let typed = self.typed;
        let c = key.code;
        if typed.is_partial() {
            return Taken::Token(c);
        }
        if key.quoted {
            return Taken::Data(c);
        }
        if t.is_token_start(c) {
            return Taken::Token(c);
        }
        let raised = t.raised_by(c);
        t.takes_plain(raised, ends)
    }

    // What a step looks up, from the first key and the read's set.
    pub(crate) fn look_up_for_step(&self, first: Key, set: Set, t: Terms) -> Lookup
        requires { CountedTyped self.now.typed }
        ensures { (s : List ℕ) (l : Line) → Bounded (on_flow self.now (lent t l.text l)) → first ≡ get_or l.keys 0 no_key → set ≡ l.set →
            LookedUpForStep s (on_flow self.now (lent t l.text l)) result }
    {
        let typed = self.typed;
        let raised = t.raised_by(first.code);
        let ends = set.has(raised);
        Lookup {
            held: typed.is_held(),
            taken: self.taken_as(first, ends, t),
        }
    }

    // A locked step does nothing. A whole held token goes first, then the first key.
    pub(crate) fn act_of_step(self, lookup: Lookup, t: Terms) -> Act
        requires { CountedTyped self.typed }
        ensures rule { (s : List ℕ) (l : Line) → LookedUpForStep s (on_flow self (lent t l.text l)) lookup →
            Meets (rules.steps codes) s (on_flow self (lent t l.text l)) result }
        ensures kind { (event_kinds_of result).step ≡ true }
    {
        if self.terminal.locked {
            return Act::Nothing;
        }
        if self.pending.is_none() {
            return Act::Nothing;
        }
        if lookup.held {
            return Act::TakesToken;
        }
        if self.typed.keys_len == 0 {
            return t.act_without_key();
        }
        Act::Takes(lookup.taken)
    }

    // Idle rises by one; at TIMEOUT the read completes.
    fn act_of_idling(self, r: Reading, t: Terms) -> Act
        requires { self.pending ≡ Some r }
        ensures rule { (s : List ℕ) (l : Line) →
            Meets (rules.idles codes (reading_of (lent t l.text l) r)) s (on_flow self (lent t l.text l)) result }
        ensures kind { (event_kinds_of result).tick ≡ true }
    {
        let idle = r.idle as u32 + 1;
        if t.timeout as u32 <= idle {
            return Act::TimesOut;
        }
        Act::Idles(idle as u16)
    }

    // Idle counts while a read with Q and TIMEOUT over 0 waits for a key.
    pub(crate) fn act_of_tick(self, held: bool, t: Terms) -> Act
        requires { CountedTyped self.typed }
        ensures rule { (s : List ℕ) (l : Line) → held ≡ is_whole (codes_of self.typed) →
            Meets (rules.ticks codes) s (on_flow self (lent t l.text l)) result }
        ensures kind { (event_kinds_of result).tick ≡ true }
    {
        let Some(r) = self.pending else {
            return Act::Nothing;
        };
        let typed = self.typed;
        if t.timed & (0 < t.timeout) & (typed.keys_len == 0) & !held {
            return self.act_of_idling(r, t);
        }
        Act::Nothing
    }
}

impl Work {
    // The first key no longer waits, and this read, no longer idle, is pending. `move_keys` moves the others.
    fn takes_key(self, read: Reading) -> Work
        requires keys_len_nonzero { 0 < self.flow.typed.keys_len }
        requires input_len_bound { read.input_len ≤ input_size }
        ensures { HasTakenKey read self result }
    {
        let mut next = self;
        next.flow.typed.keys_len -= 1;
        next.flow.pending = Some(read);
        next
    }

    // The first key is taken, and meets its rule.
    pub(crate) fn takes(
        self,
        k: Taken,
        r: Reading,
        text: &mut [u8; rules::INPUT_SIZE],
        t: Terms,
        terminal: &mut [u8],
        messages: &mut [u8],
    ) -> Work
        requires can_take_key { CanTakeKey r self.flow t }
        ensures rule { (l : Line) → length l.keys ≡ type_ahead_size →
            DoesAcross (λ j. takes_key (on_flow self.flow j) r then taken_rule k (idle_at_zero (on_flow self.flow j) r))
            (lent t text.old l) self
            terminal.old messages.old (lent t text.new (shifted self.flow l)) result terminal.new messages.new }
    {
        let read = r.with_idle(0);
        let taken = self.takes_key(read);
        match k {
            Taken::Token(c) => taken.adds_to_token(c, read, text, t, messages),
            Taken::Terminator(c) => taken.terminates(c, read, text, t, terminal, messages),
            Taken::Edit(c) => taken.edits(c, read, text, t, terminal, messages),
            Taken::Data(c) => taken.takes_data(c, read, text, t, terminal, messages),
        }
    }

    // A tick that does not reach TIMEOUT.
    pub(crate) fn sets_idle(self, r: Reading, idle: u16) -> Work
        requires { r.input_len ≤ input_size }
        ensures rule { (l : Line) (a m : List ℕ) → DoesOn (λ k. rules.sets_idle idle (reading_of k r)) l self a m result a m }
    {
        let next = r.with_idle(idle);
        self.with_read(next)
    }
}
