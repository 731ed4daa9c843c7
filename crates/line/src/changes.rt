// A call goes on with one part of its flow changed: here the parts that have counts, so that what is asked of them stands once.
ghost use Rattle.std.specs.Prelude.{◌≤◌};
ghost use Rattle.rules.specs.Numbers.{input_size};
ghost use Rattle.line.specs.Bounded.{CountedTyped};
ghost use Rattle.line.specs.With.{GoesOn, on_typed, on_read};

use crate::{Reading, Typed, Work};

impl Work {
    pub(crate) fn with_typed(self, t: Typed) -> Work
        requires { CountedTyped t }
        ensures { GoesOn (on_typed t self.flow) self result }
    {
        let mut next = self;
        next.flow.typed = t;
        next
    }

    // With this read pending.
    pub(crate) fn with_read(self, read: Reading) -> Work
        requires { read.input_len ≤ input_size }
        ensures { GoesOn (on_read read self.flow) self result }
    {
        let mut next = self;
        next.flow.pending = Some(read);
        next
    }
}
