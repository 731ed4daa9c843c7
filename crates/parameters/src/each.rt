// A walk of a list, a parameter at a time.
ghost use Rattle.std.specs.Prelude.{◌≡◌, ◌-◌, length};
ghost use Rattle.std.specs.Iterator.{at_most};
ghost use Rattle.parameters.specs.Walks.{parameter_steps};

use crate::{Parameter, parameter_at};

// The parameters of a list that are left, in order. A last one that is cut short is one of them, its missing bytes 0.
#[derive(Drop)]
pub struct Parameters<'a> {
    // the message's type, a number as `parameter_at` takes it
    kind: u8,
    list: &'a [u8],
    // where the next one begins
    at: usize,
}

impl<'a> Parameters<'a> {
    // All parameters of a list, which stands in a message of this type.
    pub fn new(kind: u8, list: &'a [u8]) -> Parameters<'a>
        ensures kind { result.kind ≡ kind }
        ensures list { result.list.now ≡ list.now }
        ensures at { result.at ≡ 0 }
    {
        Parameters::starting_at(kind, list, 0)
    }

    // Those from a place on.
    pub(crate) fn starting_at(kind: u8, list: &'a [u8], at: usize) -> Parameters<'a>
        ensures kind { result.kind ≡ kind }
        ensures list { result.list.now ≡ list.now }
        ensures at { result.at ≡ at }
    {
        Parameters { kind, list, at }
    }
}

impl<'a> Iterator for Parameters<'a> {
    type Item = Parameter;

    ghost next_gives = { parameter_steps };

    ghost remaining = { λ s. at_most (length s.list.now - s.at) };

    // Inlined with `parameter_at`.
    #[inline(always)]
    fn next(&mut self) -> Option<Parameter> {
        if self.list.len() <= self.at {
            return None;
        }
        let p = parameter_at(self.kind, self.list, self.at);
        self.at = p.next;
        Some(p)
    }
}
