// Type-ahead and the token: what is asked of them, and how they change.
ghost use Rattle.std.specs.Prelude.{◌≡◌, ◌<◌, not, ◌||◌, List};
ghost use Rattle.rules.specs.Choice.{is_empty};
ghost use Rattle.rules.specs.Numbers.{token_size};
ghost use Rattle.rules.specs.State.{codes};
ghost use Rattle.rules.specs.Token as rules;
ghost use Rattle.rules.specs.Steps.{token_code};
ghost use Rattle.line.specs.declared.Key.{Key};
ghost use Rattle.line.specs.View.{keys_of, token_of};
ghost use Rattle.line.specs.Bounded.{CountedTyped};
ghost use Rattle.line.specs.Completions.{code_of};
ghost use Rattle.line.specs.TokenChanges.{codes_of, untokened, tokened, emptied};

use crate::Typed;
use crate::read_data::Completion;
use crate::tokens::{is_valid, is_whole};

impl Typed {
    // A whole token is held.
    pub(crate) fn is_held(self) -> bool
        requires { CountedTyped self }
        ensures { result ≡ rules.is_whole (codes_of self) }
    {
        is_whole(&self.token[..self.token_len as usize])
    }

    // One is begun and not whole.
    pub(crate) fn is_partial(self) -> bool
        requires { CountedTyped self }
        ensures { result ≡ rules.is_partial (codes_of self) }
    {
        (self.token_len != 0) & !self.is_held()
    }

    // How its token completes a read.
    pub(crate) fn token_completion(self) -> Completion
        requires { CountedTyped self }
        ensures { code_of result ≡ token_code codes (token_of self) }
    {
        if is_valid(&self.token[..self.token_len as usize]) {
            return Completion::ValidToken;
        }
        Completion::InvalidToken
    }

    // Type-ahead or a held token remains.
    pub(crate) fn has_more_data(self) -> bool
        requires { CountedTyped self }
        ensures { (keys : List Key) → result ≡ not (is_empty (keys_of self.keys_len keys)) || rules.is_whole (codes_of self) }
    {
        (self.keys_len != 0) | self.is_held()
    }

    pub(crate) fn without_token(self) -> Typed
        ensures { result ≡ untokened self }
    {
        Typed {
            token_len: 0,
            ..self
        }
    }

    // One byte more of a token.
    pub(crate) fn tokened(self, c: u8) -> Typed
        requires counted_typed { CountedTyped self }
        requires token_len_bound { self.token_len < token_size }
        ensures { result ≡ tokened c self }
    {
        let mut next = self;
        next.token[self.token_len as usize] = c;
        next.token_len += 1;
        next
    }

    // Neither keys nor a token.
    pub(crate) fn emptied(self) -> Typed
        ensures { result ≡ emptied self }
    {
        Typed {
            keys_len: 0,
            token_len: 0,
            ..self
        }
    }
}
