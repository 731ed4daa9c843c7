// Tokens: where one stands in the grammar of escape sequences.
ghost use Rattle.std.specs.Prelude.{◌≡◌};
ghost use Rattle.rules.specs.Token as rules;
ghost use Rattle.line.specs.TokenChanges.{place_of};

use rules::characters;

// The bytes of the grammar by what they do. The forms ESC, ESC ; and ESC ? may have a lower final byte.
const FIRST_INTERMEDIATE: u8 = 32;

const LAST_INTERMEDIATE: u8 = 47;

const FIRST_PARAMETER: u8 = 48;

const LAST_PARAMETER: u8 = 63;

const FIRST_LOW_FINAL: u8 = 48;

const FIRST_FINAL: u8 = 64;

const LAST_FINAL: u8 = 126;

// How far the bytes of a token go.
#[derive(Clone, Copy, Debug, PartialEq, Eq)]
enum Place {
    // no byte
    Empty,
    // straight after ESC
    Escape,
    // an intermediate byte may follow, or a final byte from the lowest on
    Middle,
    // a parameter byte may follow, an intermediate or a final one
    Parameters,
    // an intermediate byte may follow, or a final one
    Intermediates,
    // a final byte ended it
    Valid,
    // a byte outside the grammar, or too many
    Invalid,
}

impl Place {
    // The place after one byte more.
    fn next(self, n: u8) -> Place
        ensures { place_of result ≡ rules.next (place_of self) n }
    {
        match self {
            Place::Empty => begun(n),
            Place::Escape => after_escape(n),
            Place::Middle => ended(Place::Middle, FIRST_LOW_FINAL, n),
            Place::Parameters => after_parameter(n),
            Place::Intermediates => ended(Place::Intermediates, FIRST_FINAL, n),
            Place::Valid | Place::Invalid => Place::Invalid,
        }
    }

    // No byte may follow.
    fn is_finished(self) -> bool
        ensures { result ≡ rules.is_finished (place_of self) }
    {
        matches!(self, Place::Valid | Place::Invalid)
    }
}

// The first byte.
fn begun(n: u8) -> Place
    ensures { place_of result ≡ rules.next rules.empty n }
{
    match n {
        characters::ESC => Place::Escape,
        characters::CSI => Place::Parameters,
        _ => Place::Invalid,
    }
}

// An intermediate byte leads to the place between, a final byte from the lowest on ends the token, any other makes it invalid. As a match
// its last arm is reached in two ways, and what is known there has no name.
fn ended(between: Place, low: u8, n: u8) -> Place
    ensures { place_of result ≡ rules.ended (place_of between) low n }
{
    if (FIRST_INTERMEDIATE <= n) & (n <= LAST_INTERMEDIATE) {
        return between;
    }
    if (low <= n) & (n <= LAST_FINAL) {
        return Place::Valid;
    }
    Place::Invalid
}

// Straight after ESC four bytes begin forms of their own.
fn after_escape(n: u8) -> Place
    ensures { place_of result ≡ rules.next rules.escape n }
{
    match n {
        characters::SEMICOLON | characters::QUESTION => Place::Middle,
        characters::LETTER_O => Place::Intermediates,
        characters::BRACKET => Place::Parameters,
        _ => ended(Place::Middle, FIRST_LOW_FINAL, n),
    }
}

fn after_parameter(n: u8) -> Place
    ensures { place_of result ≡ rules.next rules.parameters n }
{
    match n {
        FIRST_PARAMETER..=LAST_PARAMETER => Place::Parameters,
        _ => ended(Place::Intermediates, FIRST_FINAL, n),
    }
}

// How far the bytes go.
fn place_from(token: &[u8]) -> Place
    ensures { place_of result ≡ rules.place_from rules.empty token.now }
{
    let mut place = Place::Empty;
    for &b in token {
        place = place.next(b);
    }
    place
}

// The last byte that fits makes it invalid unless it is final.
fn standing(token: &[u8]) -> Place
    ensures { place_of result ≡ rules.standing token.now }
{
    let place = place_from(token);
    if (rules::TOKEN_SIZE <= token.len()) & !place.is_finished() {
        return Place::Invalid;
    }
    place
}

pub(crate) fn is_whole(token: &[u8]) -> bool
    ensures { result ≡ rules.is_whole token.now }
{
    // Mostly there is no token, and nothing to walk through.
    if token.is_empty() {
        return false;
    }
    standing(token).is_finished()
}

pub(crate) fn is_valid(token: &[u8]) -> bool
    ensures { result ≡ rules.is_valid (rules.standing token.now) }
{
    standing(token) == Place::Valid
}
