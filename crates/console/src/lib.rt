// What is done with a line besides its four calls: how a console begins, what it is loaded with, and the count that can be asked of it.
#![tactic(auto)]

ghost use Rattle.std.specs.Prelude.{◌≡◌};
ghost use Rattle.line.specs.View.{view};
ghost use Rattle.line.specs.Bounded.{IsFresh};

use characteristics::Switches;
use line::{Flow, Key, Line, Terms};
use sets::Set;

mod loading;

pub use crate::loading::load;

pub fn fresh() -> Line
    ensures { IsFresh result }
{
    let switches = Switches {
        raising: false,
        echoing: true,
        recognising: false,
        prompting: false,
    };
    let set = Set::universal();
    Line {
        attributes: [0u8; rules::CODE_COUNT],
        keys: [Key::default(); rules::TYPE_AHEAD_SIZE],
        text: [0u8; rules::INPUT_SIZE],
        set,
        last_set: set,
        largest_read: rules::INPUT_SIZE as u16,
        initiated: false,
        switches,
        terms: Terms::default(),
        flow: Flow::default(),
    }
}

// Keys dropped for want of room.
pub fn dropped(line: Line) -> u16
    ensures { result ≡ (view line).terminal.dropped }
{
    line.flow.terminal.dropped
}
