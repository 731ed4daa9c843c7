// What a typed character echoes.
ghost use Rattle.std.specs.Prelude.{◌≡◌, length};
ghost use Rattle.rules.specs.Screen as rules;
ghost use Rattle.screen.specs.View.{echoed};

use crate::columns::{is_mark, to_tab};
use rules::characters;

// From a control to the character that stands behind its caret.
const CONTROL_SHIFT: u8 = 64;

// A caret, and the character behind it.
const CONTROL_WIDTH: u16 = 2;

// A mark as itself, a tab as spaces, a control behind a caret, and nothing else.
#[derive(Clone, Copy)]
pub(crate) enum Echo {
    Mark(u8),
    Spaces(u16),
    Control(u8),
    Nothing,
}

impl Echo {
    // What a character echoes at a column.
    pub(crate) fn of(column: u16, n: u8) -> Echo
        ensures { echoed result ≡ rules.echo column n }
    {
        if is_mark(n) {
            return Echo::Mark(n);
        }
        match n {
            characters::HT => Echo::Spaces(to_tab(column)),
            0..=characters::LAST_CONTROL => Echo::Control(n + CONTROL_SHIFT),
            characters::DEL => Echo::Control(characters::QUESTION),
            _ => Echo::Nothing,
        }
    }

    // How many marks and spaces it is.
    pub(crate) fn width(self) -> u16
        ensures { result ≡ length (echoed self) }
    {
        match self {
            Echo::Mark(_) => 1,
            Echo::Spaces(count) => count,
            Echo::Control(_) => CONTROL_WIDTH,
            Echo::Nothing => 0,
        }
    }
}
