// Columns and lines.
ghost use Rattle.std.specs.Prelude.{◌≡◌, ◌+◌, ◌%◌, min, eqb};
ghost use Rattle.rules.specs.Choice.{pick};
ghost use Rattle.rules.specs.Numbers.{top_column};
ghost use Rattle.rules.specs.Screen as rules;
ghost use Rattle.screen.specs.View.{screen_view};

use crate::Screen;
use rules::characters;

// Marks are the codes of two ranges; the first of them is the space.
const FIRST_MARK: u8 = characters::SP;

const LAST_MARK: u8 = 126;

const FIRST_HIGH_MARK: u8 = 160;

const LAST_HIGH_MARK: u8 = 254;

// Columns from one tab stop to the next.
const TAB_WIDTH: u16 = 8;

// Changes of position count modulo these.
const POSITIONS: u16 = 256;

// A mark or a space: what takes a column. One expression is one case to prove; the two ranges as patterns are five.
pub(crate) fn is_mark(b: u8) -> bool
    ensures { result ≡ rules.is_mark b }
{
    (FIRST_MARK <= b) & (b <= LAST_MARK) | (FIRST_HIGH_MARK <= b) & (b <= LAST_HIGH_MARK)
}

// Spaces from a column to the next multiple of 8.
pub(crate) fn to_tab(column: u16) -> u16
    ensures { result ≡ rules.to_tab column }
{
    TAB_WIDTH - column % TAB_WIDTH
}

// A column so much further, up to the top.
pub(crate) fn further(column: u16, by: u16) -> u16
    ensures { result ≡ min top_column (column + by) }
{
    column.saturating_add(by).min(rules::TOP_COLUMN)
}

// How far a position moved, modulo 256.
pub fn change(now: u16, before: u16) -> u8
    ensures { result ≡ rules.change now before }
{
    (now.wrapping_sub(before) % POSITIONS) as u8
}

impl Screen {
    // The screen after a byte.
    pub(crate) fn after(self, b: u8) -> Screen
        ensures { screen_view result ≡ rules.shown (screen_view self) b }
    {
        Screen {
            column: self.column_after(b),
            line: self.line_after(b),
            after_cr: b == characters::CR,
        }
    }

    fn column_after(self, b: u8) -> u16
        ensures { result ≡ rules.column_after self.column b }
    {
        if is_mark(b) {
            return further(self.column, 1);
        }
        match b {
            characters::CR => 0,
            characters::BS => self.column.saturating_sub(1),
            characters::HT => further(self.column, to_tab(self.column)),
            _ => self.column,
        }
    }

    // Lines count modulo 256.
    fn line_after(self, b: u8) -> u8
        ensures { result ≡ pick (eqb b rules.LF) ((self.line + 1) % rules.positions) self.line }
    {
        if b == characters::LF {
            self.line.wrapping_add(1)
        } else {
            self.line
        }
    }
}
