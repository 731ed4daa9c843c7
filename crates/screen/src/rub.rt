// Rubbing out: how many marks a text's end is on the screen.
ghost use Rattle.std.specs.Prelude.{◌≡◌, ◌+◌, min, eqb, length};
ghost use Rattle.rules.specs.Choice.{pick, any_is};
ghost use Rattle.rules.specs.Numbers.{top_column};
ghost use Rattle.rules.specs.Screen as rules;
ghost use Rattle.screen.specs.Marks.{is_tab, Finds};

use crate::RubOut;
use crate::columns::further;
use crate::echo::Echo;
use rules::characters;

// The column behind so many marks and spaces.
fn column_behind(column: u16, marks: u16) -> u16
    ensures { result ≡ pick (eqb marks 0) column (min top_column (column + marks)) }
{
    if marks == 0 {
        column
    } else {
        further(column, marks)
    }
}

// The column behind a text's echo, and how many columns were worked out to find it.
fn column_behind_text(column: u16, text: &[u8]) -> (u16, usize)
    ensures cursor { result.0 ≡ rules.column_after_all column (rules.echo_all column text.now) }
    ensures worked_out { result.1 ≡ length text.now }
{
    let mut cursor = column;
    let mut worked_out = 0;
    for &n in text {
        cursor = column_behind(cursor, Echo::of(cursor, n).width());
        worked_out += 1;
    }
    (cursor, worked_out)
}

fn holds_tab(text: &[u8]) -> bool
    ensures { result ≡ any_is is_tab text.now }
{
    text.contains(&characters::HT)
}

// The marks and spaces that stand on the screen for a text behind its first characters, shown from a column on. A character's
// column is worked out once or not at all. Only a tab's width depends on the column before it: where none is deleted, the kept
// characters are skipped, and then the cursor is not the column on the screen.
pub fn find_marks(kept: usize, column: u16, text: &[u8]) -> RubOut
    ensures { Finds kept column text.now result }
{
    let (front, deleted) = text.split_at(kept.min(text.len()));
    let replayed = if holds_tab(deleted) { front } else { &[] };
    let (mut cursor, mut columns) = column_behind_text(column, replayed);
    let mut marks: usize = 0;
    for &n in deleted {
        let more = Echo::of(cursor, n).width();
        marks = marks.saturating_add(more as usize);
        cursor = column_behind(cursor, more);
        columns += 1;
    }
    RubOut { marks, columns }
}
