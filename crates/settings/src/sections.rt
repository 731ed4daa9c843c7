// Where the sections stand: behind the form, each behind its length. All are total: a section that is cut short ends with the record.
ghost use Rattle.std.specs.Prelude.{◌≡◌, ◌+◌, ◌≤◌, min, length};
ghost use Rattle.rules.specs.Messages.Layout.{word_bytes};
ghost use Rattle.rules.specs.Settings.{behind_form, section_length, front_section, are_whole, section_behind, section_in};

use rules::forms;

const FORM_BYTES: usize = 1;

// In the type of a length.
const WORD_BYTES: usize = forms::WORD_BYTES as usize;

// What stands behind the form.
pub(crate) fn behind_form(record: &[u8]) -> &[u8]
    ensures { result.now ≡ behind_form «record».now }
{
    &record[record.len().min(FORM_BYTES)..]
}

// How far the next section reaches, its length included.
fn front_end(rest: &[u8]) -> usize
    ensures { result ≡ word_bytes + section_length rest.now }
{
    WORD_BYTES + fields::word_at(rest, 0) as usize
}

// Where it ends: where the record ends if it is cut short.
fn kept_end(rest: &[u8]) -> usize
    ensures { result ≡ min (length rest.now) (word_bytes + section_length rest.now) }
{
    rest.len().min(front_end(rest))
}

// The next section.
fn front(rest: &[u8]) -> &[u8]
    ensures { result.now ≡ front_section rest.now }
{
    &rest[rest.len().min(WORD_BYTES)..kept_end(rest)]
}

// So many sections, none cut short, and nothing behind the last.
pub(crate) fn are_whole(n: u8, sections: &[u8]) -> bool
    ensures { result ≡ are_whole n sections.now }
{
    let mut rest = sections;
    for _ in 0..n {
        let end = front_end(rest);
        if rest.len() < end {
            return false;
        }
        rest = &rest[end..];
    }
    rest.is_empty()
}

// The section behind so many others.
fn section_behind(n: u8, sections: &[u8]) -> &[u8]
    ensures { result.now ≡ section_behind n sections.now }
{
    let mut rest = sections;
    for _ in 0..n {
        let end = kept_end(rest);
        rest = &rest[end..];
    }
    front(rest)
}

// Section n, counted from 1: a number, as in the public `section`, which takes any.
pub(crate) fn section_in(n: u8, record: &[u8]) -> &[u8]
    requires { 1 ≤ n }
    ensures { result.now ≡ section_in n «record».now }
{
    section_behind(n - 1, behind_form(record))
}
