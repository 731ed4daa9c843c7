// Loading settings: a section that is found sets its part of the line; where it is empty, the part stays as it is.
ghost use Rattle.std.specs.Prelude.{◌<◌, ◌≡◌, [], length};
ghost use Rattle.std.specs.Fn.{FnOnceReturnsAt};
ghost use Rattle.rules.specs.Choice.{is_on};
ghost use Rattle.rules.specs.Settings.{switch_count, switch_value, switches_in};
ghost use Rattle.rules.specs.Calls as rules;
ghost use Rattle.characteristics.specs.View.{switches_of};
ghost use Rattle.line.specs.Bounded.{Counted, Bounded};
ghost use Rattle.line.specs.Answers.{Answers};
ghost use Rattle.console.specs.Loading.{Loads};

use characteristics::Switches;
use line::{Answer, Line};
use rules::refusals::Refusal;
use sets::Set;

fn switch_in(section: &[u8], n: u8) -> bool
    requires { n < switch_count }
    ensures { result ≡ is_on (switch_value section.now n) }
{
    let at = n as usize * settings::SWITCH_SIZE + settings::SELECTOR_BYTES;
    fields::byte_at(section, at) == fields::ON
}

fn switches_in(section: &[u8]) -> Switches
    ensures { switches_of result ≡ switches_in section.now }
{
    Switches {
        raising: switch_in(section, 0),
        echoing: switch_in(section, 1),
        recognising: switch_in(section, 2),
        prompting: switch_in(section, 3),
    }
}

// What a section says; where it is empty, what was there.
fn found_or<T: Copy, F: FnOnce(&[u8]) -> T>(section: &[u8], kept: T, says: F) -> T
    requires { F.IsAlwaysCallable says }
    ensures none { length section.now ≡ 0 → result ≡ kept }
    ensures some { (length section.now ≡ 0 → ⊥) → FnOnceReturnsAt F.FnOnce says section.now result }
{
    if section.is_empty() {
        return kept;
    }
    says(section)
}

// With what two sound records say.
fn loaded<'a>(line: Line, own: &'a [u8], site: &'a [u8]) -> Line
    requires { Counted line }
    ensures { Loads own.now site.now line result }
{
    let characteristics = settings::section(settings::CHARACTERISTICS_SECTION, own, site);
    let attributes = settings::section(settings::ATTRIBUTES_SECTION, own, site);
    let set = settings::section(settings::SET_SECTION, own, site);
    let largest_read = settings::section(settings::LARGEST_READ_SECTION, own, site);
    let mut next = line;
    next.switches = found_or(characteristics, line.switches, switches_in);
    next.attributes = found_or(attributes, line.attributes, settings::table_of);
    next.last_set = found_or(set, line.last_set, Set::of);
    next.largest_read = found_or(largest_read, line.largest_read, |s| fields::word_at(s, 0));
    next
}

// The line's own record and the site's; a record that breaks a rule is refused.
pub fn load<'a>(line: Line, own: &'a [u8], site: &'a [u8]) -> Answer
    requires { Bounded line }
    ensures { Answers (rules.load own.now site.now) line [] [] result [] [] }
{
    if !(settings::is_sound(own) & settings::is_sound(site)) {
        return Answer {
            line,
            number: Refusal::UnsoundRecord.number(),
            terminal: 0,
            messages: 0,
        };
    }
    let next = loaded(line, own, site);
    Answer {
        line: next,
        number: rules::ACCEPTED,
        terminal: 0,
        messages: 0,
    }
}
