// Reads a script of calls from standard input and prints what each answered.
#![tactic(auto)]

ghost use Rattle.std.specs.Prelude.{◌≤◌, ◌≡◌, true};
ghost use Rattle.rules.specs.Messages.Codec.{all_bytes};
ghost use Rattle.line.specs.Bounded.{Bounded};
ghost use Rattle.replay.specs.Areas.{longest, Areas};
ghost use Rattle.replay.specs.Played.{Played, IsCount};

use crate::answers::Told;
use crate::orders::{Call, Lengths, Order};
use crate::output::{Output, front};
use crate::script::Script;
use fields::Span;
use line::{Answer, Line};
use std::rt::HostRuntime;

mod answers;
mod hex;
mod moving;
mod number;
mod orders;
mod output;
mod records;
mod script;
mod text;
mod words;

// Room for a message that is one byte too long: of a longer one the front is refused all the same. Two settings records,
// of 601 bytes at most each, need less.
const KEPT: usize = rules::MESSAGE_SIZE + 1;

// The longest area.
const AREA: usize = 65_535;

// What is read in one piece, and what waits to be printed.
const BLOCK: usize = 65_536;

// A proved loop has to end: no script has so many lines.
const TURNS: u64 = u64::MAX;

// A length that a line of the script can ask for.
fn size(length: u16) -> usize
    ensures { result ≤ longest }
{
    length as usize
}

// A host message's bytes.
fn message(kept: &[u8], count: usize) -> &[u8]
    ensures { all_bytes result.now ≡ true }
{
    front(kept, count)
}

// A settings record's bytes.
fn record_at(kept: &[u8], start: u16, len: u16) -> &[u8]
    ensures { all_bytes result.now ≡ true }
{
    let span = Span { start, len };
    fields::span_of(kept, span)
}

// The line loaded with the own record and the site's, which is kept behind it.
fn load(line: Line, kept: &[u8], own: u16, site: u16) -> Answer
    requires { Bounded line }
    ensures { Played line → Played result.line }
{
    console::load(line, record_at(kept, 0, own), record_at(kept, own, site))
}

// Keys dropped so far.
fn dropped(line: Line) -> u16
    ensures { IsCount line result }
{
    console::dropped(line)
}

// Takes the next line out of what the line answered, and tells the rest. Each of the four calls does so by itself: a function
// that is handed the line copies it, and a keystroke takes half as many instructions again; one answer for the four is joined
// field by field, and took a twentieth more.
macro_rules! answered {
    ($line:ident = $answer:expr) => {{
        let a = $answer;
        $line = a.line;
        Told::Answer(a.number, a.terminal, a.messages)
    }};
}

// From a fresh line to the line at the script's end. It stays a local of the loop: to hand it on is to copy it.
fn replay(mut script: Script, mut output: Output, terminal: &mut [u8], messages: &mut [u8]) -> Line
    requires { Areas terminal.old messages.old }
    ensures { Played result }
{
    let mut kept = [0u8; KEPT];
    let mut line = console::fresh();
    let mut lengths = Lengths::default();
    for _ in 0..TURNS {
        let Some(order) = script.next(&mut kept, &mut output) else {
            break;
        };
        let mut told = Told::Nothing;
        match order {
            Order::Call(call) => {
                let t = &mut terminal[..size(lengths.terminal)];
                let m = &mut messages[..size(lengths.messages)];
                told = match call {
                    Call::Key(code) => answered!(line = line.key(code, t, m)),
                    Call::Step => answered!(line = line.step(t, m)),
                    Call::Tick => answered!(line = line.tick(t, m)),
                    Call::Host(n) => answered!(line = line.host(message(&kept, n), t, m)),
                };
            }
            Order::Load(own, site) => {
                let a = load(line, &kept, own, site);
                line = a.line;
                told = Told::Number(a.number);
            }
            Order::Fresh => {
                line = console::fresh();
                lengths = Lengths::default();
            }
            Order::Dropped => told = Told::Count(dropped(line)),
            Order::Lengths(lent) => lengths = lent,
            Order::Tell(answer) => told = answer,
        }
        if told.put(&kept, terminal, messages, &mut output).is_err() {
            break;
        }
    }
    line
}

fn main(rt: HostRuntime) {
    let mut input = [0u8; BLOCK];
    let mut terminal = [0u8; AREA];
    let mut messages = [0u8; AREA];
    let mut buffer = [0u8; BLOCK];
    let script = Script::new(rt.stdin(), rt.stderr(), &mut input);
    let output = Output::new(rt.stdout(), &mut buffer);
    replay(script, output, &mut terminal, &mut messages);
}
