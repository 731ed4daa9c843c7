// What a line of the script says. The bytes of messages and of settings records are kept apart: here are their counts.
use crate::answers::Told;

// The lengths at which the line is lent its areas.
#[derive(Clone, Copy)]
pub struct Lengths {
    pub terminal: u16,
    pub messages: u16,
}

// A fresh line's.
impl Default for Lengths {
    fn default() -> Lengths {
        Lengths {
            terminal: rules::TERMINAL_AREA as u16,
            messages: rules::MESSAGE_AREA as u16,
        }
    }
}

// A call on the line that it writes to both areas for.
#[derive(Clone, Copy)]
pub enum Call {
    Key(u8),
    Step,
    Tick,
    Host(usize),
}

#[derive(Clone, Copy)]
pub enum Order {
    Call(Call),
    // the line is loaded with its own settings record and the site's
    Load(u16, u16),
    Dropped,
    Fresh,
    Lengths(Lengths),
    // what needs no line
    Tell(Told),
}
