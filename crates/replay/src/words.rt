// What a line of the script begins with.

#[derive(Clone, Copy)]
pub enum Word {
    Key,
    Step,
    Tick,
    Host,
    Dropped,
    Read,
    Load,
    Section,
    Move,
    Areas,
    Fresh,
}

impl Word {
    pub(crate) fn of(byte: u8) -> Option<Word> {
        match byte {
            b'K' => Some(Word::Key),
            b'S' => Some(Word::Step),
            b'T' => Some(Word::Tick),
            b'M' => Some(Word::Host),
            b'D' => Some(Word::Dropped),
            b'R' => Some(Word::Read),
            b'L' => Some(Word::Load),
            b'G' => Some(Word::Section),
            b'V' => Some(Word::Move),
            b'A' => Some(Word::Areas),
            b'F' => Some(Word::Fresh),
            _ => None,
        }
    }
}

// The words that bytes stand behind.
#[derive(Clone, Copy)]
pub enum Carrier {
    Key,
    Host,
    Read,
}

// What is asked of two settings records: that the line is loaded with them, or one of their sections.
#[derive(Clone, Copy)]
pub enum Asked {
    Load,
    Section(u8),
}
