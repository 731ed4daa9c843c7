// What the terminal gets: bytes into its area, and where the cursor stands then. Every function takes any input, and promises the
// bytes and the screen of the rules.
#![tactic(auto)]

pub mod columns;
mod display;
mod echo;
pub mod rub;

#[derive(Clone, Copy, PartialEq, Eq, Default)]
pub struct Screen {
    pub column: u16,
    pub line: u8,
    // the last byte was CR
    pub after_cr: bool,
}

// Marks and spaces to rub out, and how many columns were worked out to find them: one for each character whose width was
// asked for.
#[derive(Clone, Copy)]
pub struct RubOut {
    pub marks: usize,
    pub columns: usize,
}
