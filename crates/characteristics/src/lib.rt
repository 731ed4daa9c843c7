// What is set of a line: characteristics and character attributes, the last termination set, and the largest read.
#![tactic(auto)]

use sets::Set;

mod attributes;
mod reports;
mod settings;

// The four characteristics that are switches.
#[derive(Clone, Copy, Debug, PartialEq, Eq, Default)]
pub struct Switches {
    pub raising: bool,
    pub echoing: bool,
    pub recognising: bool,
    pub prompting: bool,
}

// What is set, by the host or by loading.
#[derive(Clone, Copy)]
pub struct Host {
    // Initiate was accepted
    pub initiated: bool,
    pub switches: Switches,
    pub attributes: [u8; rules::CODE_COUNT],
    // the last set given with ZZ 1 or loaded
    pub last_set: Set,
    // the largest MAX-LENGTH that a Start Read may have
    pub largest_read: u16,
}
