// Writing the fourteen messages into a lent area.
#![tactic(auto)]

mod encoding;
mod fits;
mod lists;
mod send;
mod spans;

pub use crate::encoding::{copy, encode};
pub use crate::send::put_framed;
