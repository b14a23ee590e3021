//! The lines on standard error: why a command's output isn't all there.
#![tactic(auto)]

mod kinds;
mod line;
mod saying;
mod writing;

pub use line::FaultLine;
pub use saying::say_line;
pub use writing::{write_number, write_numbered};
