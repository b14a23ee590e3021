//! The words of the programs: which command they give, and the names and numbers in it.
#![tactic(auto)]

mod run;
#[cfg(test)]
mod tests;
mod tool;

pub use run::{RunCommand, run_command};
pub use tool::{ToolCommand, tool_command};
