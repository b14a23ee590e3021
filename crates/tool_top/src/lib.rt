//! What `patchtool` does.
#![tactic(auto)]

mod fault;
mod layers;
mod layout;
mod least;
mod lower;
mod migrate;
mod saying;
mod schedule;
mod serial;
mod slices;
mod top;
mod verify;

pub use fault::ToolFault;
pub use top::tool_main;
