//! The static products of a circuit, and what they need of a layout.
#![tactic(auto)]

mod needs;
mod pulls;

pub use needs::need;
pub use pulls::{kind_of, statics};
