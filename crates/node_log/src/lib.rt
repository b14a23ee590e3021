//! A log: a list that grows at its end and takes no memory, since each node is brought by the caller.
//! It is singly linked, with raw pointers to its first and its last node, and may go from thread to
//! thread where its values may.
#![tactic(auto)]

mod block;
mod chain;
mod log;
mod node;

pub use log::{Log, Walk};
pub use node::Node;
