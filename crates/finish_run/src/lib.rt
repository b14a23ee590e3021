//! A board brought to its end on one thread.
#![tactic(auto)]

mod calls;
mod ending;
mod law;
mod making;
mod phases;
mod serving;

pub use ending::{FinishMemory, finish, finish_by};
pub use law::law_by_zero;
