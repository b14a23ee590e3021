//! A board that threads share under a turn, with one history for all of them.
//!
//! A table of atomic words has the turn, the length of the history, and the board in its slot. Each thread has a
//! pass. A call takes the turn or is Busy, and never waits; while it holds the turn it has the board to itself.
#![tactic(auto)]

mod grid;
mod laws;
mod plays;
mod replies;
mod steps;
mod view;

pub use grid::{CloseRefused, Grid, OpenMemory, Pass};
pub use laws::{law_moment, law_threads};
pub use replies::{TryClaim, TryDeliver, TryLook, TryRelease, TryStep, TryWaits};
pub use view::{Gone, View};
