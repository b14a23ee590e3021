//! Numbers that threads share: each number below a bound is handed out once over all hands. A hand
//! draws from one word by single atomic steps, and keeps the numbers that are put back.
#![tactic(auto)]

mod laws;
mod rule;
mod share;
mod steps;
mod view;

pub use laws::{law_once, law_threads};
pub use share::{Hand, Share};
pub use view::View;
