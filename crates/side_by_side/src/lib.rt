//! Several programs joined into one, which runs on one grid, and what each has of the joined run.
//!
//! The programs stand one after another, each on qubits and bits of its own, so that their products commute and none sees
//! another: each has the axes and the bits that it has alone.
#![tactic(auto)]

mod axes;
mod joining;
mod law;
mod place;
mod sums;
mod tables;

pub use axes::axes_of;
pub use joining::{JoinFault, Joined, Span, Spans, join};
pub use law::{law_alone, law_claims, law_joined, law_statics, law_unseen};
pub use tables::join_outcomes;
