//! Least regions for up to six sides.
#![tactic(auto)]

mod answer;
mod free;
mod grow;
mod merge;
mod picks;
mod shrink;
mod table;
mod trace;
mod width;

pub use answer::{LeastPlanned, LeastPlanner, least_plan};
