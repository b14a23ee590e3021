//! Regions in free cells, or the exact reason against one.
#![tactic(auto)]

mod answer;
mod certificate;
mod free;
mod growth;
mod kept;
mod marks;
mod ports;
mod tree;
mod walk;
mod ways;

pub use answer::{
    JoiningPlanner, KeepingPlanner, Planned, Planner, law_joined, law_region_fits, plan,
};
