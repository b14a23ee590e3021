//! Factories of magic states. A factory's run is eleven steps; a run that isn't listed as failing
//! makes a state at its last step. States are numbered over all factories in the order made.
#![tactic(auto)]

mod factory;
mod laws;
mod pool;

pub use laws::{law_apart, law_once};
pub use pool::Pool;

/// A factory and its store: how many ready states it can keep. A run begins only while fewer are ready.
#[derive(Clone, Copy, Debug, PartialEq, Eq)]
pub struct Maker {
    /// The factory, numbered from 0, below 16.
    pub factory: u32,
    /// Its store, 1 to 16.
    pub store: u32,
}

/// A run that is listed as failing.
#[derive(Clone, Copy, Debug, PartialEq, Eq)]
pub struct Fail {
    /// The factory.
    pub factory: u32,
    /// The run of that factory, numbered from 0.
    pub run: u32,
}

/// What a step did.
#[derive(Clone, Copy, Debug, PartialEq, Eq)]
pub enum Stepped {
    /// The run goes on.
    Running,
    /// The run has made a state.
    Made {
        /// The state's number over all factories.
        state: u32,
    },
    /// The run was listed, and has failed.
    Failed {
        /// The run's number in its factory.
        run: u32,
    },
}

/// Why a step was refused.
#[derive(Clone, Copy, Debug, PartialEq, Eq)]
pub enum StepRefused {
    /// There is no such factory.
    NoFactory,
    /// A run would begin, and the store is full.
    Stocked {
        /// How many states are ready: as many as the store holds.
        ready: u32,
    },
}
