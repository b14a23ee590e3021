//! What `patchrun` does.
#![tactic(auto)]

mod big;
mod carry;
mod fault;
mod names;
mod route;
mod run;
mod saying;
mod side;
mod sides;
mod top;

pub use fault::RunFault;
pub use top::run_main;
