//! Tests of the lowest crates of the model and of the lists and numbers that threads share, through
//! their public calls.
#![tactic(auto)]

#[cfg(test)]
mod layers;
#[cfg(test)]
mod log;
#[cfg(test)]
mod pool;
#[cfg(test)]
mod share;
#[cfg(test)]
mod source;
