//! Tests of live runs: that outcomes are delivered while routers work, and by whom.
#![tactic(auto)]

#[cfg(test)]
mod early;
#[cfg(test)]
mod job;
#[cfg(test)]
mod lines;
#[cfg(test)]
mod rows;
