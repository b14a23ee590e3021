//! Tests of boards that threads share under a turn.
#![tactic(auto)]

#[cfg(test)]
mod board;
#[cfg(test)]
mod calls;
#[cfg(test)]
mod passes;
#[cfg(test)]
mod refusals;
#[cfg(test)]
mod stale;
#[cfg(test)]
mod threads;
#[cfg(test)]
mod tries;
#[cfg(test)]
mod waiting;
