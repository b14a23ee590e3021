//! Tests of boards, of looks at them, and of the call that brings a board to its end.
#![tactic(auto)]

#[cfg(test)]
mod board;
#[cfg(test)]
mod calls;
#[cfg(test)]
mod claims;
#[cfg(test)]
mod ending;
#[cfg(test)]
mod looks;
#[cfg(test)]
mod states;
#[cfg(test)]
mod threads;
