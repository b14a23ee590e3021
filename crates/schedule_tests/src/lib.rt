//! Tests of schedules and slices by their public calls, of what no command of a program shows: answers as values, and
//! sinks that fail.
#![tactic(auto)]

#[cfg(test)]
mod jobs;
#[cfg(test)]
mod judging;
#[cfg(test)]
mod reading;
#[cfg(test)]
mod slicing;
#[cfg(test)]
mod writing;
