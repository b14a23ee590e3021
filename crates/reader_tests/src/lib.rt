//! Tests of the calls that read circuits and outcomes, by value.
#![tactic(auto)]

#[cfg(test)]
mod circuits;
#[cfg(test)]
mod flats;
#[cfg(test)]
mod outcomes;
#[cfg(test)]
mod trees;
#[cfg(test)]
mod words;
