//! Tests of layouts, certificates and plans through the public calls that no command reaches alone.
#![tactic(auto)]

#[cfg(test)]
mod brute;
#[cfg(test)]
mod certificates;
#[cfg(test)]
mod layouts;
#[cfg(test)]
mod least;
#[cfg(test)]
mod looks;
#[cfg(test)]
mod plans;
