//! Tests of programs side by side: what they are joined to, why they aren't, and what each has of the joined run.
#![tactic(auto)]

#[cfg(test)]
mod carried;
#[cfg(test)]
mod joined;
#[cfg(test)]
mod limits;
#[cfg(test)]
mod programs;
#[cfg(test)]
mod rows;
