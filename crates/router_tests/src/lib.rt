//! Tests of routers and makers, and of the call that runs them beside one another.
#![tactic(auto)]

#[cfg(test)]
mod attempts;
#[cfg(test)]
mod board;
#[cfg(test)]
mod calls;
#[cfg(test)]
mod ends;
#[cfg(test)]
mod jobs;
#[cfg(test)]
mod makers;
#[cfg(test)]
mod meetings;
#[cfg(test)]
mod points;
#[cfg(test)]
mod routed;
#[cfg(test)]
mod site;
#[cfg(test)]
mod stale;
#[cfg(test)]
mod stops;
