//! Tests of `patchrun`'s top call, of what no clause says: that routers work, that memory suffices, and what shelves and sinks
//! do that fail.
#![tactic(auto)]

#[cfg(test)]
mod call;
#[cfg(test)]
mod failing;
#[cfg(test)]
mod job;
#[cfg(test)]
mod refusals;
#[cfg(test)]
mod rows;
#[cfg(test)]
mod shelf;
#[cfg(test)]
mod sides;
#[cfg(test)]
mod stops;
#[cfg(test)]
mod texts;
