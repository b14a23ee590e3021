//! Outcomes on their way: from a readout, through a channel, to a courier, while other threads work.
#![tactic(auto)]

mod arrival;
mod courier;
mod feed;
mod gather;
mod inbox;
mod laws;
mod line;
mod promise;
mod readout;
mod receive;
mod strays;
#[cfg(test)]
mod tests;
mod threads;

pub use arrival::Arrival;
pub use courier::{Courier, Delivery};
pub use gather::Taken;
pub use laws::{law_end, law_strays};
pub use readout::Readout;
pub use threads::{Line, Relayed, relay};
