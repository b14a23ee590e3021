//! Outcomes that arrive while routers work.
#![tactic(auto)]

mod calls;
mod carry;
mod crew;
mod deliverer;
mod fault;
mod listed;
mod live;
mod route;
mod router;
mod saying;
mod top;
mod wanted;
mod words;
mod worker;

pub use arrival_line::{Arrival, Readout};
pub use fault::LiveFault;
pub use listed::Listed;
pub use route::{Arrivals, Live, LiveMemory, Strays, route_live};
pub use top::live_main;
pub use words::LiveCommand;
