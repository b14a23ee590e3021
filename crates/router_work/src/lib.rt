//! Routers and makers: workers that bring one board forward, each on a thread of its own.
#![tactic(auto)]

mod attempt;
mod calls;
mod crew;
mod gate;
mod maker;
mod router;
mod routing;
mod worker;

pub use attempt::Attempt;
pub use calls::{PATIENCE, claim, deliver, look, outwaits, release, waits};
pub use gate::{Gate, NoGate, Onward, Point, StopAt};
pub use maker::{Maker, MakerEnd};
pub use router::{Router, RouterEnd};
pub use routing::{RouteMemory, route_all};
