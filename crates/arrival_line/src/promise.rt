//! What a feeder's thread promises.
use crate::feed::Fed;
use crate::line::Sender;
use crate::readout::Readout;
use std::snapshot::Snapshot;
use std::thread::Promise;

/// The arrivals of the readout are those that were sent, that which was handed back, and those that are left.
#[derive(Drop)]
pub struct Feeds<R: Readout> {
    pub to: Snapshot<Sender>,
    pub readout: Snapshot<R>,
}

impl<R: Readout> Promise<Fed<R>> for Feeds<R> {
    ghost use Rattle.crossbeam_channel.specs.Claims.{IsSeatAt};
    ghost use Rattle.crossbeam_channel.specs.Ends.{sends_on};
    ghost use Rattle.arrival_line.specs.inside.Feeds.{HasFed};

    ghost kept_by = { λ p r. IsSeatAt (sends_on p.to.value) r.pass × HasFed R.left p.readout.value r };
}
