//! A router or a maker of a live run.

ghost use Rattle.std.specs.Prelude.{◌≡◌};
ghost use Rattle.live_readout.specs.inside.Workers.{Worked, pass_of};

use crate::router::LiveRouter;
use grid_lock::Pass;
use router_work::{Gate, Maker};

/// A worker of either kind.
#[derive(Drop)]
pub(crate) enum Worker<'a, G: Gate> {
    Route(LiveRouter<'a, G>),
    Make(Maker<'a>),
}

impl<'a, G: Gate> Worker<'a, G> {
    /// Works until the worker's own end.
    pub(crate) fn work(&mut self)
        ensures { Worked self.old self.new }
    {
        match self {
            Worker::Route(router) => router.work(),
            Worker::Make(maker) => {
                maker.work();
            }
        }
    }

    /// The pass.
    pub(crate) fn into_pass(self) -> Pass
        ensures { result ≡ pass_of self.entry }
    {
        match self {
            Worker::Route(router) => router.into_pass(),
            Worker::Make(maker) => maker.into_pass(),
        }
    }
}
