//! A router or a maker.

ghost use Rattle.std.specs.Prelude.{◌≡◌};
ghost use Rattle.router_work.specs.inside.Workers.{Worked, pass_of};

use crate::gate::Gate;
use crate::maker::Maker;
use crate::router::Router;
use grid_lock::Pass;

/// A worker of either kind.
#[derive(Drop)]
pub(crate) enum Worker<'a, G: Gate> {
    Route(Router<'a, G>),
    Make(Maker<'a>),
}

impl<'a, G: Gate> Worker<'a, G> {
    /// Works until the worker's own end.
    pub(crate) fn work(&mut self)
        ensures { Worked self.old self.new }
    {
        match self {
            Worker::Route(router) => {
                router.work();
            }
            Worker::Make(maker) => {
                maker.work();
            }
        }
    }

    /// The pass.
    pub(crate) fn into_pass(self) -> Pass
        ensures { result ≡ pass_of self.entry }
    {
        match self {
            Worker::Route(router) => router.into_parts().0,
            Worker::Make(maker) => maker.into_pass(),
        }
    }
}
