//! The planner of least regions.

ghost use Rattle.std.specs.Prelude.{◌≡◌, ℕ, length};
ghost use Rattle.pauli_product.specs.Signed.{HasLetter};
ghost use Rattle.region_plan.specs.Answer.{Answers, LeastJoined};
ghost use Rattle.least_region.specs.Least.{LeastAnswers, LeastOrJoined};

use crate::shrink::shrink;
use crate::width::sides_in;
use patch_layout::{Layout, Look, Plan};
use region_plan::{KeepingPlanner, Planned, Planner, plan};
use std::alloc::Global;

// The most sides for which a least region is looked for.
const MOST_SIDES: u32 = 6;

/// What `least_plan` answers. The refusals are tried in this order.
#[derive(Drop)]
pub enum LeastPlanned {
    /// A least region for the product, with its certificate.
    Region(Plan),
    /// The product has a claim already.
    Taken { place: u32 },
    /// The product waits on an earlier one.
    NotReady { on: u32 },
    /// The product is a rotation, and no factory has a ready state.
    NoReady,
    /// The look has more than six sides.
    Wide { sides: u32 },
    /// A patch of the axis is held, or no region fits in the free cells.
    Blocked,
    /// Out of memory.
    Memory,
}

/// Plans a region for a look with the least number of cells of all that fit in the free cells,
/// through whichever unheld port with a ready state.
///
/// A table has for each subset of the sides but one, and for each cell, the least size of a joined
/// set of free cells that has this cell and touches these sides. It grows by neighbours and by
/// unions at a cell, as in the algorithm of Dreyfus and Wagner ("The Steiner problem in graphs",
/// Networks 1, 1971), up to the size of the region that `plan` finds. The region is read off at the
/// least entry on the remaining side, or on a port.
pub fn least_plan(alloc: Global, layout: &Layout, look: &Look) -> LeastPlanned
    requires held { length look.now.held ≡ length layout.now.sites }
    requires letter { (q : ℕ) × HasLetter look.now.axis q }
    ensures { LeastAnswers layout.now look.now result }
{
    let sides = sides_in(look);
    let joined = plan(alloc, layout, look);
    match shrunk(alloc, layout, look, joined) {
        Planned::Taken { place } => LeastPlanned::Taken { place },
        Planned::NotReady { on } => LeastPlanned::NotReady { on },
        Planned::NoReady => LeastPlanned::NoReady,
        Planned::Memory => LeastPlanned::Memory,
        Planned::Blocked => {
            if sides > MOST_SIDES {
                LeastPlanned::Wide { sides }
            } else {
                LeastPlanned::Blocked
            }
        }
        Planned::Region(plan) => {
            if sides > MOST_SIDES {
                LeastPlanned::Wide { sides }
            } else {
                LeastPlanned::Region(plan)
            }
        }
    }
}

// What `plan` answered, with a least region in place of its own for a look of at most six sides.
fn shrunk(alloc: Global, layout: &Layout, look: &Look, planned: Planned) -> Planned
    requires held { length look.now.held ≡ length layout.now.sites }
    requires letter { (q : ℕ) × HasLetter look.now.axis q }
    requires planned { Answers (LeastJoined layout.now look.now) layout.now look.now planned }
    ensures { Answers (LeastOrJoined layout.now look.now) layout.now look.now result }
{
    let joined = match planned {
        Planned::Region(joined) => joined,
        refused => return refused,
    };
    if sides_in(look) > MOST_SIDES {
        return Planned::Region(joined);
    }
    match shrink(alloc, layout, look, joined) {
        Ok(least) => Planned::Region(least),
        Err(_) => Planned::Memory,
    }
}

/// `least_plan` as a planner that keeps walks from plan to plan, and `plan` for a look of more than six sides.
#[derive(Drop)]
pub struct LeastPlanner {
    joining: KeepingPlanner,
}

impl LeastPlanner {
    /// A planner that has planned nothing yet.
    pub fn new(alloc: Global) -> LeastPlanner {
        LeastPlanner {
            joining: KeepingPlanner::new(alloc),
        }
    }
}

impl Planner for LeastPlanner {
    ghost meets = { LeastOrJoined };

    fn plan(&mut self, alloc: Global, layout: &Layout, look: &Look) -> Planned {
        let joined = self.joining.plan(alloc, layout, look);
        shrunk(alloc, layout, look, joined)
    }
}
