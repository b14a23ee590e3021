//! The planner.

ghost use Rattle.std.specs.Prelude.{◌≡◌, ℕ, Option, List, length};
ghost use Rattle.patch_layout.specs.Grid.{Grid};
ghost use Rattle.patch_layout.specs.declared.look.Look.{Look as LookValue};
ghost use Rattle.pauli_product.specs.Signed.{HasLetter};
ghost use Rattle.region_plan.specs.Answer.{Answers, LeastJoined};
ghost use Rattle.region_plan.specs.Laws.{LeastJoinedIsJoined, RegionsFit};

use crate::free::{is_patch_held, lacks_state};
use crate::kept::Walks;
use crate::ways::way;
use patch_layout::{Layout, Look, Plan};
use std::alloc::Global;

/// What a planner answers. The refusals are tried in this order.
#[derive(Drop)]
pub enum Planned {
    /// A region for the product, with its certificate.
    Region(Plan),
    /// The product has a claim already.
    Taken { place: u32 },
    /// The product waits on an earlier one.
    NotReady { on: u32 },
    /// The product is a rotation, and no factory has a ready state.
    NoReady,
    /// A patch of the axis is held, or no region fits in the free cells.
    Blocked,
    /// Out of memory.
    Memory,
}

// What `plan` answers, over these walks.
fn plan_over(alloc: Global, layout: &Layout, look: &Look, walks: &mut Walks) -> Planned
    requires held { length look.now.held ≡ length layout.now.sites }
    requires letter { (q : ℕ) × HasLetter look.now.axis q }
    ensures { Answers (LeastJoined layout.now look.now) layout.now look.now result }
{
    if let Some(place) = look.taken {
        return Planned::Taken { place };
    }
    if let Some(on) = look.waits {
        return Planned::NotReady { on };
    }
    if lacks_state(look) {
        return Planned::NoReady;
    }
    if is_patch_held(layout, look) {
        return Planned::Blocked;
    }
    match way(alloc, layout, look, walks) {
        Ok(Some(plan)) => Planned::Region(plan),
        Ok(None) => Planned::Blocked,
        Err(_) => Planned::Memory,
    }
}

/// Plans a region for a look: joined side by side in the order of `touches`, each time by the least number of free cells, from the least cell of the first side that serves, through the least unheld port with a ready state that serves.
///
/// A region grows over the sides of the patches once at most from each of the two cells of the first side, by one walk for each side. Each port is then tried by one walk to the region at hand. A walk goes to each cell once at most, so a plan takes time of twice the cells times the sides and ports together. Where the first cell serves through the first port that is offered, one region grows, and one port is tried.
pub fn plan(alloc: Global, layout: &Layout, look: &Look) -> Planned
    requires held { length look.now.held ≡ length layout.now.sites }
    requires letter { (q : ℕ) × HasLetter look.now.axis q }
    ensures { Answers (LeastJoined layout.now look.now) layout.now look.now result }
{
    plan_over(alloc, layout, look, &mut Walks::new(alloc, false))
}

/// What plans regions. Its answers are those of `plan`, but for a region of its own kind.
pub trait Planner {
    /// What the port and the cells of each region meet, by the layout and the look.
    ghost meets: { Grid → LookValue → Option ℕ → List ℕ → Type 0 };

    // Plans a region for a look, or says why there is none.
    fn plan(&mut self, alloc: Global, layout: &Layout, look: &Look) -> Planned
        requires held { length look.now.held ≡ length layout.now.sites }
        requires letter { (q : ℕ) × HasLetter look.now.axis q }
        ensures { Answers (meets layout.now look.now) layout.now look.now result };
}

/// `plan` as a planner.
#[derive(Clone, Copy, Debug)]
pub struct JoiningPlanner;

impl Planner for JoiningPlanner {
    ghost meets = { LeastJoined };

    fn plan(&mut self, alloc: Global, layout: &Layout, look: &Look) -> Planned {
        plan(alloc, layout, look)
    }
}

/// `plan` as a planner that keeps walks from plan to plan: those through all ancilla cells of the layout at hand, from the first 144 sides that it is asked for. They serve where no product holds a cell: a plan then looks at the cells nearest to each side, and walks no more. Each takes 48 KiB at most.
#[derive(Drop)]
pub struct KeepingPlanner {
    walks: Walks,
}

impl KeepingPlanner {
    /// A planner that has planned nothing yet.
    pub fn new(alloc: Global) -> KeepingPlanner {
        KeepingPlanner {
            walks: Walks::new(alloc, true),
        }
    }
}

impl Planner for KeepingPlanner {
    ghost meets = { LeastJoined };

    fn plan(&mut self, alloc: Global, layout: &Layout, look: &Look) -> Planned {
        plan_over(alloc, layout, look, &mut self.walks)
    }
}

/// A region that grows from the least cell that serves is joined side by side.
pub fn law_joined()
    ensures { LeastJoinedIsJoined }
{}

/// The cells of each region are free and fit, so where a planner answers one it isn't blocked.
pub fn law_region_fits()
    ensures { RegionsFit }
{}
