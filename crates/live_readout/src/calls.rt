//! What a router's and a deliverer's calls on a grid make. Each is made again while the turn is held.

ghost use Rattle.std.specs.Prelude.{◌≡◌, IfOk};
ghost use Rattle.pauli_product.specs.Signed.{IsNotIdentity};
ghost use Rattle.board_core.specs.Shows.{IsMadeFor};
ghost use Rattle.grid_lock.specs.Passes.{IsPassOf};
ghost use Rattle.router_work.specs.Passing.{Passed};
ghost use Rattle.live_readout.specs.Entries.{IsTaking};
ghost use Rattle.live_readout.specs.inside.Workers.{IsReleaseOf};

use board_core::{Claimed, Noted};
use grid_lock::{Grid, Pass, TryClaim, TryDeliver, TryLook, TryRelease, TryWaits};
use node_log::Node;
use patch_layout::{Look, Plan};
use router_work::{claim, deliver, look, release, waits};
use source_model::Given;

/// The history's length.
pub(crate) fn length_now(grid: &Grid, pass: &mut Pass) -> u32
    requires grid { IsPassOf grid.now pass.old }
    ensures { Passed IsTaking pass.old pass.new }
{
    grid.length(pass)
}

// What a product waits on.
fn ask(grid: &Grid, pass: &mut Pass, p: u32) -> TryWaits
    requires grid { IsPassOf grid.now pass.old }
    ensures { Passed IsTaking pass.old pass.new }
{
    waits(grid, pass, p)
}

/// Whether a product waits on an earlier one. Where the turn was held all along, that isn't known, and the answer is no.
pub(crate) fn is_held_back(grid: &Grid, pass: &mut Pass, p: u32) -> bool
    requires grid { IsPassOf grid.now pass.old }
    ensures { Passed IsTaking pass.old pass.new }
{
    let answer = ask(grid, pass, p);
    matches!(answer, TryWaits::Waits { .. })
}

/// Looks at a product.
pub(crate) fn look_at(grid: &Grid, pass: &mut Pass, p: u32, shown: &mut Look) -> Result<(), TryLook>
    requires grid { IsPassOf grid.now pass.old }
    requires made { IsMadeFor grid.now.opened shown.old }
    ensures passed { Passed IsTaking pass.old pass.new }
    ensures made { IsMadeFor grid.now.opened shown.new }
    ensures shown { IfOk result (λ _. IsNotIdentity shown.new.axis) }
{
    look(grid, pass, p, shown)
}

/// Claims a product's region.
pub(crate) fn claim_by(
    grid: &Grid,
    pass: &mut Pass,
    plan: Plan,
    node: Node<Noted>,
) -> Result<Claimed, TryClaim>
    requires grid { IsPassOf grid.now pass.old }
    ensures { Passed IsTaking pass.old pass.new }
{
    claim(grid, pass, plan, node)
}

/// Settles a product.
pub(crate) fn settle(
    grid: &Grid,
    pass: &mut Pass,
    p: u32,
    node: Node<Noted>,
) -> Result<u32, TryDeliver>
    requires grid { IsPassOf grid.now pass.old }
    ensures { Passed IsTaking pass.old pass.new }
{
    deliver(grid, pass, p, Given::Settled, node)
}

/// Releases a product.
pub(crate) fn let_go(
    grid: &Grid,
    pass: &mut Pass,
    p: u32,
    node: Node<Noted>,
) -> Result<u32, TryRelease>
    requires grid { IsPassOf grid.now pass.old }
    ensures { Passed (IsReleaseOf p) pass.old pass.new }
{
    release(grid, pass, p, node)
}
