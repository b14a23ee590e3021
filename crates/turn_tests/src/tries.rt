//! The calls of a grid for tests that want no more of their clauses than that the pass stays the same pass of the grid.

ghost use Rattle.board_core.specs.Shows.{IsMadeFor};
ghost use Rattle.grid_lock.specs.Passes.{IsPassOf, IsSamePass};

use board_core::{Claimed, Noted};
use grid_lock::{Grid, Pass, TryClaim, TryDeliver, TryLook, TryRelease, TryStep};
use magic_pool::Stepped;
use node_log::Node;
use patch_layout::{Look, Plan};
use source_model::Given;

pub(crate) fn look(grid: &Grid, pass: &mut Pass, p: u32, look: &mut Look) -> Result<(), TryLook>
    requires grid { IsPassOf grid.now pass.old }
    requires made { IsMadeFor grid.now.opened look.old }
    ensures grid { IsPassOf grid.now pass.new }
    ensures same { IsSamePass pass.old pass.new }
    ensures made { IsMadeFor grid.now.opened look.new }
{
    grid.try_look(pass, p, look)
}

pub(crate) fn claim(
    grid: &Grid,
    pass: &mut Pass,
    plan: Plan,
    node: Node<Noted>,
) -> Result<Claimed, TryClaim>
    requires grid { IsPassOf grid.now pass.old }
    ensures grid { IsPassOf grid.now pass.new }
    ensures same { IsSamePass pass.old pass.new }
{
    grid.try_claim(pass, plan, node)
}

pub(crate) fn deliver(
    grid: &Grid,
    pass: &mut Pass,
    p: u32,
    given: Given,
    node: Node<Noted>,
) -> Result<u32, TryDeliver>
    requires grid { IsPassOf grid.now pass.old }
    ensures grid { IsPassOf grid.now pass.new }
    ensures same { IsSamePass pass.old pass.new }
{
    grid.try_deliver(pass, p, given, node)
}

pub(crate) fn release(
    grid: &Grid,
    pass: &mut Pass,
    p: u32,
    node: Node<Noted>,
) -> Result<u32, TryRelease>
    requires grid { IsPassOf grid.now pass.old }
    ensures grid { IsPassOf grid.now pass.new }
    ensures same { IsSamePass pass.old pass.new }
{
    grid.try_release(pass, p, node)
}

pub(crate) fn step(
    grid: &Grid,
    pass: &mut Pass,
    f: u32,
    node: Node<Noted>,
) -> Result<(u32, Stepped), TryStep>
    requires grid { IsPassOf grid.now pass.old }
    ensures grid { IsPassOf grid.now pass.new }
    ensures same { IsSamePass pass.old pass.new }
{
    grid.try_step(pass, f, node)
}
