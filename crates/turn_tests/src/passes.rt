//! Passes that are split off pass 0 of a grid, and handed in again.

ghost use Rattle.std.specs.Prelude.{◌≡◌, ◌+◌, ◌<◌, ◌≤◌, IfOk};
ghost use Rattle.std.specs.List.{All};
ghost use Rattle.grid_lock.specs.Passes.{IsPassOf};

use board_core::Board;
use grid_lock::{Grid, Pass};
use patch_base::Memory;
use std::alloc::Global;
use std::process::Abort;

// A new pass.
fn split(grid: &Grid, zero: &mut Pass) -> Result<Pass, Memory>
    requires grid { IsPassOf grid.now zero.old }
    requires first { zero.old.view.number ≡ 0 }
    requires few { zero.old.view.made < 63 }
    ensures grid { IsPassOf grid.now zero.new }
    ensures first { zero.new.view.number ≡ 0 }
    ensures made { zero.new.view.made ≡ zero.old.view.made + 1 }
    ensures new { IfOk result (IsPassOf grid.now) }
{
    grid.split(zero)
}

/// Two new passes.
pub(crate) fn split_two(grid: &Grid, zero: &mut Pass) -> Result<(Pass, Pass), Memory>
    requires grid { IsPassOf grid.now zero.old }
    requires first { zero.old.view.number ≡ 0 }
    requires few { zero.old.view.made < 60 }
    ensures grid { IsPassOf grid.now zero.new }
    ensures first { zero.new.view.number ≡ 0 }
    ensures made { zero.new.view.made ≤ zero.old.view.made + 2 }
    ensures new { IfOk result (λ r. IsPassOf grid.now r.0 × IsPassOf grid.now r.1) }
{
    let one = split(grid, zero)?;
    let two = split(grid, zero)?;
    Ok((one, two))
}

/// The board, once pass 0 and all others are handed in.
pub(crate) fn close(rt: &impl Abort, grid: Grid, zero: Pass, others: Vec<Pass>) -> Board
    requires grid { IsPassOf grid zero }
    requires first { zero.view.number ≡ 0 }
    requires others { All (IsPassOf grid) others.items }
{
    match grid.close(zero, others) {
        Ok(board) => board,
        Err(_) => panic!(rt; "all passes"),
    }
}

/// The board, once pass 0 and these two are handed in.
pub(crate) fn close_two(
    rt: &impl Abort,
    alloc: Global,
    grid: Grid,
    zero: Pass,
    one: Pass,
    two: Pass,
) -> Result<Board, Memory>
    requires grid { IsPassOf grid zero }
    requires first { zero.view.number ≡ 0 }
    requires others { IsPassOf grid one × IsPassOf grid two }
{
    let mut others = Vec::new(alloc);
    others.push(one)?;
    others.push(two)?;
    Ok(close(rt, grid, zero, others))
}

/// The board, once pass 0 and these four are handed in.
pub(crate) fn close_four(
    rt: &impl Abort,
    alloc: Global,
    grid: Grid,
    zero: Pass,
    left: (Pass, Pass),
    right: (Pass, Pass),
) -> Result<Board, Memory>
    requires grid { IsPassOf grid zero }
    requires first { zero.view.number ≡ 0 }
    requires left { IsPassOf grid left.0 × IsPassOf grid left.1 }
    requires right { IsPassOf grid right.0 × IsPassOf grid right.1 }
{
    let mut others = Vec::new(alloc);
    others.push(left.0)?;
    others.push(left.1)?;
    others.push(right.0)?;
    others.push(right.1)?;
    Ok(close(rt, grid, zero, others))
}
