//! What is claimed is brought to its end first.

ghost use Rattle.std.specs.Prelude.{◌+◌, ◌<◌, OnOk, List, length};
ghost use Rattle.source_model.specs.declared.Given.{Given as Givens};
ghost use Rattle.board_core.specs.Position.{past, IsLegal};
ghost use Rattle.source_model.specs.Statics.{AreOutcomesOf};
ghost use Rattle.finish_run.specs.Next.{IsIdle, IsPending, IsUnreleased, NoneIs, never};
ghost use Rattle.finish_run.specs.inside.Next.{NoneBelow};
ghost use Rattle.finish_run.specs.Finished.{GoesOn};

use crate::calls::{deliver, is_pending, is_unreleased, release};
use board_core::Board;
use node_log::Node;
use patch_base::Memory;
use source_model::Given;
use std::alloc::Global;

/// Delivers a product's outcome, where it is claimed and not done.
fn deliver_one(alloc: Global, board: &mut Board, given: &[Given], p: u32) -> Result<(), Memory>
    requires outcomes { AreOutcomesOf given.now board.old.job.products }
    requires within { p < length given.now }
    requires below { NoneBelow (IsPending (past board.old)) p }
    ensures goes { GoesOn never given.now board.old board.new }
    ensures legal { IsLegal board.new }
    ensures below { OnOk result (NoneBelow (IsPending (past board.new)) (p + 1)) }
{
    if is_pending(board, p) {
        let node = Node::empty(alloc)?;
        deliver(board, p, given[p as usize], node);
    }
    Ok(())
}

/// Delivers the outcomes of all products that are claimed and not done, in ascending order.
pub(crate) fn deliver_claimed(
    alloc: Global,
    board: &mut Board,
    given: &[Given],
) -> Result<(), Memory>
    requires outcomes { AreOutcomesOf given.now board.old.job.products }
    requires legal { IsLegal board.old }
    ensures goes { GoesOn never given.now board.old board.new }
    ensures legal { IsLegal board.new }
    ensures none { OnOk result (NoneIs (IsPending (past board.new))) }
{
    for p in 0..given.len() as u32 {
        deliver_one(alloc, board, given, p)?;
    }
    Ok(())
}

/// Releases a product, where it is delivered and not released.
fn release_one(alloc: Global, board: &mut Board, p: u32) -> Result<(), Memory>
    requires none { NoneIs (IsPending (past board.old)) }
    requires below { NoneBelow (IsUnreleased (past board.old)) p }
    ensures goes { (given : List Givens) → GoesOn never given board.old board.new }
    ensures legal { IsLegal board.new }
    ensures none { NoneIs (IsPending (past board.new)) }
    ensures below { OnOk result (NoneBelow (IsUnreleased (past board.new)) (p + 1)) }
{
    if is_unreleased(board, p) {
        let node = Node::empty(alloc)?;
        release(board, p, node);
    }
    Ok(())
}

/// Releases all products that are delivered and not released, in ascending order.
pub(crate) fn release_delivered(alloc: Global, board: &mut Board) -> Result<(), Memory>
    requires legal { IsLegal board.old }
    requires none { NoneIs (IsPending (past board.old)) }
    ensures goes { (given : List Givens) → GoesOn never given board.old board.new }
    ensures legal { IsLegal board.new }
    ensures idle { OnOk result (IsIdle (past board.new)) }
{
    for p in 0..board.products().len() as u32 {
        release_one(alloc, board, p)?;
    }
    Ok(())
}
