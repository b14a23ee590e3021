//! A board brought to its end.

ghost use Rattle.std.specs.Prelude.{IfOk, IfErr, OnOk, length};
ghost use Rattle.region_plan.specs.Answer.{LeastJoined};
ghost use Rattle.board_core.specs.Legal.{Complete};
ghost use Rattle.board_core.specs.Position.{past, IsLegal};
ghost use Rattle.source_model.specs.Statics.{AreOutcomesOf};
ghost use Rattle.finish_run.specs.Next.{IsIdle};
ghost use Rattle.finish_run.specs.Finished.{GoesOn, own_or_given};
ghost use Rattle.finish_run.specs.inside.Finished.{DoneBelow};

use crate::phases::{deliver_claimed, release_delivered};
use crate::serving::carry_out_rest;
use board_core::Board;
use outcome_table::Outcomes;
use patch_base::Memory;
use region_plan::{KeepingPlanner, Planner};
use source_model::Given;
use std::alloc::Global;

/// Out of memory.
#[derive(Drop)]
pub struct FinishMemory {
    /// The board that was handed in, with what was done so far. Its history is legal.
    pub board: Board,
}

/// Brings a board to its end on one thread, whoever made its history. There is an outcome of its kind for each product.
///
/// What is claimed is delivered and then released, in ascending order. Then each product that isn't done is settled, or
/// claimed by a region of the planner, delivered and released, in ascending order. The least factory makes a step
/// exactly while the next product is a rotation and no factory has a ready state. All new entries are by worker 0.
///
/// # Errors
///
/// `FinishMemory` out of memory, and nothing else: of a layout that is open for the products the planner
/// answers a region for each, and the board accepts it.
pub fn finish_by<P: Planner>(
    alloc: Global,
    board: Board,
    outcomes: &Outcomes,
    planner: &mut P,
) -> Result<Board, FinishMemory>
    requires { AreOutcomesOf outcomes.now.given board.job.products }
    ensures complete { IfOk result (λ b. Complete b.job (past b)
        (own_or_given (past board) outcomes.now.given)) }
    ensures goes { IfOk result (λ b. GoesOn P.meets outcomes.now.given board b) }
    ensures legal { IfOk result IsLegal }
    ensures so_far { IfErr result (λ r. GoesOn P.meets outcomes.now.given board r.board) }
    ensures legal_so_far { IfErr result (λ r. IsLegal r.board) }
{
    let mut board = board;
    match bring(alloc, &mut board, outcomes.given.as_slice(), planner) {
        Ok(()) => Ok(board),
        Err(_) => Err(FinishMemory { board }),
    }
}

/// `finish_by` with the planner that joins each region side by side, from the least cell through the least port that serve.
///
/// # Errors
///
/// `FinishMemory` out of memory, and nothing else.
pub fn finish(alloc: Global, board: Board, outcomes: &Outcomes) -> Result<Board, FinishMemory>
    requires { AreOutcomesOf outcomes.now.given board.job.products }
    ensures complete { IfOk result (λ b. Complete b.job (past b)
        (own_or_given (past board) outcomes.now.given)) }
    ensures goes { IfOk result (λ b. GoesOn LeastJoined outcomes.now.given board b) }
    ensures legal { IfOk result IsLegal }
    ensures so_far { IfErr result (λ r. GoesOn LeastJoined outcomes.now.given board r.board) }
    ensures legal_so_far { IfErr result (λ r. IsLegal r.board) }
{
    finish_by(alloc, board, outcomes, &mut KeepingPlanner::new(alloc))
}

/// Brings a board to its end in place. Out of memory, what was done so far stays.
fn bring<P: Planner>(
    alloc: Global,
    board: &mut Board,
    given: &[Given],
    planner: &mut P,
) -> Result<(), Memory>
    requires { AreOutcomesOf given.now board.old.job.products }
    ensures goes { GoesOn P.meets given.now board.old board.new }
    ensures legal { IsLegal board.new }
    ensures idle { OnOk result (IsIdle (past board.new)) }
    ensures done { OnOk result (DoneBelow (past board.new) (length board.old.job.products)) }
{
    let _ = board.history();
    deliver_claimed(alloc, board, given)?;
    release_delivered(alloc, board)?;
    carry_out_rest(alloc, board, given, planner)
}
