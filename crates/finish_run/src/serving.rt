//! Products carried out one after another.

ghost use Rattle.std.specs.Prelude.{◌≡◌, ℕ, ◌+◌, ◌<◌, IsSome, IfOk, OnOk, Some, length, slice_get};
ghost use Rattle.source_model.specs.declared.Given.TheVariants as givens;
ghost use Rattle.board_core.specs.History.{done_place};
ghost use Rattle.board_core.specs.Position.{past, IsLegal};
ghost use Rattle.board_core.specs.Causes.{IsClaimable};
ghost use Rattle.source_model.specs.Statics.{AreOutcomesOf};
ghost use Rattle.finish_run.specs.Next.{IsIdle, IsTurnOf, never};
ghost use Rattle.board_core.specs.Shows.{IsMadeFor};
ghost use Rattle.finish_run.specs.inside.Looks.{IsServed, IsStocked, ShowsTurn};
ghost use Rattle.finish_run.specs.Finished.{GoesOn};
ghost use Rattle.finish_run.specs.inside.Finished.{DoneBelow};

use crate::calls::{claim, deliver, is_undone, release};
use crate::making::prepare;
use board_core::Board;
use node_log::Node;
use patch_base::Memory;
use patch_layout::{Look, Plan, law_whole_fits};
use region_plan::{Planned, Planner};
use source_model::{Given, law_kinds, law_used};
use std::alloc::Global;

/// The planner's region for the product whose turn it is. With nothing held on an open layout there is one.
fn region<P: Planner>(
    alloc: Global,
    board: &Board,
    planner: &mut P,
    look: &Look,
) -> Result<Plan, Memory>
    requires shown { (p : ℕ) × ShowsTurn board.now p look.now × IsServed board.now p }
    requires stocked { IsStocked look.now }
    ensures claimable { IfOk result (IsClaimable board.now) }
    ensures product { IfOk result (λ plan. plan.number ≡ look.now.product) }
    ensures meets { IfOk result (λ plan. P.meets board.now.job.grid look.now plan.port plan.cells) }
{
    law_kinds();
    law_used();
    law_whole_fits();
    let _ = board.history();
    match planner.plan(alloc, board.layout(), look) {
        Planned::Region(plan) => Ok(plan),
        Planned::Memory => Err(Memory),
        Planned::Taken { .. } | Planned::NotReady { .. } | Planned::NoReady | Planned::Blocked =>
            unreachable!(),
    }
}

/// Settles the product whose turn it is.
fn settle(alloc: Global, board: &mut Board, given: &[Given], p: u32) -> Result<(), Memory>
    requires outcomes { AreOutcomesOf given.now board.old.job.products }
    requires legal { IsLegal board.old }
    requires turn { IsTurnOf board.old p }
    requires settled { slice_get given.now p ≡ Some givens.Settled }
    ensures goes { GoesOn never given.now board.old board.new }
    ensures legal { IsLegal board.new }
    ensures idle { OnOk result (IsIdle (past board.new)) }
    ensures done { OnOk result (IsSome (done_place (past board.new) p)) }
{
    let node = Node::empty(alloc)?;
    deliver(board, p, Given::Settled, node);
    Ok(())
}

/// Claims, delivers and releases the product whose turn it is. Once it is claimed, no memory is needed.
fn serve<P: Planner>(
    alloc: Global,
    board: &mut Board,
    given: &[Given],
    planner: &mut P,
    p: u32,
    look: &mut Look,
) -> Result<(), Memory>
    requires outcomes { AreOutcomesOf given.now board.old.job.products }
    requires legal { IsLegal board.old }
    requires made { IsMadeFor board.old look.old }
    requires turn { IsTurnOf board.old p }
    requires within { p < length given.now }
    requires unsettled { slice_get given.now p ≡ Some givens.Settled → ⊥ }
    ensures goes { GoesOn P.meets given.now board.old board.new }
    ensures legal { IsLegal board.new }
    ensures made { IsMadeFor board.new look.new }
    ensures idle { OnOk result (IsIdle (past board.new)) }
    ensures done { OnOk result (IsSome (done_place (past board.new) p)) }
{
    prepare(alloc, board, p, look)?;
    let claiming = Node::empty(alloc)?;
    let delivering = Node::empty(alloc)?;
    let releasing = Node::empty(alloc)?;
    let plan = region(alloc, board, planner, look)?;
    claim(board, plan, claiming);
    deliver(board, p, given[p as usize], delivering);
    release(board, p, releasing);
    Ok(())
}

/// Carries out a product, where it isn't done.
fn carry_out<P: Planner>(
    alloc: Global,
    board: &mut Board,
    given: &[Given],
    planner: &mut P,
    p: u32,
    look: &mut Look,
) -> Result<(), Memory>
    requires outcomes { AreOutcomesOf given.now board.old.job.products }
    requires made { IsMadeFor board.old look.old }
    requires within { p < length given.now }
    requires idle { IsIdle (past board.old) }
    requires below { DoneBelow (past board.old) p }
    ensures goes { GoesOn P.meets given.now board.old board.new }
    ensures legal { IsLegal board.new }
    ensures made { IsMadeFor board.new look.new }
    ensures idle { OnOk result (IsIdle (past board.new)) }
    ensures below { OnOk result (DoneBelow (past board.new) (p + 1)) }
{
    if !is_undone(board, p) {
        return Ok(());
    }
    match given[p as usize] {
        Given::Settled => settle(alloc, board, given, p),
        Given::Rotation { .. } | Given::Measure { .. } => {
            serve(alloc, board, given, planner, p, look)
        }
    }
}

/// Carries out all products that aren't done, in ascending order.
pub(crate) fn carry_out_rest<P: Planner>(
    alloc: Global,
    board: &mut Board,
    given: &[Given],
    planner: &mut P,
) -> Result<(), Memory>
    requires outcomes { AreOutcomesOf given.now board.old.job.products }
    requires legal { IsLegal board.old }
    requires idle { IsIdle (past board.old) }
    ensures goes { GoesOn P.meets given.now board.old board.new }
    ensures legal { IsLegal board.new }
    ensures idle { OnOk result (IsIdle (past board.new)) }
    ensures done { OnOk result (DoneBelow (past board.new) (length board.old.job.products)) }
{
    let qubits = match board.products().first() {
        Some(product) => product.axis.len(),
        None => return Ok(()),
    };
    let mut look = Look::new(alloc, board.layout(), qubits)?;
    for p in 0..given.len() as u32 {
        carry_out(alloc, board, given, planner, p, &mut look)?;
    }
    Ok(())
}
