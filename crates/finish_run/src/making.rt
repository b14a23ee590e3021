//! Making a magic state.

ghost use Rattle.std.specs.Prelude.{◌≡◌, ℕ, ◌<◌, IsTrue, ◌↔◌, OnOk, All, List, length};
ghost use Rattle.source_model.specs.declared.Given.{Given as Givens};
ghost use Rattle.patch_layout.specs.Openness.{Least};
ghost use Rattle.region_plan.specs.Free.{LacksState};
ghost use Rattle.board_core.specs.Position.{IsLegal};
ghost use Rattle.finish_run.specs.Next.{IsFactory, IsTurnOf, never};
ghost use Rattle.finish_run.specs.inside.Next.{WantsState};
ghost use Rattle.board_core.specs.Shows.{IsMadeFor};
ghost use Rattle.finish_run.specs.inside.Looks.{IsStocked, ShowsTurn};
ghost use Rattle.finish_run.specs.Finished.{GoesOn};

use crate::calls::step;
use board_core::Board;
use magic_pool::Stepped;
use node_log::Node;
use patch_base::{FACTORIES, Memory};
use patch_layout::{Layout, Look};
use std::alloc::Global;

/// The least factory of a layout that has one.
pub(crate) fn least_factory(layout: &Layout) -> u32
    requires { (f : ℕ) × (f < 16) × IsFactory layout.now f }
    ensures { Least (IsFactory layout.now) result }
{
    for factory in 0..FACTORIES {
        if layout.store(factory).is_some() {
            return factory;
        }
    }
    unreachable!()
}

/// Whether the product of the look is a rotation, and no factory has a ready state.
fn lacks_state(look: &Look) -> bool
    ensures { IsTrue result ↔ LacksState look.now }
{
    let counts = ready_of(look);
    look.rotation && are_zero(counts)
}

/// The ready states of each factory number.
fn ready_of(look: &Look) -> &[u32]
    ensures { result.now ≡ look.now.ready }
{
    &look.ready
}

/// Whether each count is 0.
fn are_zero(counts: &[u32]) -> bool
    ensures { IsTrue result ↔ All (λ n. n ≡ 0) counts.now }
{
    counts.iter().all(|count| *count == 0)
}

/// Looks at the product whose turn it is.
fn show(board: &Board, p: u32, look: &mut Look)
    requires made { IsMadeFor board.now look.old }
    requires turn { IsTurnOf board.now p }
    ensures shown { ShowsTurn board.now p look.new }
    ensures made { IsMadeFor board.now look.new }
{
    let Ok(()) = board.look(p, look) else {
        unreachable!()
    };
}

/// Steps the least factory to the end of a run.
fn run(alloc: Global, board: &mut Board) -> Result<(), Memory>
    requires legal { IsLegal board.old }
    requires wants { (p : ℕ) × WantsState board.old p }
    ensures goes { (given : List Givens) → GoesOn never given board.old board.new }
    ensures legal { IsLegal board.new }
    ensures grows { OnOk result (length board.old.history < length board.new.history) }
    ensures turn { OnOk result ((p : ℕ) → IsTurnOf board.old p → IsTurnOf board.new p) }
{
    let factory = least_factory(board.layout());
    loop {
        let node = Node::empty(alloc)?;
        match step(board, factory, node) {
            Stepped::Running => {}
            Stepped::Made { .. } | Stepped::Failed { .. } => return Ok(()),
        }
    }
}

/// Looks at the product whose turn it is, once there is a ready state where it is a rotation.
pub(crate) fn prepare(
    alloc: Global,
    board: &mut Board,
    p: u32,
    look: &mut Look,
) -> Result<(), Memory>
    requires legal { IsLegal board.old }
    requires made { IsMadeFor board.old look.old }
    requires turn { IsTurnOf board.old p }
    ensures goes { (given : List Givens) → GoesOn never given board.old board.new }
    ensures legal { IsLegal board.new }
    ensures made { IsMadeFor board.new look.new }
    ensures shown { OnOk result (ShowsTurn board.new p look.new) }
    ensures stocked { OnOk result (IsStocked look.new) }
{
    loop {
        show(board, p, look);
        if !lacks_state(look) {
            return Ok(());
        }
        run(alloc, board)?;
    }
}
