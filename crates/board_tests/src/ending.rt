//! A pi/8 rotation about Z and a measurement of X on the first of two qubits, brought to their end.

ghost use Rattle.std.specs.Prelude.{IfOk};
ghost use Rattle.source_model.specs.Circuits.{IsOutcomeOf};
ghost use Rattle.source_model.specs.Statics.{AreOutcomesOf};
ghost use Rattle.finish_run.specs.Next.{never};

use crate::board::{Row, board_for};
use board_core::{Board, Standing};
use finish_run::{FinishMemory, finish, finish_by};
use outcome_table::{FailList, GivenList, Outcomes};
use patch_base::Memory;
use patch_layout::{Layout, Look};
use region_plan::{Planned, Planner};
use source_model::{Given, Kind, Static};
use std::alloc::Global;
use std::process::Abort;
use std::test::Fail;

static ROWS: [Row; 2] = [(b"+ZI", Kind::Rotation), (b"+XI", Kind::Measure { bit: 0 })];

// A rotation's raw outcome is 1 and its X outcome 0, and a measurement's outcome is 0.
fn given_for(kind: Kind) -> Given
    ensures { IsOutcomeOf kind result }
{
    match kind {
        Kind::Rotation => Given::Rotation {
            raw: true,
            x: false,
        },
        Kind::Measure { .. } => Given::Measure { raw: false },
        Kind::Settle { .. } => Given::Settled,
    }
}

fn outcomes_for(alloc: Global, products: &[Static]) -> Result<Outcomes, Memory>
    ensures { IfOk result (λ o. AreOutcomesOf o.given products.now) }
{
    let mut given = Vec::new(alloc);
    for product in products {
        given.push(given_for(product.kind))?;
    }
    Ok(Outcomes {
        given: GivenList::of(given),
        fails: FailList::of(Vec::new(alloc)),
    })
}

/// Eleven steps make a state, and then each product is claimed, delivered and released.
fn assert_whole(rt: &impl Abort, board: &Board) {
    assert_eq!(rt; board.history().length(), 17);
    for (product, claim) in [(0, 11), (1, 14)] {
        let standing = Standing {
            claim: Some(claim),
            deliver: Some(claim + 1),
            release: Some(claim + 2),
        };
        assert_eq!(rt; board.standing(product), Some(standing));
    }
}

/// A planner that is always out of memory.
#[derive(Drop)]
struct Wanting;

impl Planner for Wanting {
    ghost meets = { never };

    fn plan(&mut self, alloc: Global, layout: &Layout, look: &Look) -> Planned {
        Planned::Memory
    }
}

#[test]
fn brings_a_board_to_its_end(rt: HostRuntime) -> Result<(), Fail> {
    let board = board_for(rt.alloc(), &ROWS, &[])?;
    let outcomes = outcomes_for(rt.alloc(), board.products())?;
    match finish(rt.alloc(), board, &outcomes) {
        Ok(board) => assert_whole(&rt, &board),
        Err(_) => panic!(rt; "memory"),
    }
    Ok(())
}

// The eleven steps stay.
#[test]
fn out_of_memory_the_board_comes_back(rt: HostRuntime) -> Result<(), Fail> {
    let board = board_for(rt.alloc(), &ROWS, &[])?;
    let outcomes = outcomes_for(rt.alloc(), board.products())?;
    let Err(FinishMemory { board }) = finish_by(rt.alloc(), board, &outcomes, &mut Wanting) else {
        panic!(rt; "a claim");
    };
    assert_eq!(rt; board.history().length(), 11);
    Ok(())
}
