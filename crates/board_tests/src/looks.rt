//! Looks at products, and plans for them.

ghost use Rattle.std.specs.Prelude.{◌≤◌, IsTrue, length};
ghost use Rattle.board_core.specs.Laws.{ProductsOfLength};

use crate::board::{Row, board_for};
use crate::calls::{Answer, Call, first_wrong};
use board_core::{Board, NoProduct};
use patch_base::Memory;
use patch_layout::Look;
use region_plan::{Planned, plan};
use source_model::{Kind, Static};
use std::alloc::Global;
use std::test::Fail;

/// What is planned for a product.
#[derive(Clone, Copy, Debug, PartialEq, Eq)]
enum Shown {
    Region,
    Taken(u32),
    Waits(u32),
    NoState,
    Blocked,
    Nothing,
}

/// Whether all products are on two qubits.
fn are_on_two(products: &[Static]) -> bool
    ensures { IsTrue result → ProductsOfLength 2 products.now }
{
    products.iter().all(|product| product.axis.len() == 2)
}

fn plan_for(alloc: Global, board: &Board, p: u32) -> Result<Shown, Memory> {
    if !are_on_two(board.products()) {
        return Ok(Shown::Nothing);
    }
    let mut look = Look::new(alloc, board.layout(), 2)?;
    let Ok(()) = board.look(p, &mut look) else {
        return Ok(Shown::Nothing);
    };
    match plan(alloc, board.layout(), &look) {
        Planned::Region(_) => Ok(Shown::Region),
        Planned::Taken { place } => Ok(Shown::Taken(place)),
        Planned::NotReady { on } => Ok(Shown::Waits(on)),
        Planned::NoReady => Ok(Shown::NoState),
        Planned::Blocked => Ok(Shown::Blocked),
        Planned::Memory => Err(Memory),
    }
}

/// What is planned for products 0, 1 and 2 of a new board.
fn shown_first(alloc: Global, rows: &[Row]) -> Result<[Shown; 3], Memory>
    requires { length rows.now ≤ 16 }
{
    let board = board_for(alloc, rows, &[])?;
    Ok([
        plan_for(alloc, &board, 0)?,
        plan_for(alloc, &board, 1)?,
        plan_for(alloc, &board, 2)?,
    ])
}

const BIT_0: Kind = Kind::Measure { bit: 0 };

static WAITING: [Row; 3] = [(b"+ZI", BIT_0), (b"+XX", BIT_0), (b"+ZI", BIT_0)];

// Product 2 commutes with 0, and waits on 1, which waits on 0.
#[test]
fn looks_show_what_a_product_waits_on(rt: HostRuntime) -> Result<(), Fail> {
    let shown = shown_first(rt.alloc(), &WAITING)?;
    assert_eq!(rt; shown, [Shown::Region, Shown::Waits(0), Shown::Waits(1)]);
    Ok(())
}

// What a look shows, without a look. Product 3 isn't there.
#[test]
fn products_wait_without_a_look(rt: HostRuntime) -> Result<(), Fail> {
    let board = board_for(rt.alloc(), &WAITING, &[])?;
    assert_eq!(rt; board.waits_on(0), Ok(None));
    assert_eq!(rt; board.waits_on(1), Ok(Some(0)));
    assert_eq!(rt; board.waits_on(2), Ok(Some(1)));
    assert_eq!(rt; board.waits_on(3), Err(NoProduct));
    Ok(())
}

static ROTATION: [Row; 2] = [(b"+ZI", Kind::Rotation), (b"+IZ", BIT_0)];

#[test]
fn looks_show_that_no_state_is_ready(rt: HostRuntime) -> Result<(), Fail> {
    let shown = shown_first(rt.alloc(), &ROTATION)?;
    assert_eq!(rt; shown, [Shown::NoState, Shown::Region, Shown::Nothing]);
    Ok(())
}

static BOTH: [Row; 2] = [(b"+IY", BIT_0), (b"+YI", Kind::Measure { bit: 1 })];

static AROUND: [(Call, Answer); 1] = [(Call::Measure(0, b"+IY", &[1, 2, 3, 4, 10]), Answer::At(0))];

/// What is planned for product 1 after a claim of product 0 that leaves patch 0 its two sides for X alone.
fn shown_after(alloc: Global) -> Result<Shown, Memory> {
    let mut board = board_for(alloc, &BOTH, &[])?;
    let before = plan_for(alloc, &board, 1)?;
    if before != Shown::Region {
        return Ok(before);
    }
    if first_wrong(alloc, &mut board, &AROUND)?.is_some() {
        return Ok(Shown::Nothing);
    }
    plan_for(alloc, &board, 1)
}

// Y wants a side of each kind, and the free neighbours of patch 0 are on its sides for X.
#[test]
fn a_product_whose_sides_are_held_is_blocked(rt: HostRuntime) -> Result<(), Fail> {
    assert_eq!(rt; shown_after(rt.alloc())?, Shown::Blocked);
    Ok(())
}
