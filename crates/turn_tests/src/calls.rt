//! Each call of a grid, in one thread.

ghost use Rattle.std.specs.Prelude.{◌≡◌, IfOk};
ghost use Rattle.board_core.specs.Shows.{IsMadeFor};
ghost use Rattle.grid_lock.specs.Passes.{IsPassOf, IsSamePass};

use crate::board::{look_for, measurement, open, rotation, row_board};
use board_core::{Board, ClaimWhy, Claimed, Noted};
use grid_lock::{Grid, Pass, TryClaim, TryLook};
use node_log::Node;
use patch_base::Memory;
use patch_layout::{Look, Plan};
use source_model::Given;
use std::alloc::Global;
use std::process::Abort;
use std::test::Fail;

// How many steps of factory 0 were accepted, of so many tries.
fn steps(alloc: Global, grid: &Grid, pass: &mut Pass, tries: u32) -> Result<u32, Memory>
    requires { IsPassOf grid.now pass.old }
    ensures grid { IsPassOf grid.now pass.new }
    ensures same { IsSamePass pass.old pass.new }
{
    let mut made = 0u32;
    for _ in 0..tries {
        if grid.try_step(pass, 0, Node::empty(alloc)?).is_ok() {
            made = made.wrapping_add(1);
        }
    }
    Ok(made)
}

// The rotation is claimed, delivered and released, and holds the measurement back meanwhile.
fn carry_out(
    rt: &impl Abort,
    alloc: Global,
    grid: &Grid,
    pass: &mut Pass,
    rotation: Plan,
    measurement: Plan,
) -> Result<(), Memory>
    requires { IsPassOf grid.now pass.old }
    ensures grid { IsPassOf grid.now pass.new }
    ensures same { IsSamePass pass.old pass.new }
{
    let claimed = grid.try_claim(pass, rotation, Node::empty(alloc)?);
    let state = Some(0);
    assert_eq!(rt; claimed.ok(), Some(Claimed { place: 11, state }));
    match grid.try_claim(pass, measurement, Node::empty(alloc)?) {
        Err(TryClaim::Refused(refused)) => {
            assert_eq!(rt; refused.why, ClaimWhy::Held { cell: 1, by: 0 })
        }
        _ => panic!(rt; "a held cell"),
    }
    let given = Given::Rotation {
        raw: false,
        x: false,
    };
    let delivered = grid.try_deliver(pass, 0, given, Node::empty(alloc)?);
    assert_eq!(rt; delivered.ok(), Some(12));
    let released = grid.try_release(pass, 0, Node::empty(alloc)?);
    assert_eq!(rt; released.ok(), Some(13));
    Ok(())
}

// A look at the measurement, and none at a product that isn't there.
fn look_twice(rt: &impl Abort, grid: &Grid, pass: &mut Pass, look: &mut Look)
    requires grid { IsPassOf grid.now pass.old }
    requires made { IsMadeFor grid.now.opened look.old }
    ensures grid { IsPassOf grid.now pass.new }
    ensures same { IsSamePass pass.old pass.new }
{
    let seen = grid.try_look(pass, 1, look);
    assert_eq!(rt; seen, Ok(()));
    assert_eq!(rt; (look.product, look.length, look.taken), (1, 14, None));
    let none = grid.try_look(pass, 2, look);
    assert_eq!(rt; none, Err(TryLook::NoProduct));
}

// The measurement is claimed after the rotation.
fn claim_last(rt: &impl Abort, grid: &Grid, pass: &mut Pass, plan: Plan, node: Node<Noted>)
    requires { IsPassOf grid.now pass.old }
    ensures { IsPassOf grid.now pass.new }
{
    let claimed = grid.try_claim(pass, plan, node);
    let state = None;
    assert_eq!(rt; claimed.ok(), Some(Claimed { place: 14, state }));
}

// The board comes back only with all passes.
fn close_at_last(
    rt: &impl Abort,
    alloc: Global,
    grid: Grid,
    zero: Pass,
    one: Pass,
) -> Result<Board, Memory>
    requires passes { IsPassOf grid zero × IsPassOf grid one }
    requires first { zero.view.number ≡ 0 }
{
    let refused = match grid.close(zero, Vec::new(alloc)) {
        Ok(_) => panic!(rt; "a pass is missing"),
        Err(refused) => refused,
    };
    assert_eq!(rt; refused.split, 1);
    let mut others = refused.others;
    others.push(one)?;
    match refused.grid.close(refused.first, others) {
        Ok(board) => Ok(board),
        Err(_) => panic!(rt; "all passes"),
    }
}

// A pass splits off another one, which has the next number.
fn split_off(rt: &impl Abort, grid: &Grid, zero: &mut Pass) -> Result<Pass, Memory>
    requires grid { IsPassOf grid.now zero.old }
    requires first { (zero.old.view.number ≡ 0) × (zero.old.view.made ≡ 0) }
    ensures grid { IsPassOf grid.now zero.new }
    ensures first { zero.new.view.number ≡ 0 }
    ensures new { IfOk result (IsPassOf grid.now) }
{
    let one = grid.split(zero)?;
    assert_eq!(rt; (zero.number(), one.number()), (0, 1));
    Ok(one)
}

// All calls in turn, and the pass that was split off.
fn call_each(
    rt: &impl Abort,
    alloc: Global,
    grid: &Grid,
    zero: &mut Pass,
    look: &mut Look,
    plans: (Plan, Plan, Plan),
) -> Result<Pass, Memory>
    requires grid { IsPassOf grid.now zero.old }
    requires first { (zero.old.view.number ≡ 0) × (zero.old.view.made ≡ 0) }
    requires made { IsMadeFor grid.now.opened look.old }
    ensures grid { IsPassOf grid.now zero.new }
    ensures first { zero.new.view.number ≡ 0 }
    ensures new { IfOk result (IsPassOf grid.now) }
{
    let (rotation, early, late) = plans;
    let made = steps(alloc, grid, zero, 12)?;
    assert_eq!(rt; made, 11);
    carry_out(rt, alloc, grid, zero, rotation, early)?;
    let length = grid.length(zero);
    assert_eq!(rt; length, 14);
    look_twice(rt, grid, zero, look);
    let mut one = split_off(rt, grid, zero)?;
    claim_last(rt, grid, &mut one, late, Node::empty(alloc)?);
    Ok(one)
}

// A plan of the rotation and two of the measurement.
fn plans(alloc: Global, board: &Board) -> Result<(Plan, Plan, Plan), Memory> {
    let layout = board.layout();
    Ok((
        rotation(alloc, layout)?,
        measurement(alloc, layout)?,
        measurement(alloc, layout)?,
    ))
}

// The board has an entry of pass 1 last.
fn ends_with_one(rt: &impl Abort, board: &Board) {
    assert_eq!(rt; board.history().length(), 15);
    match board.history().last() {
        Some(noted) => assert_eq!(rt; noted.by, 1),
        None => panic!(rt; "an entry"),
    }
}

fn call_all(rt: &impl Abort, alloc: Global) -> Result<(), Memory> {
    let board = row_board(alloc, &[])?;
    let mut look = look_for(alloc, &board)?;
    let plans = plans(alloc, &board)?;
    let (grid, mut zero) = open(alloc, board)?;
    let one = call_each(rt, alloc, &grid, &mut zero, &mut look, plans)?;
    let board = close_at_last(rt, alloc, grid, zero, one)?;
    ends_with_one(rt, &board);
    Ok(())
}

#[test]
fn each_call_answers(rt: HostRuntime) -> Result<(), Fail> {
    call_all(&rt, rt.alloc())?;
    Ok(())
}
