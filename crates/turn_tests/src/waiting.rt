//! What a product waits on, in one thread.

ghost use Rattle.std.specs.Prelude.{◌≡◌, [], IfOk};
ghost use Rattle.grid_lock.specs.Passes.{IsPassOf, IsSamePass};

use crate::board::{Row, board_for, open, plan_for};
use crate::tries::{claim, deliver};
use board_core::{Board, Noted};
use grid_lock::{Grid, Pass, TryWaits};
use node_log::Node;
use patch_base::Memory;
use patch_layout::Plan;
use source_model::{Given, Kind};
use std::alloc::Global;
use std::process::Abort;
use std::test::Fail;

// X of a qubit waits on the Z before it, and Z of the other qubit on none.
static ROWS: [Row; 3] = [
    (b"+ZI", Kind::Measure { bit: 0 }),
    (b"+XI", Kind::Measure { bit: 1 }),
    (b"+IZ", Kind::Measure { bit: 2 }),
];

// The empty board of two upright patches with cell 7 between them.
fn patches(alloc: Global) -> Result<Board, Memory>
    ensures empty { IfOk result (λ b. b.history ≡ []) }
{
    let text = b"layout 1 3 5\npatch 0 6 v\npatch 1 8 v\n";
    board_for(alloc, text, false, &ROWS, &[])
}

// What a product is said to wait on.
fn says(rt: &impl Abort, grid: &Grid, pass: &mut Pass, p: u32, answer: TryWaits)
    requires { IsPassOf grid.now pass.old }
    ensures grid { IsPassOf grid.now pass.new }
    ensures same { IsSamePass pass.old pass.new }
{
    assert_eq!(rt; grid.try_waits(pass, p), answer);
}

// Product 0 is claimed, and then delivered.
fn carry_out(
    rt: &impl Abort,
    grid: &Grid,
    pass: &mut Pass,
    plan: Plan,
    nodes: (Node<Noted>, Node<Noted>),
)
    requires { IsPassOf grid.now pass.old }
    ensures grid { IsPassOf grid.now pass.new }
    ensures same { IsSamePass pass.old pass.new }
{
    let claimed = claim(grid, pass, plan, nodes.0);
    assert!(rt; claimed.is_ok());
    says(rt, grid, pass, 1, TryWaits::Waits { on: 0 });
    let delivered = deliver(grid, pass, 0, Given::Measure { raw: true }, nodes.1);
    assert_eq!(rt; delivered.ok(), Some(1));
}

fn ask(rt: &impl Abort, alloc: Global) -> Result<(), Memory> {
    let board = patches(alloc)?;
    let plan = plan_for(alloc, board.layout(), 0, b"+ZI", None, &[7])?;
    let nodes = (Node::empty(alloc)?, Node::empty(alloc)?);
    let (grid, mut zero) = open(alloc, board)?;
    says(rt, &grid, &mut zero, 0, TryWaits::Ready);
    says(rt, &grid, &mut zero, 1, TryWaits::Waits { on: 0 });
    says(rt, &grid, &mut zero, 2, TryWaits::Ready);
    says(rt, &grid, &mut zero, 3, TryWaits::NoProduct);
    carry_out(rt, &grid, &mut zero, plan, nodes);
    says(rt, &grid, &mut zero, 1, TryWaits::Ready);
    Ok(())
}

// A product waits until the earlier one is delivered, and not only claimed.
#[test]
fn a_product_waits(rt: HostRuntime) -> Result<(), Fail> {
    ask(&rt, rt.alloc())?;
    Ok(())
}
