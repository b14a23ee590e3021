//! What a refused call hands back serves the next call, in one thread.

ghost use Rattle.grid_lock.specs.Passes.{IsPassOf, IsSamePass};

use crate::board::{measurement, open, rotation, row_board};
use crate::passes::close;
use crate::tries::{claim, deliver, release, step};
use board_core::{BoardStepWhy, ClaimRefused, ClaimWhy, Claimed, DeliverWhy, Noted, ReleaseWhy};
use grid_lock::{Grid, Pass, TryClaim, TryDeliver, TryRelease, TryStep};
use node_log::Node;
use patch_base::Memory;
use patch_layout::Plan;
use source_model::Given;
use std::alloc::Global;
use std::process::Abort;
use std::test::Fail;

const ROTATED: Given = Given::Rotation {
    raw: false,
    x: false,
};

const MEASURED: Given = Given::Measure { raw: false };

// What a refused claim hands back.
fn refusal(rt: &impl Abort, answer: Result<Claimed, TryClaim>) -> ClaimRefused {
    match answer {
        Err(TryClaim::Refused(refused)) => refused,
        _ => panic!(rt; "a refused claim"),
    }
}

// A claim that is refused for this cause, with its plan and node handed back.
fn not_claimed(
    rt: &impl Abort,
    grid: &Grid,
    pass: &mut Pass,
    plan: Plan,
    node: Node<Noted>,
    why: ClaimWhy,
) -> (Plan, Node<Noted>)
    requires { IsPassOf grid.now pass.old }
    ensures grid { IsPassOf grid.now pass.new }
    ensures same { IsSamePass pass.old pass.new }
{
    let answer = claim(grid, pass, plan, node);
    let refused = refusal(rt, answer);
    assert_eq!(rt; refused.why, why);
    (refused.plan, refused.node)
}

// An outcome that is refused for this cause, with its node handed back.
fn not_delivered(
    rt: &impl Abort,
    grid: &Grid,
    pass: &mut Pass,
    p: u32,
    node: Node<Noted>,
    why: DeliverWhy,
) -> Node<Noted>
    requires { IsPassOf grid.now pass.old }
    ensures grid { IsPassOf grid.now pass.new }
    ensures same { IsSamePass pass.old pass.new }
{
    match deliver(grid, pass, p, MEASURED, node) {
        Err(TryDeliver::Refused(refused)) => {
            assert_eq!(rt; refused.why, why);
            refused.node
        }
        _ => panic!(rt; "a refused outcome"),
    }
}

// A release that is refused for this cause, with its node handed back.
fn not_released(
    rt: &impl Abort,
    grid: &Grid,
    pass: &mut Pass,
    p: u32,
    node: Node<Noted>,
    why: ReleaseWhy,
) -> Node<Noted>
    requires { IsPassOf grid.now pass.old }
    ensures grid { IsPassOf grid.now pass.new }
    ensures same { IsSamePass pass.old pass.new }
{
    match release(grid, pass, p, node) {
        Err(TryRelease::Refused(refused)) => {
            assert_eq!(rt; refused.why, why);
            refused.node
        }
        _ => panic!(rt; "a refused release"),
    }
}

// A step that is refused for this cause, with its node handed back.
fn not_stepped(
    rt: &impl Abort,
    grid: &Grid,
    pass: &mut Pass,
    f: u32,
    node: Node<Noted>,
    why: BoardStepWhy,
) -> Node<Noted>
    requires { IsPassOf grid.now pass.old }
    ensures grid { IsPassOf grid.now pass.new }
    ensures same { IsSamePass pass.old pass.new }
{
    match step(grid, pass, f, node) {
        Err(TryStep::Refused(refused)) => {
            assert_eq!(rt; refused.why, why);
            refused.node
        }
        _ => panic!(rt; "a refused step"),
    }
}

// A claim that is accepted at this place.
fn claimed(
    rt: &impl Abort,
    grid: &Grid,
    pass: &mut Pass,
    plan: Plan,
    node: Node<Noted>,
    place: u32,
    state: Option<u32>,
)
    requires { IsPassOf grid.now pass.old }
    ensures grid { IsPassOf grid.now pass.new }
    ensures same { IsSamePass pass.old pass.new }
{
    let claimed = claim(grid, pass, plan, node);
    assert_eq!(rt; claimed.ok(), Some(Claimed { place, state }));
}

// The factory makes its state, the first step with this node.
fn make_state(
    rt: &impl Abort,
    alloc: Global,
    grid: &Grid,
    pass: &mut Pass,
    node: Node<Noted>,
) -> Result<(), Memory>
    requires { IsPassOf grid.now pass.old }
    ensures grid { IsPassOf grid.now pass.new }
    ensures same { IsSamePass pass.old pass.new }
{
    assert!(rt; step(grid, pass, 0, node).is_ok());
    for _ in 0..10 {
        assert!(rt; step(grid, pass, 0, Node::empty(alloc)?).is_ok());
    }
    Ok(())
}

// The rotation is refused, since there is no state.
fn no_state(
    rt: &impl Abort,
    alloc: Global,
    grid: &Grid,
    pass: &mut Pass,
    rotation: Plan,
) -> Result<(Plan, Node<Noted>), Memory>
    requires { IsPassOf grid.now pass.old }
    ensures grid { IsPassOf grid.now pass.new }
    ensures same { IsSamePass pass.old pass.new }
{
    let node = Node::empty(alloc)?;
    let why = ClaimWhy::NoState { port: 0 };
    Ok(not_claimed(rt, grid, pass, rotation, node, why))
}

// Steps are refused at a full store, and at a factory that isn't there.
fn no_step(
    rt: &impl Abort,
    alloc: Global,
    grid: &Grid,
    pass: &mut Pass,
) -> Result<Node<Noted>, Memory>
    requires { IsPassOf grid.now pass.old }
    ensures grid { IsPassOf grid.now pass.new }
    ensures same { IsSamePass pass.old pass.new }
{
    let node = Node::empty(alloc)?;
    let full = BoardStepWhy::Stocked { ready: 1 };
    let node = not_stepped(rt, grid, pass, 0, node, full);
    Ok(not_stepped(rt, grid, pass, 3, node, BoardStepWhy::NoFactory))
}

// The rotation is refused, and its plan and node serve once there is a state.
fn rotate(
    rt: &impl Abort,
    alloc: Global,
    grid: &Grid,
    pass: &mut Pass,
    rotation: Plan,
) -> Result<(), Memory>
    requires { IsPassOf grid.now pass.old }
    ensures grid { IsPassOf grid.now pass.new }
    ensures same { IsSamePass pass.old pass.new }
{
    let (plan, node) = no_state(rt, alloc, grid, pass, rotation)?;
    make_state(rt, alloc, grid, pass, node)?;
    let node = no_step(rt, alloc, grid, pass)?;
    claimed(rt, grid, pass, plan, node, 11, Some(0));
    Ok(())
}

// The outcome of the measurement is refused before its claim, and the node serves the rotation's.
fn deliver_rotation(
    rt: &impl Abort,
    alloc: Global,
    grid: &Grid,
    pass: &mut Pass,
) -> Result<(), Memory>
    requires { IsPassOf grid.now pass.old }
    ensures grid { IsPassOf grid.now pass.new }
    ensures same { IsSamePass pass.old pass.new }
{
    let node = Node::empty(alloc)?;
    let node = not_delivered(rt, grid, pass, 1, node, DeliverWhy::Unclaimed);
    let delivered = deliver(grid, pass, 0, ROTATED, node);
    assert_eq!(rt; delivered.ok(), Some(12));
    Ok(())
}

// The release of the measurement is refused before its outcome, and the node serves the rotation's.
fn release_rotation(
    rt: &impl Abort,
    alloc: Global,
    grid: &Grid,
    pass: &mut Pass,
) -> Result<(), Memory>
    requires { IsPassOf grid.now pass.old }
    ensures grid { IsPassOf grid.now pass.new }
    ensures same { IsSamePass pass.old pass.new }
{
    let node = Node::empty(alloc)?;
    let node = not_released(rt, grid, pass, 1, node, ReleaseWhy::Undelivered);
    let released = release(grid, pass, 0, node);
    assert_eq!(rt; released.ok(), Some(13));
    Ok(())
}

// The measurement is held back by the rotation.
fn held(
    rt: &impl Abort,
    alloc: Global,
    grid: &Grid,
    pass: &mut Pass,
    measurement: Plan,
) -> Result<(Plan, Node<Noted>), Memory>
    requires { IsPassOf grid.now pass.old }
    ensures grid { IsPassOf grid.now pass.new }
    ensures same { IsSamePass pass.old pass.new }
{
    let node = Node::empty(alloc)?;
    let why = ClaimWhy::Held { cell: 1, by: 0 };
    Ok(not_claimed(rt, grid, pass, measurement, node, why))
}

// The measurement is held back, and its plan and node serve once the rotation is released.
fn measure(
    rt: &impl Abort,
    alloc: Global,
    grid: &Grid,
    pass: &mut Pass,
    measurement: Plan,
) -> Result<(), Memory>
    requires { IsPassOf grid.now pass.old }
    ensures grid { IsPassOf grid.now pass.new }
    ensures same { IsSamePass pass.old pass.new }
{
    let (plan, node) = held(rt, alloc, grid, pass, measurement)?;
    deliver_rotation(rt, alloc, grid, pass)?;
    release_rotation(rt, alloc, grid, pass)?;
    claimed(rt, grid, pass, plan, node, 14, None);
    Ok(())
}

fn refuse_and_serve(rt: &impl Abort, alloc: Global) -> Result<(), Memory> {
    let board = row_board(alloc, &[])?;
    let first = rotation(alloc, board.layout())?;
    let second = measurement(alloc, board.layout())?;
    let (grid, mut zero) = open(alloc, board)?;
    rotate(rt, alloc, &grid, &mut zero, first)?;
    measure(rt, alloc, &grid, &mut zero, second)?;
    let board = close(rt, grid, zero, Vec::new(alloc));
    assert_eq!(rt; board.history().length(), 15);
    Ok(())
}

#[test]
fn what_comes_back_serves_again(rt: HostRuntime) -> Result<(), Fail> {
    refuse_and_serve(&rt, rt.alloc())?;
    Ok(())
}
