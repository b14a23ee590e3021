//! Calls of a board, and what they should answer.

ghost use Rattle.std.specs.Prelude.{◌≤◌, length};

use crate::board::{Row, board_for};
use board_core::{Board, BoardStepWhy, ClaimWhy, DeliverWhy, Noted, ReleaseWhy};
use magic_pool::{Fail as Failing, Stepped};
use node_log::Node;
use patch_base::Memory;
use patch_layout::{CellList, certify};
use pauli_product::Product;
use source_model::Given;
use std::alloc::Global;

#[derive(Clone, Copy)]
pub(crate) enum Call {
    // The product, the text of its axis, and the cells of its region.
    Measure(u32, &'static [u8], &'static [u32]),
    // The same through port 0.
    Rotate(u32, &'static [u8], &'static [u32]),
    Deliver(u32, Given),
    Release(u32),
    // A step of this factory.
    Step(u32),
    // So many steps of factory 0, of which the last one answers.
    Steps(u32),
}

#[derive(Clone, Copy, PartialEq, Eq)]
pub(crate) enum Answer {
    At(u32),
    Took { place: u32, state: u32 },
    NoClaim(ClaimWhy),
    NoOutcome(DeliverWhy),
    NoRelease(ReleaseWhy),
    Did(Stepped),
    NoStep(BoardStepWhy),
    NoAxis,
}

/// What a call answers, and its node where the call handed it back.
type Told = (Answer, Option<Node<Noted>>);

fn claim(
    alloc: Global,
    board: &mut Board,
    node: Node<Noted>,
    p: u32,
    axis: &[u8],
    port: Option<u32>,
    cells: &[u32],
) -> Result<Told, Memory> {
    let Some(axis) = Product::parse(alloc, axis)? else {
        return Ok((Answer::NoAxis, Some(node)));
    };
    let cells = CellList::of(Vec::from_slice(alloc, cells)?);
    let plan = certify(alloc, board.layout(), p, axis, port, cells)?;
    match board.claim(0, plan, node) {
        Ok(claimed) => match claimed.state {
            Some(state) => Ok((
                Answer::Took {
                    place: claimed.place,
                    state,
                },
                None,
            )),
            None => Ok((Answer::At(claimed.place), None)),
        },
        Err(refused) => Ok((Answer::NoClaim(refused.why), Some(refused.node))),
    }
}

fn deliver(board: &mut Board, node: Node<Noted>, p: u32, given: Given) -> Told {
    match board.deliver(0, p, given, node) {
        Ok(place) => (Answer::At(place), None),
        Err(refused) => (Answer::NoOutcome(refused.why), Some(refused.node)),
    }
}

fn release(board: &mut Board, node: Node<Noted>, p: u32) -> Told {
    match board.release(0, p, node) {
        Ok(place) => (Answer::At(place), None),
        Err(refused) => (Answer::NoRelease(refused.why), Some(refused.node)),
    }
}

fn step(board: &mut Board, node: Node<Noted>, factory: u32) -> Told {
    match board.step(0, factory, node) {
        Ok((_, stepped)) => (Answer::Did(stepped), None),
        Err(refused) => (Answer::NoStep(refused.why), Some(refused.node)),
    }
}

fn steps(alloc: Global, board: &mut Board, node: Node<Noted>, count: u32) -> Result<Told, Memory> {
    let mut last = step(board, node, 0);
    for _ in 1..count {
        last = step(board, Node::empty(alloc)?, 0);
    }
    Ok(last)
}

fn make_call(
    alloc: Global,
    board: &mut Board,
    node: Node<Noted>,
    call: Call,
) -> Result<Told, Memory> {
    match call {
        Call::Measure(p, axis, cells) => claim(alloc, board, node, p, axis, None, cells),
        Call::Rotate(p, axis, cells) => claim(alloc, board, node, p, axis, Some(0), cells),
        Call::Deliver(p, given) => Ok(deliver(board, node, p, given)),
        Call::Release(p) => Ok(release(board, node, p)),
        Call::Step(factory) => Ok(step(board, node, factory)),
        Call::Steps(count) => steps(alloc, board, node, count),
    }
}

/// The first row with another answer than the board's. A refused call's node serves the next call.
pub(crate) fn first_wrong(
    alloc: Global,
    board: &mut Board,
    rows: &[(Call, Answer)],
) -> Result<Option<usize>, Memory> {
    let mut spare = None;
    for at in 0..rows.len() {
        let (call, expected) = rows[at];
        let node = match spare {
            Some(node) => node,
            None => Node::empty(alloc)?,
        };
        let (answer, back) = make_call(alloc, board, node, call)?;
        if answer != expected {
            return Ok(Some(at));
        }
        spare = back;
    }
    Ok(None)
}

/// The same on a new board for these products.
pub(crate) fn play(
    alloc: Global,
    products: &[Row],
    fails: &[Failing],
    rows: &[(Call, Answer)],
) -> Result<Option<usize>, Memory>
    requires few { length products.now ≤ 16 }
    requires fails { length fails.now ≤ 4096 }
{
    let mut board = board_for(alloc, products, fails)?;
    first_wrong(alloc, &mut board, rows)
}
