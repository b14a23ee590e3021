//! Two threads look at the same empty board, and plan the same cell.
//!
//! The layout has two upright patches in the middle row of a grid of 3 rows and 5 columns, with cell 7 between them.

ghost use Rattle.std.specs.Prelude.{◌≡◌, [], IfOk};
ghost use Rattle.board_core.specs.Laws.{ProductsOfLength};
ghost use Rattle.board_core.specs.Shows.{IsMadeFor};
ghost use Rattle.grid_lock.specs.Passes.{IsPassOf};

use crate::board::{Row, board_for, look_for, open, plan_for};
use crate::passes::{close_two, split_two};
use crate::tries::{claim, look};
use board_core::{Board, ClaimWhy, Claimed, Noted};
use grid_lock::{Grid, Pass, TryClaim};
use node_log::Node;
use patch_base::Memory;
use patch_layout::{Look, Plan};
use source_model::Kind;
use std::alloc::Global;
use std::marker::Sync;
use std::process::Abort;
use std::test::Fail;
use std::thread::{Threads, join};

static ROWS: [Row; 2] = [
    (b"+ZI", Kind::Measure { bit: 0 }),
    (b"+IZ", Kind::Measure { bit: 1 }),
];

const TRIES: u32 = 1000;

/// What a claim brings.
type Bid = (Plan, Node<Noted>);

type Answer = Result<Claimed, TryClaim>;

/// What an answer says: an accepted claim or why there is none, and nothing where it is Busy.
type Said = Result<Claimed, Option<ClaimWhy>>;

// Fills a look, and says whether it did: it doesn't where each try found the turn held.
fn looked(grid: &Grid, mut pass: Pass, p: u32, mut seen: Look) -> (Pass, Look, bool)
    requires grid { IsPassOf grid.now pass }
    requires look { IsMadeFor grid.now.opened seen }
    ensures grid { IsPassOf grid.now result.0 }
    ensures look { IsMadeFor grid.now.opened result.1 }
{
    for _ in 0..TRIES {
        if look(grid, &mut pass, p, &mut seen).is_ok() {
            return (pass, seen, true);
        }
    }
    (pass, seen, false)
}

// Both look at the empty board.
fn both_look<R: Threads + Sync>(
    rt: &R,
    grid: &Grid,
    one: Pass,
    first: Look,
    two: Pass,
    second: Look,
) -> ((Pass, Look, bool), (Pass, Look, bool))
    requires passes { IsPassOf grid.now one × IsPassOf grid.now two }
    requires looks { IsMadeFor grid.now.opened first × IsMadeFor grid.now.opened second }
    ensures passes { IsPassOf grid.now result.0.0 × IsPassOf grid.now result.1.0 }
    ensures looks { IsMadeFor grid.now.opened result.0.1 × IsMadeFor grid.now.opened result.1.1 }
{
    join(
        rt,
        || -> (Pass, Look, bool)
            requires { IsPassOf grid.now one × IsMadeFor grid.now.opened first }
            ensures { IsPassOf grid.entry.now result.0 × IsMadeFor grid.entry.now.opened result.1 }
        { looked(grid, one, 0, first) },
        || -> (Pass, Look, bool)
            requires { IsPassOf grid.now two × IsMadeFor grid.now.opened second }
            ensures { IsPassOf grid.entry.now result.0 × IsMadeFor grid.entry.now.opened result.1 }
        { looked(grid, two, 1, second) },
    )
}

// The look shows this product, and that nothing is taken or held.
fn shows_nothing(rt: &impl Abort, seen: &Look, p: u32) {
    assert_eq!(rt; (seen.product, seen.length, seen.taken), (p, 0, None));
    for holder in seen.held.as_slice() {
        assert!(rt; holder.is_none());
    }
}

// What a thread saw. The look is filled here, where its thread found the turn held.
fn sees_nothing(rt: &impl Abort, grid: &Grid, told: (Pass, Look, bool), p: u32) -> Pass
    requires grid { IsPassOf grid.now told.0 }
    requires look { IsMadeFor grid.now.opened told.1 }
    ensures { IsPassOf grid.now result }
{
    let (mut pass, mut seen, done) = told;
    if !done {
        assert!(rt; look(grid, &mut pass, p, &mut seen).is_ok());
    }
    shows_nothing(rt, &seen, p);
    pass
}

// The same claim again, where the turn was held.
fn again(grid: &Grid, pass: &mut Pass, answer: Answer) -> Answer
    requires { IsPassOf grid.now pass.old }
    ensures { IsPassOf grid.now pass.new }
{
    match answer {
        Ok(claimed) => Ok(claimed),
        Err(TryClaim::Refused(refused)) => Err(TryClaim::Refused(refused)),
        Err(TryClaim::Busy { plan, node }) => claim(grid, pass, plan, node),
    }
}

// The answer that isn't Busy, or Busy where each try found the turn held.
fn tried(grid: &Grid, mut pass: Pass, bid: Bid) -> (Pass, Answer)
    requires { IsPassOf grid.now pass }
    ensures { IsPassOf grid.now result.0 }
{
    let (plan, node) = bid;
    let mut answer = claim(grid, &mut pass, plan, node);
    for _ in 0..TRIES {
        answer = again(grid, &mut pass, answer);
    }
    (pass, answer)
}

// Both claim cell 7.
fn both_claim<R: Threads + Sync>(
    rt: &R,
    grid: &Grid,
    one: Pass,
    first: Bid,
    two: Pass,
    second: Bid,
) -> ((Pass, Answer), (Pass, Answer))
    requires { IsPassOf grid.now one × IsPassOf grid.now two }
    ensures { IsPassOf grid.now result.0.0 × IsPassOf grid.now result.1.0 }
{
    join(
        rt,
        || -> (Pass, Answer)
            requires { IsPassOf grid.now one }
            ensures { IsPassOf grid.entry.now result.0 }
        { tried(grid, one, first) },
        || -> (Pass, Answer)
            requires { IsPassOf grid.now two }
            ensures { IsPassOf grid.entry.now result.0 }
        { tried(grid, two, second) },
    )
}

fn said(answer: Answer) -> Said {
    match answer {
        Ok(claimed) => Ok(claimed),
        Err(TryClaim::Refused(refused)) => Err(Some(refused.why)),
        Err(TryClaim::Busy { plan: _, node: _ }) => Err(None),
    }
}

// What a claim was answered, tried once more now that no other pass is in a call.
fn settled(grid: &Grid, told: (Pass, Answer)) -> (Pass, Said)
    requires { IsPassOf grid.now told.0 }
    ensures { IsPassOf grid.now result.0 }
{
    let (mut pass, answer) = told;
    let answer = again(grid, &mut pass, answer);
    (pass, said(answer))
}

// The product of the claim that was accepted. The other one is refused for it.
fn winner(rt: &impl Abort, first: Said, second: Said) -> u32 {
    let state = None;
    let alone: Said = Ok(Claimed { place: 0, state });
    let by = if first.is_ok() { 0 } else { 1 };
    let held: Said = Err(Some(ClaimWhy::Held { cell: 7, by }));
    if by == 0 {
        assert_eq!(rt; (first, second), (alone, held));
    } else {
        assert_eq!(rt; (first, second), (held, alone));
    }
    by
}

// Two passes look and claim, and pass 0 reads the length.
fn meet<R: Threads + Sync + Abort>(
    rt: &R,
    grid: &Grid,
    zero: &mut Pass,
    looks: (Look, Look),
    bids: (Bid, Bid),
) -> Result<(Pass, Pass, u32), Memory>
    requires grid { IsPassOf grid.now zero.old }
    requires first { (zero.old.view.number ≡ 0) × (zero.old.view.made ≡ 0) }
    requires looks { IsMadeFor grid.now.opened looks.0 × IsMadeFor grid.now.opened looks.1 }
    ensures grid { IsPassOf grid.now zero.new }
    ensures first { zero.new.view.number ≡ 0 }
    ensures others { IfOk result (λ r. IsPassOf grid.now r.0 × IsPassOf grid.now r.1) }
{
    let passes = split_two(grid, zero)?;
    let (one, two) = both_look(rt, grid, passes.0, looks.0, passes.1, looks.1);
    let one = sees_nothing(rt, grid, one, 0);
    let two = sees_nothing(rt, grid, two, 1);
    let (one, two) = both_claim(rt, grid, one, bids.0, two, bids.1);
    let (one, first) = settled(grid, one);
    let (two, second) = settled(grid, two);
    let won = winner(rt, first, second);
    assert_eq!(rt; grid.length(zero), 1);
    Ok((one, two, won))
}

// The empty board of the two patches.
fn patches(alloc: Global) -> Result<Board, Memory>
    ensures empty { IfOk result (λ b. b.history ≡ []) }
    ensures axes { IfOk result (λ b. ProductsOfLength 2 b.job.products) }
{
    let text = b"layout 1 3 5\npatch 0 6 v\npatch 1 8 v\n";
    board_for(alloc, text, false, &ROWS, &[])
}

// A plan of cell 7 alone for each product, and a node.
fn bids(alloc: Global, board: &Board) -> Result<(Bid, Bid), Memory> {
    let layout = board.layout();
    let first = plan_for(alloc, layout, 0, b"+ZI", None, &[7])?;
    let second = plan_for(alloc, layout, 1, b"+IZ", None, &[7])?;
    Ok(((first, Node::empty(alloc)?), (second, Node::empty(alloc)?)))
}

// Pass 1 claims product 0, and pass 2 product 1.
fn has_one_claim(rt: &impl Abort, board: &Board, won: u32) {
    assert_eq!(rt; board.history().length(), 1);
    match board.history().last() {
        Some(noted) => assert_eq!(rt; noted.by, won.wrapping_add(1)),
        None => panic!(rt; "one claim"),
    }
}

fn claim_stale<R: Threads + Sync + Abort>(rt: &R, alloc: Global) -> Result<(), Memory> {
    let board = patches(alloc)?;
    let first = look_for(alloc, &board)?;
    let second = look_for(alloc, &board)?;
    let bids = bids(alloc, &board)?;
    let (grid, mut zero) = open(alloc, board)?;
    let met = meet(rt, &grid, &mut zero, (first, second), bids)?;
    let board = close_two(rt, alloc, grid, zero, met.0, met.1)?;
    has_one_claim(rt, &board, met.2);
    Ok(())
}

// A claim by a look that is stale is refused, and the history has the one that was accepted.
#[test]
fn a_stale_look(rt: HostRuntime) -> Result<(), Fail> {
    claim_stale(&rt, rt.alloc())?;
    Ok(())
}
