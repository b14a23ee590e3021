//! Threads that push entries through one grid.

ghost use Rattle.std.specs.Prelude.{◌≡◌, ◌≤◌, length, [], IfOk};
ghost use Rattle.grid_lock.specs.Passes.{IsPassOf, IsSamePass};

use crate::board::{open, row_board};
use crate::passes::{close_four, close_two, split_two};
use crate::tries::step;
use board_core::{Board, Entry};
use grid_lock::{Grid, Pass, TryStep};
use magic_pool::Fail as Failing;
use node_log::Node;
use patch_base::Memory;
use std::alloc::Global;
use std::marker::Sync;
use std::process::Abort;
use std::test::Fail;
use std::thread::{Threads, join};

/// A pass, and how many entries it made.
type Worked = (Pass, u32);

// One try of a step, and how many entries it made. None where the factory is stocked, or there is no memory.
fn once(alloc: Global, grid: &Grid, pass: &mut Pass) -> Option<u32>
    requires { IsPassOf grid.now pass.old }
    ensures grid { IsPassOf grid.now pass.new }
    ensures same { IsSamePass pass.old pass.new }
{
    let Ok(node) = Node::empty(alloc) else {
        return None;
    };
    match step(grid, pass, 0, node) {
        Ok(_) => Some(1),
        Err(TryStep::Busy { node: _ }) => Some(0),
        Err(TryStep::Refused(_)) => None,
    }
}

// Steps the factory until it is stocked, with so many tries at most.
fn stepped(alloc: Global, grid: &Grid, mut pass: Pass, tries: u32) -> Worked
    requires { IsPassOf grid.now pass }
    ensures grid { IsPassOf grid.now result.0 }
    ensures same { IsSamePass pass result.0 }
{
    let mut made = 0u32;
    for _ in 0..tries {
        let Some(more) = once(alloc, grid, &mut pass) else {
            return (pass, made);
        };
        made = made.wrapping_add(more);
    }
    (pass, made)
}

// Two passes in a thread each.
fn both_step<R: Threads + Sync>(
    rt: &R,
    alloc: Global,
    grid: &Grid,
    one: Pass,
    two: Pass,
    tries: u32,
) -> (Worked, Worked)
    requires { IsPassOf grid.now one × IsPassOf grid.now two }
    ensures { IsPassOf grid.now result.0.0 × IsPassOf grid.now result.1.0 }
{
    join(
        rt,
        || -> Worked
            requires { IsPassOf grid.now one }
            ensures { IsPassOf grid.entry.now result.0 }
        { stepped(alloc, grid, one, tries) },
        || -> Worked
            requires { IsPassOf grid.now two }
            ensures { IsPassOf grid.entry.now result.0 }
        { stepped(alloc, grid, two, tries) },
    )
}

// Four passes in a thread each.
fn four_step<R: Threads + Sync>(
    rt: &R,
    alloc: Global,
    grid: &Grid,
    left: (Pass, Pass),
    right: (Pass, Pass),
    tries: u32,
) -> ((Worked, Worked), (Worked, Worked))
    requires left { IsPassOf grid.now left.0 × IsPassOf grid.now left.1 }
    requires right { IsPassOf grid.now right.0 × IsPassOf grid.now right.1 }
    ensures left { IsPassOf grid.now result.0.0.0 × IsPassOf grid.now result.0.1.0 }
    ensures right { IsPassOf grid.now result.1.0.0 × IsPassOf grid.now result.1.1.0 }
{
    let (one, two) = left;
    let (three, four) = right;
    join(
        rt,
        || -> (Worked, Worked)
            requires { IsPassOf grid.now one × IsPassOf grid.now two }
            ensures { IsPassOf grid.entry.now result.0.0 × IsPassOf grid.entry.now result.1.0 }
        { both_step(rt, alloc, grid, one, two, tries) },
        || -> (Worked, Worked)
            requires { IsPassOf grid.now three × IsPassOf grid.now four }
            ensures { IsPassOf grid.entry.now result.0.0 × IsPassOf grid.entry.now result.1.0 }
        { both_step(rt, alloc, grid, three, four, tries) },
    )
}

// How many entries each of the passes 0 to 4 made, and the board.
type Played = (Board, [u32; 5]);

// Two threads step the factory of an empty board, and pass 0 takes the steps that they leave.
fn play_two<R: Threads + Sync + Abort>(
    rt: &R,
    alloc: Global,
    board: Board,
) -> Result<Played, Memory>
    requires { board.history ≡ [] }
{
    let (grid, mut zero) = open(alloc, board)?;
    let passes = split_two(&grid, &mut zero)?;
    let (one, two) = both_step(rt, alloc, &grid, passes.0, passes.1, 40);
    let (zero, rest) = stepped(alloc, &grid, zero, 40);
    let made = [rest, one.1, two.1, 0, 0];
    let board = close_two(rt, alloc, grid, zero, one.0, two.0)?;
    Ok((board, made))
}

// The same with four threads.
fn play_four<R: Threads + Sync + Abort>(
    rt: &R,
    alloc: Global,
    board: Board,
) -> Result<Played, Memory>
    requires { board.history ≡ [] }
{
    let (grid, mut zero) = open(alloc, board)?;
    let left = split_two(&grid, &mut zero)?;
    let right = split_two(&grid, &mut zero)?;
    let (left, right) = four_step(rt, alloc, &grid, left, right, 4000);
    let (zero, rest) = stepped(alloc, &grid, zero, 4000);
    let made = [rest, left.0.1, left.1.1, right.0.1, right.1.1];
    let left = (left.0.0, left.1.0);
    let right = (right.0.0, right.1.0);
    let board = close_four(rt, alloc, grid, zero, left, right)?;
    Ok((board, made))
}

// Counts an entry of this pass. There are five passes.
fn count(made: &mut [u32; 5], by: u32) -> bool {
    match made.get_mut(by as usize) {
        Some(count) => {
            *count = count.wrapping_add(1);
            true
        }
        None => false,
    }
}

fn is_step(entry: &Entry) -> bool {
    match entry {
        Entry::Step { factory } => *factory == 0,
        _ => false,
    }
}

// How many entries each of the passes 0 to 4 made, where all entries are theirs and are steps of factory 0.
fn entries_by(board: &Board) -> Option<[u32; 5]> {
    let mut made = [0u32; 5];
    for noted in board.history().walk() {
        if !is_step(&noted.entry) || !count(&mut made, noted.by) {
            return None;
        }
    }
    Some(made)
}

// The history has so many entries, and each pass made those that it was told of.
fn has_all(rt: &impl Abort, played: &Played, entries: u32) {
    assert_eq!(rt; played.0.history().length(), entries);
    assert_eq!(rt; entries_by(&played.0), Some(played.1));
}

fn step_with_two<R: Threads + Sync + Abort>(rt: &R, alloc: Global) -> Result<(), Memory> {
    let board = row_board(alloc, &[])?;
    let played = play_two(rt, alloc, board)?;
    has_all(rt, &played, 11);
    Ok(())
}

// The factory takes eleven steps in all, whichever pass makes them.
#[test]
fn two_threads(rt: HostRuntime) -> Result<(), Fail> {
    step_with_two(&rt, rt.alloc())?;
    Ok(())
}

// The runs of the factory that fail: 300 of 11 steps each.
fn failing_runs(alloc: Global) -> Result<Vec<Failing>, Memory>
    ensures { IfOk result (λ v. length v.items ≤ 4096) }
{
    let mut fails = Vec::new(alloc);
    for run in 0..300 {
        fails.push(Failing { factory: 0, run })?;
    }
    Ok(fails)
}

fn step_with_four<R: Threads + Sync + Abort>(rt: &R, alloc: Global) -> Result<(), Memory> {
    let fails = failing_runs(alloc)?;
    let board = row_board(alloc, &fails)?;
    let played = play_four(rt, alloc, board)?;
    has_all(rt, &played, 3311);
    Ok(())
}

// Four threads step the factory through all its failing runs and the one after them, and pass 0 takes the steps that
// they leave: 301 runs of 11 steps.
#[test]
fn four_threads(rt: HostRuntime) -> Result<(), Fail> {
    step_with_four(&rt, rt.alloc())?;
    Ok(())
}
