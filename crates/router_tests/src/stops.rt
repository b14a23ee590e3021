//! Routers and makers that run beside one another, to their end or until the routers' gates stop them.

ghost use Rattle.std.specs.Prelude.{◌<◌, ◌≤◌};

use crate::jobs::seven;
use crate::routed::{completed, forward, gates_of};
use board_core::{Board, Entry, Noted};
use patch_base::Memory;
use router_work::{NoGate, StopAt};
use source_model::Given;
use std::alloc::Global;
use std::process::Abort;
use std::test::Fail;
use std::thread::Threads;

// What is known of a measurement: whether it was claimed about a negative axis, and its raw outcome.
type Measured = (Option<bool>, Option<bool>);

// The same after one more entry.
fn measured_by(noted: &Noted, measurement: u32, so_far: Measured) -> Measured {
    match &noted.entry {
        Entry::Claim { product, axis, .. } => {
            if *product == measurement {
                (Some(axis.sign()), so_far.1)
            } else {
                so_far
            }
        }
        Entry::Deliver {
            product,
            given: Given::Measure { raw },
        } => {
            if *product == measurement {
                (so_far.0, Some(*raw))
            } else {
                so_far
            }
        }
        _ => so_far,
    }
}

// The bit that a measurement writes: its raw outcome, turned where the axis is negative.
fn bit_of(board: &Board, measurement: u32) -> Option<bool> {
    let mut measured = (None, None);
    for noted in board.history().walk() {
        measured = measured_by(noted, measurement, measured);
    }
    match measured {
        (Some(minus), Some(raw)) => Some(minus != raw),
        _ => None,
    }
}

// Each of the seven products is released, and products 2 to 6 write the bits 0, 1, 0, 0, 1.
fn is_right(board: &Board) -> bool {
    for product in 0..7 {
        let Some(standing) = board.standing(product) else {
            return false;
        };
        if standing.release.is_none() {
            return false;
        }
    }
    bit_of(board, 2) == Some(false)
        && bit_of(board, 3) == Some(true)
        && bit_of(board, 4) == Some(false)
        && bit_of(board, 5) == Some(false)
        && bit_of(board, 6) == Some(true)
}

// Two routers stop after so many points, and the board is brought to its end.
fn stopped_after<R: Threads + Sync>(rt: &R, alloc: Global, left: u32) -> Result<bool, Memory> {
    let gates = gates_of(alloc, StopAt { left, stops: 0 }, 2)?;
    let board = completed(rt, alloc, &seven(), gates)?;
    Ok(is_right(&board))
}

// Wherever its routers stop, a board can be brought to its end.
#[test]
fn stops_anywhere(rt: HostRuntime) -> Result<(), Fail> {
    for left in 0..61 {
        assert!(rt; stopped_after(&rt, rt.alloc(), left)?);
    }
    Ok(())
}

// Routers that nothing stops.
fn unstopped<R: Threads + Sync>(rt: &R, alloc: Global, routers: u32) -> Result<bool, Memory>
    requires { (0 < routers) × (routers ≤ 16) }
{
    let gates = gates_of(alloc, NoGate, routers)?;
    let board = completed(rt, alloc, &seven(), gates)?;
    Ok(is_right(&board))
}

#[test]
fn one_router(rt: HostRuntime) -> Result<(), Fail> {
    assert!(rt; unstopped(&rt, rt.alloc(), 1)?);
    Ok(())
}

#[test]
fn four_routers(rt: HostRuntime) -> Result<(), Fail> {
    assert!(rt; unstopped(&rt, rt.alloc(), 4)?);
    Ok(())
}

// How many steps of a factory this worker made.
fn steps_by(board: &Board, worker: u32, factory: u32) -> u32 {
    let mut count = 0u32;
    for noted in board.history().walk() {
        match noted.entry {
            Entry::Step { factory: stepped } => {
                if noted.by == worker && stepped == factory {
                    count = count.wrapping_add(1);
                }
            }
            _ => {}
        }
    }
    count
}

// Two routers stop at once. Workers 3 and 4 fill the factories 0 and 1.
#[test]
fn makers_come_after_routers(rt: HostRuntime) -> Result<(), Fail> {
    let alloc = rt.alloc();
    let gates = gates_of(alloc, StopAt { left: 0, stops: 0 }, 2)?;
    let (board, _) = forward(&rt, alloc, &seven(), gates)?;
    assert_eq!(rt; steps_by(&board, 3, 0), 22);
    assert_eq!(rt; steps_by(&board, 4, 1), 22);
    assert_eq!(rt; board.history().length(), 44);
    Ok(())
}
