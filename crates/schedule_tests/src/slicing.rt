//! Slices by value, and slices and pictures written to sinks that fail.

use crate::jobs::{board, layout};
use board_core::Board;
use node_log::Node;
use patch_base::{Failed, MemorySink};
use slice_write::{SliceFault, slices, write_picture, write_slices};
use std::alloc::Global;
use std::process::Abort;
use std::test::Fail;

/// A board after one step of the factory.
fn stepped(rt: &impl Abort, alloc: Global) -> Result<Board, Fail> {
    let mut board = board(alloc)?;
    assert!(rt; board.step(0, 0, Node::empty(alloc)?).is_ok());
    Ok(board)
}

fn check_slices(rt: &impl Abort, alloc: Global, board: &Board) -> Result<(), Fail> {
    let slices = slices(alloc, board)?;
    assert_eq!(rt; slices.as_slice(), [1].as_slice());
    let mut sink = MemorySink::new(alloc, 100, 100)?;
    assert_eq!(rt; write_slices(alloc, board, &slices, &mut sink), Ok(()));
    assert_eq!(rt; sink.bytes(), b"slices 1 1\nslice 1 0\n".as_slice());
    Ok(())
}

#[test]
fn writes_slices(rt: HostRuntime) -> Result<(), Fail> {
    let board = stepped(&rt, rt.alloc())?;
    check_slices(&rt, rt.alloc(), &board)
}

fn check_full_sink(rt: &impl Abort, alloc: Global, board: &Board) -> Result<(), Fail> {
    let slices = slices(alloc, board)?;
    let mut full = MemorySink::new(alloc, 3, 100)?;
    assert_eq!(rt;
        write_slices(alloc, board, &slices, &mut full),
        Err(SliceFault::Failed)
    );
    assert_eq!(rt; full.bytes(), b"sli".as_slice());
    Ok(())
}

#[test]
fn stops_where_the_sink_is_full(rt: HostRuntime) -> Result<(), Fail> {
    let board = stepped(&rt, rt.alloc())?;
    check_full_sink(&rt, rt.alloc(), &board)
}

#[test]
fn stops_within_a_picture(rt: HostRuntime) -> Result<(), Fail> {
    let layout = layout(rt.alloc())?;
    let mut full = MemorySink::new(rt.alloc(), 9, 100)?;
    assert_eq!(rt; write_picture(&layout, &mut full), Err(Failed));
    assert_eq!(rt; full.bytes(), b"     .   ".as_slice());
    Ok(())
}
