//! Jobs whose routers stop after so many points, and that one worker brings to their end.

ghost use Rattle.std.specs.Prelude.{◌≡◌, [], length, IfOk};
ghost use Rattle.source_model.specs.Statics.{AreOutcomesOf};
ghost use Rattle.job_read.specs.Kept.{IsJob};

use crate::call::{is_legal, sink};
use crate::job::exported;
use crate::shelf::JobShelf;
use board_core::Board;
use board_write::write_board;
use finish_run::finish;
use job_read::{Job, Started, read_job, start_job};
use outcome_table::Outcomes;
use patch_base::{Memory, MemorySink};
use router_work::{StopAt, route_all};
use std::alloc::Global;
use std::test::Fail;
use std::thread::Threads;

// The exporter's job.
fn read(alloc: Global) -> Result<Job, Fail>
    ensures { IfOk result IsJob }
{
    let mut shelf = JobShelf::of(exported());
    match read_job(alloc, &mut shelf, "c", "l", "o") {
        Ok(job) => Ok(job),
        Err(_) => Err(Fail::new("refused")),
    }
}

// Two gates that stop after so many points.
fn gates(alloc: Global, left: u32) -> Result<Vec<StopAt>, Memory>
    ensures { IfOk result (λ gates. length gates.items ≡ 2) }
{
    let mut gates = Vec::new(alloc);
    gates.push(StopAt { left, stops: 0 })?;
    gates.push(StopAt { left, stops: 0 })?;
    Ok(gates)
}

// A new board, brought forward by two routers and the makers.
fn forward<T: Threads + Sync>(
    rt: &T,
    alloc: Global,
    board: Board,
    outcomes: &Outcomes,
    left: u32,
) -> Result<Board, Memory>
    requires new { board.history ≡ [] }
    requires outcomes { AreOutcomesOf outcomes.now.given board.job.products }
    ensures { IfOk result (λ b. b.job ≡ board.job) }
{
    let gates = gates(alloc, left)?;
    match route_all(rt, alloc, board, outcomes, 2, gates) {
        Ok(board) => Ok(board),
        Err(_) => Err(Memory),
    }
}

// The same board, brought to its end.
fn ended(alloc: Global, board: Board, outcomes: &Outcomes) -> Result<Board, Memory>
    requires { AreOutcomesOf outcomes.now.given board.job.products }
    ensures { IfOk result (λ b. b.job ≡ board.job) }
{
    match finish(alloc, board, outcomes) {
        Ok(board) => Ok(board),
        Err(_) => Err(Memory),
    }
}

// The schedule of the exporter's job whose routers stop after so many points.
fn written<T: Threads + Sync>(rt: &T, alloc: Global, left: u32) -> Result<MemorySink, Fail> {
    let job = read(alloc)?;
    let Started {
        circuit,
        board,
        outcomes,
    } = start_job(alloc, job)?;
    let board = forward(rt, alloc, board, &outcomes, left)?;
    let board = ended(alloc, board, &outcomes)?;
    let mut out = sink(alloc, 100_000)?;
    match write_board(alloc, &circuit, &board, &mut out) {
        Ok(()) => Ok(out),
        Err(_) => Err(Fail::new("unwritten")),
    }
}

// Wherever its routers stop, the schedule of the job's end is legal, with the source's bits.
#[test]
fn stopped_anywhere(rt: HostRuntime) -> Result<(), Fail> {
    for left in 0..61 {
        let out = written(&rt, rt.alloc(), left)?;
        assert!(rt; out.bytes().ends_with(b"\nbits c 10010\n"));
        is_legal(&rt, rt.alloc(), exported(), out.bytes())?;
    }
    Ok(())
}
