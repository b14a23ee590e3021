//! Boards that routers and makers bring forward beside one another.

ghost use Rattle.std.specs.Prelude.{◌≡◌, ◌<◌, ◌≤◌, [], length, IfOk};
ghost use Rattle.source_model.specs.Statics.{AreOutcomesOf};

use crate::board::{board_for, outcomes_for};
use crate::jobs::Job;
use board_core::Board;
use finish_run::finish;
use outcome_table::Outcomes;
use patch_base::Memory;
use router_work::{Gate, route_all};
use std::alloc::Global;
use std::thread::Threads;

// An empty board is brought forward by a router for each gate, and the makers.
fn routed<R: Threads + Sync, G: Gate>(
    rt: &R,
    alloc: Global,
    board: Board,
    outcomes: &Outcomes,
    gates: Vec<G>,
) -> Result<Board, Memory>
    requires empty { board.history ≡ [] }
    requires outcomes { AreOutcomesOf outcomes.now.given board.job.products }
    requires gates { (0 < length gates.items) × (length gates.items ≤ 16) }
    ensures { IfOk result (λ b. AreOutcomesOf outcomes.now.given b.job.products) }
{
    let routers = gates.len() as u32;
    match route_all(rt, alloc, board, outcomes, routers, gates) {
        Ok(board) => Ok(board),
        Err(_) => Err(Memory),
    }
}

/// The board of a job, brought forward by a router for each gate, and the outcomes.
pub(crate) fn forward<R: Threads + Sync, G: Gate>(
    rt: &R,
    alloc: Global,
    job: &Job,
    gates: Vec<G>,
) -> Result<(Board, Outcomes), Memory>
    requires { (0 < length gates.items) × (length gates.items ≤ 16) }
    ensures { IfOk result (λ r. AreOutcomesOf r.1.given r.0.job.products) }
{
    let board = board_for(alloc, job)?;
    let outcomes = outcomes_for(alloc, &board, job)?;
    let board = routed(rt, alloc, board, &outcomes, gates)?;
    Ok((board, outcomes))
}

/// The same board, brought to its end.
pub(crate) fn completed<R: Threads + Sync, G: Gate>(
    rt: &R,
    alloc: Global,
    job: &Job,
    gates: Vec<G>,
) -> Result<Board, Memory>
    requires { (0 < length gates.items) × (length gates.items ≤ 16) }
{
    let (board, outcomes) = forward(rt, alloc, job, gates)?;
    match finish(alloc, board, &outcomes) {
        Ok(board) => Ok(board),
        Err(_) => Err(Memory),
    }
}

/// So many equal gates.
pub(crate) fn gates_of<G: Gate + Copy>(alloc: Global, gate: G, count: u32) -> Result<Vec<G>, Memory>
    ensures { IfOk result (λ v. length v.items ≡ count) }
{
    let mut gates = Vec::new(alloc);
    for _ in 0..count {
        gates.push(gate)?;
    }
    Ok(gates)
}
