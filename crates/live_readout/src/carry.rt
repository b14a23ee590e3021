//! A job carried out live.

ghost use Rattle.std.specs.Prelude.{◌≡◌, ◌≤◌, [], length, IfOk};
ghost use Rattle.source_model.specs.Statics.{AreOutcomesOf};
ghost use Rattle.board_core.specs.Laws.{Agrees};
ghost use Rattle.board_core.specs.Position.{past, IsLegal};
ghost use Rattle.job_read.specs.Kept.{IsJob};
ghost use Rattle.live_readout.specs.Carried.{AreByLiveWorkers};
ghost use Rattle.live_readout.specs.inside.Carried.{IsCarriedOut};

use crate::listed::Listed;
use crate::route::route_live;
use board_core::{Board, law_past};
use finish_run::finish;
use job_read::{Job, Started, start_job};
use outcome_table::Outcomes;
use patch_base::Memory;
use router_work::NoGate;
use source_model::Circuit;
use std::alloc::Global;
use std::sync::Wait;
use std::thread::Threads;

/// A circuit, and the board on which it was carried out.
#[derive(Drop)]
pub struct Done {
    pub circuit: Circuit,
    pub board: Board,
}

/// Carries a job out: its outcomes arrive while k routers work, and then its board is brought to its end.
pub fn carry_out<T: Threads + Wait + Sync>(
    rt: &T,
    alloc: Global,
    job: Job,
    k: u32,
) -> Result<Done, Memory>
    requires job { IsJob job }
    requires routers { (1 ≤ k) × (k ≤ 16) }
    ensures circuit { IfOk result (λ d. d.circuit ≡ job.circuit) }
    ensures board { IfOk result (λ d. IsCarriedOut job d.board) }
{
    let started = start_job(alloc, job)?;
    let Started {
        circuit,
        board,
        outcomes,
    } = started;
    let board = route(rt, alloc, board, &outcomes, k)?;
    match finish(alloc, board, &outcomes) {
        Ok(board) => Ok(Done { circuit, board }),
        Err(_) => Err(Memory),
    }
}

/// Lets outcomes arrive at a new board while k routers, and a maker for each factory, carry out what they can.
pub fn route<T: Threads + Wait + Sync>(
    rt: &T,
    alloc: Global,
    board: Board,
    outcomes: &Outcomes,
    k: u32,
) -> Result<Board, Memory>
    requires new { board.history ≡ [] }
    requires outcomes { AreOutcomesOf outcomes.now.given board.job.products }
    requires routers { (1 ≤ k) × (k ≤ 16) }
    ensures job { IfOk result (λ b. b.job ≡ board.job) }
    ensures legal { IfOk result IsLegal }
    ensures given { IfOk result (λ b. Agrees outcomes.now.given (past b)) }
    ensures workers { IfOk result (λ b. AreByLiveWorkers b.history) }
{
    law_past();
    let _ = board.history();
    let readout = Listed::new(alloc, outcomes)?;
    let gates = gates(alloc, k)?;
    match route_live(rt, alloc, board, readout, k, gates) {
        Ok(live) => Ok(live.board),
        Err(_) => Err(Memory),
    }
}

// Gates that stop nobody.
fn gates(alloc: Global, k: u32) -> Result<Vec<NoGate>, Memory>
    ensures { IfOk result (λ gates. length gates.items ≡ k) }
{
    let mut gates = Vec::new(alloc);
    for _i in 0..k {
        gates.push(NoGate)?;
    }
    Ok(gates)
}
