//! A job carried out by routers.

ghost use Rattle.std.specs.Prelude.{◌≡◌, IfOk};
ghost use Rattle.job_read.specs.Kept.{IsJob};
ghost use Rattle.tool_words.specs.Commands.{AreRouters};
ghost use Rattle.run_top.specs.inside.Carried.{IsCarriedOut};

use crate::route::route;
use board_core::Board;
use finish_run::finish;
use job_read::{Job, Started, start_job};
use patch_base::Memory;
use source_model::Circuit;
use std::alloc::Global;
use std::thread::Threads;

/// A circuit, and the board on which it was carried out.
#[derive(Drop)]
pub struct Done {
    pub circuit: Circuit,
    pub board: Board,
}

/// Lets k routers carry a job out, and brings its board to its end.
pub fn carry_out<T: Threads + Sync>(rt: &T, alloc: Global, job: Job, k: u32) -> Result<Done, Memory>
    requires job { IsJob job }
    requires routers { AreRouters k }
    ensures circuit { IfOk result (λ d. d.circuit ≡ job.circuit) }
    ensures board { IfOk result (λ d. IsCarriedOut job d.board) }
{
    let started = start_job(alloc, job)?;
    let Started {
        circuit,
        board,
        outcomes,
    } = started;
    let board = route(rt, alloc, board, &outcomes, k)?;
    match finish(alloc, board, &outcomes) {
        Ok(board) => Ok(Done { circuit, board }),
        Err(_) => Err(Memory),
    }
}
