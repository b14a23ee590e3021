//! Routers on a new board.

ghost use Rattle.std.specs.Prelude.{◌≡◌, ◌≤◌, [], All, IfOk, length};
ghost use Rattle.source_model.specs.Circuits.{OutcomesOf};
ghost use Rattle.source_model.specs.Statics.{kinds_of};
ghost use Rattle.board_core.specs.Laws.{Agrees};
ghost use Rattle.board_core.specs.Position.{past, IsLegal};
ghost use Rattle.tool_words.specs.Commands.{AreRouters};
ghost use Rattle.run_top.specs.Carried.{AreByWorkers};

use board_core::{Board, law_past};
use outcome_table::Outcomes;
use patch_base::Memory;
use router_work::{NoGate, route_all};
use std::alloc::Global;
use std::thread::Threads;

/// Lets k routers, and a maker for each factory, carry out what they can of a new board.
pub fn route<T: Threads + Sync>(
    rt: &T,
    alloc: Global,
    board: Board,
    outcomes: &Outcomes,
    k: u32,
) -> Result<Board, Memory>
    requires new { board.history ≡ [] }
    requires outcomes { OutcomesOf (kinds_of board.job.products) outcomes.now.given }
    requires routers { AreRouters k }
    ensures job { IfOk result (λ b. b.job ≡ board.job) }
    ensures legal { IfOk result IsLegal }
    ensures given { IfOk result (λ b. Agrees outcomes.now.given (past b)) }
    ensures workers { IfOk result (λ b. AreByWorkers b.history) }
{
    law_past();
    let gates = gates(alloc, k)?;
    match route_all(rt, alloc, board, outcomes, k, gates) {
        Ok(board) => Ok(board),
        Err(_) => Err(Memory),
    }
}

// Gates that stop nobody.
fn gates(alloc: Global, k: u32) -> Result<Vec<NoGate>, Memory>
    ensures { IfOk result (λ gates. length gates.items ≡ k) }
{
    let mut gates = Vec::new(alloc);
    for _i in 0..k {
        gates.push(NoGate)?;
    }
    Ok(gates)
}
