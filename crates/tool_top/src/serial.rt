//! The command `serial`: a job carried out on one thread.

ghost use Rattle.std.specs.Prelude.{◌≡◌, ℕ, ◌≤◌, List, IfOk};
ghost use Rattle.fault_lines.specs.Sinks.{writing};
ghost use Rattle.job_read.specs.Kept.{IsJob};
ghost use Rattle.job_read.specs.Shelves.{shelved};
ghost use Rattle.tool_words.specs.Commands as tool;
ghost use Rattle.tool_top.specs.declared.fault.ToolFault.{ToolFault as Fault_of};
ghost use Rattle.tool_top.specs.inside.Carried.{IsBroughtToEnd};
ghost use Rattle.tool_top.specs.Ends.{Ends};
ghost use Rattle.tool_top.specs.Told.{Accepts, Refuses};
ghost use Rattle.tool_top.specs.inside.Told.{EndsBy, IsDone};

use crate::fault::ToolFault;
use board_core::Board;
use board_write::{law_complete_boards, write_board};
use finish_run::finish_by;
use job_read::{Job, Started, read_job, start_job};
use patch_base::{Memory, Shelf, Sink};
use region_plan::{KeepingPlanner, Planner};
use source_model::Circuit;
use std::alloc::Global;

/// Reads a job, brings its board to its end, and writes the schedule.
pub fn serial<S: Shelf, O: Sink>(
    alloc: Global,
    circuit: &str,
    layout: &str,
    outcomes: &str,
    shelf: &mut S,
    out: &mut O,
) -> Result<(), ToolFault>
    ensures told { (n : List ℕ) → S.tells shelf.new n ≡ S.tells shelf.old n }
    ensures counts { (n : List ℕ) → S.faults shelf.old n ≤ S.faults shelf.new n }
    ensures out_counts { O.faults out.old ≤ O.faults out.new }
    ensures ends { let r = shelved S.tells S.faults shelf.old shelf.new in
        let w = writing O.taken O.faults out.old out.new in
        Ends r w (tool.serial circuit.now layout.now outcomes.now) result }
    ensures complete { let r = shelved S.tells S.faults shelf.old shelf.new in
        Accepts r (tool.serial circuit.now layout.now outcomes.now) → IsDone result }
    ensures refuses { let r = shelved S.tells S.faults shelf.old shelf.new in
        (f : Fault_of) → Refuses r (tool.serial circuit.now layout.now outcomes.now) f
        → EndsBy f result }
{
    law_complete_boards();
    let job = read_job(alloc, shelf, circuit, layout, outcomes)?;
    let done = carry_out(alloc, job, &mut KeepingPlanner::new(alloc))?;
    write_board(alloc, &done.circuit, &done.board, out)?;
    Ok(())
}

/// A circuit, and the board on which it was carried out.
#[derive(Drop)]
pub struct Done {
    pub circuit: Circuit,
    pub board: Board,
}

/// Brings the new board of a job to its end, by regions of the planner.
pub fn carry_out<P: Planner>(alloc: Global, job: Job, planner: &mut P) -> Result<Done, Memory>
    requires { IsJob job }
    ensures circuit { IfOk result (λ d. d.circuit ≡ job.circuit) }
    ensures board { IfOk result (λ d. IsBroughtToEnd P.meets job d.board) }
{
    let started = start_job(alloc, job)?;
    let Started {
        circuit,
        board,
        outcomes,
    } = started;
    match finish_by(alloc, board, &outcomes, planner) {
        Ok(board) => Ok(Done { circuit, board }),
        Err(_) => Err(Memory),
    }
}
