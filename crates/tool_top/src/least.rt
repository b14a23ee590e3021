//! The command `least`: as `serial`, with regions of the least number of cells.

ghost use Rattle.std.specs.Prelude.{◌≡◌, ℕ, ◌≤◌, List};
ghost use Rattle.fault_lines.specs.Sinks.{writing};
ghost use Rattle.job_read.specs.Shelves.{shelved};
ghost use Rattle.tool_words.specs.Commands as tool;
ghost use Rattle.tool_top.specs.declared.fault.ToolFault.{ToolFault as Fault_of};
ghost use Rattle.tool_top.specs.Ends.{Ends};
ghost use Rattle.tool_top.specs.Told.{Accepts, Refuses};
ghost use Rattle.tool_top.specs.inside.Told.{EndsBy, IsDone};

use crate::fault::ToolFault;
use crate::serial::carry_out;
use board_write::{law_complete_boards, write_board};
use job_read::read_job;
use least_region::LeastPlanner;
use patch_base::{Shelf, Sink};
use std::alloc::Global;

/// Reads a job, brings its board to its end by regions of as few cells as can be, and writes the schedule.
pub fn least<S: Shelf, O: Sink>(
    alloc: Global,
    circuit: &str,
    layout: &str,
    outcomes: &str,
    shelf: &mut S,
    out: &mut O,
) -> Result<(), ToolFault>
    ensures told { (n : List ℕ) → S.tells shelf.new n ≡ S.tells shelf.old n }
    ensures counts { (n : List ℕ) → S.faults shelf.old n ≤ S.faults shelf.new n }
    ensures out_counts { O.faults out.old ≤ O.faults out.new }
    ensures ends { let r = shelved S.tells S.faults shelf.old shelf.new in
        let w = writing O.taken O.faults out.old out.new in
        Ends r w (tool.least circuit.now layout.now outcomes.now) result }
    ensures complete { let r = shelved S.tells S.faults shelf.old shelf.new in
        Accepts r (tool.least circuit.now layout.now outcomes.now) → IsDone result }
    ensures refuses { let r = shelved S.tells S.faults shelf.old shelf.new in
        (f : Fault_of) → Refuses r (tool.least circuit.now layout.now outcomes.now) f
        → EndsBy f result }
{
    law_complete_boards();
    let job = read_job(alloc, shelf, circuit, layout, outcomes)?;
    let done = carry_out(alloc, job, &mut LeastPlanner::new(alloc))?;
    write_board(alloc, &done.circuit, &done.board, out)?;
    Ok(())
}
