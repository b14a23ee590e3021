//! The command `migrate`: a schedule in the latest version.

ghost use Rattle.std.specs.Prelude.{◌≡◌, ℕ, ◌≤◌, List};
ghost use Rattle.tool_words.specs.Commands as tool;
ghost use Rattle.tool_top.specs.declared.fault.ToolFault.{ToolFault as Fault_of};
ghost use Rattle.fault_lines.specs.Sinks.{writing};
ghost use Rattle.job_read.specs.Shelves.{shelved};
ghost use Rattle.tool_top.specs.Ends.{Ends};
ghost use Rattle.tool_top.specs.Told.{Accepts, Refuses};
ghost use Rattle.tool_top.specs.inside.Told.{EndsBy, IsDone};

use crate::fault::ToolFault;
use crate::schedule::{Names, read_schedule};
use board_write::write_board;
use patch_base::{Shelf, Sink};
use std::alloc::Global;

/// Reads a job and a schedule, and writes the schedule in version 2, with the passes of its entries.
pub fn migrate_schedule<S: Shelf, O: Sink>(
    alloc: Global,
    names: Names<'_>,
    shelf: &mut S,
    out: &mut O,
) -> Result<(), ToolFault>
    ensures told { (n : List ℕ) → S.tells shelf.new n ≡ S.tells shelf.old n }
    ensures counts { (n : List ℕ) → S.faults shelf.old n ≤ S.faults shelf.new n }
    ensures out_counts { O.faults out.old ≤ O.faults out.new }
    ensures ends { let r = shelved S.tells S.faults shelf.old shelf.new in
        let w = writing O.taken O.faults out.old out.new in
        Ends r w
        (tool.migrate names.entry.circuit.now names.entry.layout.now names.entry.outcomes.now
        names.entry.schedule.now) result }
    ensures complete { let r = shelved S.tells S.faults shelf.old shelf.new in
        Accepts r
        (tool.migrate names.entry.circuit.now names.entry.layout.now names.entry.outcomes.now
        names.entry.schedule.now) → IsDone result }
    ensures refuses { let r = shelved S.tells S.faults shelf.old shelf.new in
        (f : Fault_of)
        → Refuses r
        (tool.migrate names.entry.circuit.now names.entry.layout.now names.entry.outcomes.now
        names.entry.schedule.now) f → EndsBy f result }
{
    let replayed = read_schedule(alloc, names, shelf)?;
    write_board(alloc, &replayed.circuit, &replayed.board, out)?;
    Ok(())
}
