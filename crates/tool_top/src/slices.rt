//! The command `slices`: the slices of a schedule, and their pictures.

ghost use Rattle.std.specs.Prelude.{◌≡◌, ℕ, ◌≤◌, List};
ghost use Rattle.tool_words.specs.Commands as tool;
ghost use Rattle.tool_top.specs.declared.fault.ToolFault.{ToolFault as Fault_of};
ghost use Rattle.fault_lines.specs.Sinks.{writing};
ghost use Rattle.job_read.specs.Shelves.{shelved};
ghost use Rattle.board_core.specs.Position.{past};
ghost use Rattle.slice_write.specs.Slices.{sliced};
ghost use Rattle.slice_write.specs.Pictures.{slices_text};
ghost use Rattle.board_write.specs.Boards.{WritesText};
ghost use Rattle.tool_top.specs.Ends.{Ends};
ghost use Rattle.tool_top.specs.Told.{Accepts, Refuses};
ghost use Rattle.tool_top.specs.inside.Told.{EndsBy, IsDone};

use crate::fault::ToolFault;
use crate::schedule::{Names, read_schedule};
use board_core::Board;
use board_write::WriteFault;
use patch_base::{Shelf, Sink};
use slice_write::{SliceFault, slices, write_slices};
use std::alloc::Global;

/// Reads a job and a schedule, and writes the schedule's slices.
pub fn slice_schedule<S: Shelf, O: Sink>(
    alloc: Global,
    names: Names<'_>,
    shelf: &mut S,
    out: &mut O,
) -> Result<(), ToolFault>
    ensures told { (n : List ℕ) → S.tells shelf.new n ≡ S.tells shelf.old n }
    ensures counts { (n : List ℕ) → S.faults shelf.old n ≤ S.faults shelf.new n }
    ensures out_counts { O.faults out.old ≤ O.faults out.new }
    ensures ends { let r = shelved S.tells S.faults shelf.old shelf.new in
        let w = writing O.taken O.faults out.old out.new in
        Ends r w
        (tool.slices names.entry.circuit.now names.entry.layout.now names.entry.outcomes.now
        names.entry.schedule.now) result }
    ensures complete { let r = shelved S.tells S.faults shelf.old shelf.new in
        Accepts r
        (tool.slices names.entry.circuit.now names.entry.layout.now names.entry.outcomes.now
        names.entry.schedule.now) → IsDone result }
    ensures refuses { let r = shelved S.tells S.faults shelf.old shelf.new in
        (f : Fault_of)
        → Refuses r
        (tool.slices names.entry.circuit.now names.entry.layout.now names.entry.outcomes.now
        names.entry.schedule.now) f → EndsBy f result }
{
    let replayed = read_schedule(alloc, names, shelf)?;
    write_board_slices(alloc, &replayed.board, out)?;
    Ok(())
}

// Writes the slices of a board's history.
fn write_board_slices<O: Sink>(alloc: Global, board: &Board, out: &mut O) -> Result<(), WriteFault>
    ensures out_counts { O.faults out.old ≤ O.faults out.new }
    ensures written { let w = writing O.taken O.faults out.old out.new in
        WritesText w (slices_text board.now.job.grid (sliced board.now.job (past board.now)))
        result }
{
    let slices = slices(alloc, board)?;
    match write_slices(alloc, board, &slices, out) {
        Ok(()) => Ok(()),
        Err(SliceFault::Failed) => Err(WriteFault::Failed),
        Err(SliceFault::Memory) => Err(WriteFault::Memory),
    }
}
