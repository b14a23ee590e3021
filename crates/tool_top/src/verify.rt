//! The command `verify`: whether a schedule is legal and complete.

ghost use Rattle.std.specs.Prelude.{◌≡◌, ℕ, ◌≤◌, List};
ghost use Rattle.tool_words.specs.Commands as tool;
ghost use Rattle.tool_top.specs.declared.fault.ToolFault.{ToolFault as Fault_of};
ghost use Rattle.fault_lines.specs.Sinks.{writing};
ghost use Rattle.job_read.specs.Shelves.{shelved};
ghost use Rattle.tool_top.specs.Ends.{Ends};
ghost use Rattle.tool_top.specs.Told.{Accepts, Refuses};
ghost use Rattle.tool_top.specs.inside.Told.{EndsBy, IsDone};

use crate::fault::ToolFault;
use crate::schedule::{Names, read_schedule};
use patch_base::{Shelf, Sink, write_all};
use std::alloc::Global;

/// Reads a job and a schedule, and writes that the schedule is legal.
pub fn verify_schedule<S: Shelf, O: Sink>(
    alloc: Global,
    names: Names<'_>,
    shelf: &mut S,
    out: &mut O,
) -> Result<(), ToolFault>
    ensures told { (n : List ℕ) → S.tells shelf.new n ≡ S.tells shelf.old n }
    ensures counts { (n : List ℕ) → S.faults shelf.old n ≤ S.faults shelf.new n }
    ensures out_counts { O.faults out.old ≤ O.faults out.new }
    ensures ends { let r = shelved S.tells S.faults shelf.old shelf.new in
        let w = writing O.taken O.faults out.old out.new in
        Ends r w
        (tool.verify names.entry.circuit.now names.entry.layout.now names.entry.outcomes.now
        names.entry.schedule.now) result }
    ensures complete { let r = shelved S.tells S.faults shelf.old shelf.new in
        Accepts r
        (tool.verify names.entry.circuit.now names.entry.layout.now names.entry.outcomes.now
        names.entry.schedule.now) → IsDone result }
    ensures refuses { let r = shelved S.tells S.faults shelf.old shelf.new in
        (f : Fault_of)
        → Refuses r
        (tool.verify names.entry.circuit.now names.entry.layout.now names.entry.outcomes.now
        names.entry.schedule.now) f → EndsBy f result }
{
    let _replayed = read_schedule(alloc, names, shelf)?;
    write_all(out, b"legal\n")?;
    Ok(())
}
