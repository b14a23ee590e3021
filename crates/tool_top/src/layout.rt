//! The command `layout`: a layout that is open for a circuit, and its picture.

ghost use Rattle.std.specs.Prelude.{◌≡◌, ℕ, ◌≤◌, List, OnOk, OnErr};
ghost use Rattle.patch_base.specs.Outside.{Rose, Grew, AppendsPrefix};
ghost use Rattle.tool_words.specs.Commands as tool;
ghost use Rattle.tool_top.specs.declared.fault.ToolFault.{ToolFault as Fault_of};
ghost use Rattle.fault_lines.specs.Sinks.{writing};
ghost use Rattle.job_read.specs.Shelves.{shelved};
ghost use Rattle.tool_top.specs.Lower.{shown};
ghost use Rattle.tool_top.specs.Ends.{Ends};
ghost use Rattle.tool_top.specs.Told.{Accepts, Refuses};
ghost use Rattle.tool_top.specs.inside.Told.{EndsBy, IsDone};

use crate::fault::ToolFault;
use fault_lines::write_number;
use job_read::{load_circuit, load_layout};
use patch_base::{Failed, Shelf, Sink, write_all};
use patch_layout::Layout;
use rotation_list::statics;
use slice_write::write_picture;
use std::alloc::Global;

/// Reads a circuit and a layout, and writes the layout's size and its picture.
pub fn show_layout<S: Shelf, O: Sink>(
    alloc: Global,
    circuit: &str,
    layout: &str,
    shelf: &mut S,
    out: &mut O,
) -> Result<(), ToolFault>
    ensures told { (n : List ℕ) → S.tells shelf.new n ≡ S.tells shelf.old n }
    ensures counts { (n : List ℕ) → S.faults shelf.old n ≤ S.faults shelf.new n }
    ensures out_counts { O.faults out.old ≤ O.faults out.new }
    ensures ends { let r = shelved S.tells S.faults shelf.old shelf.new in
        let w = writing O.taken O.faults out.old out.new in
        Ends r w (tool.layout circuit.now layout.now) result }
    ensures complete { let r = shelved S.tells S.faults shelf.old shelf.new in
        Accepts r (tool.layout circuit.now layout.now) → IsDone result }
    ensures refuses { let r = shelved S.tells S.faults shelf.old shelf.new in
        (f : Fault_of) → Refuses r (tool.layout circuit.now layout.now) f → EndsBy f result }
{
    let circuit = load_circuit(alloc, shelf, circuit)?;
    let products = statics(alloc, &circuit)?;
    let layout = load_layout(alloc, shelf, layout, &circuit, &products)?;
    write_layout(&layout, out)?;
    Ok(())
}

// Writes a layout's rows and columns, and its picture.
fn write_layout<O: Sink>(layout: &Layout, out: &mut O) -> Result<(), Failed>
    ensures counts { O.faults out.old ≤ O.faults out.new }
    ensures all { OnOk result (Grew (O.taken out.old) (O.taken out.new) (shown layout.now)) }
    ensures part { OnErr result (AppendsPrefix (O.taken out.old) (O.taken out.new)
        (shown layout.now)) }
    ensures failed { OnErr result (Rose (O.faults out.old) (O.faults out.new)) }
{
    write_number(out, b"open ", layout.rows())?;
    write_number(out, b" ", layout.columns())?;
    write_all(out, b"\n")?;
    write_picture(layout, out)?;
    Ok(())
}
