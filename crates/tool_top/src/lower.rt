//! The command `lower`: the static products of a circuit.

ghost use Rattle.std.specs.Prelude.{◌≡◌, ℕ, ◌≤◌, List, IfOk};
ghost use Rattle.source_model.specs.Circuits.{WellFormed};
ghost use Rattle.tool_words.specs.Commands as tool;
ghost use Rattle.tool_top.specs.declared.fault.ToolFault.{ToolFault as Fault_of};
ghost use Rattle.fault_lines.specs.Sinks.{writing};
ghost use Rattle.job_read.specs.Shelves.{shelved};
ghost use Rattle.rotation_list.specs.Listable.{lowered};
ghost use Rattle.tool_top.specs.Ends.{Ends};
ghost use Rattle.tool_top.specs.Told.{Accepts, Refuses};
ghost use Rattle.tool_top.specs.inside.Told.{EndsBy, IsDone};

use crate::fault::ToolFault;
use job_read::load_circuit;
use patch_base::{Memory, Shelf, Sink, write_all};
use rotation_list::{print_products, statics};
use source_model::Circuit;
use std::alloc::Global;

/// Reads a circuit, and writes the product list of its static products.
pub fn lower<S: Shelf, O: Sink>(
    alloc: Global,
    circuit: &str,
    shelf: &mut S,
    out: &mut O,
) -> Result<(), ToolFault>
    ensures told { (n : List ℕ) → S.tells shelf.new n ≡ S.tells shelf.old n }
    ensures counts { (n : List ℕ) → S.faults shelf.old n ≤ S.faults shelf.new n }
    ensures out_counts { O.faults out.old ≤ O.faults out.new }
    ensures ends { let r = shelved S.tells S.faults shelf.old shelf.new in
        let w = writing O.taken O.faults out.old out.new in
        Ends r w (tool.lower circuit.now) result }
    ensures complete { let r = shelved S.tells S.faults shelf.old shelf.new in
        Accepts r (tool.lower circuit.now) → IsDone result }
    ensures refuses { let r = shelved S.tells S.faults shelf.old shelf.new in
        (f : Fault_of) → Refuses r (tool.lower circuit.now) f → EndsBy f result }
{
    let circuit = load_circuit(alloc, shelf, circuit)?;
    let text = lowered(alloc, &circuit)?;
    write_all(out, &text)?;
    Ok(())
}

// The product list of a circuit's static products.
fn lowered(alloc: Global, circuit: &Circuit) -> Result<Vec<u8>, Memory>
    requires { WellFormed circuit.now }
    ensures { IfOk result (λ text. text.items ≡ lowered circuit.now) }
{
    let products = statics(alloc, circuit)?;
    let mut text = Vec::new(alloc);
    print_products(alloc, circuit, &products, &mut text)?;
    Ok(text)
}
