//! The command `layers`: a circuit's products in as few layers of commuting products as can be.

ghost use Rattle.std.specs.Prelude.{◌≡◌, ℕ, ◌≤◌, ◌++◌, List, length, All, IfOk, OnOk};
ghost use Rattle.fault_lines.specs.Sinks.{writing};
ghost use Rattle.job_read.specs.Kept.{IsCircuit};
ghost use Rattle.job_read.specs.Shelves.{shelved};
ghost use Rattle.tool_words.specs.Commands as tool;
ghost use Rattle.tool_top.specs.declared.fault.ToolFault.{ToolFault as Fault_of};
ghost use Rattle.tool_top.specs.Layers.{AreLayersOf, rows_of, spaced, layer_lines, layers_text};
ghost use Rattle.tool_top.specs.Ends.{Ends};
ghost use Rattle.tool_top.specs.Told.{Accepts, Refuses};
ghost use Rattle.tool_top.specs.inside.Told.{EndsBy, IsDone};

use crate::fault::ToolFault;
use board_core::order_of;
use job_read::load_circuit;
use layer_pass::least_layers;
use patch_base::{Listed, Memory, Shelf, Sink, put_decimal, write_all};
use rotation_list::statics;
use source_model::Circuit;
use std::alloc::Global;

/// Reads a circuit, and writes the layers of its static products and a chain of as many products.
pub fn layers<S: Shelf, O: Sink>(
    alloc: Global,
    circuit: &str,
    shelf: &mut S,
    out: &mut O,
) -> Result<(), ToolFault>
    ensures told { (n : List ℕ) → S.tells shelf.new n ≡ S.tells shelf.old n }
    ensures counts { (n : List ℕ) → S.faults shelf.old n ≤ S.faults shelf.new n }
    ensures out_counts { O.faults out.old ≤ O.faults out.new }
    ensures ends { let r = shelved S.tells S.faults shelf.old shelf.new in
        let w = writing O.taken O.faults out.old out.new in
        Ends r w (tool.layers circuit.now) result }
    ensures complete { let r = shelved S.tells S.faults shelf.old shelf.new in
        Accepts r (tool.layers circuit.now) → IsDone result }
    ensures refuses { let r = shelved S.tells S.faults shelf.old shelf.new in
        (f : Fault_of) → Refuses r (tool.layers circuit.now) f → EndsBy f result }
{
    let circuit = load_circuit(alloc, shelf, circuit)?;
    let text = layered(alloc, &circuit)?;
    write_all(out, &text)?;
    Ok(())
}

// The text of the layers of a circuit's static products.
fn layered(alloc: Global, circuit: &Circuit) -> Result<Vec<u8>, Memory>
    requires { IsCircuit circuit.now }
    ensures { IfOk result (λ text. AreLayersOf circuit.now text.items) }
{
    let products = statics(alloc, circuit)?;
    let order = order_of(alloc, &products)?;
    let layers = least_layers(alloc, &order, products.len() as u32)?;
    text_of(
        alloc,
        layers.layer.as_slice(),
        layers.count,
        layers.chain.as_slice(),
    )
}

// The text of layers, and of a chain.
fn text_of(alloc: Global, layer: &[u32], count: u32, chain: &[u32]) -> Result<Vec<u8>, Memory>
    requires few { length layer.now ≤ 16384 }
    requires numbers { All (λ k. (1 ≤ k) × (k ≤ count)) layer.now }
    ensures { IfOk result (λ text. text.items ≡ layers_text layer.now count chain.now) }
{
    let rows = rows_of(alloc, layer, count)?;
    let mut text = Vec::new(alloc);
    text.extend_from_slice(b"layers 1 ")?;
    put_decimal(count as u64, &mut text)?;
    text.push(b'\n')?;
    put_layers(&mut text, &rows)?;
    text.extend_from_slice(b"chain")?;
    put_spaced(&mut text, chain)?;
    text.push(b'\n')?;
    Ok(text)
}

// The products of each layer, ascending.
fn rows_of(alloc: Global, layer: &[u32], count: u32) -> Result<Vec<Listed<u32>>, Memory>
    requires few { length layer.now ≤ 16384 }
    requires numbers { All (λ k. (1 ≤ k) × (k ≤ count)) layer.now }
    ensures { IfOk result (λ rows. rows.items ≡ rows_of layer.now count) }
{
    let mut rows = Vec::new(alloc);
    for _ in 0..count {
        rows.push(Listed::new(alloc))?;
    }
    for (product, number) in layer.iter().enumerate() {
        let row = &mut rows[*number as usize - 1];
        row.push(product as u32)?;
    }
    Ok(rows)
}

// Appends the lines of the layers.
fn put_layers(text: &mut Vec<u8>, rows: &[Listed<u32>]) -> Result<(), Memory>
    ensures { OnOk result (text.new.items ≡ text.old.items ++ layer_lines 1 rows.now) }
{
    for (below, row) in rows.iter().enumerate() {
        text.extend_from_slice(b"layer ")?;
        put_decimal(below as u64 + 1, text)?;
        put_spaced(text, row.as_slice())?;
        text.push(b'\n')?;
    }
    Ok(())
}

// Appends each number after one space.
fn put_spaced(text: &mut Vec<u8>, numbers: &[u32]) -> Result<(), Memory>
    ensures { OnOk result (text.new.items ≡ text.old.items ++ spaced numbers.now) }
{
    for number in numbers {
        text.push(b' ')?;
        put_decimal(*number as u64, text)?;
    }
    Ok(())
}
