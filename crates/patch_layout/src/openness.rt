//! Whether a layout is open for what it must serve.

ghost use Rattle.std.specs.Prelude.{◌≡◌, ℕ, ◌<◌, ◌≤◌, ◌↔◌, length, IfOk, IsTrue, IsFalse, MatchOption};
ghost use Rattle.patch_layout.specs.Grid.{Sound, IsAncilla, IsPatch, IsPort, OnPort, Joins};
ghost use Rattle.patch_layout.specs.Region.{OnSide};
ghost use Rattle.patch_layout.specs.declared.layout.Edge.{Edge};
ghost use Rattle.patch_layout.specs.Row.{demand};
ghost use Rattle.patch_layout.specs.Spread.{Marked};
ghost use Rattle.patch_layout.specs.Openness.{Least, Lacks, HasPatches, CutFrom, IsSplit, IsWhole, HasSide, FirstShut, SidesOpen, IsShut, HasAnyPort, PortShut, Opens};
ghost use Rattle.patch_layout.specs.inside.Openness.{PortsOpen};

use crate::fault::LayoutFault;
use crate::layout::{Edge, Layout, Side, Tile};
use crate::walk::{Reached, spread};
use patch_base::{Memory, Need};
use std::alloc::Global;

// Whether a qubit has a patch if it is used.
fn is_served(layout: &Layout, used: bool, qubit: u32) -> bool
    ensures served { IsTrue result → IsTrue used → (c : ℕ) × IsPatch layout.now qubit c }
    ensures lacks { IsFalse result → IsTrue used × ((c : ℕ) → IsPatch layout.now qubit c → ⊥) }
{
    if !used {
        return true;
    }
    match layout.patch(qubit) {
        Some(_) => true,
        None => false,
    }
}

// The least used qubit without a patch.
fn patch_missing(layout: &Layout, used: &[bool], qubits: u32) -> Option<u32>
    requires { length used.now ≡ qubits }
    ensures { MatchOption result (HasPatches layout.now used.now)
        (Least (Lacks layout.now used.now)) }
{
    for qubit in 0..qubits {
        if !is_served(layout, used[qubit as usize], qubit) {
            return Some(qubit);
        }
    }
    None
}

// The least ancilla cell.
fn first_cell(layout: &Layout) -> Option<u32>
    ensures { MatchOption result ((c : ℕ) → IsAncilla layout.now c
        → ⊥) (Least (IsAncilla layout.now)) }
{
    for cell in 0..layout.size() {
        if layout.is_ancilla(cell) {
            return Some(cell);
        }
    }
    None
}

// A mark for each ancilla cell.
fn ancilla_marks(alloc: Global, layout: &Layout) -> Result<Vec<bool>, Memory>
    ensures marks { IfOk result (λ marks. (c : ℕ) → Marked marks.items c ↔ IsAncilla layout.now c) }
    ensures sizes { IfOk result (λ marks. length marks.items ≡ length layout.now.sites) }
{
    let mut marks = Vec::new(alloc);
    for cell in 0..layout.size() {
        marks.push(layout.is_ancilla(cell))?;
    }
    Ok(marks)
}

// The least free cell that isn't seen.
fn unseen_cell(free: &[bool], seen: &[bool]) -> Option<u32>
    requires sizes { length free.now ≡ length seen.now }
    requires few { length free.now ≤ 4096 }
    ensures { MatchOption result ((c : ℕ) → Marked free.now c
        → Marked seen.now c) (Least (λ c. Marked free.now c × (Marked seen.now c → ⊥))) }
{
    for cell in 0..free.len() {
        if free[cell] && !seen[cell] {
            return Some(cell as u32);
        }
    }
    None
}

// The least ancilla cell that no walk joins to the first one.
fn cut_off(
    layout: &Layout,
    first: u32,
    free: &[bool],
    seen: &mut [bool],
    queue: &mut Vec<Reached>,
) -> Result<Option<u32>, Memory>
    requires first { IsAncilla layout.now first }
    requires free { length free.now ≡ length layout.now.sites }
    requires seen { length seen.old ≡ length layout.now.sites }
    requires marks { (c : ℕ) → Marked free.now c ↔ IsAncilla layout.now c }
    requires sound { Sound layout.now }
    ensures { IfOk result (λ found. MatchOption found ((c : ℕ) → IsAncilla layout.now c
        → Joins layout.now (IsAncilla layout.now) first c) (Least (CutFrom layout.now first))) }
{
    let start = [first];
    spread(layout, free, &start, seen, queue)?;
    Ok(unseen_cell(free, seen))
}

// The least ancilla cell that no walk through ancilla cells joins to the least one.
fn split(alloc: Global, layout: &Layout) -> Result<Option<u32>, Memory>
    ensures { IfOk result (λ found. MatchOption found (IsWhole layout.now) (IsSplit layout.now)) }
{
    let Some(first) = first_cell(layout) else {
        return Ok(None);
    };
    let free = ancilla_marks(alloc, layout)?;
    let mut seen = vec![in alloc; false; layout.size() as usize]?;
    let mut queue = Vec::new(alloc);
    let found = cut_off(layout, first, &free, &mut seen, &mut queue)?;
    Ok(found)
}

// Whether an ancilla cell lies on a side.
fn is_open(layout: &Layout, side: Side) -> bool
    ensures { IsTrue result ↔ ((d : ℕ) × OnSide layout.now side d) }
{
    let pair = layout.side(side);
    pair[0].is_some() || pair[1].is_some()
}

// The first edge of a qubit's patch, X before Z, that has no ancilla cell.
fn shut_edge(layout: &Layout, qubit: u32) -> Option<Edge>
    ensures { MatchOption result ((e : Edge) → HasSide layout.now qubit e)
        (FirstShut layout.now qubit) }
{
    let x_side = Side::Patch {
        qubit,
        edge: Edge::X,
    };
    let z_side = Side::Patch {
        qubit,
        edge: Edge::Z,
    };
    if !is_open(layout, x_side) {
        return Some(Edge::X);
    }
    if !is_open(layout, z_side) {
        return Some(Edge::Z);
    }
    None
}

// The first edge of a used qubit's patch, X before Z, that has no ancilla cell.
fn shut_if(layout: &Layout, used: bool, qubit: u32) -> Option<Edge>
    ensures { MatchOption result (IsTrue used → (e : Edge)
        → HasSide layout.now qubit e) (λ e. IsTrue used × FirstShut layout.now qubit e) }
{
    if used { shut_edge(layout, qubit) } else { None }
}

// The least used qubit whose patch has an edge without ancilla cells, and its first such edge.
fn shut(layout: &Layout, used: &[bool], qubits: u32) -> Option<(u32, Edge)>
    requires { length used.now ≡ qubits }
    ensures { MatchOption result (SidesOpen layout.now used.now)
        (λ s. IsShut layout.now used.now s.0 s.1) }
{
    for qubit in 0..qubits {
        if let Some(edge) = shut_if(layout, used[qubit as usize], qubit) {
            return Some((qubit, edge));
        }
    }
    None
}

// Whether a cell is a port.
fn is_port(layout: &Layout, cell: u32) -> bool
    requires { cell < length layout.now.sites }
    ensures { IsTrue result ↔ ((f : ℕ) × IsPort layout.now f cell) }
{
    match layout.tile(cell) {
        Tile::Port { factory: _ } => true,
        _ => false,
    }
}

// Whether there is a port.
fn has_port(layout: &Layout) -> bool
    ensures { IsTrue result ↔ HasAnyPort layout.now }
{
    for cell in 0..layout.size() {
        if is_port(layout, cell) {
            return true;
        }
    }
    false
}

// Whether a factory has a port, and no ancilla cell lies on its Z sides.
fn port_shut(layout: &Layout, factory: u32) -> bool
    ensures shut { IsTrue result → PortShut layout.now factory }
    ensures open { IsFalse result → (c : ℕ) → IsPort layout.now factory c → (d : ℕ)
        × OnPort layout.now factory d }
{
    match layout.port(factory) {
        Some(_) => !is_open(layout, Side::Port { factory }),
        None => false,
    }
}

// The least factory whose port has no ancilla cell on a Z side.
fn shut_port(layout: &Layout) -> Option<u32>
    ensures { MatchOption result (PortsOpen layout.now) (Least (PortShut layout.now)) }
{
    for factory in 0..layout.factories() {
        if port_shut(layout, factory) {
            return Some(factory);
        }
    }
    None
}

/// The first cause that keeps a layout from being open for what it must serve.
pub fn open_fault(
    alloc: Global,
    layout: &Layout,
    need: &Need,
) -> Result<Option<LayoutFault>, Memory>
    requires { length need.now.used ≡ need.now.qubits }
    ensures { IfOk result (Opens layout.now (demand need.now.used need.now.rotations)) }
{
    let used = need.used.as_slice();
    if let Some(qubit) = patch_missing(layout, used, need.qubits) {
        return Ok(Some(LayoutFault::PatchMissing { qubit }));
    }
    if let Some(cell) = split(alloc, layout)? {
        return Ok(Some(LayoutFault::Split { cell }));
    }
    if let Some((qubit, edge)) = shut(layout, used, need.qubits) {
        return Ok(Some(LayoutFault::Shut { qubit, edge }));
    }
    if need.rotations && !has_port(layout) {
        return Ok(Some(LayoutFault::NoPort));
    }
    match shut_port(layout) {
        Some(factory) => Ok(Some(LayoutFault::ShutPort { factory })),
        None => Ok(None),
    }
}
