//! The check of a plan's certificate.

ghost use Rattle.std.specs.Prelude.{◌≡◌, ℕ, ◌+◌, ◌<◌, ◌≤◌, ◌^◌, ◌↔◌, length, slice_get, Option, Some, None, IsTrue, IfNone, ◌∷◌, []};
ghost use Rattle.patch_layout.specs.Grid.{Sound};
ghost use Rattle.patch_layout.specs.Certificate.{CellFits, ParentFits, Each, PortFits, IsChild, NoRootBefore, Patched, LetterPatched, Shaped, side_count, Checked};
ghost use Rattle.patch_layout.specs.inside.Certificate.{Judged, TouchAt, BadFrom};
ghost use Rattle.patch_layout.specs.Region.{Fit, sides_of, port_side, wanted_sides};
ghost use Rattle.patch_layout.specs.Case.{case, case_of};

use crate::layout::{Edge, Layout, Side, is_on};
use crate::plan::{Fault, Parent, Plan};
use pauli_product::{Letter, Product};

// Whether a rotation names a port that is there, or a measurement none.
fn port_fits(layout: &Layout, rotation: bool, port: Option<u32>) -> bool
    ensures { IsTrue result ↔ PortFits layout.now rotation port }
{
    match port {
        Some(factory) => match layout.port(factory) {
            Some(_) => rotation,
            None => false,
        },
        None => !rotation,
    }
}

// Whether the cell is an ancilla cell, and greater than the one before it.
fn cell_fits(layout: &Layout, cells: &[u32], index: usize) -> bool
    requires { index < length cells.now }
    ensures { IsTrue result ↔ CellFits layout.now cells.now index }
{
    let cell = cells[index];
    layout.is_ancilla(cell) && (index == 0 || cells[index - 1] < cell)
}

/// The first cell that is no ancilla cell, or not greater than the one before it.
pub fn bad_cell(layout: &Layout, cells: &[u32]) -> Option<u32>
    ensures { Judged (CellFits layout.now cells.now) (length cells.now) result }
{
    let size = layout.size();
    for index in 0..cells.len() {
        if !cell_fits(layout, cells, index) {
            return Some(index as u32);
        }
    }
    None
}

// Whether the entry names the entry of a neighbouring cell whose depth is one less.
fn is_child(
    layout: &Layout,
    cells: &[u32],
    parents: &[Parent],
    index: usize,
    parent: Parent,
) -> bool
    requires index { index < length cells.now }
    requires sizes { length parents.now ≡ length cells.now }
    requires cell { (c : ℕ) → slice_get cells.now index ≡ Some c → c < length layout.now.sites }
    requires deep { 0 < parent.depth }
    ensures { IsTrue result ↔ IsChild layout.now cells.now parents.now index parent }
{
    let named = parent.index as usize;
    if named >= cells.len() {
        return false;
    }
    parents[named].depth == parent.depth - 1 && layout.adjacent(cells[index], cells[named])
}

// Whether the entry is the first of depth 0 and names itself, or is a child.
fn parent_fits(
    layout: &Layout,
    cells: &[u32],
    parents: &[Parent],
    index: usize,
    first: bool,
) -> bool
    requires index { index < length cells.now }
    requires sizes { length parents.now ≡ length cells.now }
    requires cell { (c : ℕ) → slice_get cells.now index ≡ Some c → c < length layout.now.sites }
    requires first { IsTrue first ↔ NoRootBefore parents.now index }
    ensures { IsTrue result ↔ ParentFits layout.now cells.now parents.now index }
{
    let parent = parents[index];
    if parent.depth > 0 {
        return is_child(layout, cells, parents, index, parent);
    }
    first && parent.index as usize == index
}

// Whether no entry up to this one has depth 0.
fn stays_first(parents: &[Parent], index: usize, first: bool) -> bool
    requires index { index < length parents.now }
    requires first { IsTrue first ↔ NoRootBefore parents.now index }
    ensures { IsTrue result ↔ NoRootBefore parents.now (index + 1) }
{
    let parent = parents[index];
    if parent.depth > 0 { first } else { false }
}

// The first entry that is neither the one root nor a child.
fn bad_parent(layout: &Layout, cells: &[u32], parents: &[Parent]) -> Option<u32>
    requires cells { Each (CellFits layout.now cells.now) (length cells.now) }
    requires sizes { length parents.now ≡ length cells.now }
    requires sound { Sound layout.now }
    ensures { Judged (ParentFits layout.now cells.now parents.now) (length cells.now) result }
{
    let mut first = true;
    for index in 0..cells.len() {
        if !parent_fits(layout, cells, parents, index, first) {
            return Some(index as u32);
        }
        first = stays_first(parents, index, first);
    }
    None
}

// How many sides a letter asks for.
fn sides_of_letter(letter: Letter) -> u32
    ensures value { (q : ℕ) → result ≡ length (sides_of q letter) }
    ensures few { result ≤ 2 }
{
    match letter {
        Letter::I => 0,
        Letter::X => 1,
        Letter::Z => 1,
        Letter::Y => 2,
    }
}

// How many sides a product asks for: those of its letters, and for a rotation the port's.
fn side_count(axis: &Product, rotation: bool) -> u32
    ensures { result ≡ side_count axis.now rotation }
{
    let mut count = 0;
    for qubit in 0..axis.len() {
        count += sides_of_letter(axis.letter(qubit));
    }
    if rotation { count + 1 } else { count }
}

// Whether a letter is I, or the qubit has a patch.
fn letter_patched(layout: &Layout, qubit: u32, letter: Letter) -> bool
    ensures { IsTrue result ↔ LetterPatched layout.now qubit letter }
{
    match letter {
        Letter::I => true,
        _ => match layout.patch(qubit) {
            Some(_) => true,
            None => false,
        },
    }
}

// Whether a patch stands at each letter other than I.
fn is_patched(layout: &Layout, axis: &Product) -> bool
    ensures { IsTrue result ↔ Patched layout.now axis.now.letters }
{
    for qubit in 0..axis.len() {
        if !letter_patched(layout, qubit, axis.letter(qubit)) {
            return false;
        }
    }
    true
}

// Whether there are cells, a parent for each, a touch for each side that the product asks for,
// and the patches.
fn is_shaped(
    layout: &Layout,
    axis: &Product,
    rotation: bool,
    cells: &[u32],
    parents: &[Parent],
    touches: &[u32],
) -> bool
    ensures { IsTrue result ↔ Shaped layout.now axis.now rotation cells.now parents.now
        touches.now }
{
    if cells.is_empty() || parents.len() != cells.len() {
        return false;
    }
    if touches.len() != side_count(axis, rotation) as usize {
        return false;
    }
    is_patched(layout, axis)
}

// Whether the touch at a place is the index of a cell on the side.
fn touch_fits(layout: &Layout, cells: &[u32], touches: &[u32], place: u32, side: Side) -> bool
    ensures { IsTrue result ↔ TouchAt layout.now cells.now touches.now place side }
{
    let place = place as usize;
    if place >= touches.len() {
        return false;
    }
    let index = touches[place] as usize;
    if index >= cells.len() {
        return false;
    }
    is_on(layout.side(side), cells[index])
}

// The place, where the touch there doesn't fit.
fn bad_at(layout: &Layout, cells: &[u32], touches: &[u32], place: u32, side: Side) -> Option<u32>
    ensures { BadFrom layout.now cells.now touches.now place (side ∷ []) result }
{
    if touch_fits(layout, cells, touches, place, side) {
        None
    } else {
        Some(place)
    }
}

// The first place from one on where the touch of a letter's side doesn't fit.
fn bad_in_letter(
    layout: &Layout,
    cells: &[u32],
    touches: &[u32],
    place: u32,
    qubit: u32,
    letter: Letter,
) -> Option<u32>
    requires { place < 2 ^ 16 }
    ensures { BadFrom layout.now cells.now touches.now place (sides_of qubit letter) result }
{
    let x_side = Side::Patch {
        qubit,
        edge: Edge::X,
    };
    let z_side = Side::Patch {
        qubit,
        edge: Edge::Z,
    };
    match letter {
        Letter::I => None,
        Letter::X => bad_at(layout, cells, touches, place, x_side),
        Letter::Z => bad_at(layout, cells, touches, place, z_side),
        Letter::Y => match bad_at(layout, cells, touches, place, x_side) {
            Some(bad) => Some(bad),
            None => bad_at(layout, cells, touches, place + 1, z_side),
        },
    }
}

// The place, where the touch there doesn't fit the port's side.
fn bad_at_port(
    layout: &Layout,
    cells: &[u32],
    touches: &[u32],
    place: u32,
    port: Option<u32>,
) -> Option<u32>
    ensures { BadFrom layout.now cells.now touches.now place (port_side port) result }
{
    match port {
        Some(factory) => bad_at(layout, cells, touches, place, Side::Port { factory }),
        None => None,
    }
}

// The first place where the touch of a side doesn't fit.
fn bad_touch(
    layout: &Layout,
    axis: &Product,
    port: Option<u32>,
    cells: &[u32],
    touches: &[u32],
) -> Option<u32>
    ensures { BadFrom layout.now cells.now touches.now 0 (wanted_sides axis.now port) result }
{
    let mut place = 0;
    for qubit in 0..axis.len() {
        let letter = axis.letter(qubit);
        if let Some(bad) = bad_in_letter(layout, cells, touches, place, qubit, letter) {
            return Some(bad);
        }
        place += sides_of_letter(letter);
    }
    bad_at_port(layout, cells, touches, place, port)
}

// The first rule that a certificate breaks.
fn first_fault(
    layout: &Layout,
    rotation: bool,
    axis: &Product,
    port: Option<u32>,
    cells: &[u32],
    parents: &[Parent],
    touches: &[u32],
) -> Option<Fault>
    ensures first { Checked
        (case layout.now rotation axis.now port cells.now parents.now touches.now) result }
    ensures sound { Sound layout.now }
{
    let _ = layout.size();
    if !is_shaped(layout, axis, rotation, cells, parents, touches) {
        return Some(Fault::Shape);
    }
    if !port_fits(layout, rotation, port) {
        return Some(Fault::Port);
    }
    if let Some(index) = bad_cell(layout, cells) {
        return Some(Fault::Cell { index });
    }
    if let Some(index) = bad_parent(layout, cells, parents) {
        return Some(Fault::Parent { index });
    }
    match bad_touch(layout, axis, port, cells, touches) {
        Some(index) => Some(Fault::Touch { index }),
        None => None,
    }
}

/// The first rule that a plan breaks, in the order of `Fault`. None where the certificate is whole; the region then fits.
///
/// A region fits where its cells are one or more distinct ancilla cells that are joined by walks inside the region, and touch an X side of each patch with letter X, a Z side of each with Z, one of each for Y, and for a rotation a Z side of the port.
pub fn check(layout: &Layout, plan: &Plan, rotation: bool) -> Option<Fault>
    ensures first { Checked (case_of layout.now rotation plan.now) result }
    ensures fits { IfNone result (Fit layout.now plan.now.axis plan.now.port plan.now.cells) }
{
    first_fault(
        layout,
        rotation,
        &plan.axis,
        plan.port,
        plan.cells.cells(),
        plan.parents.as_slice(),
        plan.touches.as_slice(),
    )
}
