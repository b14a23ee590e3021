//! Certificates of regions.

ghost use Rattle.std.specs.Prelude.{◌≡◌, ◌≢◌, ℕ, ◌<◌, ◌≤◌, length, slice_get, Option, Some, None, IfOk, All, AllPairs, is_some, IsTrue, ◌↔◌};
ghost use Rattle.patch_layout.specs.Grid.{Sound};
ghost use Rattle.patch_layout.specs.Tree.{Tree, ParentsNamed};
ghost use Rattle.patch_layout.specs.inside.Tree.{Placed};
ghost use Rattle.patch_layout.specs.Certificate.{CellFits, ParentFits, Each, Certified};
ghost use Rattle.patch_layout.specs.Case.{case_of, Ascending};
ghost use Rattle.patch_layout.specs.Region.{AreJoined, Fit};

use crate::checker::bad_cell;
use crate::layout::Layout;
use crate::plan::{CellList, Parent, ParentList, Plan, TouchList};
use crate::touch::{touches_of, wanted};
use crate::walk::{Reached, spread};
use patch_base::Memory;
use pauli_product::Product;
use std::alloc::Global;

// Marks the cells, and notes the place of each.
fn place(cells: &[u32], marks: &mut [bool], places: &mut [u32])
    requires cells { All (λ c. c < length marks.old) cells.now }
    requires sizes { length places.old ≡ length marks.old }
    requires distinct { AllPairs (λ a b. a ≢ b) cells.now }
    requires few { length cells.now ≤ 4096 }
    ensures { Placed cells.now marks.new places.new }
{
    marks.fill(false);
    for (index, cell) in cells.iter().enumerate() {
        marks[*cell as usize] = true;
        places[*cell as usize] = index as u32;
    }
}

// Writes the parent of the cell of each entry.
fn name_parents(cells: &[u32], queue: &[Reached], places: &[u32], parents: &mut [Parent])
    requires tree { Tree cells.now queue.now }
    requires places { (i c : ℕ) → slice_get cells.now i ≡ Some c → slice_get places.now c ≡ Some i }
    requires sizes { length parents.old ≡ length cells.now }
    ensures { ParentsNamed queue.now places.now parents.new (length queue.now) }
{
    for index in 0..queue.len() {
        let reached = queue[index];
        let base = queue[reached.from as usize];
        let at = places[reached.cell as usize] as usize;
        parents[at] = Parent {
            index: places[base.cell as usize],
            depth: reached.steps,
        };
    }
}

// Writes the parents that a breadth-first walk inside the region from its first cell gives.
fn root_at_first(
    layout: &Layout,
    cells: &[u32],
    marks: &mut [bool],
    places: &mut [u32],
    seen: &mut [bool],
    queue: &mut Vec<Reached>,
    parents: &mut [Parent],
) -> Result<(), Memory>
    requires some { 0 < length cells.now }
    requires cells { Each (CellFits layout.now cells.now) (length cells.now) }
    requires sound { Sound layout.now }
    requires marks { length marks.old ≡ length layout.now.sites }
    requires places { length places.old ≡ length layout.now.sites }
    requires seen { length seen.old ≡ length layout.now.sites }
    requires parents { length parents.old ≡ length cells.now }
    ensures { IfOk result (λ _. AreJoined layout.now cells.now
        → Each (ParentFits layout.now cells.now parents.new) (length cells.now)) }
{
    place(cells, marks, places);
    let first = [cells[0]];
    spread(layout, marks, &first, seen, queue)?;
    name_parents(cells, queue, places, parents);
    Ok(())
}

// A parent for each cell, which fit where the region is joined.
fn parents_of(alloc: Global, layout: &Layout, cells: &[u32]) -> Result<Vec<Parent>, Memory>
    requires some { 0 < length cells.now }
    requires cells { Each (CellFits layout.now cells.now) (length cells.now) }
    ensures sizes { IfOk result (λ ps. length ps.items ≡ length cells.now) }
    ensures fits { IfOk result (λ ps. AreJoined layout.now cells.now
        → Each (ParentFits layout.now cells.now ps.items) (length cells.now)) }
{
    let size = layout.size() as usize;
    let mut marks = vec![in alloc; false; size]?;
    let mut places = vec![in alloc; 0u32; size]?;
    let mut seen = vec![in alloc; false; size]?;
    let mut queue = Vec::new(alloc);
    let mut parents = vec![in alloc; Parent { index: 0, depth: 0 }; cells.len()]?;
    root_at_first(
        layout,
        cells,
        &mut marks,
        &mut places,
        &mut seen,
        &mut queue,
        &mut parents,
    )?;
    Ok(parents)
}

// Whether there are cells, and they are ancilla cells and ascend.
fn cells_fit(layout: &Layout, cells: &[u32]) -> bool
    ensures value { IsTrue result ↔ ((0 < length cells.now)
        × Each (CellFits layout.now cells.now) (length cells.now)) }
    ensures sound { Sound layout.now }
{
    let _ = layout.size();
    match bad_cell(layout, cells) {
        Some(_) => false,
        None => !cells.is_empty(),
    }
}

/// A plan with a certificate, which the check passes exactly where the cells ascend and the region fits.
pub fn certify(
    alloc: Global,
    layout: &Layout,
    number: u32,
    axis: Product,
    port: Option<u32>,
    cells: CellList,
) -> Result<Plan, Memory>
    ensures number { IfOk result (λ p. p.number ≡ number) }
    ensures axis { IfOk result (λ p. p.axis ≡ axis) }
    ensures port { IfOk result (λ p. p.port ≡ port) }
    ensures cells { IfOk result (λ p. p.cells ≡ cells) }
    ensures certified { IfOk result (λ p. Certified (case_of layout.now (is_some port) p)
        ↔ (Ascending cells × Fit layout.now axis port cells)) }
{
    let list = cells.cells();
    if !cells_fit(layout, list) {
        return Ok(Plan {
            number,
            axis,
            cells,
            parents: ParentList::of(Vec::new(alloc)),
            touches: TouchList::of(Vec::new(alloc)),
            port,
        });
    }
    let sides = wanted(alloc, &axis, port)?;
    let parents = parents_of(alloc, layout, list)?;
    let touches = touches_of(alloc, layout, list, &sides)?;
    Ok(Plan {
        number,
        axis,
        cells,
        parents: ParentList::of(parents),
        touches: TouchList::of(touches),
        port,
    })
}
