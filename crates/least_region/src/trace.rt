//! From an entry of the table back to its set.

ghost use Rattle.std.specs.Prelude.{◌≡◌, ℕ, ◌+◌, ◌<◌, ◌≤◌, ◌↔◌, length, List, Bool, IsTrue, IfOk};
ghost use Rattle.patch_layout.specs.declared.layout.Side.{Side as SideValue};
ghost use Rattle.patch_layout.specs.Spread.{Marked};
ghost use Rattle.least_region.specs.inside.Table.{Entry, Table};
ghost use Rattle.least_region.specs.inside.Growth.{HasRows};
ghost use Rattle.least_region.specs.inside.Trace.{Nearer, PairFits, PartAt, Traced, ListedTo};

use crate::table::Row;
use patch_base::Memory;
use patch_layout::Layout;
use std::alloc::Global;

// A neighbour with a lesser size.
fn nearer(layout: &Layout, sizes: &[u32], cell: u32) -> Option<u32>
    requires cell { cell < length layout.now.sites }
    requires sizes { length sizes.now ≡ length layout.now.sites }
    ensures { Nearer layout.now sizes.now cell result }
{
    let size = sizes[cell as usize];
    let items = layout.neighbours(cell);
    for neighbour in items {
        if let Some(next) = neighbour {
            if sizes[next as usize] < size {
                return Some(next);
            }
        }
    }
    None
}

// Whether the union of two sets of these sizes, which share a cell, has at most so many cells.
fn union_fits(one: u32, other: u32, size: u32) -> bool
    requires one { 0 < one }
    requires other { 0 < other }
    requires size { size ≤ 4096 }
    ensures { IsTrue result ↔ (one + other ≤ size + 1) }
{
    one <= size && other <= size && one + other <= size + 1
}

// Whether the two subsets have no side in common, and the union of their sets at the cell has at most
// so many cells.
fn pair_fits(rows: &[Row], one: u32, other: u32, cell: u32, size: u32, cells: u32) -> bool
    requires one { one < length rows.now }
    requires other { other < length rows.now }
    requires cell { cell < cells }
    requires rows { HasRows rows.now cells }
    requires size { size ≤ 4096 }
    ensures { IsTrue result ↔ PairFits rows.now one other cell size }
{
    let at = cell as usize;
    let first = rows[one as usize].sizes();
    let second = rows[other as usize].sizes();
    one & other == 0 && union_fits(first[at], second[at], size)
}

// A part of the subset whose set at the cell, united with that of the rest, has at most so many
// cells.
fn part_at(rows: &[Row], subset: u32, cell: u32, size: u32, cells: u32) -> Option<u32>
    requires subset { subset < length rows.now }
    requires cell { cell < cells }
    requires rows { HasRows rows.now cells }
    requires size { size ≤ 4096 }
    ensures { PartAt rows.now subset cell size result }
{
    for one in 1..subset {
        if pair_fits(rows, one, subset - one, cell, size, cells) {
            return Some(one);
        }
    }
    None
}

/// Marks the cells of the entry's set, where its own cell is marked.
pub(crate) fn trace(layout: &Layout, rows: &[Row], subset: u32, cell: u32, marks: &mut [bool])
    requires subset { subset < length rows.now }
    requires cell { cell < length layout.now.sites }
    requires rows { HasRows rows.now (length layout.now.sites) }
    requires marks { length marks.old ≡ length layout.now.sites }
    requires marked { Marked marks.old cell }
    requires few { (v : ℕ) → Entry rows.now subset cell v → v ≤ 4096 }
    ensures kept { (c : ℕ) → Marked marks.old c → Marked marks.new c }
    ensures traced { (free : List Bool) (limit : ℕ) (sides : List SideValue)
        → Table layout.now free limit sides rows.now
        → ((v : ℕ) → Entry rows.now subset cell v → v ≤ limit)
        → Traced layout.now free sides rows.now subset cell marks.old marks.new }
{
    let sizes = rows[subset as usize].sizes();
    let size = sizes[cell as usize];
    let cells = layout.size();
    if let Some(next) = nearer(layout, sizes, cell) {
        marks[next as usize] = true;
        trace(layout, rows, subset, next, marks);
        return;
    }
    if let Some(one) = part_at(rows, subset, cell, size, cells) {
        trace(layout, rows, one, cell, marks);
        trace(layout, rows, subset - one, cell, marks);
    }
}

/// The cells that are marked, ascending.
pub(crate) fn cells_of(alloc: Global, marks: &[bool]) -> Result<Vec<u32>, Memory>
    requires { length marks.now ≤ 4096 }
    ensures { IfOk result (λ cells. ListedTo marks.now cells.items (length marks.now)) }
{
    let mut cells = Vec::new(alloc);
    for cell in 0..marks.len() {
        if marks[cell] {
            cells.push(cell as u32)?;
        }
    }
    Ok(cells)
}
