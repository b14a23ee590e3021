//! The least sizes of joined sets of free cells.

ghost use Rattle.std.specs.Prelude.{◌≡◌, ℕ, ◌+◌, ◌^◌, ◌<◌, ◌≤◌, length, replicate, IfOk};
ghost use Rattle.patch_layout.specs.Spread.{OnGoal};
ghost use Rattle.least_region.specs.inside.Table.{LeastRow, Table};
ghost use Rattle.least_region.specs.inside.Growth.{HasRows, OnFree, Begun, first_sizes};

use crate::grow::{enqueue, grow, lower};
use crate::merge::merge_parts;
use patch_base::Memory;
use patch_layout::{Layout, Side};
use std::alloc::Global;
use std::marker::Model;

/// For a subset of the sides and each cell, the least size of a joined set of free cells that has the
/// cell and touches these sides, where that isn't above the limit.
#[derive(Drop)]
pub(crate) struct Row {
    sizes: Vec<u32>,
}

impl Model for Row {
    ghost use Rattle.std.specs.Prelude.{List, ℕ};

    ghost Value = { List ℕ };

    ghost view = { λ s. s.sizes.items };
}

impl Row {
    /// The row of these sizes, cell by cell.
    fn of(sizes: Vec<u32>) -> Row
        ensures { result ≡ sizes.items }
    {
        Row { sizes }
    }

    /// The sizes, cell by cell.
    pub(crate) fn sizes(&self) -> &[u32]
        ensures { result.now ≡ self.now }
    {
        self.sizes.as_slice()
    }
}

// The row of no sides.
fn first_row(alloc: Global, free: &[bool], limit: u32) -> Result<Row, Memory>
    requires { limit ≤ 4096 }
    ensures { IfOk result (λ row. row ≡ first_sizes free.now limit) }
{
    let none = limit + 1;
    let sizes = free
        .iter()
        .map(|mark| if *mark { 1 } else { none })
        .collect(alloc)?;
    Ok(Row::of(sizes))
}

// Lowers the sizes of the free ones of these cells to 1, where all sizes are above the limit.
fn begin(
    free: &[bool],
    starts: &[Option<u32>],
    limit: u32,
    row: &mut [u32],
    queue: &mut Vec<u32>,
) -> Result<(), Memory>
    requires starts { (c : ℕ) → OnGoal starts.now c → c < length free.now }
    requires above { row.old ≡ replicate (length free.now) (limit + 1) }
    ensures { IfOk result (λ _. Begun free.now limit starts.now row.new (length starts.now)) }
{
    for start in starts {
        if let Some(cell) = start {
            lower(free, row, queue, *cell, 1)?;
        }
    }
    Ok(())
}

// Lowers the sizes to those of the next subset, where these cells alone touch all its sides and all
// sizes are above the limit.
fn fill_row(
    alloc: Global,
    layout: &Layout,
    free: &[bool],
    limit: u32,
    rows: &[Row],
    starts: &[Option<u32>],
    row: &mut [u32],
) -> Result<(), Memory>
    requires limit { limit ≤ 4096 }
    requires free { length free.now ≡ length layout.now.sites }
    requires some { 0 < length rows.now }
    requires few { length rows.now ≤ 64 }
    requires rows { HasRows rows.now (length free.now) }
    requires on_free { OnFree rows.now free.now limit }
    requires starts { (c : ℕ) → OnGoal starts.now c → c < length free.now }
    requires above { row.old ≡ replicate (length free.now) (limit + 1) }
    requires size { length row.old ≡ length free.now }
    ensures { IfOk result (λ _.
        LeastRow layout.now free.now limit (OnGoal starts.now) rows.now (length rows.now) row.new) }
{
    let _ = layout.size();
    let mut queue = Vec::new(alloc);
    begin(free, starts, limit, row, &mut queue)?;
    merge_parts(rows, rows.len() as u32, limit, row);
    enqueue(row, limit, &mut queue)?;
    grow(layout, free, limit, row, &mut queue)?;
    Ok(())
}

// The row of the next subset, where these cells alone touch all its sides.
fn next_row(
    alloc: Global,
    layout: &Layout,
    free: &[bool],
    limit: u32,
    rows: &[Row],
    starts: &[Option<u32>],
) -> Result<Row, Memory>
    requires limit { limit ≤ 4096 }
    requires free { length free.now ≡ length layout.now.sites }
    requires some { 0 < length rows.now }
    requires few { length rows.now ≤ 64 }
    requires rows { HasRows rows.now (length free.now) }
    requires on_free { OnFree rows.now free.now limit }
    requires starts { (c : ℕ) → OnGoal starts.now c → c < length free.now }
    ensures { IfOk result
        (LeastRow layout.now free.now limit (OnGoal starts.now) rows.now (length rows.now)) }
{
    let mut sizes = vec![in alloc; limit + 1; free.len()]?;
    fill_row(alloc, layout, free, limit, rows, starts, &mut sizes)?;
    Ok(Row::of(sizes))
}

// Appends the rows of the subsets that have the side at this place and none after it.
fn add_side(
    alloc: Global,
    layout: &Layout,
    free: &[bool],
    limit: u32,
    sides: &[Side],
    place: usize,
    rows: &mut Vec<Row>,
) -> Result<(), Memory>
    requires limit { limit ≤ 4096 }
    requires free { length free.now ≡ length layout.now.sites }
    requires few { length sides.now ≤ 5 }
    requires place { place < length sides.now }
    requires count { length rows.old.items ≡ 2 ^ place }
    requires table { Table layout.now free.now limit sides.now rows.old.items }
    ensures count { IfOk result (λ _. length rows.new.items ≡ 2 ^ (place + 1)) }
    ensures table { IfOk result (λ _. Table layout.now free.now limit sides.now rows.new.items) }
{
    let all = 2 * rows.len();
    let starts = layout.side(sides[place]);
    let first = next_row(alloc, layout, free, limit, rows, &starts)?;
    rows.push(first)?;
    'rows: while rows.len() < all {
        let row = next_row(alloc, layout, free, limit, rows, &[])?;
        rows.push(row)?;
    }
    Ok(())
}

/// The rows of all subsets of the sides. The k-th side counts 2 ^ k in the number of a subset.
pub(crate) fn table(
    alloc: Global,
    layout: &Layout,
    free: &[bool],
    limit: u32,
    sides: &[Side],
) -> Result<Vec<Row>, Memory>
    requires limit { limit ≤ 4096 }
    requires free { length free.now ≡ length layout.now.sites }
    requires few { length sides.now ≤ 5 }
    ensures count { IfOk result (λ rows. length rows.items ≡ 2 ^ length sides.now) }
    ensures table { IfOk result (λ rows. Table layout.now free.now limit sides.now rows.items) }
{
    let mut rows = Vec::new(alloc);
    let first = first_row(alloc, free, limit)?;
    rows.push(first)?;
    for place in 0..sides.len() {
        add_side(alloc, layout, free, limit, sides, place, &mut rows)?;
    }
    Ok(rows)
}
