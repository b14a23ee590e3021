//! From a region to a least one.

ghost use Rattle.std.specs.Prelude.{◌≡◌, ℕ, ◌+◌, ◌-◌, ◌<◌, ◌≤◌, length, replicate, false, None, IfOk, List};
ghost use Rattle.patch_layout.specs.declared.layout.Side.{Side as SideValue};
ghost use Rattle.patch_layout.specs.Region.{wanted_sides};
ghost use Rattle.pauli_product.specs.Signed.{HasLetter};
ghost use Rattle.region_plan.specs.Answer.{IsRegion};
ghost use Rattle.least_region.specs.inside.Table.{Entry};
ghost use Rattle.least_region.specs.inside.Growth.{HasRows};
ghost use Rattle.least_region.specs.inside.Pick.{Split, PlannedAt, MarkedAt, Searched};
ghost use Rattle.least_region.specs.Least.{width, IsLeast};

use crate::free::free_marks;
use crate::picks::{Pick, best_pick};
use crate::table::{Row, table};
use crate::trace::{cells_of, trace};
use patch_base::Memory;
use patch_layout::{CellList, Layout, Look, Plan, Side, certify, wanted};
use std::alloc::Global;

// The goal: the last side, which is taken off, for a measurement; for a rotation a port, whichever
// is offered.
fn goal_of(look: &Look, sides: &mut Vec<Side>) -> Option<Side>
    requires sides { sides.old.items ≡ wanted_sides look.now.axis None }
    requires letter { (q : ℕ) × HasLetter look.now.axis q }
    ensures split { Split look.now sides.new.items result }
    ensures fewer { length sides.new.items + 1 ≡ width look.now }
{
    if look.rotation { None } else { sides.pop() }
}

// Marks the cells of the set of the last row's entry at the cell, where none is marked.
fn mark_set(layout: &Layout, rows: &[Row], cell: u32, marks: &mut [bool])
    requires cell { cell < length layout.now.sites }
    requires rows { HasRows rows.now (length layout.now.sites) }
    requires some { 0 < length rows.now }
    requires few { length rows.now ≤ 64 }
    requires size { (v : ℕ) → Entry rows.now (length rows.now - 1) cell v → v ≤ 4096 }
    requires unmarked { marks.old ≡ replicate (length layout.now.sites) false }
    requires sizes { length marks.old ≡ length layout.now.sites }
    ensures { MarkedAt layout.now rows.now cell marks.new }
{
    marks[cell as usize] = true;
    trace(layout, rows, rows.len() as u32 - 1, cell, marks);
}

// The marks of the cells of the set at the pick.
fn marks_at(alloc: Global, layout: &Layout, rows: &[Row], pick: Pick) -> Result<Vec<bool>, Memory>
    requires cell { pick.cell < length layout.now.sites }
    requires rows { HasRows rows.now (length layout.now.sites) }
    requires some { 0 < length rows.now }
    requires few { length rows.now ≤ 64 }
    requires size { (v : ℕ) → Entry rows.now (length rows.now - 1) pick.cell v → v ≤ 4096 }
    ensures sizes { IfOk result (λ marks. length marks.items ≡ length layout.now.sites) }
    ensures marks { IfOk result (λ marks. MarkedAt layout.now rows.now pick.cell marks.items) }
{
    let mut marks = vec![in alloc; false; layout.size() as usize]?;
    mark_set(layout, rows, pick.cell, &mut marks);
    Ok(marks)
}

// The plan of the set at the pick.
fn plan_of(
    alloc: Global,
    layout: &Layout,
    look: &Look,
    rows: &[Row],
    pick: Pick,
) -> Result<Plan, Memory>
    requires cell { pick.cell < length layout.now.sites }
    requires rows { HasRows rows.now (length layout.now.sites) }
    requires some { 0 < length rows.now }
    requires few { length rows.now ≤ 64 }
    requires size { (v : ℕ) → Entry rows.now (length rows.now - 1) pick.cell v → v ≤ 4096 }
    ensures { IfOk result (PlannedAt layout.now look.now rows.now pick) }
{
    let _ = layout.size();
    let marks = marks_at(alloc, layout, rows, pick)?;
    let cells = cells_of(alloc, &marks)?;
    let axis = look.axis.copy(alloc)?;
    certify(
        alloc,
        layout,
        look.product,
        axis,
        pick.port,
        CellList::of(cells),
    )
}

// One less than the number of the region's cells.
fn limit_of(layout: &Layout, look: &Look, planned: &Plan) -> u32
    requires { IsRegion layout.now look.now planned.now }
    ensures value { result + 1 ≡ length planned.now.cells }
    ensures few { result ≤ 4095 }
{
    let _ = layout.size();
    let _ = look.rotation;
    planned.cells.cells().len() as u32 - 1
}

// The least entry of the last row on a goal, or a number above the limit.
fn search(layout: &Layout, look: &Look, rows: &[Row], goal: Option<Side>, limit: u32) -> Pick
    requires limit { limit ≤ 4096 }
    requires rows { HasRows rows.now (length layout.now.sites) }
    requires some { 0 < length rows.now }
    ensures { (sides : List SideValue) → Split look.now sides goal
        → Searched layout.now look.now sides rows.now limit result }
{
    let none = Pick {
        port: None,
        cell: 0,
        size: limit + 1,
    };
    let last = rows[rows.len() - 1].sizes();
    best_pick(layout, look, goal, last, none)
}

/// A plan with a least region, where this one has a region that fits.
pub(crate) fn shrink(
    alloc: Global,
    layout: &Layout,
    look: &Look,
    planned: Plan,
) -> Result<Plan, Memory>
    requires region { IsRegion layout.now look.now planned }
    requires width { width look.now ≤ 6 }
    requires letter { (q : ℕ) × HasLetter look.now.axis q }
    ensures region { IfOk result (IsRegion layout.now look.now) }
    ensures least { IfOk result (λ p. IsLeast layout.now look.now p.port p.cells) }
{
    let _ = layout.size();
    let limit = limit_of(layout, look, &planned);
    let free = free_marks(alloc, layout, look.held.as_slice())?;
    let mut sides = wanted(alloc, &look.axis, None)?;
    let goal = goal_of(look, &mut sides);
    let rows = table(alloc, layout, &free, limit, &sides)?;
    let pick = search(layout, look, &rows, goal, limit);
    if pick.size > limit {
        return Ok(planned);
    }
    plan_of(alloc, layout, look, &rows, pick)
}
