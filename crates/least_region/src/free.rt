//! What a look leaves to a region.

ghost use Rattle.std.specs.Prelude.{◌≡◌, ℕ, ◌↔◌, length, IsTrue, IfOk};
ghost use Rattle.patch_layout.specs.Grid.{IsPort};
ghost use Rattle.region_plan.specs.Free.{IsUnheld, IsReady, IsOffered, Free};
ghost use Rattle.least_region.specs.inside.Pick.{FreeMarks};

use patch_base::Memory;
use patch_layout::{Layout, Look};
use std::alloc::Global;

// Whether there is such a cell and no product holds it.
fn is_unheld(held: &[Option<u32>], cell: u32) -> bool
    ensures { IsTrue result ↔ IsUnheld held.now cell }
{
    match held.get(cell as usize) {
        Some(None) => true,
        _ => false,
    }
}

// Whether the cell is an ancilla cell that no product holds.
fn is_free(layout: &Layout, held: &[Option<u32>], cell: u32) -> bool
    ensures { IsTrue result ↔ Free layout.now held.now cell }
{
    layout.is_ancilla(cell) && is_unheld(held, cell)
}

/// A mark for each free cell.
pub(crate) fn free_marks(
    alloc: Global,
    layout: &Layout,
    held: &[Option<u32>],
) -> Result<Vec<bool>, Memory>
    ensures sizes { IfOk result (λ marks. length marks.items ≡ length layout.now.sites) }
    ensures marks { IfOk result (λ marks. FreeMarks layout.now held.now marks.items) }
{
    let mut marks = Vec::new(alloc);
    for cell in 0..layout.size() {
        marks.push(is_free(layout, held, cell))?;
    }
    Ok(marks)
}

/// The ready states of each factory number.
pub(crate) fn ready_of(look: &Look) -> &[u32]
    ensures value { result.now ≡ look.now.ready }
    ensures sizes { length result.now ≡ 16 }
{
    &look.ready
}

// Whether there is such a count and it isn't 0.
fn is_ready(counts: &[u32], factory: u32) -> bool
    ensures { IsTrue result ↔ IsReady counts.now factory }
{
    match counts.get(factory as usize) {
        Some(count) => *count > 0,
        None => false,
    }
}

// Whether the factory has a port, and no product holds it.
fn is_port_unheld(layout: &Layout, held: &[Option<u32>], factory: u32) -> bool
    ensures { IsTrue result ↔ ((c : ℕ) × IsPort layout.now factory c × IsUnheld held.now c) }
{
    match layout.port(factory) {
        Some(cell) => is_unheld(held, cell),
        None => false,
    }
}

/// Whether the factory has a ready state and no product holds its port.
pub(crate) fn is_offered(layout: &Layout, look: &Look, factory: u32) -> bool
    ensures { IsTrue result ↔ IsOffered layout.now look.now factory }
{
    is_ready(ready_of(look), factory) && is_port_unheld(layout, look.held.as_slice(), factory)
}
