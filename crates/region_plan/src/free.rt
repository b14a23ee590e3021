//! What a look leaves to a region.

ghost use Rattle.std.specs.Prelude.{◌≡◌, ℕ, ◌<◌, ◌↔◌, length, slice_get, IsTrue, Some};
ghost use Rattle.patch_layout.specs.Grid.{IsPatch, IsPort};
ghost use Rattle.region_plan.specs.Free.{Free, IsUnheld, IsReady, HasState, IsOffered, PatchHeld, IsHeldAt, LacksState};

use patch_layout::{Layout, Look};
use pauli_product::Letter;

/// Whether the cell is an ancilla cell that no product holds.
pub(crate) fn is_free(layout: &Layout, held: &[Option<u32>], cell: u32) -> bool
    ensures { IsTrue result ↔ Free layout.now held.now cell }
{
    layout.is_ancilla(cell) && is_unheld(held, cell)
}

// Whether there is such a cell and no product holds it.
fn is_unheld(held: &[Option<u32>], cell: u32) -> bool
    ensures { IsTrue result ↔ IsUnheld held.now cell }
{
    match held.get(cell as usize) {
        Some(None) => true,
        _ => false,
    }
}

/// The cell, where there is one and it is free.
pub(crate) fn free_one(layout: &Layout, held: &[Option<u32>], cell: Option<u32>) -> Option<u32>
    ensures { (c : ℕ) → (result ≡ Some c) ↔ ((cell ≡ Some c) × Free layout.now held.now c) }
{
    let cell = cell?;
    if is_free(layout, held, cell) {
        Some(cell)
    } else {
        None
    }
}

/// The ready states of each factory number.
pub(crate) fn ready_of(look: &Look) -> &[u32]
    ensures value { result.now ≡ look.now.ready }
    ensures sizes { length result.now ≡ 16 }
{
    &look.ready
}

// Whether a factory has a ready state.
fn has_state(look: &Look) -> bool
    ensures { IsTrue result ↔ ((f : ℕ) × HasState look.now f) }
{
    is_any_ready(ready_of(look))
}

/// Whether the product is a rotation and no factory has a ready state.
pub(crate) fn lacks_state(look: &Look) -> bool
    ensures { IsTrue result ↔ LacksState look.now }
{
    look.rotation && !has_state(look)
}

// Whether a count isn't 0.
fn is_any_ready(counts: &[u32]) -> bool
    ensures { IsTrue result ↔ ((f : ℕ) × IsReady counts.now f) }
{
    for count in counts {
        if *count > 0 {
            return true;
        }
    }
    false
}

// Whether there is such a count and it isn't 0.
fn is_ready(counts: &[u32], factory: u32) -> bool
    ensures { IsTrue result ↔ IsReady counts.now factory }
{
    match counts.get(factory as usize) {
        Some(count) => *count > 0,
        None => false,
    }
}

/// Whether the factory has a ready state and no product holds its port.
pub(crate) fn is_offered(layout: &Layout, look: &Look, factory: u32) -> bool
    ensures { IsTrue result ↔ IsOffered layout.now look.now factory }
{
    is_ready(ready_of(look), factory) && is_port_unheld(layout, look.held.as_slice(), factory)
}

// Whether the factory has a port, and no product holds it.
fn is_port_unheld(layout: &Layout, held: &[Option<u32>], factory: u32) -> bool
    ensures { IsTrue result ↔ ((c : ℕ) × IsPort layout.now factory c × IsUnheld held.now c) }
{
    match layout.port(factory) {
        Some(cell) => is_unheld(held, cell),
        None => false,
    }
}

/// Whether a product holds the patch of a qubit that has a letter.
pub(crate) fn is_patch_held(layout: &Layout, look: &Look) -> bool
    ensures { IsTrue result ↔ PatchHeld layout.now look.now }
{
    for qubit in 0..look.axis.len() {
        if is_held_at(layout, look, qubit) {
            return true;
        }
    }
    false
}

// Whether the qubit has a letter and a product holds its patch.
fn is_held_at(layout: &Layout, look: &Look, qubit: u32) -> bool
    requires { qubit < length look.now.axis.letters }
    ensures { IsTrue result ↔ IsHeldAt layout.now look.now qubit }
{
    match look.axis.letter(qubit) {
        Letter::I => false,
        _ => is_patched_held(layout, look.held.as_slice(), qubit),
    }
}

// Whether the qubit has a patch that a product holds.
fn is_patched_held(layout: &Layout, held: &[Option<u32>], qubit: u32) -> bool
    ensures { IsTrue result ↔ ((c : ℕ) × (by : ℕ) × IsPatch layout.now qubit c
        × (slice_get held.now c ≡ Some (Some by))) }
{
    match layout.patch(qubit) {
        Some(cell) => is_held(held, cell),
        None => false,
    }
}

// Whether a product holds the cell.
fn is_held(held: &[Option<u32>], cell: u32) -> bool
    ensures { IsTrue result ↔ ((by : ℕ) × (slice_get held.now cell ≡ Some (Some by))) }
{
    match held.get(cell as usize) {
        Some(Some(_)) => true,
        _ => false,
    }
}
