//! A claim's cells, and who holds them.

ghost use Rattle.std.specs.Prelude.{◌≡◌, ◌≢◌, ℕ, ◌+◌, ◌<◌, ◌≤◌, ◌↔◌, length, slice_get, Some, None, All};
ghost use Rattle.pauli_product.specs.declared.Letter.{Letter as Letters};
ghost use Rattle.pauli_product.specs.declared.Letter.TheVariants.{I};
ghost use Rattle.patch_layout.specs.Grid.{IsPatch, IsPort};
ghost use Rattle.board_core.specs.Legal.{ClaimCell};
ghost use Rattle.board_core.specs.inside.Cells.{LeastOfRegion, LeastTaken, LeastWithPatches, PatchesTaken, RegionTaken, Taken, better_of, given_to};

use crate::holders::Holders;
use patch_layout::Layout;
use pauli_product::{Letter, Product};

/// The patch of a qubit at which the axis has a letter other than I.
fn patch_at(layout: &Layout, axis: &Product, qubit: u32) -> Option<u32>
    requires { qubit < length axis.now.letters }
    ensures { (c : ℕ) → (result ≡ Some c) ↔ ((l : Letters)
        × (slice_get axis.now.letters qubit ≡ Some l) × (l ≢ I) × IsPatch layout.now qubit c) }
{
    match axis.letter(qubit) {
        Letter::I => None,
        _ => layout.patch(qubit),
    }
}

/// The cell of a port, where one is named.
fn port_at(layout: &Layout, port: Option<u32>) -> Option<u32>
    ensures { (c : ℕ) → (result ≡ Some c) ↔ ((f : ℕ) × (port ≡ Some f) × IsPort layout.now f c) }
{
    match port {
        Some(factory) => layout.port(factory),
        None => None,
    }
}

/// Gives the cell, where there is one, to a product.
fn give(cell: Option<u32>, by: u32, holders: &mut Holders)
    requires { (c : ℕ) → cell ≡ Some c → c < length holders.old }
    ensures { holders.new ≡ given_to cell by holders.old }
{
    if let Some(cell) = cell {
        holders.give(cell, by);
    }
}

/// Gives the cells of a region to a product.
fn take_region(cells: &[u32], by: u32, holders: &mut Holders)
    requires { All (λ c. c < length holders.old) cells.now }
    ensures size { length holders.new ≡ length holders.old }
    ensures taken { RegionTaken cells.now by holders.old holders.new }
{
    for cell in cells {
        holders.give(*cell, by);
    }
}

/// Gives the patches at the letters of an axis to a product.
fn take_patches(layout: &Layout, axis: &Product, by: u32, holders: &mut Holders)
    requires { length holders.old ≡ length layout.now.sites }
    ensures size { length holders.new ≡ length holders.old }
    ensures taken { PatchesTaken layout.now axis.now by holders.old holders.new }
{
    for qubit in 0..axis.len() {
        give(patch_at(layout, axis, qubit), by, holders);
    }
}

/// Gives the claim's cells to a product.
pub fn take_cells(
    layout: &Layout,
    axis: &Product,
    port: Option<u32>,
    cells: &[u32],
    by: u32,
    holders: &mut Holders,
)
    requires sizes { length holders.old ≡ length layout.now.sites }
    requires few { length cells.now ≤ 4096 }
    requires cells { All (λ c. c < length layout.now.sites) cells.now }
    ensures { Taken (ClaimCell layout.now axis.now port cells.now) by holders.old holders.new }
{
    take_region(cells, by, holders);
    take_patches(layout, axis, by, holders);
    give(port_at(layout, port), by, holders);
}

/// The lesser of the best cell so far and this one, if there is one and it is held.
fn better(
    best: Option<(u32, u32)>,
    cell: Option<u32>,
    holders: &[Option<u32>],
) -> Option<(u32, u32)>
    requires { (c : ℕ) → cell ≡ Some c → c < length holders.now }
    ensures { result ≡ better_of best cell holders.now }
{
    let Some(cell) = cell else {
        return best;
    };
    let Some(by) = holders[cell as usize] else {
        return best;
    };
    match best {
        None => Some((cell, by)),
        Some((least, of)) => {
            if cell < least {
                Some((cell, by))
            } else {
                Some((least, of))
            }
        }
    }
}

/// The least of a region's cells that is held, and by whom.
fn least_of_region(cells: &[u32], holders: &[Option<u32>]) -> Option<(u32, u32)>
    requires { All (λ c. c < length holders.now) cells.now }
    ensures { LeastOfRegion cells.now holders.now result }
{
    let mut best = None;
    for cell in cells {
        best = better(best, Some(*cell), holders);
    }
    best
}

/// The least of the cells so far and of the patches at the letters of an axis.
fn least_of_patches(
    layout: &Layout,
    axis: &Product,
    holders: &[Option<u32>],
    region: Option<(u32, u32)>,
) -> Option<(u32, u32)>
    requires { length holders.now ≡ length layout.now.sites }
    ensures { LeastWithPatches layout.now axis.now holders.now region result }
{
    let mut best = region;
    for qubit in 0..axis.len() {
        best = better(best, patch_at(layout, axis, qubit), holders);
    }
    best
}

/// The least of the claim's cells that is held, and by whom.
pub fn least_held(
    layout: &Layout,
    axis: &Product,
    port: Option<u32>,
    cells: &[u32],
    holders: &[Option<u32>],
) -> Option<(u32, u32)>
    requires sizes { length holders.now ≡ length layout.now.sites }
    requires few { length cells.now ≤ 4096 }
    requires cells { All (λ c. c < length layout.now.sites) cells.now }
    ensures { LeastTaken (ClaimCell layout.now axis.now port cells.now) holders.now result }
{
    let region = least_of_region(cells, holders);
    let patches = least_of_patches(layout, axis, holders, region);
    better(patches, port_at(layout, port), holders)
}
