//! The cells that a claim holds.

ghost use Rattle.std.specs.Prelude.{◌≡◌, ◌||◌, ℕ, OnOk};
ghost use Rattle.slice_write.specs.Slices.{is_among, is_claim_cell, is_port, is_identity as is_identity_letter};

use patch_base::Memory;
use patch_layout::Layout;
use pauli_product::{Letter, Product};

/// Puts the cells that a claim holds into a list: its region, the patches at the letters of its axis other than I, and
/// its port.
pub(crate) fn held_cells(
    layout: &Layout,
    axis: &Product,
    port: Option<u32>,
    region: &[u32],
    into: &mut Vec<u32>,
) -> Result<(), Memory>
    ensures { OnOk result ((c : ℕ) → is_among into.new.items c
        ≡ is_claim_cell layout.now axis.now port region.now c) }
{
    into.clear();
    into.extend_from_slice(region)?;
    for q in 0..axis.len() {
        if !is_identity(axis.letter(q)) {
            put(layout.patch(q), into)?;
        }
    }
    if let Some(factory) = port {
        put(layout.port(factory), into)?;
    }
    Ok(())
}

fn put(cell: Option<u32>, into: &mut Vec<u32>) -> Result<(), Memory>
    ensures { OnOk result ((c : ℕ) → is_among into.new.items c
        ≡ (is_among into.old.items c || is_port cell c)) }
{
    if let Some(cell) = cell {
        into.push(cell)?;
    }
    Ok(())
}

fn is_identity(letter: Letter) -> bool
    ensures { result ≡ is_identity_letter letter }
{
    matches!(letter, Letter::I)
}
