//! Tables of numbers.

ghost use Rattle.std.specs.Prelude.{◌≡◌, ◌<◌, ℕ, All, length, replicate, slice_index, if◌then◌else◌, IfOk};
ghost use Rattle.slice_write.specs.Slices.{is_among};
ghost use Rattle.slice_write.specs.inside.Numbers.{greatest_at as greatest_in, raised, room_of};

use patch_base::Memory;
use std::alloc::Global;

/// What a table has at a number, and 0 past its end.
pub(crate) fn entry_at(table: &[u32], at: usize) -> u32
    ensures { result ≡ slice_index table.now at }
{
    table.get(at).copied().unwrap_or(0)
}

/// Raises what a table has at a number.
pub(crate) fn raise(table: &mut [u32], at: usize, slice: u32)
    requires { at < length table.old }
    ensures { table.new ≡ raised table.old at slice }
{
    table[at] = slice.max(table[at]);
}

/// The slice of the claim that made room for a run of a factory with these states.
pub(crate) fn room(taken: &[u32], own: &[usize], store: usize) -> u32
    ensures { result ≡ room_of taken.now own.now store }
{
    if own.len() < store {
        return 0;
    }
    let state = own.get(own.len() - store).copied().unwrap_or(0);
    entry_at(taken, state)
}

/// The greatest of the slices that stand at these cells.
pub(crate) fn greatest_at(table: &[u32], cells: &[u32]) -> u32
    requires { All (λ c. c < length table.now) cells.now }
    ensures { result ≡ greatest_in table.now cells.now }
{
    let mut greatest = 0;
    for cell in cells {
        greatest = table[*cell as usize].max(greatest);
    }
    greatest
}

/// Writes a slice at these cells.
pub(crate) fn set_at(table: &mut [u32], cells: &[u32], slice: u32)
    requires { All (λ c. c < length table.old) cells.now }
    ensures { (c : ℕ) → c < length table.old → slice_index table.new c
        ≡ (if is_among cells.now c then slice else slice_index table.old c) }
{
    for cell in cells {
        table[*cell as usize] = slice;
    }
}

/// So many zeros.
pub(crate) fn zeros(alloc: Global, n: usize) -> Result<Vec<u32>, Memory>
    ensures { IfOk result (λ v. v.items ≡ replicate n 0) }
{
    Ok(vec![in alloc; 0u32; n]?)
}
