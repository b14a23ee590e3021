//! The built-in row layout, and the region of all ancilla cells.

ghost use Rattle.std.specs.Prelude.{◌≡◌, ℕ, ◌+◌, ◌<◌, ◌≤◌, ◌^◌, min, length, IfOk, IfErr, ◌++◌, drop, MatchOption};
ghost use Rattle.patch_layout.specs.Grid.{Open, Sound};
ghost use Rattle.patch_layout.specs.Row.{row_grid, demand, RowRefused, LeastUsedFrom, IsUsed, ancilla_cells, ancilla_from, WholeFits, WholeAscends, WholeIsAncilla};

use crate::fault::LayoutFault;
use crate::layout::{Layout, Site};
use crate::plan::CellList;
use patch_base::{Memory, Need};
use std::alloc::Global;

// How many patches the row layout has at most.
const ROW_PATCHES: u32 = 64;

impl Layout {
    /// The built-in row layout: 2 rows and 2 n + 2 columns for n qubits, 64 where there are more. Patch j stands at row 1, column 2 j + 1, and port 0 with a store of 1 at row 1, column 2 n + 1; both have their X sides left and right. All other cells are ancilla cells.
    ///
    /// `PatchMissing` names the least used qubit past 63.
    pub fn row(alloc: Global, need: &Need) -> Result<Layout, LayoutFault>
        requires { length need.now.used ≡ need.now.qubits }
        ensures row { IfOk result (λ layout. layout ≡ row_grid (min need.now.qubits 64)) }
        ensures sound { IfOk result Sound }
        ensures open { IfOk result (λ layout.
            Open layout (demand need.now.used need.now.rotations)) }
        ensures refused { IfErr result (RowRefused need.now.used) }
    {
        let patches = need.qubits.min(ROW_PATCHES);
        match used_from(need.used.as_slice(), ROW_PATCHES) {
            Some(qubit) => Err(LayoutFault::PatchMissing { qubit }),
            None => {
                let sites = row_sites(alloc, patches)?;
                let layout = Layout::of(alloc, 2, 2 * patches + 2, sites)?;
                Ok(layout)
            }
        }
    }
}

// The sites of the row layout with so many patches.
fn row_sites(alloc: Global, patches: u32) -> Result<Vec<Site>, Memory>
    requires { patches ≤ 64 }
    ensures { IfOk result (λ sites. sites.items ≡ (row_grid patches).sites) }
{
    let mut sites = vec![in alloc; Site::Ancilla; 2 * patches as usize + 2]?;
    for qubit in 0..patches {
        sites.push(Site::Ancilla)?;
        sites.push(Site::Patch { qubit, level: true })?;
    }
    sites.push(Site::Ancilla)?;
    sites.push(Site::Port {
        factory: 0,
        level: true,
        store: 1,
    })?;
    Ok(sites)
}

// The least used qubit from a number on.
fn used_from(used: &[bool], first: u32) -> Option<u32>
    requires { length used.now < 2 ^ 32 }
    ensures { MatchOption result ((q : ℕ) → first ≤ q → IsUsed used.now q
        → ⊥) (LeastUsedFrom first used.now) }
{
    for qubit in first..used.len() as u32 {
        if used[qubit as usize] {
            return Some(qubit);
        }
    }
    None
}

/// All ancilla cells, ascending.
pub fn whole_region(alloc: Global, layout: &Layout) -> Result<CellList, Memory>
    ensures { IfOk result (λ cells. cells ≡ ancilla_cells layout.now) }
{
    let mut cells = Vec::new(alloc);
    for cell in 0..layout.size() {
        push_ancilla(layout, cell, &mut cells)?;
    }
    Ok(CellList::of(cells))
}

// Appends the cell where it is an ancilla cell.
fn push_ancilla(layout: &Layout, cell: u32, cells: &mut Vec<u32>) -> Result<(), Memory>
    requires { cell < length layout.now.sites }
    ensures { IfOk result (λ _. cells.new.items
        ++ ancilla_from (cell + 1) (drop (cell + 1) layout.now.sites) ≡ cells.old.items
        ++ ancilla_from cell (drop cell layout.now.sites)) }
{
    if layout.is_ancilla(cell) {
        cells.push(cell)?;
    }
    Ok(())
}

/// All ancilla cells of a layout that is open for what is wanted are a region that fits: every axis on used qubits, through every port that is there.
pub fn law_whole_fits()
    ensures fits { WholeFits }
    ensures ascends { WholeAscends }
    ensures whole { WholeIsAncilla }
{}
