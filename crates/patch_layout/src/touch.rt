//! The sides that an axis asks for, and the cells that touch them.

ghost use Rattle.std.specs.Prelude.{◌≡◌, ◌≤◌, ◌++◌, length, Option, Some, None, IfOk};
ghost use Rattle.patch_layout.specs.Region.{sides_of, wanted_sides, Touches};
ghost use Rattle.patch_layout.specs.Case.{Ascending};
ghost use Rattle.patch_layout.specs.inside.Tree.{Placing, Touching, TouchEach};

use crate::layout::{Edge, Layout, Side};
use patch_base::Memory;
use pauli_product::{Letter, Product};
use std::alloc::Global;

// Appends the sides that a letter asks for.
fn push_sides(sides: &mut Vec<Side>, qubit: u32, letter: Letter) -> Result<(), Memory>
    ensures { IfOk result (λ _. sides.new.items ≡ sides.old.items ++ sides_of qubit letter) }
{
    match letter {
        Letter::I => {}
        Letter::X => sides.push(Side::Patch {
            qubit,
            edge: Edge::X,
        })?,
        Letter::Z => sides.push(Side::Patch {
            qubit,
            edge: Edge::Z,
        })?,
        Letter::Y => {
            sides.push(Side::Patch {
                qubit,
                edge: Edge::X,
            })?;
            sides.push(Side::Patch {
                qubit,
                edge: Edge::Z,
            })?;
        }
    }
    Ok(())
}

/// The sides that an axis and a port ask for: qubits ascending, X before Z, the port last.
pub fn wanted(alloc: Global, axis: &Product, port: Option<u32>) -> Result<Vec<Side>, Memory>
    ensures { IfOk result (λ sides. sides.items ≡ wanted_sides axis.now port) }
{
    let mut sides = Vec::new(alloc);
    for qubit in 0..axis.len() {
        push_sides(&mut sides, qubit, axis.letter(qubit))?;
    }
    if let Some(factory) = port {
        sides.push(Side::Port { factory })?;
    }
    Ok(sides)
}

// The place of the cell in the region, where there is such a cell and it is there.
fn place_of(cells: &[u32], cell: Option<u32>) -> Option<u32>
    requires few { length cells.now ≤ 4096 }
    requires ascending { Ascending cells.now }
    ensures { Placing cells.now cell result }
{
    let Some(cell) = cell else {
        return None;
    };
    match cells.binary_search(&cell) {
        Ok(place) => Some(place as u32),
        Err(_) => None,
    }
}

// The place of a cell on the side.
fn touch(layout: &Layout, cells: &[u32], side: Side) -> Option<u32>
    requires few { length cells.now ≤ 4096 }
    requires ascending { Ascending cells.now }
    ensures { Touching layout.now cells.now side result }
{
    let pair = layout.side(side);
    match place_of(cells, pair[0]) {
        Some(place) => Some(place),
        None => place_of(cells, pair[1]),
    }
}

// The place of a cell on the side, where there is one, and else 0.
fn touch_or_first(layout: &Layout, cells: &[u32], side: Side) -> u32
    requires few { length cells.now ≤ 4096 }
    requires ascending { Ascending cells.now }
    ensures { Touches layout.now cells.now side → Touching layout.now cells.now side (Some result) }
{
    match touch(layout, cells, side) {
        Some(index) => index,
        None => 0,
    }
}

/// A touch for each side, which fits where the cells touch the side.
pub fn touches_of(
    alloc: Global,
    layout: &Layout,
    cells: &[u32],
    sides: &[Side],
) -> Result<Vec<u32>, Memory>
    requires few { length cells.now ≤ 4096 }
    requires ascending { Ascending cells.now }
    ensures sizes { IfOk result (λ touches. length touches.items ≡ length sides.now) }
    ensures fits { IfOk result (λ touches. TouchEach layout.now cells.now sides.now touches.items
        (length sides.now)) }
{
    let mut touches = Vec::new(alloc);
    for side in sides {
        touches.push(touch_or_first(layout, cells, *side))?;
    }
    Ok(touches)
}
