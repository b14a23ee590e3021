//! Layouts by their cells, and what stands around a patch and a port.

ghost use Rattle.std.specs.Prelude.{◌<◌, ◌≡◌, ◌^◌, length, IfOk};

use patch_base::{Memory, Need, Used};
use patch_layout::{CellList, Edge, Layout, LayoutFault, Tile, law_whole_fits, whole_region};
use std::alloc::Global;
use std::test::Fail;

/// What a circuit needs that uses these qubits.
pub fn need(alloc: Global, used: &[bool], rotations: bool) -> Result<Need, Memory>
    requires { length used.now < 2 ^ 32 }
    ensures { IfOk result (λ need. length need.used ≡ need.qubits) }
{
    Ok(Need {
        qubits: used.len() as u32,
        used: Used::of(Vec::from_slice(alloc, used)?),
        rotations,
    })
}

/// The row layout for a circuit that uses these qubits and has rotations.
pub fn row_for(alloc: Global, used: &[bool]) -> Result<Layout, LayoutFault>
    requires { length used.now < 2 ^ 32 }
{
    let need = need(alloc, used, true)?;
    Layout::row(alloc, &need)
}

/// The layout that a text stands for, for a circuit that uses no qubits.
pub fn layout_of(alloc: Global, text: &[u8]) -> Result<Layout, LayoutFault> {
    let need = need(alloc, &[], false)?;
    Layout::read(alloc, text, &need)
}

/// The row layout for two qubits: cells 0 to 5 above, and below them an ancilla cell, patch 0, an
/// ancilla cell, patch 1, an ancilla cell and the port of factory 0 in cells 6 to 11.
pub fn row_two(alloc: Global) -> Result<Layout, LayoutFault> {
    row_for(alloc, &[true, true])
}

/// Two upright patches in the middle row of a grid of 3 rows and 5 columns.
pub fn layout_b(alloc: Global) -> Result<Layout, LayoutFault> {
    layout_of(alloc, b"layout 1 3 5\npatch 0 6 v\npatch 1 8 v\n")
}

// A layout with a wall, and a patch and a port of great numbers.
fn with_store(alloc: Global) -> Result<Layout, LayoutFault> {
    layout_of(
        alloc,
        b"layout 1 2 4\n# a wall\nwall 4\n\nport 3 7 h 16\npatch 1023 5 v",
    )
}

fn tile_of(layout: &Layout, cell: u32) -> Option<Tile> {
    if cell < layout.size() {
        Some(layout.tile(cell))
    } else {
        None
    }
}

fn sides_of(layout: &Layout, cell: u32, edge: Edge) -> Option<[Option<u32>; 2]> {
    if cell < layout.size() {
        Some(layout.sides(cell, edge))
    } else {
        None
    }
}

fn neighbours_of(layout: &Layout, cell: u32) -> Option<[Option<u32>; 4]> {
    if cell < layout.size() {
        Some(layout.neighbours(cell))
    } else {
        None
    }
}

#[test]
fn row_of_two(rt: HostRuntime) -> Result<(), Fail> {
    let layout = row_two(rt.alloc())?;
    assert_eq!(rt; layout.rows(), 2);
    assert_eq!(rt; layout.columns(), 6);
    assert_eq!(rt; tile_of(&layout, 6), Some(Tile::Ancilla));
    assert_eq!(rt; tile_of(&layout, 9), Some(Tile::Patch { qubit: 1 }));
    assert_eq!(rt; tile_of(&layout, 11), Some(Tile::Port { factory: 0 }));
    assert_eq!(rt; layout.store(0), Some(1));
    assert_eq!(rt; layout.store(1), None);
    Ok(())
}

#[test]
fn around_a_level_patch(rt: HostRuntime) -> Result<(), Fail> {
    let layout = row_two(rt.alloc())?;
    assert_eq!(rt; sides_of(&layout, 9, Edge::X), Some([Some(8), Some(10)]));
    assert_eq!(rt; sides_of(&layout, 9, Edge::Z), Some([Some(3), None]));
    assert_eq!(rt; sides_of(&layout, 11, Edge::Z), Some([Some(5), None]));
    assert_eq!(rt; sides_of(&layout, 8, Edge::X), Some([None, None]));
    Ok(())
}

#[test]
fn around_an_upright_patch(rt: HostRuntime) -> Result<(), Fail> {
    let layout = layout_b(rt.alloc())?;
    assert_eq!(rt; sides_of(&layout, 6, Edge::X), Some([Some(1), Some(11)]));
    assert_eq!(rt; sides_of(&layout, 6, Edge::Z), Some([Some(5), Some(7)]));
    Ok(())
}

#[test]
fn at_the_rim(rt: HostRuntime) -> Result<(), Fail> {
    let layout = layout_b(rt.alloc())?;
    assert_eq!(rt;
        neighbours_of(&layout, 0),
        Some([None, None, Some(1), Some(5)])
    );
    assert_eq!(rt;
        neighbours_of(&layout, 7),
        Some([Some(2), Some(6), Some(8), Some(12)])
    );
    assert_eq!(rt;
        neighbours_of(&layout, 9),
        Some([Some(4), Some(8), None, Some(14)])
    );
    assert_eq!(rt;
        neighbours_of(&layout, 10),
        Some([Some(5), None, Some(11), None])
    );
    Ok(())
}

#[test]
fn walls_and_stores(rt: HostRuntime) -> Result<(), Fail> {
    let layout = with_store(rt.alloc())?;
    assert_eq!(rt; tile_of(&layout, 4), Some(Tile::Wall));
    assert_eq!(rt; layout.store(3), Some(16));
    assert_eq!(rt; layout.patch(1023), Some(5));
    assert_eq!(rt; layout.port(3), Some(7));
    Ok(())
}

// How many cells the row layout for 67 qubits has, and where its last patch and its port stand.
fn last_of_row(alloc: Global) -> Result<(u32, Option<u32>, Option<u32>), LayoutFault> {
    let used = [false; 67];
    let layout = row_for(alloc, &used)?;
    Ok((layout.size(), layout.patch(63), layout.port(0)))
}

#[test]
fn sixty_four_patches(rt: HostRuntime) -> Result<(), Fail> {
    let last = last_of_row(rt.alloc())?;
    assert_eq!(rt; last, (2 * 130, Some(130 + 127), Some(130 + 129)));
    Ok(())
}

// Where patch 1 stands in a copy, and how many columns the copy has.
fn copied(alloc: Global) -> Result<(Option<u32>, u32), LayoutFault> {
    let layout = layout_b(alloc)?;
    let copy = layout.copy(alloc)?;
    Ok((copy.patch(1), copy.columns()))
}

#[test]
fn copies_are_equal(rt: HostRuntime) -> Result<(), Fail> {
    let copy = copied(rt.alloc())?;
    assert_eq!(rt; copy, (Some(8), 5));
    Ok(())
}

// Whether the whole region of the row layout for two qubits has these cells.
fn is_whole(alloc: Global, cells: &[u32]) -> Result<bool, LayoutFault> {
    let layout = row_two(alloc)?;
    let whole = whole_region(alloc, &layout)?;
    Ok(whole.cells() == cells)
}

#[test]
fn whole_regions(rt: HostRuntime) -> Result<(), Fail> {
    law_whole_fits();
    let is = is_whole(rt.alloc(), &[0, 1, 2, 3, 4, 5, 6, 8, 10])?;
    assert!(rt; is);
    Ok(())
}

// Whether a list that 4 and then 2 were pushed to, and a copy of it, have these cells.
fn has_cells(alloc: Global, cells: &[u32]) -> Result<bool, Memory> {
    let mut list = CellList::new(alloc);
    list.push(4)?;
    list.push(2)?;
    let copy = list.copy(alloc)?;
    let again = CellList::of(list.into_vec());
    Ok(copy.cells() == cells && again.cells() == cells)
}

#[test]
fn lists_of_cells(rt: HostRuntime) -> Result<(), Fail> {
    let has = has_cells(rt.alloc(), &[4, 2])?;
    assert!(rt; has);
    Ok(())
}
