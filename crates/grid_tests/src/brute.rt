//! Least regions of small grids, found again by a try of each set of cells.

use crate::layouts::layout_of;
use crate::least::{look_with_states, region};
use patch_base::Memory;
use patch_layout::{Layout, LayoutFault, Look, wanted};
use pauli_product::Letter;
use pauli_product::Letter::{I, X, Y, Z};
use std::alloc::Global;
use std::test::Fail;

// The set of one cell. A set has a bit for each cell.
fn set_of(cell: u32) -> u32 {
    if cell < 32 { 1 << cell } else { 0 }
}

fn set_of_all(cells: &[Option<u32>]) -> u32 {
    let mut set = 0;
    for place in cells {
        if let Some(cell) = place {
            set |= set_of(*cell);
        }
    }
    set
}

fn neighbours_of(layout: &Layout, set: u32) -> u32 {
    let mut all = 0;
    for cell in 0..layout.size() {
        if set & set_of(cell) != 0 {
            all |= set_of_all(&layout.neighbours(cell));
        }
    }
    all
}

fn is_joined(layout: &Layout, set: u32) -> bool {
    let mut seen = set_of(set.trailing_zeros());
    for _ in 0..layout.size() {
        seen |= neighbours_of(layout, seen) & set;
    }
    seen == set
}

fn free_cells(layout: &Layout, look: &Look) -> u32 {
    let mut free = 0;
    for cell in 0..layout.size() {
        if layout.is_ancilla(cell) && look.held.as_slice().get(cell as usize) == Some(&None) {
            free |= set_of(cell);
        }
    }
    free
}

fn lesser(one: Option<usize>, other: Option<usize>) -> Option<usize> {
    match (one, other) {
        (Some(one), Some(other)) => Some(one.min(other)),
        (Some(size), None) | (None, Some(size)) => Some(size),
        (None, None) => None,
    }
}

// How many cells the least joined set of free cells has that has a cell of each side.
fn least_size(layout: &Layout, free: u32, sides: &[u32]) -> Option<usize> {
    let mut least = None;
    for set in 1..free.saturating_add(1) {
        let touches = sides.iter().all(|side| set & *side != 0);
        if set & free == set && touches && is_joined(layout, set) {
            least = lesser(least, Some(set.count_ones() as usize));
        }
    }
    least
}

// The same through this port.
fn least_through(
    alloc: Global,
    layout: &Layout,
    look: &Look,
    port: Option<u32>,
) -> Result<Option<usize>, Memory> {
    let mut sides = Vec::new(alloc);
    for side in &wanted(alloc, &look.axis, port)? {
        sides.push(set_of_all(&layout.side(*side)))?;
    }
    Ok(least_size(layout, free_cells(layout, look), &sides))
}

// How many cells a least region has for the look, found by trying each set.
fn tried(alloc: Global, layout: &Layout, look: &Look) -> Result<Option<usize>, Memory> {
    if !look.rotation {
        return least_through(alloc, layout, look, None);
    }
    let mut least = None;
    for factory in 0..16 {
        if let Some(cell) = layout.port(factory) {
            if look.held.as_slice().get(cell as usize) == Some(&None) {
                least = lesser(least, least_through(alloc, layout, look, Some(factory))?);
            }
        }
    }
    Ok(least)
}

// How many cells the planned region has, where the check passes it.
fn planned(alloc: Global, layout: &Layout, look: &Look) -> Option<usize> {
    let (cells, _) = region(alloc, layout, look)?;
    Some(cells.len())
}

// Two upright patches between two ports:
//
//     .  .  .  .  m5
//     .  q0 .  q1 .
//     m2 .  .  .  .
const TWO_PORTS: &[u8] = b"layout 1 3 5\npatch 0 6 v\npatch 1 8 v\nport 2 10 h 1\nport 5 4 v 1\n";

// Three patches and a port in the corners, and a wall:
//
//     q0 .  .  q1
//     .  #  .  .
//     .  .  .  .
//     q2 .  .  m1
const CORNERS: &[u8] =
    b"layout 1 4 4\npatch 0 0 h\npatch 1 3 v\npatch 2 12 h\nwall 5\nport 1 15 v 1\n";

// How many cells a region for the axis has as it is planned, and as it is found by a try of each
// set, where product 0 holds these cells.
fn sizes(
    alloc: Global,
    text: &[u8],
    letters: &[Letter; 3],
    rotation: bool,
    held: &[u32],
) -> Result<(Option<usize>, Option<usize>), LayoutFault> {
    let layout = layout_of(alloc, text)?;
    let look = look_with_states(alloc, &layout, letters, rotation, held)?;
    let tried = tried(alloc, &layout, &look)?;
    Ok((planned(alloc, &layout, &look), tried))
}

#[test]
fn as_few_cells_as_any_set(rt: HostRuntime) -> Result<(), Fail> {
    let rows: [(&[u8], [Letter; 3], bool, &[u32], Option<usize>); 16] = [
        (TWO_PORTS, [X, X, I], false, &[], Some(3)),
        (TWO_PORTS, [X, X, I], false, &[2], Some(3)),
        (TWO_PORTS, [X, X, I], false, &[2, 12], None),
        (TWO_PORTS, [Y, I, I], false, &[], Some(3)),
        (TWO_PORTS, [Z, Z, I], false, &[], Some(1)),
        (TWO_PORTS, [Y, Y, I], false, &[], Some(4)),
        (TWO_PORTS, [Y, Y, I], true, &[], Some(4)),
        (TWO_PORTS, [I, Z, I], true, &[], Some(3)),
        (TWO_PORTS, [I, Z, I], true, &[4], Some(5)),
        (TWO_PORTS, [I, Z, I], true, &[2], None),
        (CORNERS, [X, Z, X], true, &[], Some(6)),
        (CORNERS, [Y, I, Y], false, &[], Some(8)),
        (CORNERS, [Y, Y, Z], false, &[], Some(8)),
        (CORNERS, [Y, Y, I], true, &[], Some(9)),
        (CORNERS, [Y, Y, Z], true, &[], Some(9)),
        (CORNERS, [Y, Y, Y], false, &[], Some(9)),
    ];
    for (layout, letters, rotation, held, size) in rows {
        let found = sizes(rt.alloc(), layout, &letters, rotation, held)?;
        assert_eq!(rt; found, (size, size), "for {letters:?} with {held:?} held");
    }
    Ok(())
}
