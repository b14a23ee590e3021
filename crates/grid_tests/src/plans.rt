//! What is answered for looks at small layouts.

ghost use Rattle.std.specs.Prelude.{◌≡◌, ℕ, ◌≤◌, length, IsTrue};
ghost use Rattle.pauli_product.specs.Signed.{HasLetter};

use crate::layouts::{layout_b, layout_of, row_for, row_two};
use patch_base::Memory;
use patch_layout::{Layout, LayoutFault, Look, check};
use pauli_product::{Letter, Product};
use region_plan::{
    JoiningPlanner, KeepingPlanner, Planned, Planner, law_joined, law_region_fits, plan,
};
use std::alloc::Global;
use std::test::Fail;

// The row layout for one qubit: cells 0 to 3 above, and below them an ancilla cell, patch 0, an
// ancilla cell and the port of factory 0 in cells 4 to 7.
fn row_one(alloc: Global) -> Result<Layout, LayoutFault> {
    row_for(alloc, &[true])
}

// The ports of factories 1 and 0 below cells 0 and 5, and patch 0 below cell 2.
fn two_ports(alloc: Global) -> Result<Layout, LayoutFault> {
    layout_of(
        alloc,
        b"layout 1 2 6\nport 1 6 h 1\npatch 0 8 h\nport 0 11 h 1\n",
    )
}

/// A look for this axis, where product 0 holds these cells, and factory 0 has a ready state for a
/// rotation.
pub fn look_at(
    alloc: Global,
    layout: &Layout,
    letters: &[Letter],
    rotation: bool,
    held: &[u32],
) -> Result<Look, Memory>
    requires { length letters.now ≤ 1024 }
{
    let mut look = Look::new(alloc, layout, letters.len() as u32)?;
    look.product = 1;
    look.axis = Product::new(alloc, true, letters)?;
    look.rotation = rotation;
    look.ready[0] = rotation as u32;
    for cell in held {
        if (*cell as usize) < look.held.as_slice().len() {
            look.held.set(*cell, Some(0));
        }
    }
    Ok(look)
}

/// Whether a qubit of the axis has a letter other than I.
pub fn has_letter(axis: &Product) -> bool
    ensures { IsTrue result → (q : ℕ) × HasLetter axis.now q }
{
    for qubit in 0..axis.len() {
        if axis.letter(qubit) != Letter::I {
            return true;
        }
    }
    false
}

// What `plan` answers, where its conditions hold.
fn ask(alloc: Global, layout: &Layout, look: &Look) -> Option<Planned> {
    if look.held.as_slice().len() != layout.size() as usize || !has_letter(&look.axis) {
        return None;
    }
    Some(plan(alloc, layout, look))
}

// What a planner answers, where its conditions hold.
fn ask_of<P: Planner>(
    planner: &mut P,
    alloc: Global,
    layout: &Layout,
    look: &Look,
) -> Option<Planned> {
    if look.held.as_slice().len() != layout.size() as usize || !has_letter(&look.axis) {
        return None;
    }
    Some(planner.plan(alloc, layout, look))
}

// Whether the answer is a region of these cells through this port that the check passes.
fn is_region(planned: Option<Planned>, layout: &Layout, cells: &[u32], port: Option<u32>) -> bool {
    match planned {
        Some(Planned::Region(plan)) => {
            check(layout, &plan, port.is_some()).is_none()
                && plan.number == 1
                && plan.port == port
                && plan.cells.cells() == cells
        }
        _ => false,
    }
}

fn is_blocked(planned: Option<Planned>) -> bool {
    matches!(planned, Some(Planned::Blocked))
}

// Whether a region of these cells is planned for the axis in the row layout for one qubit, where
// product 0 holds the other cells.
fn plans_in_row(
    alloc: Global,
    letter: Letter,
    port: Option<u32>,
    held: &[u32],
    cells: &[u32],
) -> Result<bool, LayoutFault> {
    let layout = row_one(alloc)?;
    let look = look_at(alloc, &layout, &[letter], port.is_some(), held)?;
    Ok(is_region(ask(alloc, &layout, &look), &layout, cells, port))
}

#[test]
fn least_cells_side_by_side(rt: HostRuntime) -> Result<(), Fail> {
    let rows: [(Letter, Option<u32>, &[u32], &[u32]); 4] = [
        (Letter::Z, Some(0), &[], &[1, 2, 3]),
        (Letter::Y, Some(0), &[], &[0, 1, 2, 3, 4]),
        (Letter::Y, None, &[], &[0, 1, 4]),
        (Letter::X, Some(0), &[0], &[2, 3, 6]),
    ];
    for (letter, port, held, cells) in rows {
        let is = plans_in_row(rt.alloc(), letter, port, held, cells)?;
        assert!(rt; is, "at {cells:?}");
    }
    Ok(())
}

// What is answered in the row layout for two qubits for a measurement of +YI.
fn both_sides(alloc: Global, held: &[u32]) -> Result<(bool, bool), LayoutFault> {
    let layout = row_two(alloc)?;
    let look = look_at(alloc, &layout, &[Letter::Y, Letter::I], false, held)?;
    let is = is_region(ask(alloc, &layout, &look), &layout, &[0, 1, 6], None);
    let blocked = is_blocked(ask(alloc, &layout, &look));
    Ok((is, blocked))
}

#[test]
fn both_sides_are_needed(rt: HostRuntime) -> Result<(), Fail> {
    assert_eq!(rt; both_sides(rt.alloc(), &[])?, (true, false));
    assert_eq!(rt;
        both_sides(rt.alloc(), &[1, 2, 3, 4, 9, 10])?,
        (false, true)
    );
    Ok(())
}

// Whether a region of these cells is planned for the axis between upright patches, where product 0
// holds the other cells.
fn plans_between(
    alloc: Global,
    letters: &[Letter; 2],
    held: &[u32],
    cells: &[u32],
) -> Result<bool, LayoutFault> {
    let layout = layout_b(alloc)?;
    let look = look_at(alloc, &layout, letters, false, held)?;
    Ok(is_region(ask(alloc, &layout, &look), &layout, cells, None))
}

#[test]
fn between_upright_patches(rt: HostRuntime) -> Result<(), Fail> {
    let z = [Letter::Z, Letter::I];
    assert!(rt; plans_between(rt.alloc(), &z, &[], &[5])?);
    assert!(rt; plans_between(rt.alloc(), &z, &[5], &[7])?);
    let both = [Letter::X, Letter::X];
    assert!(rt; plans_between(rt.alloc(), &both, &[], &[1, 2, 3])?);
    let round = [0, 1, 5, 10, 11, 12, 13];
    assert!(rt; plans_between(rt.alloc(), &both, &[2], &round)?);
    Ok(())
}

// What the answer is, and the place or the product that it names.
fn answered(planned: Option<Planned>) -> (&'static str, u32) {
    match planned {
        Some(Planned::Taken { place }) => ("taken", place),
        Some(Planned::NotReady { on }) => ("not ready", on),
        Some(Planned::NoReady) => ("no ready", 0),
        Some(Planned::Blocked) => ("blocked", 0),
        _ => ("else", 0),
    }
}

// What is answered for a rotation whose patch is held, where factory 0 has so many states.
fn refused(
    alloc: Global,
    states: u32,
    waits: Option<u32>,
    taken: Option<u32>,
) -> Result<(&'static str, u32), LayoutFault> {
    let layout = row_one(alloc)?;
    let mut look = look_at(alloc, &layout, &[Letter::X], true, &[5])?;
    look.ready[0] = states;
    look.waits = waits;
    look.taken = taken;
    Ok(answered(ask(alloc, &layout, &look)))
}

#[test]
fn refusals_in_order(rt: HostRuntime) -> Result<(), Fail> {
    let rows = [
        (1, None, None, ("blocked", 0)),
        (0, None, None, ("no ready", 0)),
        (0, Some(3), None, ("not ready", 3)),
        (0, Some(3), Some(7), ("taken", 7)),
    ];
    for (states, waits, taken, want) in rows {
        let is = refused(rt.alloc(), states, waits, taken)?;
        assert_eq!(rt; is, want);
    }
    Ok(())
}

// Whether a rotation about Z goes through port 1, and whether it is blocked, where factory 1 has so
// many states and product 0 holds these cells.
fn through_two(alloc: Global, states: u32, held: &[u32]) -> Result<(bool, bool), LayoutFault> {
    let layout = two_ports(alloc)?;
    let mut look = look_at(alloc, &layout, &[Letter::Z], true, held)?;
    look.ready[1] = states;
    let is = is_region(ask(alloc, &layout, &look), &layout, &[0, 1, 2], Some(1));
    let blocked = is_blocked(ask(alloc, &layout, &look));
    Ok((is, blocked))
}

#[test]
fn first_port_is_shut_in(rt: HostRuntime) -> Result<(), Fail> {
    assert_eq!(rt; through_two(rt.alloc(), 0, &[4, 10])?, (false, true));
    assert_eq!(rt; through_two(rt.alloc(), 2, &[4, 10])?, (true, false));
    assert_eq!(rt; through_two(rt.alloc(), 2, &[4, 6, 10])?, (false, true));
    assert_eq!(rt; through_two(rt.alloc(), 2, &[])?, (false, false));
    Ok(())
}

#[test]
fn as_a_planner(rt: HostRuntime) -> Result<(), Fail> {
    law_joined();
    law_region_fits();
    let layout = row_one(rt.alloc())?;
    let look = look_at(rt.alloc(), &layout, &[Letter::Z], true, &[])?;
    let planned = ask_of(&mut JoiningPlanner, rt.alloc(), &layout, &look);
    assert!(rt; is_region(planned, &layout, &[1, 2, 3], Some(0)));
    Ok(())
}

// Whether a planner that keeps walks plans a region of these cells for the axis, where product 0
// holds the other cells.
fn keeps(
    planner: &mut KeepingPlanner,
    alloc: Global,
    layout: &Layout,
    letter: Letter,
    port: Option<u32>,
    held: &[u32],
    cells: &[u32],
) -> Result<bool, Memory> {
    let look = look_at(alloc, layout, &[letter], port.is_some(), held)?;
    let planned = ask_of(planner, alloc, layout, &look);
    Ok(is_region(planned, layout, cells, port))
}

// Two layouts of eight cells in turn: the walks of one are of no use in the other.
#[test]
fn walks_are_kept(rt: HostRuntime) -> Result<(), Fail> {
    let alloc = rt.alloc();
    let row = row_one(alloc)?;
    let other = layout_of(alloc, b"layout 1 2 4\nport 0 4 h 1\npatch 0 6 h\n")?;
    let rows: [(&Layout, Letter, Option<u32>, &[u32], &[u32]); 7] = [
        (&row, Letter::Z, Some(0), &[], &[1, 2, 3]),
        (&row, Letter::Z, Some(0), &[], &[1, 2, 3]),
        (&row, Letter::Y, Some(0), &[], &[0, 1, 2, 3, 4]),
        (&row, Letter::X, Some(0), &[0], &[2, 3, 6]),
        (&other, Letter::Z, Some(0), &[], &[0, 1, 2]),
        (&row, Letter::Y, None, &[], &[0, 1, 4]),
        (&other, Letter::Z, Some(0), &[], &[0, 1, 2]),
    ];
    let mut planner = KeepingPlanner::new(alloc);
    for (layout, letter, port, held, cells) in rows {
        let is = keeps(&mut planner, alloc, layout, letter, port, held, cells)?;
        assert!(rt; is, "at {cells:?}");
    }
    Ok(())
}
