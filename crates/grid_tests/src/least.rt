//! What the planner of least regions answers for looks at small layouts.

ghost use Rattle.std.specs.Prelude.{◌≤◌, length};

use crate::layouts::row_for;
use crate::plans::{has_letter, look_at};
use least_region::{LeastPlanned, least_plan};
use patch_base::Memory;
use patch_layout::{Layout, LayoutFault, Look, check};
use pauli_product::Letter;
use std::alloc::Global;
use std::test::Fail;

/// A look for this axis, where product 0 holds these cells, and each factory has a ready state for
/// a rotation.
pub fn look_with_states(
    alloc: Global,
    layout: &Layout,
    letters: &[Letter],
    rotation: bool,
    held: &[u32],
) -> Result<Look, Memory>
    requires { length letters.now ≤ 1024 }
{
    let mut look = look_at(alloc, layout, letters, rotation, held)?;
    look.ready = [rotation as u32; 16];
    Ok(look)
}

// What `least_plan` answers, where its conditions hold.
fn ask(alloc: Global, layout: &Layout, look: &Look) -> Option<LeastPlanned> {
    if look.held.as_slice().len() != layout.size() as usize || !has_letter(&look.axis) {
        return None;
    }
    Some(least_plan(alloc, layout, look))
}

/// The cells and the port of a region that the check passes.
pub fn region(alloc: Global, layout: &Layout, look: &Look) -> Option<(Vec<u32>, Option<u32>)> {
    match ask(alloc, layout, look)? {
        LeastPlanned::Region(plan) => {
            if check(layout, &plan, look.rotation).is_some() {
                return None;
            }
            Some((plan.cells.into_vec(), plan.port))
        }
        _ => None,
    }
}

// The region for the axis in the row layout for one qubit.
fn region_in_row(
    alloc: Global,
    letter: Letter,
    rotation: bool,
) -> Result<Option<(Vec<u32>, Option<u32>)>, LayoutFault> {
    let layout = row_for(alloc, &[true])?;
    let look = look_with_states(alloc, &layout, &[letter], rotation, &[])?;
    Ok(region(alloc, &layout, &look))
}

// Whether it has these cells, and goes through this port.
fn is_region(found: &Option<(Vec<u32>, Option<u32>)>, cells: &[u32], port: Option<u32>) -> bool {
    match found {
        Some((list, through)) => list.as_slice() == cells && *through == port,
        None => false,
    }
}

#[test]
fn three_products(rt: HostRuntime) -> Result<(), Fail> {
    let z = region_in_row(rt.alloc(), Letter::Z, true)?;
    assert!(rt; is_region(&z, &[1, 2, 3], Some(0)));
    let y = region_in_row(rt.alloc(), Letter::Y, true)?;
    assert!(rt; is_region(&y, &[1, 2, 3, 6], Some(0)));
    let measured = region_in_row(rt.alloc(), Letter::Y, false)?;
    assert!(rt; is_region(&measured, &[0, 1, 4], None) || is_region(&measured, &[1, 2, 6], None));
    Ok(())
}

// What is answered for a measurement of seven X in the row layout for seven qubits.
fn seven_sides(alloc: Global) -> Result<Option<LeastPlanned>, LayoutFault> {
    let layout = row_for(alloc, &[true; 7])?;
    let look = look_with_states(alloc, &layout, &[Letter::X; 7], false, &[])?;
    Ok(ask(alloc, &layout, &look))
}

#[test]
fn seven_sides_are_wide(rt: HostRuntime) -> Result<(), Fail> {
    let answer = seven_sides(rt.alloc())?;
    assert!(rt; matches!(answer, Some(LeastPlanned::Wide { sides: 7 })));
    Ok(())
}
