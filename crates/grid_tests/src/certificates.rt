//! What the check says of plans that are made by hand, and of certificates.

ghost use Rattle.std.specs.Prelude.{◌≤◌, length};

use crate::layouts::{layout_b, row_two};
use patch_base::Memory;
use patch_layout::{
    CellList, Fault, Layout, LayoutFault, Parent, ParentList, Plan, TouchList, certify, check,
    law_certificate,
};
use pauli_product::{Letter, Product};
use std::alloc::Global;
use std::test::Fail;

// A plan with these entries, each parent by its index and its depth.
fn plan_of(
    alloc: Global,
    letters: &[Letter],
    cells: &[u32],
    parents: &[(u32, u32)],
    touches: &[u32],
    port: Option<u32>,
) -> Result<Plan, Memory>
    requires { length letters.now ≤ 1024 }
{
    let mut entries = Vec::new(alloc);
    for (index, depth) in parents {
        entries.push(Parent {
            index: *index,
            depth: *depth,
        })?;
    }
    Ok(Plan {
        number: 1,
        axis: Product::new(alloc, false, letters)?,
        cells: CellList::of(Vec::from_slice(alloc, cells)?),
        parents: ParentList::of(entries),
        touches: TouchList::of(Vec::from_slice(alloc, touches)?),
        port,
    })
}

// What the check says of a measurement of IY in the row layout for two qubits.
fn measured(
    alloc: Global,
    cells: &[u32],
    parents: &[(u32, u32)],
    touches: &[u32],
) -> Result<Option<Fault>, LayoutFault> {
    let layout = row_two(alloc)?;
    let letters = [Letter::I, Letter::Y];
    let plan = plan_of(alloc, &letters, cells, parents, touches, None)?;
    Ok(check(&layout, &plan, false))
}

// What the check says there of cells 3, 4, 5 and 10 with these touches and this port.
fn through(
    alloc: Global,
    touches: &[u32],
    port: Option<u32>,
    rotation: bool,
) -> Result<Option<Fault>, LayoutFault> {
    let layout = row_two(alloc)?;
    let letters = [Letter::I, Letter::Y];
    let parents = [(0, 0), (0, 1), (1, 2), (1, 2)];
    let plan = plan_of(alloc, &letters, &[3, 4, 5, 10], &parents, touches, port)?;
    Ok(check(&layout, &plan, rotation))
}

#[test]
fn passes_whole_certificates(rt: HostRuntime) -> Result<(), Fail> {
    law_certificate();
    let parents = [(0, 0), (0, 1), (1, 2)];
    let fault = measured(rt.alloc(), &[3, 4, 10], &parents, &[2, 0])?;
    assert_eq!(rt; fault, None);
    let fault = through(rt.alloc(), &[3, 0, 2], Some(0), true)?;
    assert_eq!(rt; fault, None);
    Ok(())
}

#[test]
fn refuses_shapes(rt: HostRuntime) -> Result<(), Fail> {
    let whole = [(0, 0), (0, 1), (1, 2)];
    let rows: [(&[u32], &[(u32, u32)], &[u32]); 4] = [
        (&[], &[], &[2, 0]),
        (&[3, 4, 10], &[(0, 0), (0, 1)], &[2, 0]),
        (&[3, 4, 10], &whole, &[2]),
        (&[3, 4, 10], &whole, &[2, 0, 0]),
    ];
    for (cells, parents, touches) in rows {
        let fault = measured(rt.alloc(), cells, parents, touches)?;
        assert_eq!(rt; fault, Some(Fault::Shape), "at {touches:?}");
    }
    Ok(())
}

#[test]
fn refuses_ports(rt: HostRuntime) -> Result<(), Fail> {
    let rows: [(&[u32], Option<u32>, bool, Fault); 6] = [
        (&[3, 0], Some(0), false, Fault::Port),
        (&[3, 0, 2], None, true, Fault::Port),
        (&[3, 0, 2], Some(1), true, Fault::Port),
        (&[3, 0, 2], Some(0), false, Fault::Shape),
        (&[3, 0], None, true, Fault::Shape),
        (&[3, 0], Some(0), true, Fault::Shape),
    ];
    for (touches, port, rotation, want) in rows {
        let fault = through(rt.alloc(), touches, port, rotation)?;
        assert_eq!(rt; fault, Some(want), "at {touches:?}, {port:?}, {rotation}");
    }
    Ok(())
}

#[test]
fn refuses_cells(rt: HostRuntime) -> Result<(), Fail> {
    let rows: [(&[u32], u32); 5] = [
        (&[4, 3, 10], 1),
        (&[3, 3, 10], 1),
        (&[3, 9, 10], 1),
        (&[3, 4, 12], 2),
        (&[7, 3, 3], 0),
    ];
    let parents = [(0, 0), (0, 1), (1, 2)];
    for (cells, index) in rows {
        let fault = measured(rt.alloc(), cells, &parents, &[2, 0])?;
        assert_eq!(rt; fault, Some(Fault::Cell { index }), "at {cells:?}");
    }
    Ok(())
}

#[test]
fn refuses_parents(rt: HostRuntime) -> Result<(), Fail> {
    let rows: [(&[(u32, u32)], u32); 7] = [
        (&[(1, 0), (0, 1), (1, 2)], 0),
        (&[(0, 0), (1, 0), (1, 1)], 1),
        (&[(0, 0), (0, 2), (1, 3)], 1),
        (&[(0, 0), (0, 1), (0, 1)], 2),
        (&[(0, 0), (0, 1), (3, 2)], 2),
        (&[(0, 0), (0, 1), (1, 1)], 2),
        (&[(1, 1), (2, 2), (1, 3)], 0),
    ];
    for (parents, index) in rows {
        let fault = measured(rt.alloc(), &[3, 4, 10], parents, &[2, 0])?;
        assert_eq!(rt; fault, Some(Fault::Parent { index }), "at {parents:?}");
    }
    Ok(())
}

#[test]
fn refuses_touches(rt: HostRuntime) -> Result<(), Fail> {
    let rows: [(&[u32], u32); 4] = [(&[0, 0], 0), (&[3, 0], 0), (&[2, 1], 1), (&[2, 3], 1)];
    let parents = [(0, 0), (0, 1), (1, 2)];
    for (touches, index) in rows {
        let fault = measured(rt.alloc(), &[3, 4, 10], &parents, touches)?;
        assert_eq!(rt; fault, Some(Fault::Touch { index }), "at {touches:?}");
    }
    let fault = through(rt.alloc(), &[3, 0, 1], Some(0), true)?;
    assert_eq!(rt; fault, Some(Fault::Touch { index: 2 }));
    Ok(())
}

#[test]
fn refuses_a_letter_without_a_patch(rt: HostRuntime) -> Result<(), Fail> {
    let layout = row_two(rt.alloc())?;
    let letters = [Letter::I, Letter::I, Letter::Z];
    let plan = plan_of(rt.alloc(), &letters, &[3], &[(0, 0)], &[0], None)?;
    assert_eq!(rt; check(&layout, &plan, false), Some(Fault::Shape));
    Ok(())
}

// Whether the check passes the certificate of these cells.
fn is_certified(
    alloc: Global,
    layout: &Layout,
    letters: &[Letter; 2],
    port: Option<u32>,
    cells: &[u32],
) -> Result<bool, Memory> {
    let axis = Product::new(alloc, false, letters)?;
    let cells = CellList::of(Vec::from_slice(alloc, cells)?);
    let plan = certify(alloc, layout, 5, axis, port, cells)?;
    Ok(check(layout, &plan, port.is_some()).is_none())
}

#[test]
fn certifies_in_a_row(rt: HostRuntime) -> Result<(), Fail> {
    let layout = row_two(rt.alloc())?;
    let rows: [(&[u32], Option<u32>, bool); 8] = [
        (&[3, 4, 10], None, true),
        (&[3, 4, 5, 10], Some(0), true),
        (&[3, 4, 5, 10], Some(1), false),
        (&[3, 4, 10], Some(0), false),
        (&[], None, false),
        (&[4, 3, 10], None, false),
        (&[3, 10], None, false),
        (&[4, 10], None, false),
    ];
    let letters = [Letter::I, Letter::Y];
    for (cells, port, want) in rows {
        let is = is_certified(rt.alloc(), &layout, &letters, port, cells)?;
        assert_eq!(rt; is, want, "at {cells:?}");
    }
    Ok(())
}

#[test]
fn certifies_between_upright_patches(rt: HostRuntime) -> Result<(), Fail> {
    let layout = layout_b(rt.alloc())?;
    let z = [Letter::Z, Letter::I];
    assert!(rt; is_certified(rt.alloc(), &layout, &z, None, &[7])?);
    assert!(rt; !is_certified(rt.alloc(), &layout, &z, None, &[1])?);
    let both = [Letter::X, Letter::X];
    assert!(rt; is_certified(rt.alloc(), &layout, &both, None, &[1, 2, 3])?);
    Ok(())
}
