//! Rotations and a measurement beside a measurement: the axes of each on its own qubits, and its bits.

ghost use Rattle.std.specs.Prelude.{◌<◌};
ghost use Rattle.side_tests.specs.inside.Two.{AreCarriedOut};

use crate::carried::{Carried, carry_out};
use crate::programs::{ONE, SIGNS, Texts, ZEROS};
use board_core::{Board, Entry};
use side_by_side::axes_of;
use std::alloc::Global;
use std::process::Abort;
use std::test::Fail;

// Asserts the axes of a program on its own qubits.
fn has_axes(
    rt: &impl Abort,
    alloc: Global,
    carried: &Carried,
    program: u32,
    texts: &[&[u8]],
) -> Result<(), Fail>
    requires done { AreCarriedOut carried.now.joined carried.now.board }
    requires program { program < 2 }
{
    let axes = axes_of(alloc, &carried.board, &carried.joined, program)?;
    assert_eq!(rt; axes.len(), texts.len());
    for at in 0..texts.len() {
        let mut printed = Vec::new(alloc);
        axes[at].print(&mut printed)?;
        assert_eq!(rt; printed.as_slice(), texts[at]);
    }
    Ok(())
}

// Whether one of the claims of a board is that of a product, about the axis of a text.
fn claims(alloc: Global, board: &Board, number: u32, text: &[u8]) -> Result<bool, Fail> {
    let mut found = false;
    for noted in board.history().walk() {
        if let Entry::Claim { product, axis, .. } = &noted.entry {
            let mut printed = Vec::new(alloc);
            axis.print(&mut printed)?;
            found = found || (*product == number && printed.as_slice() == text);
        }
    }
    Ok(found)
}

#[test]
fn each_has_the_axes_that_it_has_alone(rt: HostRuntime) -> Result<(), Fail> {
    let alloc = rt.alloc();
    let carried = carry_out(alloc, SIGNS, ONE)?;
    has_axes(&rt, alloc, &carried, 0, &[b"+Z", b"-Y", b"-Y"])?;
    has_axes(&rt, alloc, &carried, 1, &[b"+Z"])?;
    assert!(rt; claims(alloc, &carried.board, 3, b"+IZ")?);
    Ok(())
}

#[test]
fn other_outcomes_of_one_program_change_no_axis_of_the_other(rt: HostRuntime) -> Result<(), Fail> {
    let alloc = rt.alloc();
    let carried = carry_out(alloc, ZEROS, ONE)?;
    has_axes(&rt, alloc, &carried, 0, &[b"+Z", b"+X", b"+X"])?;
    has_axes(&rt, alloc, &carried, 1, &[b"+Z"])?;
    assert!(rt; claims(alloc, &carried.board, 3, b"+IZ")?);
    Ok(())
}
