//! What circuits are joined to.

use crate::programs::{ONE, SIGNS, join_texts};
use side_by_side::{Joined, Span};
use source_model::{Item, Register};
use std::alloc::Global;
use std::process::Abort;
use std::test::Fail;

// The programs of these circuits, joined.
fn joined(rt: &impl Abort, alloc: Global, texts: &[&[u8]]) -> Result<Joined, Fail> {
    assert!(rt; 1 <= texts.len() && texts.len() <= 8);
    match join_texts(alloc, texts)? {
        Ok(joined) => Ok(joined),
        Err(_) => panic!(rt; "not joined"),
    }
}

#[test]
fn spans_are_numbered_on(rt: HostRuntime) -> Result<(), Fail> {
    let flips = b"products 2 2\nc a 1\nm +ZI a 0\ni +IX a 1\n".as_slice();
    let joined = joined(&rt, rt.alloc(), &[SIGNS.circuit, flips, ONE.circuit])?;
    let spans = [
        Span {
            qubit: 0,
            product: 0,
            bit: 0,
            hidden: 3,
        },
        Span {
            qubit: 1,
            product: 3,
            bit: 1,
            hidden: 3,
        },
        Span {
            qubit: 3,
            product: 5,
            bit: 2,
            hidden: 3,
        },
    ];
    assert_eq!(rt; joined.spans.as_slice(), spans.as_slice());
    assert_eq!(rt; joined.circuit.qubits, 4);
    Ok(())
}

// Asserts the name and the bits of a register.
fn is_register(rt: &impl Abort, register: &Register, name: &[u8], first: u32, size: u32) {
    assert_eq!(rt; register.name.bytes(), name);
    assert_eq!(rt; register.first, first);
    assert_eq!(rt; register.size, size);
}

#[test]
fn registers_have_the_number_of_their_program(rt: HostRuntime) -> Result<(), Fail> {
    let two = b"products 1 1\nc c 3\nc d 2\n".as_slice();
    let joined = joined(&rt, rt.alloc(), &[two, ONE.circuit])?;
    let registers = joined.circuit.registers.as_slice();
    assert_eq!(rt; registers.len(), 3);
    is_register(&rt, &registers[0], b"p0_c", 0, 3);
    is_register(&rt, &registers[1], b"p0_d", 3, 2);
    is_register(&rt, &registers[2], b"p1_c", 5, 1);
    Ok(())
}

// Asserts that an item measures this axis into this bit.
fn measures(
    rt: &impl Abort,
    alloc: Global,
    item: &Item,
    text: &[u8],
    into: u32,
) -> Result<(), Fail> {
    let Item::Measure { axis, bit } = item else {
        panic!(rt; "no measurement");
    };
    let mut printed = Vec::new(alloc);
    axis.print(&mut printed)?;
    assert_eq!(rt; printed.as_slice(), text);
    assert_eq!(rt; *bit, into);
    Ok(())
}

#[test]
fn items_stand_on_qubits_and_bits_of_their_own(rt: HostRuntime) -> Result<(), Fail> {
    let two = b"products 1 2\nc c 1\nm -YX c 0\n".as_slice();
    let joined = joined(&rt, rt.alloc(), &[ONE.circuit, two, ONE.circuit])?;
    let items = joined.circuit.items.as_slice();
    assert_eq!(rt; items.len(), 3);
    measures(&rt, rt.alloc(), &items[0], b"+ZIII", 0)?;
    measures(&rt, rt.alloc(), &items[1], b"-IYXI", 1)?;
    measures(&rt, rt.alloc(), &items[2], b"+IIIZ", 2)
}

#[test]
fn hidden_bits_stand_after_those_of_registers(rt: HostRuntime) -> Result<(), Fail> {
    let hides = b"OPENQASM 2.0;\nqreg q[1];\nreset q[0];\n".as_slice();
    let joined = joined(&rt, rt.alloc(), &[hides, ONE.circuit, hides])?;
    let items = joined.circuit.items.as_slice();
    assert_eq!(rt; joined.circuit.hidden, 2);
    assert!(rt; items.len() >= 1);
    measures(&rt, rt.alloc(), &items[0], b"+ZII", 1)
}
