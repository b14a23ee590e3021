//! Flat operations by value.

use qasm_expand::{Flat, expand, law_sound};
use qasm_lex::{CircuitFault, tokens};
use qasm_parse::{Gate1, Gate2, parse};
use std::alloc::Global;
use std::process::Abort;
use std::test::Fail;

const REGISTERS: &[u8] =
    b"OPENQASM 2.0; include \"qelib1.inc\"; qreg q[2]; qreg r[3]; creg c[2]; creg d[3];\n";

// The flat operations of a text after the registers.
fn read(alloc: Global, text: &[u8]) -> Result<Vec<Flat>, CircuitFault> {
    let mut whole = Vec::from_slice(alloc, REGISTERS)?;
    whole.extend_from_slice(text)?;
    let found = tokens(alloc, &whole)?;
    let tree = parse(alloc, &whole, &found)?;
    law_sound();
    expand(alloc, &tree)
}

// Asserts what a text after the registers is expanded to.
fn gives(rt: &impl Abort, alloc: Global, text: &[u8], wanted: &[Flat]) -> Result<(), Fail> {
    let flats = read(alloc, text)?;
    assert!(rt; flats.as_slice() == wanted);
    Ok(())
}

fn one(gate: Gate1, q: u32) -> Flat {
    Flat::Gate1 { gate, q }
}

fn two(gate: Gate2, a: u32, b: u32) -> Flat {
    Flat::Gate2 { gate, a, b }
}

fn under(gate: Gate1, q: u32, first: u32, size: u32, value: u32) -> Flat {
    Flat::If {
        gate,
        q,
        first,
        size,
        value,
    }
}

#[test]
fn whole_registers_ascend(rt: HostRuntime) -> Result<(), Fail> {
    gives(
        &rt,
        rt.alloc(),
        b"cz r,q[1]; barrier q; h q; measure q -> c;",
        &[
            two(Gate2::Cz, 2, 1),
            two(Gate2::Cz, 3, 1),
            two(Gate2::Cz, 4, 1),
            one(Gate1::H, 0),
            one(Gate1::H, 1),
            Flat::Measure { q: 0, bit: 0 },
            Flat::Measure { q: 1, bit: 1 },
        ],
    )
}

#[test]
fn bodies_stand_for_calls(rt: HostRuntime) -> Result<(), Fail> {
    gives(
        &rt,
        rt.alloc(),
        b"gate g a,b { t a; cy b,a; } gate k a,b,c { g c,a; barrier b; swap b,c; sx a; } k q[1],r[0],r[2];",
        &[
            one(Gate1::T, 4),
            two(Gate2::Cy, 1, 4),
            two(Gate2::Cx, 2, 4),
            two(Gate2::Cx, 4, 2),
            two(Gate2::Cx, 2, 4),
            one(Gate1::Sx, 1),
        ],
    )
}

#[test]
fn ccx_is_its_list(rt: HostRuntime) -> Result<(), Fail> {
    gives(
        &rt,
        rt.alloc(),
        b"ccx q[0],r[0],q[1];",
        &[
            one(Gate1::H, 1),
            two(Gate2::Cx, 2, 1),
            one(Gate1::Tdg, 1),
            two(Gate2::Cx, 0, 1),
            one(Gate1::T, 1),
            two(Gate2::Cx, 2, 1),
            one(Gate1::Tdg, 1),
            two(Gate2::Cx, 0, 1),
            one(Gate1::T, 2),
            one(Gate1::T, 1),
            one(Gate1::H, 1),
            two(Gate2::Cx, 0, 2),
            one(Gate1::T, 0),
            one(Gate1::Tdg, 2),
            two(Gate2::Cx, 0, 2),
        ],
    )
}

#[test]
fn resets_and_conditions(rt: HostRuntime) -> Result<(), Fail> {
    gives(
        &rt,
        rt.alloc(),
        b"reset q; if(d==5) y r[1]; if(c==1) id q;",
        &[
            Flat::Reset { q: 0 },
            Flat::Reset { q: 1 },
            under(Gate1::Y, 3, 2, 3, 5),
            under(Gate1::Id, 0, 0, 2, 1),
            under(Gate1::Id, 1, 0, 2, 1),
        ],
    )
}
