//! Trees by value.

use qasm_lex::{CircuitFault, tokens};
use qasm_parse::{Arg, BodyOp, Callee, Declared, Gate1, Gate2, Statement, Tree, parse};
use std::alloc::Global;
use std::test::Fail;

const INCLUDE: &[u8] = b"OPENQASM 2.0; include \"qelib1.inc\";\n";

const REGISTERS: &[u8] =
    b"OPENQASM 2.0; include \"qelib1.inc\"; qreg q[2]; qreg r[3]; creg c[2];\n";

// The tree of a text in two pieces.
fn read(alloc: Global, front: &[u8], text: &[u8]) -> Result<Tree, CircuitFault> {
    let mut whole = Vec::from_slice(alloc, front)?;
    whole.extend_from_slice(text)?;
    let found = tokens(alloc, &whole)?;
    parse(alloc, &whole, &found)
}

// Whether a statement is a call of this gate with these arguments.
fn is_call(statement: &Statement, at: u32, callee: Callee, wanted: &[Arg]) -> bool {
    match statement {
        Statement::Call { line, gate, args } => {
            *line == at && *gate == callee && args.as_slice() == wanted
        }
        _ => false,
    }
}

// Whether a statement of a body is a call of this gate with these formal qubits.
fn is_body_call(op: &BodyOp, callee: Callee, wanted: &[u32]) -> bool {
    match op {
        BodyOp::Call { gate, formals } => *gate == callee && formals.as_slice() == wanted,
        BodyOp::Barrier => false,
    }
}

#[test]
fn reads_registers(rt: HostRuntime) -> Result<(), Fail> {
    let text = b"\nqreg q[2];\r\ncreg c[2]; qreg r[1];";
    let tree = read(rt.alloc(), INCLUDE, text.as_slice())?;
    let second = Declared {
        start: 65,
        end: 66,
        first: 2,
        size: 1,
    };
    assert!(rt; tree.quantum.as_slice().len() == 2);
    assert!(rt; tree.quantum.as_slice()[1] == second);
    assert!(rt; matches!(tree.classical.as_slice().first(), Some(c) if c.size == 2));
    assert!(rt; tree.statements.as_slice().is_empty());
    Ok(())
}

#[test]
fn reads_a_definition(rt: HostRuntime) -> Result<(), Fail> {
    let text = b"gate g() a,b { CX b,a; barrier a; h(\n) a; } gate k a { }";
    let tree = read(rt.alloc(), INCLUDE, text.as_slice())?;
    let gates = tree.gates.as_slice();
    assert!(rt; gates.len() == 2);
    assert!(rt; gates[0].formals == 2 && gates[1].formals == 1);
    let body = gates[0].body.as_slice();
    assert!(rt; body.len() == 3);
    assert!(rt; is_body_call(&body[0], Callee::Two { gate: Gate2::Cx }, &[1, 0]));
    assert!(rt; matches!(body[1], BodyOp::Barrier));
    assert!(rt; is_body_call(&body[2], Callee::One { gate: Gate1::H }, &[0]));
    Ok(())
}

#[test]
fn reads_calls(rt: HostRuntime) -> Result<(), Fail> {
    let text = b"gate g a,b {}\ng r[1],q; barrier q[0],q[0];\nswap q[0],r[2];\n";
    let tree = read(rt.alloc(), REGISTERS, text.as_slice())?;
    let statements = tree.statements.as_slice();
    let first = [Arg::Single { index: 3 }, Arg::Whole { first: 0, size: 2 }];
    assert!(rt; statements.len() == 3);
    assert!(rt; is_call(&statements[0], 3, Callee::Defined { number: 0 }, &first));
    assert!(rt; matches!(statements[1], Statement::Barrier { line: 3 }));
    let last = [Arg::Single { index: 0 }, Arg::Single { index: 4 }];
    assert!(rt; is_call(&statements[2], 4, Callee::Swap, &last));
    Ok(())
}

#[test]
fn reads_measurements_and_conditions(rt: HostRuntime) -> Result<(), Fail> {
    let text = b"creg d[3];\nmeasure q[1] -> d[2]; reset r;\nif(d==4294967295) id r;";
    let tree = read(rt.alloc(), REGISTERS, text.as_slice())?;
    let statements = tree.statements.as_slice();
    assert!(rt; statements.len() == 3);
    let (qubit, bit) = (Arg::Single { index: 1 }, Arg::Single { index: 4 });
    let whole = Arg::Whole { first: 2, size: 3 };
    assert!(rt;
        matches!(statements[0], Statement::Measure { line: 3, from, to } if from == qubit && to == bit)
    );
    assert!(rt; matches!(statements[1], Statement::Reset { line: 3, arg } if arg == whole));
    assert!(rt;
        matches!(statements[2], Statement::If { line: 4, first: 2, size: 3, value: 4294967295, gate: Gate1::Id, arg } if arg == whole)
    );
    Ok(())
}
