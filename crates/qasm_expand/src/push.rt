//! The flat operations of calls and statements.

ghost use Rattle.std.specs.Prelude.{◌≡◌, ◌+◌, ◌<◌, ◌≤◌, ◌++◌, ◌∷◌, [], map, flat_map, length, slice_index, All, OnOk};
ghost use Rattle.qasm_parse.specs.Faults.{at_index};
ghost use Rattle.qasm_expand.specs.Flats.{calls_of, called, applied, measured, reset_at, conditional, indices, statement_flats};
ghost use Rattle.qasm_expand.specs.Sound.{IsCall, IsWithin, AreSound, IsSound, IsSoundStatement};

use crate::cost::times;
use crate::flat::{Flat, push_ccx, push_swap};
use patch_base::Memory;
use qasm_parse::{Arg, BodyOp, Callee, Gate1, GateDef, Statement, Tree};
use std::alloc::Global;

/// Puts the qubits that formal numbers stand for in place of what is there.
fn put_actuals(into: &mut Vec<u32>, qubits: &[u32], formals: &[u32]) -> Result<(), Memory>
    requires { All (λ f. f < length qubits.now) formals.now }
    ensures { OnOk result (into.new.items ≡ map (slice_index qubits.now) formals.now) }
{
    into.clear();
    for formal in formals {
        into.push(qubits[*formal as usize])?;
    }
    Ok(())
}

/// Appends the operations of a call of a gate with these qubits.
fn push_call(
    alloc: Global,
    flats: &mut Vec<Flat>,
    gates: &[GateDef],
    gate: Callee,
    qubits: &[u32],
) -> Result<(), Memory>
    requires sound { AreSound gates.now }
    requires call { IsCall gates.now gate (length qubits.now) }
    ensures { OnOk result (flats.new.items ≡ flats.old.items
        ++ called (calls_of gates.now) gate qubits.now) }
{
    match gate {
        Callee::One { gate } => flats.push(Flat::Gate1 { gate, q: qubits[0] })?,
        Callee::Two { gate } => flats.push(Flat::Gate2 {
            gate,
            a: qubits[0],
            b: qubits[1],
        })?,
        Callee::Ccx => push_ccx(flats, qubits[0], qubits[1], qubits[2])?,
        Callee::Swap => push_swap(flats, qubits[0], qubits[1])?,
        Callee::Defined { number } => {
            let mut chosen = Vec::new(alloc);
            for op in gates[number as usize].body.as_slice() {
                if let BodyOp::Call { gate, formals } = op {
                    put_actuals(&mut chosen, qubits, formals.as_slice())?;
                    push_call(alloc, flats, gates, *gate, &chosen)?;
                }
            }
        }
    }
    Ok(())
}

/// The qubit or the bit that an argument means at an index.
fn at_index(arg: Arg, i: u32) -> u32
    requires within { IsWithin 16384 arg }
    requires small { i ≤ 16384 }
    ensures { result ≡ at_index i arg }
{
    match arg {
        Arg::Whole { first, .. } => first + i,
        Arg::Single { index } => index,
    }
}

/// Puts the qubits that arguments mean at an index in place of what is there.
fn put_all_at(into: &mut Vec<u32>, args: &[Arg], i: u32) -> Result<(), Memory>
    requires within { All (IsWithin 16384) args.now }
    requires small { i ≤ 16384 }
    ensures { OnOk result (into.new.items ≡ map (at_index i) args.now) }
{
    into.clear();
    for arg in args {
        into.push(at_index(*arg, i))?;
    }
    Ok(())
}

/// Appends the operations of a call for each index of its whole registers. The qubits of one application stand in `qubits` meanwhile.
fn push_applications(
    alloc: Global,
    flats: &mut Vec<Flat>,
    qubits: &mut Vec<u32>,
    gates: &[GateDef],
    gate: Callee,
    args: &[Arg],
) -> Result<(), Memory>
    requires sound { AreSound gates.now }
    requires call { IsCall gates.now gate (length args.now) }
    requires within { All (IsWithin 16384) args.now }
    ensures { OnOk result (flats.new.items ≡ flats.old.items
        ++ flat_map (applied (calls_of gates.now) gate args.now) (indices args.now)) }
{
    for i in 0..times(args) {
        put_all_at(qubits, args, i)?;
        push_call(alloc, flats, gates, gate, qubits)?;
    }
    Ok(())
}

fn push_measurements(flats: &mut Vec<Flat>, from: Arg, to: Arg) -> Result<(), Memory>
    requires from { IsWithin 16384 from }
    requires to { IsWithin 16384 to }
    ensures { OnOk result (flats.new.items ≡ flats.old.items
        ++ map (measured from to) (indices (from ∷ []))) }
{
    for i in 0..times(&[from]) {
        flats.push(Flat::Measure {
            q: at_index(from, i),
            bit: at_index(to, i),
        })?;
    }
    Ok(())
}

fn push_resets(flats: &mut Vec<Flat>, arg: Arg) -> Result<(), Memory>
    requires { IsWithin 16384 arg }
    ensures { OnOk result (flats.new.items ≡ flats.old.items
        ++ map (reset_at arg) (indices (arg ∷ []))) }
{
    for i in 0..times(&[arg]) {
        flats.push(Flat::Reset {
            q: at_index(arg, i),
        })?;
    }
    Ok(())
}

fn push_conditionals(
    flats: &mut Vec<Flat>,
    first: u32,
    size: u32,
    value: u32,
    gate: Gate1,
    arg: Arg,
) -> Result<(), Memory>
    requires { IsWithin 16384 arg }
    ensures { OnOk result (flats.new.items ≡ flats.old.items
        ++ map (conditional first size value gate arg) (indices (arg ∷ []))) }
{
    for i in 0..times(&[arg]) {
        flats.push(Flat::If {
            gate,
            q: at_index(arg, i),
            first,
            size,
            value,
        })?;
    }
    Ok(())
}

/// Appends the operations of a statement of a tree. What stands in `qubits` before and after the call means nothing.
pub fn push_statement(
    alloc: Global,
    flats: &mut Vec<Flat>,
    qubits: &mut Vec<u32>,
    tree: &Tree,
    statement: &Statement,
) -> Result<(), Memory>
    requires tree { IsSound tree.now }
    requires statement { IsSoundStatement tree.now statement.now }
    ensures { OnOk result (flats.new.items ≡ flats.old.items
        ++ statement_flats (calls_of tree.now.gates) statement.now) }
{
    match statement {
        Statement::Call { gate, args, .. } => {
            let gates = tree.gates.as_slice();
            push_applications(alloc, flats, qubits, gates, *gate, args.as_slice())
        }
        Statement::Measure { from, to, .. } => push_measurements(flats, *from, *to),
        Statement::Barrier { .. } => Ok(()),
        Statement::Reset { arg, .. } => push_resets(flats, *arg),
        Statement::If {
            first,
            size,
            value,
            gate,
            arg,
            ..
        } => push_conditionals(flats, *first, *size, *value, *gate, *arg),
    }
}
