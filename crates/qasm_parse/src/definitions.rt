//! The definitions of gates.

ghost use Rattle.std.specs.Prelude.{◌≡◌, nat_le, nat_lt, ◌||◌, ◌<◌, ◌≤◌, max, length, IfOk};
ghost use Rattle.qasm_parse.specs.Known.{gate_named};
ghost use Rattle.qasm_parse.specs.Lexed.{word_at};
ghost use Rattle.qasm_parse.specs.inside.Meets.{Finds};
ghost use Rattle.qasm_parse.specs.inside.Tried.{TriesFormals, Numbers, TriesOp, TriesNamedOp, TriesBody, TriesBodies, TriesHead, IsNew, HasRoom, TriesGate};

use crate::gates::cx;
use crate::known::{Called, Known, Meaning};
use crate::names::NameList;
use crate::operands::has_twice;
use crate::source::Source;
use crate::stop::{Fault, Stop};
use crate::tree::{BodyOp, Callee, GateDef};
use patch_base::{DEFINITIONS, DEPTH, FORMALS, Listed};
use qasm_grammar::BodyStatement;
use qasm_lex::FaultKind;
use std::alloc::Global;

// The formal names of a definition, none of them twice.
fn formal_names(alloc: Global, source: &Source<'_>, formals: &[usize]) -> Result<NameList, Fault>
    ensures { TriesFormals result source.now formals.now }
{
    let mut names = NameList::new(alloc);
    for formal in formals {
        let name = source.word(*formal);
        match names.find(name) {
            Some(_) => {
                return Err(Fault::Stopping(Stop {
                    at: *formal,
                    kind: FaultKind::Declared,
                }));
            }
            None => names.push(alloc, name)?,
        }
    }
    Ok(names)
}

// The numbers of the formal names that are the arguments of a call.
fn formal_numbers(
    alloc: Global,
    source: &Source<'_>,
    names: &NameList,
    args: &[usize],
) -> Result<Listed<u32>, Fault>
    requires { length names.now ≤ 64 }
    ensures { Numbers result source.now names.now args.now }
{
    let mut numbers = Listed::new(alloc);
    for arg in args {
        match names.find(source.word(*arg)) {
            None => return Err(Fault::Stopping(Stop {
                at: *arg,
                kind: FaultKind::Undeclared,
            })),
            Some(place) => numbers.push(place as u32)?,
        }
    }
    Ok(numbers)
}

// Tries a call of a known gate in a body, in a statement that begins at a place.
fn try_formals(
    alloc: Global,
    source: &Source<'_>,
    names: &NameList,
    at: usize,
    called: Called,
    args: &[usize],
) -> Result<BodyOp, Fault>
    requires { length names.now ≤ 64 }
    ensures value { TriesOp result source.now names.now at called args.now }
    ensures shallow { IfOk result (λ op. called.depth < 64) }
{
    let numbers = formal_numbers(alloc, source, names, args)?;
    if args.len() != called.arity as usize {
        return Err(Fault::Stopping(Stop {
            at,
            kind: FaultKind::Arity,
        }));
    }
    if has_twice(numbers.as_slice()) {
        return Err(Fault::Stopping(Stop {
            at,
            kind: FaultKind::SameQubit,
        }));
    }
    if called.depth >= DEPTH {
        return Err(Fault::Stopping(Stop {
            at,
            kind: FaultKind::TooMany,
        }));
    }
    Ok(BodyOp::Call {
        gate: called.gate,
        formals: numbers,
    })
}

// A call of a gate by its name in a body, and the gate's depth.
fn named_op(
    alloc: Global,
    source: &Source<'_>,
    known: &Known,
    names: &NameList,
    name: usize,
    args: &[usize],
) -> Result<(BodyOp, u32), Fault>
    requires { length names.now ≤ 64 }
    ensures value { TriesNamedOp result source.now known.now names.now name args.now }
    ensures shallow { IfOk result (λ r. r.1 < 64) }
{
    let called = find_gate(source, known, name)?;
    let op = try_formals(alloc, source, names, name, called, args)?;
    Ok((op, called.depth))
}

// A statement of a body, and the depth of the gate that it calls.
fn body_op(
    alloc: Global,
    source: &Source<'_>,
    known: &Known,
    names: &NameList,
    statement: &BodyStatement,
) -> Result<(BodyOp, u32), Fault>
    requires { length names.now ≤ 64 }
    ensures value { TriesBody result source.now known.now names.now statement.now }
    ensures shallow { IfOk result (λ r. r.1 < 64) }
{
    match statement {
        BodyStatement::Call { name, formals, .. } => {
            named_op(alloc, source, known, names, *name, formals.as_slice())
        }
        BodyStatement::Cx { at, formals } => {
            let op = try_formals(alloc, source, names, *at, cx(), formals.as_slice())?;
            Ok((op, 0))
        }
        BodyStatement::Barrier { formals } => {
            formal_numbers(alloc, source, names, formals.as_slice())?;
            Ok((BodyOp::Barrier, 0))
        }
    }
}

/// The gate that a name calls.
pub fn find_gate(source: &Source<'_>, known: &Known, name: usize) -> Result<Called, Fault>
    ensures { Finds result (gate_named known.now (word_at source.now name)) name }
{
    match known.gate(source.word(name)) {
        Some(called) => Ok(called),
        None => Err(Fault::Stopping(Stop {
            at: name,
            kind: FaultKind::Unknown,
        })),
    }
}

fn greater(one: u32, other: u32) -> u32
    ensures value { result ≡ max one other }
    ensures low { one < 64 → other < 64 → result < 64 }
{
    if one < other { other } else { one }
}

// A body, and the greatest depth of the gates that it calls.
fn body_ops(
    alloc: Global,
    source: &Source<'_>,
    known: &Known,
    names: &NameList,
    body: &[BodyStatement],
) -> Result<(Listed<BodyOp>, u32), Fault>
    requires { length names.now ≤ 64 }
    ensures value { TriesBodies result source.now known.now names.now body.now }
    ensures shallow { IfOk result (λ r. r.1 < 64) }
{
    let mut ops = Listed::new(alloc);
    let mut deepest = 0;
    for statement in body {
        let (op, depth) = body_op(alloc, source, known, names, statement)?;
        ops.push(op)?;
        deepest = greater(deepest, depth);
    }
    Ok((ops, deepest))
}

// Whether a definition with this number of formal names can't stand after this number of definitions.
fn too_many(defined: usize, formals: usize) -> bool
    ensures { result ≡ (nat_le 1024 defined || nat_lt 64 formals) }
{
    defined >= DEFINITIONS as usize || formals > FORMALS as usize
}

// Tries the head of a definition that begins at a place, and gives its formal names.
fn head(
    alloc: Global,
    source: &Source<'_>,
    known: &Known,
    at: usize,
    name: usize,
    formals: &[usize],
) -> Result<NameList, Fault>
    ensures value { TriesHead result source.now known.now at name formals.now }
    ensures new { IfOk result (λ names. IsNew source.now known.now name) }
    ensures few { IfOk result (λ names. HasRoom known.now formals.now) }
{
    if known.is_declared(source.word(name)) {
        return Err(Fault::Stopping(Stop {
            at: name,
            kind: FaultKind::Declared,
        }));
    }
    let names = formal_names(alloc, source, formals)?;
    if too_many(known.tree.gates.as_slice().len(), formals.len()) {
        return Err(Fault::Stopping(Stop {
            at,
            kind: FaultKind::TooMany,
        }));
    }
    Ok(names)
}

/// Tries a definition that begins at a place.
pub fn define(
    alloc: Global,
    source: &Source<'_>,
    mut known: Known,
    at: usize,
    name: usize,
    formals: &[usize],
    body: &[BodyStatement],
) -> Result<Known, Fault>
    ensures { TriesGate result source.now known at name formals.now body.now }
{
    let names = head(alloc, source, &known, at, name, formals)?;
    let (ops, deepest) = body_ops(alloc, source, &known, &names, body)?;
    let called = Called {
        gate: Callee::Defined {
            number: known.tree.gates.as_slice().len() as u32,
        },
        arity: formals.len() as u32,
        depth: deepest + 1,
    };
    known.declare(alloc, source.word(name), Meaning::Gate { called })?;
    known.tree.gates.push(GateDef {
        formals: formals.len() as u32,
        body: ops,
    })?;
    Ok(known)
}
