//! Trying the names of a statement.

ghost use Rattle.std.specs.Prelude.{◌≡◌, ◌≤◌, ◌+◌, ◌||◌, nat_le, nat_lt, true, false, IfOk};
ghost use Rattle.qasm_parse.specs.inside.Meets.{Meets, IsOnly};
ghost use Rattle.qasm_parse.specs.Faults.{include_faults, fit_together};
ghost use Rattle.qasm_parse.specs.inside.Tried.{Tries, TriesRegister, IsNew};
ghost use Rattle.qasm_parse.specs.Behind.{declared_at, with_statement, first_of};

use crate::definitions::{define, find_gate};
use crate::gates::{cx, pauli_of};
use crate::known::{Known, Meaning, Span};
use crate::operands::{meant, name_place, past_end, resolve, try_args};
use crate::source::Source;
use crate::stop::{Fault, Stop};
use crate::tree::{Arg, Declared, Statement};
use patch_base::{BITS, QUBITS, REGISTERS};
use qasm_grammar::{Argument, GateCall, Sentence};
use qasm_lex::FaultKind;
use std::alloc::Global;

// Tries an include that begins at a place.
fn include(mut known: Known, at: usize) -> Result<Known, Fault>
    ensures { Meets result (include_faults known at) (record known { included = true }) }
{
    if known.bars_include() {
        return Err(Fault::Stopping(Stop {
            at,
            kind: FaultKind::Declared,
        }));
    }
    known.included = true;
    Ok(known)
}

// Tries the name and the size of a register, and gives the size.
fn register(
    source: &Source<'_>,
    known: &Known,
    at: usize,
    name: usize,
    size: usize,
) -> Result<u32, Fault>
    ensures value { TriesRegister result source.now known.now at name size }
    ensures new { IfOk result (λ members. IsNew source.now known.now name) }
{
    if known.is_declared(source.word(name)) {
        return Err(Fault::Stopping(Stop {
            at: name,
            kind: FaultKind::Declared,
        }));
    }
    let members = source.number(size);
    if members == 0 {
        return Err(Fault::Stopping(Stop {
            at,
            kind: FaultKind::Sizes,
        }));
    }
    Ok(members)
}

// The span of a register's name, with its numbers.
fn declared(source: &Source<'_>, name: usize, span: Span) -> Declared
    ensures { result ≡ declared_at source.now name span.first span.size }
{
    Declared {
        start: source.start(name),
        end: source.end(name),
        first: span.first,
        size: span.size,
    }
}

// Tries a quantum register's declaration that begins at a place.
fn quantum(
    alloc: Global,
    source: &Source<'_>,
    mut known: Known,
    at: usize,
    name: usize,
    size: usize,
) -> Result<Known, Fault>
    ensures { Tries result source.now known at (Sentence.Qreg name size) }
{
    let members = register(source, &known, at, name, size)?;
    if known.qubits as u64 + members as u64 > QUBITS as u64 {
        return Err(Fault::Stopping(Stop {
            at,
            kind: FaultKind::TooMany,
        }));
    }
    let span = Span {
        first: known.qubits,
        size: members,
    };
    known.declare(alloc, source.word(name), Meaning::Quantum { span })?;
    known.qubits += members;
    known.tree.quantum.push(declared(source, name, span))?;
    Ok(known)
}

// Whether a register of so many bits is too much after so many registers and bits.
fn too_many_bits(registers: usize, bits: u32, members: u32) -> bool
    ensures value { result ≡ (nat_le 64 registers || nat_lt 16384 (bits + members)) }
    ensures few { result ≡ false → bits + members ≤ 16384 }
{
    registers >= REGISTERS as usize || bits as u64 + members as u64 > BITS as u64
}

// Tries a classical register's declaration that begins at a place.
fn classical(
    alloc: Global,
    source: &Source<'_>,
    mut known: Known,
    at: usize,
    name: usize,
    size: usize,
) -> Result<Known, Fault>
    ensures { Tries result source.now known at (Sentence.Creg name size) }
{
    let members = register(source, &known, at, name, size)?;
    if too_many_bits(known.tree.classical.as_slice().len(), known.bits, members) {
        return Err(Fault::Stopping(Stop {
            at,
            kind: FaultKind::TooMany,
        }));
    }
    let span = Span {
        first: known.bits,
        size: members,
    };
    known.declare(alloc, source.word(name), Meaning::Classical { span })?;
    known.bits += members;
    known.tree.classical.push(declared(source, name, span))?;
    Ok(known)
}

// Tries a call of a gate by its name.
fn named_call(
    alloc: Global,
    source: &Source<'_>,
    known: Known,
    at: usize,
    call: &GateCall,
) -> Result<Known, Fault>
    ensures { Tries result source.now known at (Sentence.Call call.now) }
{
    let called = find_gate(source, &known, call.name)?;
    let args = try_args(alloc, source, &known, at, called, call.args.as_slice())?;
    let statement = Statement::Call {
        line: source.line(at),
        gate: called.gate,
        args,
    };
    added(known, statement)
}

// Tries a call under a condition.
fn conditional(
    alloc: Global,
    source: &Source<'_>,
    known: Known,
    at: usize,
    register: usize,
    value: usize,
    call: &GateCall,
) -> Result<Known, Fault>
    ensures { Tries result source.now known at (Sentence.If register value call.now) }
{
    let word = source.word(call.name);
    if known.is_own_gate(word) {
        return Err(Fault::Stopping(Stop {
            at: call.name,
            kind: FaultKind::Unsupported,
        }));
    }
    let called = find_gate(source, &known, call.name)?;
    let bits = match known.classical(source.word(register)) {
        Some(bits) => bits,
        None => return Err(Fault::Stopping(Stop {
            at: register,
            kind: FaultKind::Undeclared,
        })),
    };
    let args = try_args(alloc, source, &known, at, called, call.args.as_slice())?;
    let statement = Statement::If {
        line: source.line(at),
        first: bits.first,
        size: bits.size,
        value: source.number(value),
        gate: pauli_of(word),
        arg: first_arg(args.as_slice()),
    };
    added(known, statement)
}

// The first argument of a call.
fn first_arg(args: &[Arg]) -> Arg
    ensures { result ≡ first_of args.now }
{
    args.first().copied().unwrap_or(Arg::Single { index: 0 })
}

// Whether a measurement's sides fit together: both single, or both whole and of one size.
fn fit_together(from: Arg, to: Arg) -> bool
    ensures { result ≡ fit_together from to }
{
    match (from, to) {
        (Arg::Whole { size, .. }, Arg::Whole { size: bits, .. }) => size == bits,
        (Arg::Whole { .. }, Arg::Single { .. }) => false,
        (Arg::Single { .. }, Arg::Whole { .. }) => false,
        (Arg::Single { .. }, Arg::Single { .. }) => true,
    }
}

// Tries a measurement.
fn measure(
    source: &Source<'_>,
    known: Known,
    at: usize,
    from: Argument,
    to: Argument,
) -> Result<Known, Fault>
    ensures { Tries result source.now known at (Sentence.Measure from to) }
{
    let name = name_place(from);
    let qubits = match known.quantum(source.word(name)) {
        Some(qubits) => qubits,
        None => {
            return Err(Fault::Stopping(Stop {
                at: name,
                kind: FaultKind::Undeclared,
            }));
        }
    };
    let target = name_place(to);
    let bits = match known.classical(source.word(target)) {
        Some(bits) => bits,
        None => {
            return Err(Fault::Stopping(Stop {
                at: target,
                kind: FaultKind::Undeclared,
            }));
        }
    };
    match past_end(source, qubits, from) {
        Some(stop) => return Err(Fault::Stopping(stop)),
        None => {}
    }
    match past_end(source, bits, to) {
        Some(stop) => return Err(Fault::Stopping(stop)),
        None => {}
    }
    let measured = meant(source, qubits, from);
    let written = meant(source, bits, to);
    if !fit_together(measured, written) {
        return Err(Fault::Stopping(Stop {
            at,
            kind: FaultKind::Sizes,
        }));
    }
    let statement = Statement::Measure {
        line: source.line(at),
        from: measured,
        to: written,
    };
    added(known, statement)
}

// Tries a call of `CX`.
fn cx_call(
    alloc: Global,
    source: &Source<'_>,
    known: Known,
    at: usize,
    args: &[Argument],
) -> Result<Known, Fault>
    ensures { Tries result source.now known at (Sentence.Cx args.now) }
{
    let args = try_args(alloc, source, &known, at, cx(), args)?;
    let statement = Statement::Call {
        line: source.line(at),
        gate: cx().gate,
        args,
    };
    added(known, statement)
}

// Tries a barrier. It orders nothing, and may name one qubit twice.
fn barrier(
    alloc: Global,
    source: &Source<'_>,
    known: Known,
    at: usize,
    args: &[Argument],
) -> Result<Known, Fault>
    ensures { Tries result source.now known at (Sentence.Barrier args.now) }
{
    resolve(alloc, source, &known, args)?;
    let statement = Statement::Barrier {
        line: source.line(at),
    };
    added(known, statement)
}

// Tries a reset.
fn reset(
    alloc: Global,
    source: &Source<'_>,
    known: Known,
    at: usize,
    arg: Argument,
) -> Result<Known, Fault>
    ensures { Tries result source.now known at (Sentence.Reset arg) }
{
    let args = resolve(alloc, source, &known, &[arg])?;
    let statement = Statement::Reset {
        line: source.line(at),
        arg: first_arg(args.as_slice()),
    };
    added(known, statement)
}

// Appends a statement to the tree.
fn added(mut known: Known, statement: Statement) -> Result<Known, Fault>
    ensures { IsOnly result (with_statement known statement) }
{
    known.tree.statements.push(statement)?;
    Ok(known)
}

/// Tries a statement that begins at a place, and gives what is known after it.
pub fn try_sentence(
    alloc: Global,
    source: &Source<'_>,
    known: Known,
    at: usize,
    sentence: Sentence,
) -> Result<Known, Fault>
    ensures { Tries result source.now known at sentence }
{
    match sentence {
        Sentence::Include => include(known, at),
        Sentence::Qreg { name, size } => quantum(alloc, source, known, at, name, size),
        Sentence::Creg { name, size } => classical(alloc, source, known, at, name, size),
        Sentence::Gate {
            name,
            formals,
            body,
            ..
        } => define(
            alloc,
            source,
            known,
            at,
            name,
            formals.as_slice(),
            body.as_slice(),
        ),
        Sentence::Call { call } => named_call(alloc, source, known, at, &call),
        Sentence::If {
            register,
            value,
            call,
        } => conditional(alloc, source, known, at, register, value, &call),
        Sentence::Cx { args } => cx_call(alloc, source, known, at, args.as_slice()),
        Sentence::Measure { from, to } => measure(source, known, at, from, to),
        Sentence::Barrier { args } => barrier(alloc, source, known, at, args.as_slice()),
        Sentence::Reset { arg } => reset(alloc, source, known, at, arg),
    }
}
