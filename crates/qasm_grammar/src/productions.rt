//! The productions of the grammar, read from a place of the tokens on.

ghost use Rattle.std.specs.Prelude.{◌≡◌, ◌≤◌, ◌<◌, ◌+◌, ◌∷◌, [], ◌++◌, length, IfOk};
ghost use Rattle.qasm_grammar.specs.Forms.{Closes};
ghost use Rattle.qasm_grammar.specs.inside.Forms.{Reads};
ghost use Rattle.qasm_grammar.specs.Grammar as grammar;
ghost use Rattle.qasm_grammar.specs.Spelling.{Spells, fixed, arg_text, brackets_text, args_text, names_text, names_after_text, register_text, call_text, body_text, bodies_text, sentence_text};

use crate::follow::{Halt, Refusal, Unread, expect, is_next};
use crate::spoken::{Argument, BodyStatement, GateCall, Sentence};
use crate::terminal::Terminal;
use patch_base::Listed;
use std::alloc::Global;

// Reads a register, or one of its members.
fn arg(found: &[Terminal], at: usize) -> Result<(Argument, usize), Unread>
    requires { at ≤ length found.now }
    ensures within { IfOk result (λ x. (at ≤ x.1) × (x.1 ≤ length found.now)) }
    ensures form { Reads (λ x. x.1) grammar.arg (Terminal.OpenBracket ∷ []) found.now at result }
    ensures spelled { IfOk result (λ x. Spells (arg_text x.0) found.now at x.1) }
{
    let after = expect(found, at, &[Terminal::Name])?;
    if !is_next(found, after, Terminal::OpenBracket) {
        return Ok((Argument::Whole { name: at }, after));
    }
    let end = expect(found, after + 1, &[Terminal::Whole, Terminal::CloseBracket])?;
    Ok((
        Argument::Single {
            name: at,
            index: after + 1,
        },
        end,
    ))
}

// Reads a list of registers and members.
fn args(alloc: Global, found: &[Terminal], at: usize) -> Result<(Listed<Argument>, usize), Unread>
    requires { at ≤ length found.now }
    ensures within { IfOk result (λ x. (at ≤ x.1) × (x.1 ≤ length found.now)) }
    ensures form { Reads (λ x. x.1) grammar.args
        (Terminal.OpenBracket ∷ Terminal.Comma ∷ []) found.now at result }
    ensures spelled { IfOk result (λ x. Spells (args_text x.0) found.now at x.1) }
{
    let mut read = Listed::new(alloc);
    let (first, mut end) = arg(found, at)?;
    read.push(first)?;
    while is_next(found, end, Terminal::Comma) {
        let (next, after) = arg(found, end + 1)?;
        read.push(next)?;
        end = after;
    }
    Ok((read, end))
}

// Reads brackets where they stand, and says whether they do.
fn brackets(found: &[Terminal], at: usize) -> Result<(bool, usize), Unread>
    requires { at ≤ length found.now }
    ensures within { IfOk result (λ x. (at ≤ x.1) × (x.1 ≤ length found.now)) }
    ensures form { Reads (λ x. x.1) grammar.brackets (Terminal.Open ∷ []) found.now at result }
    ensures spelled { IfOk result (λ x. Spells (brackets_text x.0) found.now at x.1) }
{
    if !is_next(found, at, Terminal::Open) {
        return Ok((false, at));
    }
    if !is_next(found, at + 1, Terminal::Close) {
        return Err(Unread::Halted(Halt {
            at: at + 1,
            kind: Refusal::Parameters,
        }));
    }
    Ok((true, at + 2))
}

// Reads a register's declaration.
fn register(found: &[Terminal], at: usize, kind: Terminal) -> Result<usize, Unread>
    requires { at ≤ length found.now }
    ensures within { IfOk result (λ end. (at < end) × (end ≤ length found.now)) }
    ensures form { Closes (λ end. end) (grammar.register kind) found.now at result }
    ensures spelled { IfOk result (λ end.
        Spells (register_text kind (at + 1) (at + 3)) found.now at end) }
{
    expect(
        found,
        at,
        &[
            kind,
            Terminal::Name,
            Terminal::OpenBracket,
            Terminal::Whole,
            Terminal::CloseBracket,
            Terminal::Semicolon,
        ],
    )
}

// Reads an include.
fn include(found: &[Terminal], at: usize) -> Result<(Sentence, usize), Unread>
    requires { at ≤ length found.now }
    ensures within { IfOk result (λ x. (at < x.1) × (x.1 ≤ length found.now)) }
    ensures form { Closes (λ x. x.1) grammar.include found.now at result }
    ensures spelled { IfOk result (λ x. Spells (sentence_text x.0) found.now at x.1) }
{
    let named = expect(found, at, &[Terminal::Include])?;
    if is_next(found, named, Terminal::Quoted) {
        return Err(Unread::Halted(Halt {
            at: named,
            kind: Refusal::Unsupported,
        }));
    }
    let end = expect(found, named, &[Terminal::Qelib, Terminal::Semicolon])?;
    Ok((Sentence::Include, end))
}

// Reads a call of a gate by its name.
fn gate_call(
    alloc: Global,
    found: &[Terminal],
    at: usize,
    callee: Terminal,
) -> Result<(GateCall, usize), Unread>
    requires { at ≤ length found.now }
    ensures within { IfOk result (λ x. (at < x.1) × (x.1 ≤ length found.now)) }
    ensures form { Closes (λ x. x.1) (grammar.call_of callee) found.now at result }
    ensures spelled { IfOk result (λ x. Spells (call_text callee x.0) found.now at x.1) }
{
    let named = expect(found, at, &[callee])?;
    let (bracketed, opened) = brackets(found, named)?;
    let (listed, closed) = args(alloc, found, opened)?;
    let end = expect(found, closed, &[Terminal::Semicolon])?;
    Ok((
        GateCall {
            name: at,
            brackets: bracketed,
            args: listed,
        },
        end,
    ))
}

// Reads a call of a gate by its name as a statement.
fn named_call(alloc: Global, found: &[Terminal], at: usize) -> Result<(Sentence, usize), Unread>
    requires { at ≤ length found.now }
    ensures within { IfOk result (λ x. (at < x.1) × (x.1 ≤ length found.now)) }
    ensures form { Closes (λ x. x.1) grammar.named_call found.now at result }
    ensures spelled { IfOk result (λ x. Spells (sentence_text x.0) found.now at x.1) }
{
    let (call, end) = gate_call(alloc, found, at, Terminal::Callee)?;
    Ok((Sentence::Call { call }, end))
}

// Reads a call under a condition.
fn if_equal(alloc: Global, found: &[Terminal], at: usize) -> Result<(Sentence, usize), Unread>
    requires { at ≤ length found.now }
    ensures within { IfOk result (λ x. (at < x.1) × (x.1 ≤ length found.now)) }
    ensures form { Closes (λ x. x.1) grammar.if_equal found.now at result }
    ensures spelled { IfOk result (λ x. Spells (sentence_text x.0) found.now at x.1) }
{
    let headed = expect(
        found,
        at,
        &[
            Terminal::If,
            Terminal::Open,
            Terminal::Name,
            Terminal::Equals,
            Terminal::Whole,
            Terminal::Close,
        ],
    )?;
    if is_next(found, headed, Terminal::Word) {
        return Err(Unread::Halted(Halt {
            at: headed,
            kind: Refusal::Unsupported,
        }));
    }
    let (call, end) = gate_call(alloc, found, headed, Terminal::Pauli)?;
    Ok((
        Sentence::If {
            register: at + 2,
            value: at + 4,
            call,
        },
        end,
    ))
}

// Reads a list of names.
fn names(alloc: Global, found: &[Terminal], at: usize) -> Result<(Listed<usize>, usize), Unread>
    requires { at ≤ length found.now }
    ensures within { IfOk result (λ x. (at ≤ x.1) × (x.1 ≤ length found.now)) }
    ensures form { Reads (λ x. x.1) grammar.names (Terminal.Comma ∷ []) found.now at result }
    ensures spelled { IfOk result (λ x. Spells (names_text x.0) found.now at x.1) }
{
    let mut read = Listed::new(alloc);
    let mut end = expect(found, at, &[Terminal::Name])?;
    read.push(at)?;
    while is_next(found, end, Terminal::Comma) {
        let after = expect(found, end + 1, &[Terminal::Name])?;
        read.push(end + 1)?;
        end = after;
    }
    Ok((read, end))
}

// Reads names after a word.
fn names_after(
    alloc: Global,
    found: &[Terminal],
    at: usize,
    word: Terminal,
) -> Result<(Listed<usize>, usize), Unread>
    requires { at ≤ length found.now }
    ensures within { IfOk result (λ x. (at < x.1) × (x.1 ≤ length found.now)) }
    ensures form { Closes (λ x. x.1) (grammar.names_after word) found.now at result }
    ensures spelled { IfOk result (λ x. Spells (names_after_text word x.0) found.now at x.1) }
{
    let named = expect(found, at, &[word])?;
    let (listed, closed) = names(alloc, found, named)?;
    let end = expect(found, closed, &[Terminal::Semicolon])?;
    Ok((listed, end))
}

// Reads a call in a body.
fn body_call(alloc: Global, found: &[Terminal], at: usize) -> Result<(BodyStatement, usize), Unread>
    requires { at ≤ length found.now }
    ensures within { IfOk result (λ x. (at < x.1) × (x.1 ≤ length found.now)) }
    ensures form { Closes (λ x. x.1) grammar.body_call found.now at result }
    ensures spelled { IfOk result (λ x. Spells (body_text x.0) found.now at x.1) }
{
    let named = expect(found, at, &[Terminal::Callee])?;
    let (bracketed, opened) = brackets(found, named)?;
    let (listed, closed) = names(alloc, found, opened)?;
    let end = expect(found, closed, &[Terminal::Semicolon])?;
    Ok((
        BodyStatement::Call {
            name: at,
            brackets: bracketed,
            formals: listed,
        },
        end,
    ))
}

// Reads a call of `CX` in a body.
fn body_cx(alloc: Global, found: &[Terminal], at: usize) -> Result<(BodyStatement, usize), Unread>
    requires { at ≤ length found.now }
    ensures within { IfOk result (λ x. (at < x.1) × (x.1 ≤ length found.now)) }
    ensures form { Closes (λ x. x.1) (grammar.names_after Terminal.Cx) found.now at result }
    ensures spelled { IfOk result (λ x. Spells (body_text x.0) found.now at x.1) }
{
    let (formals, end) = names_after(alloc, found, at, Terminal::Cx)?;
    Ok((BodyStatement::Cx { at, formals }, end))
}

// Reads a barrier in a body.
fn body_barrier(
    alloc: Global,
    found: &[Terminal],
    at: usize,
) -> Result<(BodyStatement, usize), Unread>
    requires { at ≤ length found.now }
    ensures within { IfOk result (λ x. (at < x.1) × (x.1 ≤ length found.now)) }
    ensures form { Closes (λ x. x.1) (grammar.names_after Terminal.Barrier) found.now at result }
    ensures spelled { IfOk result (λ x. Spells (body_text x.0) found.now at x.1) }
{
    let (formals, end) = names_after(alloc, found, at, Terminal::Barrier)?;
    Ok((BodyStatement::Barrier { formals }, end))
}

// Reads a statement of a body.
fn body_statement(
    alloc: Global,
    found: &[Terminal],
    at: usize,
) -> Result<(BodyStatement, usize), Unread>
    requires { at ≤ length found.now }
    ensures within { IfOk result (λ x. (at < x.1) × (x.1 ≤ length found.now)) }
    ensures form { Closes (λ x. x.1) grammar.body found.now at result }
    ensures spelled { IfOk result (λ x. Spells (body_text x.0) found.now at x.1) }
{
    if is_next(found, at, Terminal::Callee) {
        return body_call(alloc, found, at);
    }
    if is_next(found, at, Terminal::Cx) {
        return body_cx(alloc, found, at);
    }
    if is_next(found, at, Terminal::Barrier) {
        return body_barrier(alloc, found, at);
    }
    if is_next(found, at, Terminal::Opaque) {
        return Err(Unread::Halted(Halt {
            at,
            kind: Refusal::Unsupported,
        }));
    }
    if is_next(found, at, Terminal::Taken) {
        return Err(Unread::Halted(Halt {
            at,
            kind: Refusal::Unsupported,
        }));
    }
    Err(Unread::Halted(Halt {
        at,
        kind: Refusal::Syntax,
    }))
}

// Reads a body up to its closing brace.
fn bodies(
    alloc: Global,
    found: &[Terminal],
    at: usize,
) -> Result<(Listed<BodyStatement>, usize), Unread>
    requires { at ≤ length found.now }
    ensures within { IfOk result (λ x. (at < x.1) × (x.1 ≤ length found.now)) }
    ensures form { Closes (λ x. x.1) grammar.bodies found.now at result }
    ensures spelled { IfOk result (λ x.
        Spells (bodies_text x.0 ++ (fixed Terminal.CloseBrace ∷ [])) found.now at x.1) }
{
    let mut read = Listed::new(alloc);
    let mut end = at;
    'body: while !is_next(found, end, Terminal::CloseBrace) {
        let (next, after) = body_statement(alloc, found, end)?;
        read.push(next)?;
        end = after;
    }
    Ok((read, end + 1))
}

// Reads the definition of a gate.
fn gate(alloc: Global, found: &[Terminal], at: usize) -> Result<(Sentence, usize), Unread>
    requires { at ≤ length found.now }
    ensures within { IfOk result (λ x. (at < x.1) × (x.1 ≤ length found.now)) }
    ensures form { Closes (λ x. x.1) grammar.gate found.now at result }
    ensures spelled { IfOk result (λ x. Spells (sentence_text x.0) found.now at x.1) }
{
    let named = expect(found, at, &[Terminal::Gate, Terminal::Name])?;
    let (bracketed, opened) = brackets(found, named)?;
    let (formals, listed) = names(alloc, found, opened)?;
    let braced = expect(found, listed, &[Terminal::OpenBrace])?;
    let (body, end) = bodies(alloc, found, braced)?;
    Ok((
        Sentence::Gate {
            name: at + 1,
            brackets: bracketed,
            formals,
            body,
        },
        end,
    ))
}

// Reads a call of `CX`.
fn cx_call(alloc: Global, found: &[Terminal], at: usize) -> Result<(Sentence, usize), Unread>
    requires { at ≤ length found.now }
    ensures within { IfOk result (λ x. (at < x.1) × (x.1 ≤ length found.now)) }
    ensures form { Closes (λ x. x.1) grammar.cx_call found.now at result }
    ensures spelled { IfOk result (λ x. Spells (sentence_text x.0) found.now at x.1) }
{
    let named = expect(found, at, &[Terminal::Cx])?;
    let (listed, closed) = args(alloc, found, named)?;
    let end = expect(found, closed, &[Terminal::Semicolon])?;
    Ok((Sentence::Cx { args: listed }, end))
}

// Reads a barrier.
fn barrier(alloc: Global, found: &[Terminal], at: usize) -> Result<(Sentence, usize), Unread>
    requires { at ≤ length found.now }
    ensures within { IfOk result (λ x. (at < x.1) × (x.1 ≤ length found.now)) }
    ensures form { Closes (λ x. x.1) grammar.barrier found.now at result }
    ensures spelled { IfOk result (λ x. Spells (sentence_text x.0) found.now at x.1) }
{
    let named = expect(found, at, &[Terminal::Barrier])?;
    let (listed, closed) = args(alloc, found, named)?;
    let end = expect(found, closed, &[Terminal::Semicolon])?;
    Ok((Sentence::Barrier { args: listed }, end))
}

// Reads a measurement.
fn measure(found: &[Terminal], at: usize) -> Result<(Sentence, usize), Unread>
    requires { at ≤ length found.now }
    ensures within { IfOk result (λ x. (at < x.1) × (x.1 ≤ length found.now)) }
    ensures form { Closes (λ x. x.1) grammar.measure found.now at result }
    ensures spelled { IfOk result (λ x. Spells (sentence_text x.0) found.now at x.1) }
{
    let named = expect(found, at, &[Terminal::Measure])?;
    let (from, read) = arg(found, named)?;
    let pointed = expect(found, read, &[Terminal::Arrow])?;
    let (to, closed) = arg(found, pointed)?;
    let end = expect(found, closed, &[Terminal::Semicolon])?;
    Ok((Sentence::Measure { from, to }, end))
}

// Reads a reset.
fn reset(found: &[Terminal], at: usize) -> Result<(Sentence, usize), Unread>
    requires { at ≤ length found.now }
    ensures within { IfOk result (λ x. (at < x.1) × (x.1 ≤ length found.now)) }
    ensures form { Closes (λ x. x.1) grammar.reset found.now at result }
    ensures spelled { IfOk result (λ x. Spells (sentence_text x.0) found.now at x.1) }
{
    let named = expect(found, at, &[Terminal::Reset])?;
    let (operand, closed) = arg(found, named)?;
    let end = expect(found, closed, &[Terminal::Semicolon])?;
    Ok((Sentence::Reset { arg: operand }, end))
}

// Reads the declaration of a quantum register.
fn qreg(found: &[Terminal], at: usize) -> Result<(Sentence, usize), Unread>
    requires { at ≤ length found.now }
    ensures within { IfOk result (λ x. (at < x.1) × (x.1 ≤ length found.now)) }
    ensures form { Closes (λ x. x.1) (grammar.register Terminal.Qreg) found.now at result }
    ensures spelled { IfOk result (λ x. Spells (sentence_text x.0) found.now at x.1) }
{
    let end = register(found, at, Terminal::Qreg)?;
    Ok((
        Sentence::Qreg {
            name: at + 1,
            size: at + 3,
        },
        end,
    ))
}

// Reads the declaration of a classical register.
fn creg(found: &[Terminal], at: usize) -> Result<(Sentence, usize), Unread>
    requires { at ≤ length found.now }
    ensures within { IfOk result (λ x. (at < x.1) × (x.1 ≤ length found.now)) }
    ensures form { Closes (λ x. x.1) (grammar.register Terminal.Creg) found.now at result }
    ensures spelled { IfOk result (λ x. Spells (sentence_text x.0) found.now at x.1) }
{
    let end = register(found, at, Terminal::Creg)?;
    Ok((
        Sentence::Creg {
            name: at + 1,
            size: at + 3,
        },
        end,
    ))
}

/// Reads the next statement.
pub fn next_statement(
    alloc: Global,
    found: &[Terminal],
    at: usize,
) -> Result<(Sentence, usize), Unread>
    requires { at ≤ length found.now }
    ensures within { IfOk result (λ x. (at < x.1) × (x.1 ≤ length found.now)) }
    ensures form { Closes (λ x. x.1) grammar.statement found.now at result }
    ensures spelled { IfOk result (λ x. Spells (sentence_text x.0) found.now at x.1) }
{
    if is_next(found, at, Terminal::Include) {
        return include(found, at);
    }
    if is_next(found, at, Terminal::Qreg) {
        return qreg(found, at);
    }
    if is_next(found, at, Terminal::Creg) {
        return creg(found, at);
    }
    if is_next(found, at, Terminal::Callee) {
        return named_call(alloc, found, at);
    }
    if is_next(found, at, Terminal::Cx) {
        return cx_call(alloc, found, at);
    }
    if is_next(found, at, Terminal::Measure) {
        return measure(found, at);
    }
    if is_next(found, at, Terminal::Barrier) {
        return barrier(alloc, found, at);
    }
    if is_next(found, at, Terminal::Reset) {
        return reset(found, at);
    }
    if is_next(found, at, Terminal::Gate) {
        return gate(alloc, found, at);
    }
    if is_next(found, at, Terminal::If) {
        return if_equal(alloc, found, at);
    }
    if is_next(found, at, Terminal::Opaque) {
        return Err(Unread::Halted(Halt {
            at,
            kind: Refusal::Unsupported,
        }));
    }
    if is_next(found, at, Terminal::Taken) {
        return Err(Unread::Halted(Halt {
            at,
            kind: Refusal::Unsupported,
        }));
    }
    Err(Unread::Halted(Halt {
        at,
        kind: Refusal::Syntax,
    }))
}
