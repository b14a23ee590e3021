//! Reading product lists.

ghost use Rattle.std.specs.Prelude.{◌≡◌, ◌<◌, ◌≤◌, Ok, Err, IfOk, IfErr, All, length, drop};
ghost use Rattle.patch_base.specs.Texts.{lines, words};
ghost use Rattle.qasm_lex.specs.Tokens.{Gives};
ghost use Rattle.source_model.specs.Circuits.{WellFormed, kinds};
ghost use Rattle.product_list.specs.Listable.{AxisHasLetter};
ghost use Rattle.product_list.specs.ListText.{header_of, version_of, few_qubits, number_alone as number_alone_of, with_lines, list_circuit};
ghost use Rattle.product_list.specs.inside.Headers.{header_said};

use crate::draft::{Draft, at};
use crate::line::number_alone;
use patch_base::{QUBITS, TEXT_BYTES, Words, next_line};
use qasm_lex::{CircuitFault, FaultKind};
use source_model::Circuit;
use std::alloc::Global;

const BYTES: usize = TEXT_BYTES as usize;

/// The circuit that a product list stands for.
///
/// Line 1 is `products 1 QUBITS` or `products 2 QUBITS`. Lines `c NAME SIZE` declare registers. Then
/// come the products in source order: `r AXIS` is a pi/8 rotation and `m AXIS NAME INDEX` a
/// measurement into that bit. Version 2 also has `h AXIS`, a measurement into the next hidden bit,
/// `i AXIS NAME VALUE`, settled by that register and value, and `j AXIS HIDDEN`, settled where that
/// hidden bit is 1. An empty line and one that begins with `#` are passed over, but counted.
///
/// # Errors
///
/// A text past 4 MiB is `TooLong` at line 0. Else the first line that breaks a rule gives the fault,
/// with the first rule that it breaks. `Memory` where memory runs out.
pub fn read_list(alloc: Global, text: &[u8]) -> Result<Circuit, CircuitFault>
    ensures read { Gives (λ c. c) result (list_circuit text.now) }
    ensures formed { IfOk result (λ c. WellFormed c) }
    ensures few { IfOk result (λ c. length (kinds c.items) ≤ 16384) }
    ensures letters { IfOk result (λ c. All AxisHasLetter c.items) }
{
    read(alloc, text)
}

// What `read_list` answers. That the circuit is well formed is proved apart.
fn read(alloc: Global, text: &[u8]) -> Result<Circuit, CircuitFault>
    ensures { Gives (λ c. c) result (list_circuit text.now) }
{
    if text.len() > BYTES {
        return Err(at(0, FaultKind::TooLong));
    }
    let Some(line) = next_line(text, 0) else {
        return Err(at(1, FaultKind::Syntax));
    };
    let header = match read_header(after_key(&text[line.start..line.end])) {
        Ok(header) => header,
        Err(kind) => return Err(at(1, kind)),
    };
    let draft = Draft::new(alloc, header.qubits);
    let read = read_lines(alloc, text, line.next, header.two, draft)?;
    Ok(read.into_circuit())
}

// What stands after the nine bytes `products `.
fn after_key(line: &[u8]) -> &[u8]
    ensures { result.now ≡ drop 9 line.now }
{
    if line.len() < 9 { &[] } else { &line[9..] }
}

// What the words after `products ` say.
fn read_header(text: &[u8]) -> Result<Header, FaultKind>
    ensures ok { IfOk result (λ h. header_of (words text.now) ≡ Ok (header_said h)) }
    ensures few { IfOk result (λ h. h.qubits ≤ 1024) }
    ensures err { IfErr result (λ kind. header_of (words text.now) ≡ Err kind) }
{
    let mut words = Words::of(text);
    let two = match words.next_word() {
        None => return Err(FaultKind::Syntax),
        Some(word) => read_version(word)?,
    };
    let qubits = read_qubits(&mut words)?;
    Ok(Header { two, qubits })
}

// Version 1 or version 2.
#[tactic(auto, unfolding(crate::specs::ListText::version_of))]
fn read_version(word: &[u8]) -> Result<bool, FaultKind>
    ensures { result ≡ version_of word.now }
{
    if word.is_empty() {
        return Err(FaultKind::Syntax);
    }
    if word == b"1".as_slice() {
        return Ok(false);
    }
    if word == b"2".as_slice() {
        return Ok(true);
    }
    Err(FaultKind::Version)
}

// The number of qubits, and no further word.
fn read_qubits(words: &mut Words) -> Result<u32, FaultKind>
    ensures value { result ≡ few_qubits (number_alone_of words.old) }
    ensures few { IfOk result (λ n. n ≤ 1024) }
{
    let Some(qubits) = number_alone(words) else {
        return Err(FaultKind::Syntax);
    };
    if qubits > QUBITS {
        return Err(FaultKind::TooMany);
    }
    Ok(qubits)
}

// The circuit with the lines from a place on, of which the first is line 2.
fn read_lines(
    alloc: Global,
    text: &[u8],
    start: usize,
    two: bool,
    first: Draft,
) -> Result<Draft, CircuitFault>
    requires few { length text.now ≤ 4194304 }
    requires some { 0 < start }
    ensures { Gives (λ d. d) result (with_lines two 2 first (lines (drop start text.now))) }
{
    let mut draft = first;
    let mut at = start;
    let mut number = 2;
    while let Some(line) = next_line(text, at) {
        draft.take(alloc, number, two, &text[line.start..line.end])?;
        at = line.next;
        number += 1;
    }
    Ok(draft)
}

/// What the first line says: whether the list has version 2, and how many qubits there are.
#[derive(Clone, Copy, Debug)]
struct Header {
    two: bool,
    qubits: u32,
}
