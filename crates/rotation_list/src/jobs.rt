//! Jobs that are made from a number.

ghost use Rattle.std.specs.Prelude.{◌≡◌, ℕ, ◌<◌, ◌≤◌, ◌^◌, ◌+◌, ◌*◌, ◌/◌, ◌%◌, ◌==◌, ◌++◌, ◌∷◌, [], All, length, codes, decimal, IfOk, OnOk};
ghost use Rattle.source_model.specs.Circuits.{WellFormed, kinds};
ghost use Rattle.patch_base.specs.Texts.{digit, spaced};
ghost use Rattle.rotation_list.specs.Generated.{next_number, draw, operation, measurements, big_items, big_circuit, big_layout, big_outcomes, outcome_lines, outcome_words};
ghost use Rattle.product_list.specs.Listable.{AxisHasLetter};
ghost use Rattle.product_list.specs.Printed.{line_text};

use crate::gates::{push_controlled, push_h, push_measure, push_s, push_t};
use patch_base::{Memory, put_decimal};
use pauli_product::Letter;
use source_model::{Circuit, Item, Items, Kind, Name, Register, Registers};
use static_products::kind_of;
use std::alloc::Global;
use std::marker::Model;

const QUBITS: u32 = 8;

/// A text, seen as its bytes.
#[derive(Debug, Drop)]
pub struct Text {
    bytes: Vec<u8>,
}

impl Model for Text {
    ghost use Rattle.std.specs.Prelude.{List, ℕ};

    ghost Value = { List ℕ };

    ghost view = { λ t. t.bytes.items };
}

impl Text {
    /// The text of these bytes; no memory is taken.
    pub fn of(bytes: Vec<u8>) -> Text
        ensures { result ≡ bytes.items }
    {
        Text { bytes }
    }

    /// The bytes.
    pub fn as_slice(&self) -> &[u8]
        ensures { result.now ≡ self.now }
    {
        self.bytes.as_slice()
    }

    /// The bytes back; no memory is taken.
    pub fn into_vec(self) -> Vec<u8>
        ensures { result.items ≡ self }
    {
        self.bytes
    }
}

/// A job: a circuit, and the texts of a layout and of outcomes for it.
#[derive(Drop)]
pub struct Big {
    pub circuit: Circuit,
    pub layout: Text,
    pub outcomes: Text,
}

/// The job that is made from a number.
///
/// The circuit has 8 qubits and, so many times, an operation by three draws; then each qubit is
/// measured. The outcomes follow by one draw for each product, and one run fails. The draws are the
/// numbers `x` after one another, of which each next one is `(75 x + 74) mod 65537`.
///
/// # Errors
///
/// `Memory` where memory runs out.
pub fn generate(alloc: Global, n: u32) -> Result<Big, Memory>
    ensures circuit { IfOk result (λ big. big.circuit ≡ big_circuit n) }
    ensures formed { IfOk result (λ big. WellFormed big.circuit) }
    ensures few { IfOk result (λ big. length (kinds big.circuit.items) ≤ n + 8) }
    ensures letters { IfOk result (λ big. All AxisHasLetter big.circuit.items) }
    ensures layout { IfOk result (λ big. big.layout ≡ big_layout) }
    ensures outcomes { IfOk result (λ big. big.outcomes ≡ big_outcomes n) }
{
    let (items, last) = generate_items(alloc, n)?;
    let outcomes = generate_outcomes(alloc, &items, last)?;
    let registers = one_register(alloc)?;
    let layout = layout_text(alloc)?;
    Ok(Big {
        circuit: Circuit {
            qubits: QUBITS,
            registers: Registers::of(registers),
            items: Items::of(items),
            hidden: 0,
        },
        layout: Text::of(layout),
        outcomes: Text::of(outcomes),
    })
}

// The number after one.
fn next_number(x: u64) -> u64
    requires { x < 2 ^ 32 }
    ensures value { result ≡ next_number x }
    ensures small { result < 65537 }
{
    (75 * x + 74) % 65537
}

// The items, and the last number that was drawn for them.
fn generate_items(alloc: Global, n: u32) -> Result<(Vec<Item>, u64), Memory>
    ensures items { IfOk result (λ p. p.0.items ≡ big_items n) }
    ensures last { IfOk result (λ p. p.1 ≡ draw n (3 * n)) }
    ensures small { IfOk result (λ p. p.1 < 2 ^ 32) }
{
    let mut items = Vec::new(alloc);
    let mut last = u64::from(n);
    for _k in 0..n {
        let a = next_number(last);
        let b = next_number(a);
        let c = next_number(b);
        push_operation(alloc, a, b, c, &mut items)?;
        last = c;
    }
    push_measurements(alloc, &mut items)?;
    Ok((items, last))
}

// Appends the operation that three draws give.
#[tactic(auto, unfolding(crate::specs::Generated::operation))]
fn push_operation(
    alloc: Global,
    a: u64,
    b: u64,
    c: u64,
    items: &mut Vec<Item>,
) -> Result<(), Memory>
    requires { b < 65537 }
    ensures { OnOk result (items.new.items ≡ items.old.items ++ operation a b c) }
{
    let u = (b % 8) as u32;
    let v = ((b % 8 + 1 + c % 7) % 8) as u32;
    match a % 8 {
        0 | 1 => push_t(alloc, QUBITS, false, u, items),
        2 => push_t(alloc, QUBITS, true, u, items),
        3 | 4 => push_h(alloc, QUBITS, u, items),
        5 => push_s(alloc, QUBITS, false, u, items),
        6 => push_controlled(alloc, QUBITS, Letter::X, u, v, items),
        _ => push_controlled(alloc, QUBITS, Letter::Z, u, v, items),
    }
}

// Measures each qubit into the bit of its number.
fn push_measurements(alloc: Global, items: &mut Vec<Item>) -> Result<(), Memory>
    ensures { OnOk result (items.new.items ≡ items.old.items ++ measurements 8) }
{
    for q in 0..QUBITS {
        push_measure(alloc, QUBITS, q, q, items)?;
    }
    Ok(())
}

// The register `c` of 8 bits.
fn one_register(alloc: Global) -> Result<Vec<Register>, Memory>
    ensures { IfOk result (λ v. v.items ≡ record { name = codes "c"; first = 0; size = 8 } ∷ []) }
{
    let mut registers = Vec::new(alloc);
    registers.push(Register {
        name: Name::new(alloc, b"c")?,
        first: 0,
        size: 8,
    })?;
    Ok(registers)
}

// The outcomes of the items' products, by the numbers after the last one.
fn generate_outcomes(alloc: Global, items: &[Item], last: u64) -> Result<Vec<u8>, Memory>
    requires { last < 2 ^ 32 }
    ensures { IfOk result (λ text. (n d : ℕ) → last ≡ draw n d
        → text.items ≡ codes "outcomes 1\n" ++ outcome_lines n d 0 (kinds items.now)
        ++ codes "f 0 0\n") }
{
    let mut text = Vec::new(alloc);
    text.extend_from_slice(b"outcomes 1\n")?;
    let mut drawn = last;
    let mut product = 0;
    for item in items {
        if let Some(kind) = kind_of(item) {
            drawn = next_number(drawn);
            print_outcome(kind, product, drawn, &mut text)?;
            product += 1;
        }
    }
    text.extend_from_slice(b"f 0 0\n")?;
    Ok(text)
}

// The line of a product's outcomes by its draw.
fn print_outcome(kind: Kind, product: u64, drawn: u64, into: &mut Vec<u8>) -> Result<(), Memory>
    ensures { OnOk result (into.new.items ≡ into.old.items
        ++ line_text (outcome_words kind product drawn)) }
{
    print_given(kind, product, drawn, into)?;
    into.push(b'\n')?;
    Ok(())
}

// The words of a product's outcomes.
fn print_given(kind: Kind, product: u64, drawn: u64, into: &mut Vec<u8>) -> Result<(), Memory>
    ensures { OnOk result (into.new.items ≡ into.old.items
        ++ spaced (outcome_words kind product drawn)) }
{
    match kind {
        Kind::Rotation => {
            into.push(b'r')?;
            print_number(product, into)?;
            print_digit(drawn / 256 % 2 == 1, into)?;
            print_digit(drawn / 512 % 2 == 1, into)
        }
        Kind::Measure { .. } => {
            into.push(b'm')?;
            print_number(product, into)?;
            print_digit(drawn / 256 % 2 == 1, into)
        }
        Kind::Settle { .. } => Ok(()),
    }
}

// A space and a number.
fn print_number(number: u64, into: &mut Vec<u8>) -> Result<(), Memory>
    ensures { OnOk result (into.new.items ≡ into.old.items ++ 32 ∷ decimal number) }
{
    into.push(b' ')?;
    put_decimal(number, into)
}

// A space and a truth value.
fn print_digit(value: bool, into: &mut Vec<u8>) -> Result<(), Memory>
    ensures { OnOk result (into.new.items ≡ into.old.items ++ 32 ∷ digit value) }
{
    into.push(b' ')?;
    into.push(if value { b'1' } else { b'0' })?;
    Ok(())
}

// The layout, which is the same for each number.
#[tactic(auto, unfolding(crate::specs::Generated::big_layout))]
fn layout_text(alloc: Global) -> Result<Vec<u8>, Memory>
    ensures { IfOk result (λ text. text.items ≡ big_layout) }
{
    let mut text = b"layout 1 5 9\n".to_vec(alloc)?;
    text.extend_from_slice(b"patch 0 10 h\npatch 1 12 h\npatch 2 14 h\npatch 3 16 h\n")?;
    text.extend_from_slice(b"patch 4 28 h\npatch 5 30 h\npatch 6 32 h\npatch 7 34 h\n")?;
    text.extend_from_slice(b"port 0 0 h 2\nport 1 8 h 2\nport 2 36 h 2\nport 3 44 h 2\n")?;
    Ok(text)
}
