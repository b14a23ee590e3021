//! How much circuits have in all.

ghost use Rattle.std.specs.Prelude.{◌≡◌, ◌*◌, ◌^◌, ◌≤◌, ◌↔◌, All, length, [], IsTrue, MatchResult};
ghost use Rattle.source_model.specs.Circuits.{WellFormed, bits_in};
ghost use Rattle.source_model.specs.SourceRun.{is_product};
ghost use Rattle.side_by_side.specs.Joined.{IsFirstPast, IsWithin, products_in, sums_of};
ghost use Rattle.side_by_side.specs.inside.Drafts.{added};

use patch_base::{BITS, PRODUCTS, QUBITS, REGISTERS};
use source_model::{Angle, Circuit, Item, Register};

/// How many qubits, products, registers, bits of registers and hidden bits circuits have in all.
#[derive(Clone, Copy)]
pub(crate) struct Sums {
    pub(crate) qubits: u64,
    pub(crate) products: u64,
    pub(crate) registers: u64,
    pub(crate) bits: u64,
    pub(crate) hidden: u64,
}

impl Sums {
    /// Those of no circuit.
    pub(crate) fn new() -> Sums
        ensures { result ≡ sums_of [] }
    {
        Sums {
            qubits: 0,
            products: 0,
            registers: 0,
            bits: 0,
            hidden: 0,
        }
    }

    /// With those of one circuit more.
    pub(crate) fn with(self, circuit: &Circuit) -> Sums
        requires within { IsWithin self }
        requires hidden { self.hidden ≤ 16384 }
        requires circuit { WellFormed circuit.now }
        ensures { result ≡ added self circuit.now }
    {
        let registers = circuit.registers.as_slice();
        let hidden = circuit.hidden;
        Sums {
            qubits: self.qubits + u64::from(circuit.qubits),
            products: self.products + products_in(circuit.items.as_slice()),
            registers: self.registers + registers.len() as u64,
            bits: self.bits + bits_in(registers),
            hidden: self.hidden + u64::from(hidden),
        }
    }

    /// Whether one circuit may have so much.
    fn is_within(self) -> bool
        ensures { IsTrue result ↔ IsWithin self }
    {
        self.qubits <= u64::from(QUBITS)
            && self.products <= u64::from(PRODUCTS)
            && self.registers <= u64::from(REGISTERS)
            && self.bits <= u64::from(BITS)
    }
}

// Whether an item is a product.
fn is_product(item: &Item) -> bool
    ensures { result ≡ is_product item.now }
{
    match item {
        Item::Turn { angle, .. } => *angle == Angle::Eighth,
        Item::Measure { .. } | Item::If { .. } => true,
    }
}

// How many products the items have.
fn products_in(items: &[Item]) -> u64
    ensures value { result ≡ products_in items.now }
    ensures small { result ≤ length items.now }
{
    items.iter().filter(|item| is_product(item)).count() as u64
}

/// The number of bits of the registers.
pub(crate) fn bits_in(registers: &[Register]) -> u64
    requires { length registers.now ≤ 64 }
    ensures value { result ≡ bits_in registers.now }
    ensures small { result ≤ 64 * 2 ^ 32 }
{
    let mut bits = 0;
    for register in registers {
        bits += u64::from(register.size);
    }
    bits
}

/// How much the circuits have in all, or the first program by which a limit is passed.
pub(crate) fn sum_of(circuits: &[Circuit]) -> Result<Sums, u32>
    requires few { length circuits.now ≤ 8 }
    requires each { All WellFormed circuits.now }
    ensures { MatchResult result (λ s. (s ≡ sums_of circuits.now) × IsWithin s)
        (IsFirstPast circuits.now) }
{
    let mut so_far = Sums::new();
    for (program, circuit) in circuits.iter().enumerate() {
        let next = so_far.with(circuit);
        if !next.is_within() {
            return Err(program as u32);
        }
        so_far = next;
    }
    Ok(so_far)
}
