//! Circuits as signed Pauli products in source order, and the run of a circuit one item at a time.
//!
//! The scheme is that of Litinski, "A Game of Surface Codes" (Quantum 3, 128, 2019), section 1:
//! pi/8 rotations and measurements are pulled through the Clifford rotations before them.
#![tactic(auto)]

mod law;
mod lists;
mod plain;

pub use law::{law_bits, law_equal_runs, law_kinds, law_later_outcomes, law_used};
pub use lists::{Items, Name, Registers};
use pauli_product::Product;
pub use plain::{axes_plain, bits_plain};

/// A rotation's angle: pi/8, pi/4 or pi/2. The last two are Clifford rotations.
#[derive(Clone, Copy, Debug, PartialEq, Eq)]
pub enum Angle {
    Eighth,
    Quarter,
    Half,
}

/// One operation of a circuit, about a signed axis.
///
/// Bits are numbered over the registers in order of declaration, and hidden bits come after them.
#[derive(Drop)]
pub enum Item {
    /// A rotation.
    Turn {
        axis: Product,
        angle: Angle,
    },
    /// A measurement into a bit.
    Measure {
        axis: Product,
        bit: u32,
    },
    /// A half turn where `size` bits from `first` on spell `value`, the first with weight 1.
    If {
        axis: Product,
        first: u32,
        size: u32,
        value: u32,
    },
}

/// A classical register: its first bit and the number of its bits.
#[derive(Drop)]
pub struct Register {
    pub name: Name,
    pub first: u32,
    pub size: u32,
}

/// A circuit: its operations in source order.
///
/// `hidden` is the number of bits that belong to no register. What every call that takes a circuit
/// asks of it is `WellFormed` of `specs/Circuits.antt`.
#[derive(Drop)]
pub struct Circuit {
    pub qubits: u32,
    pub registers: Registers,
    pub items: Items,
    pub hidden: u32,
}

/// What a product is: a pi/8 rotation, a measurement into a bit, or a settled product, which flips
/// where the bits that it reads spell its value.
#[derive(Clone, Copy, Debug, PartialEq, Eq)]
pub enum Kind {
    Rotation,
    Measure { bit: u32 },
    Settle { first: u32, size: u32, value: u32 },
}

/// A product with its static axis: its own axis pulled through the circuit's Clifford rotations
/// before it (Litinski 2019, section 1).
#[derive(Drop)]
pub struct Static {
    pub axis: Product,
    pub kind: Kind,
}

/// The outcomes of a product, `true` for -1.
///
/// `raw` is that of the axis's unsigned letters, for a rotation together with Z of the magic state.
/// `x` is that of X of the magic state. A settled product has none.
#[derive(Clone, Copy, Debug, PartialEq, Eq)]
pub enum Given {
    Rotation { raw: bool, x: bool },
    Measure { raw: bool },
    Settled,
}
