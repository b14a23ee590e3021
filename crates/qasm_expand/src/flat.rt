//! Flat operations, and the lists of the gates that have one.

ghost use Rattle.std.specs.Prelude.{◌≡◌, ◌++◌, OnOk};
ghost use Rattle.qasm_expand.specs.Flats.{ccx, swap};

use patch_base::Memory;
use qasm_parse::{Gate1, Gate2};

/// An operation of a circuit once each call is replaced by its body. Qubits and bits are numbered over all registers of their kind.
#[derive(Clone, Copy, Debug, PartialEq, Eq)]
pub enum Flat {
    Gate1 {
        gate: Gate1,
        q: u32,
    },
    Gate2 {
        gate: Gate2,
        a: u32,
        b: u32,
    },
    Measure {
        q: u32,
        bit: u32,
    },
    Reset {
        q: u32,
    },
    /// A gate that is applied where the bits of a register, the first with weight 1, give a value.
    If {
        gate: Gate1,
        q: u32,
        first: u32,
        size: u32,
        value: u32,
    },
}

/// Appends `swap`, which is three `cx`.
pub fn push_swap(flats: &mut Vec<Flat>, a: u32, b: u32) -> Result<(), Memory>
    ensures { OnOk result (flats.new.items ≡ flats.old.items ++ swap a b) }
{
    let forth = Flat::Gate2 {
        gate: Gate2::Cx,
        a,
        b,
    };
    let back = Flat::Gate2 {
        gate: Gate2::Cx,
        a: b,
        b: a,
    };
    flats.extend_from_slice(&[forth, back, forth])?;
    Ok(())
}

/// Appends `ccx` on controls `a` and `b` and target `c`: six `cx`, seven `t` and `tdg`, and two `h`.
pub fn push_ccx(flats: &mut Vec<Flat>, a: u32, b: u32, c: u32) -> Result<(), Memory>
    ensures { OnOk result (flats.new.items ≡ flats.old.items ++ ccx a b c) }
{
    let one = |gate, q| Flat::Gate1 { gate, q };
    let cx = |a, b| Flat::Gate2 {
        gate: Gate2::Cx,
        a,
        b,
    };
    flats.extend_from_slice(&[
        one(Gate1::H, c),
        cx(b, c),
        one(Gate1::Tdg, c),
        cx(a, c),
        one(Gate1::T, c),
        cx(b, c),
        one(Gate1::Tdg, c),
        cx(a, c),
        one(Gate1::T, b),
        one(Gate1::T, c),
        one(Gate1::H, c),
        cx(a, b),
        one(Gate1::T, a),
        one(Gate1::Tdg, b),
        cx(a, b),
    ])?;
    Ok(())
}
