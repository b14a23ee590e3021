//! The items of flat operations.

ghost use Rattle.std.specs.Prelude.{◌≡◌, ◌<◌, ◌≤◌, ◌+◌, ◌++◌, All, length, sum_by, IfOk, OnOk};
ghost use Rattle.rotation_list.specs.Items.{one_gate, two_gate, conditional_gate, flat_items, hidden_in, items_from};
ghost use Rattle.rotation_list.specs.inside.Items.{ActsBelow};

use crate::gates::{
    push_conditional, push_controlled, push_h, push_half, push_measure, push_reset, push_s,
    push_sx, push_t,
};
use patch_base::Memory;
use pauli_product::Letter;
use qasm_expand::Flat;
use qasm_parse::{Gate1, Gate2};
use source_model::Item;
use std::alloc::Global;

/// The items of flat operations on so many qubits, and how many hidden bits they take, which are numbered after so many bits.
pub(crate) fn program_items(
    alloc: Global,
    qubits: u32,
    bits: u32,
    flats: &[Flat],
) -> Result<(Vec<Item>, u32), Memory>
    requires few { qubits ≤ 1024 }
    requires few_bits { bits ≤ 16384 }
    requires bounded { length flats.now ≤ 262144 }
    requires placed { All (ActsBelow qubits) flats.now }
    ensures items { IfOk result (λ p. p.0.items ≡ items_from qubits bits flats.now) }
    ensures hidden { IfOk result (λ p. p.1 ≡ sum_by hidden_in flats.now) }
{
    let mut items = Vec::new(alloc);
    let mut hidden = 0;
    for flat in flats {
        push_flat(alloc, qubits, bits + hidden, *flat, &mut items)?;
        hidden += hidden_in(*flat);
    }
    Ok((items, hidden))
}

// How many hidden bits an operation takes.
fn hidden_in(flat: Flat) -> u32
    ensures value { result ≡ hidden_in flat }
    ensures few { result ≤ 1 }
{
    match flat {
        Flat::Reset { .. } => 1,
        _ => 0,
    }
}

// Appends the items of an operation; a reset takes the next hidden bit.
fn push_flat(
    alloc: Global,
    qubits: u32,
    next: u32,
    flat: Flat,
    items: &mut Vec<Item>,
) -> Result<(), Memory>
    requires few { qubits ≤ 1024 }
    requires placed { ActsBelow qubits flat }
    ensures { OnOk result (items.new.items ≡ items.old.items ++ flat_items qubits next flat) }
{
    match flat {
        Flat::Gate1 { gate, q } => push_one(alloc, qubits, gate, q, items),
        Flat::Gate2 { gate, a, b } => push_two(alloc, qubits, gate, a, b, items),
        Flat::Measure { q, bit } => push_measure(alloc, qubits, q, bit, items),
        Flat::Reset { q } => push_reset(alloc, qubits, q, next, items),
        Flat::If {
            gate,
            q,
            first,
            size,
            value,
        } => push_if(alloc, qubits, gate, q, first, size, value, items),
    }
}

// Appends a gate on one qubit.
fn push_one(
    alloc: Global,
    qubits: u32,
    gate: Gate1,
    q: u32,
    items: &mut Vec<Item>,
) -> Result<(), Memory>
    requires few { qubits ≤ 1024 }
    requires within { q < qubits }
    ensures { OnOk result (items.new.items ≡ items.old.items ++ one_gate qubits gate q) }
{
    match gate {
        Gate1::Id => Ok(()),
        Gate1::X => push_half(alloc, qubits, q, Letter::X, items),
        Gate1::Y => push_half(alloc, qubits, q, Letter::Y, items),
        Gate1::Z => push_half(alloc, qubits, q, Letter::Z, items),
        Gate1::H => push_h(alloc, qubits, q, items),
        Gate1::S => push_s(alloc, qubits, false, q, items),
        Gate1::Sdg => push_s(alloc, qubits, true, q, items),
        Gate1::Sx => push_sx(alloc, qubits, false, q, items),
        Gate1::Sxdg => push_sx(alloc, qubits, true, q, items),
        Gate1::T => push_t(alloc, qubits, false, q, items),
        Gate1::Tdg => push_t(alloc, qubits, true, q, items),
    }
}

// Appends a gate on a control and a target.
fn push_two(
    alloc: Global,
    qubits: u32,
    gate: Gate2,
    control: u32,
    target: u32,
    items: &mut Vec<Item>,
) -> Result<(), Memory>
    requires few { qubits ≤ 1024 }
    requires control_within { control < qubits }
    requires target_within { target < qubits }
    ensures { OnOk result (items.new.items ≡ items.old.items
        ++ two_gate qubits gate control target) }
{
    let letter = match gate {
        Gate2::Cx => Letter::X,
        Gate2::Cy => Letter::Y,
        Gate2::Cz => Letter::Z,
    };
    push_controlled(alloc, qubits, letter, control, target, items)
}

// Appends a gate that is applied where the bits of a register give a value.
fn push_if(
    alloc: Global,
    qubits: u32,
    gate: Gate1,
    q: u32,
    first: u32,
    size: u32,
    value: u32,
    items: &mut Vec<Item>,
) -> Result<(), Memory>
    requires few { qubits ≤ 1024 }
    requires within { q < qubits }
    ensures { OnOk result (items.new.items ≡ items.old.items
        ++ conditional_gate qubits gate q first size value) }
{
    let letter = match gate {
        Gate1::X => Letter::X,
        Gate1::Y => Letter::Y,
        Gate1::Z => Letter::Z,
        _ => return Ok(()),
    };
    push_conditional(alloc, qubits, q, letter, first, size, value, items)
}
