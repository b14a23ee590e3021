//! Gates as turns about Pauli products (Litinski 2019, section 1).

ghost use Rattle.std.specs.Prelude.{◌≡◌, ◌<◌, ◌≤◌, ◌++◌, ◌∷◌, [], true, false, IfOk, OnOk};
ghost use Rattle.pauli_product.specs.declared.Letter.TheVariants.{Z};
ghost use Rattle.source_model.specs.declared.Angle.TheVariants.{Half, Quarter};
ghost use Rattle.rotation_list.specs.Gates.{one_letter, two_letters, turn_one, t_gate, s_gate, sx_gate, h_gate, controlled, measured, conditional, reset_by};

use patch_base::Memory;
use pauli_product::{Letter, Product};
use source_model::{Angle, Item};
use std::alloc::Global;

// The product of one letter on so many qubits.
#[tactic(auto, unfolding(crate::specs::Gates::one_letter))]
fn one_letter(
    alloc: Global,
    qubits: u32,
    minus: bool,
    q: u32,
    letter: Letter,
) -> Result<Product, Memory>
    requires few { qubits ≤ 1024 }
    requires within { q < qubits }
    ensures { IfOk result (λ p. p ≡ one_letter qubits minus q letter) }
{
    let mut axis = Product::identity(alloc, qubits)?;
    axis.set_letter(q, letter);
    if minus {
        axis.negate();
    }
    Ok(axis)
}

// The product of two letters, with sign +.
#[tactic(auto, unfolding(crate::specs::Gates::two_letters))]
fn two_letters(
    alloc: Global,
    qubits: u32,
    a: u32,
    first: Letter,
    b: u32,
    second: Letter,
) -> Result<Product, Memory>
    requires few { qubits ≤ 1024 }
    requires a_within { a < qubits }
    requires b_within { b < qubits }
    ensures { IfOk result (λ p. p ≡ two_letters qubits a first b second) }
{
    let mut axis = Product::identity(alloc, qubits)?;
    axis.set_letter(a, first);
    axis.set_letter(b, second);
    Ok(axis)
}

// Appends a turn about one letter.
fn push_turn(
    alloc: Global,
    qubits: u32,
    minus: bool,
    q: u32,
    letter: Letter,
    angle: Angle,
    items: &mut Vec<Item>,
) -> Result<(), Memory>
    requires few { qubits ≤ 1024 }
    requires within { q < qubits }
    ensures { OnOk result (items.new.items ≡ items.old.items
        ++ turn_one qubits minus q letter angle ∷ []) }
{
    let axis = one_letter(alloc, qubits, minus, q, letter)?;
    items.push(Item::Turn { axis, angle })?;
    Ok(())
}

/// Appends `t`, or `tdg`.
pub(crate) fn push_t(
    alloc: Global,
    qubits: u32,
    dagger: bool,
    q: u32,
    items: &mut Vec<Item>,
) -> Result<(), Memory>
    requires few { qubits ≤ 1024 }
    requires within { q < qubits }
    ensures { OnOk result (items.new.items ≡ items.old.items ++ t_gate qubits dagger q) }
{
    push_turn(alloc, qubits, dagger, q, Letter::Z, Angle::Eighth, items)
}

/// Appends `s`, or `sdg`.
pub(crate) fn push_s(
    alloc: Global,
    qubits: u32,
    dagger: bool,
    q: u32,
    items: &mut Vec<Item>,
) -> Result<(), Memory>
    requires few { qubits ≤ 1024 }
    requires within { q < qubits }
    ensures { OnOk result (items.new.items ≡ items.old.items ++ s_gate qubits dagger q) }
{
    push_turn(alloc, qubits, dagger, q, Letter::Z, Angle::Quarter, items)
}

/// Appends `h`.
pub(crate) fn push_h(
    alloc: Global,
    qubits: u32,
    q: u32,
    items: &mut Vec<Item>,
) -> Result<(), Memory>
    requires few { qubits ≤ 1024 }
    requires within { q < qubits }
    ensures { OnOk result (items.new.items ≡ items.old.items ++ h_gate qubits q) }
{
    push_turn(alloc, qubits, false, q, Letter::Z, Angle::Quarter, items)?;
    push_turn(alloc, qubits, false, q, Letter::X, Angle::Quarter, items)?;
    push_turn(alloc, qubits, false, q, Letter::Z, Angle::Quarter, items)
}

/// Appends a controlled letter: `cx`, `cy` or `cz`.
pub(crate) fn push_controlled(
    alloc: Global,
    qubits: u32,
    letter: Letter,
    control: u32,
    target: u32,
    items: &mut Vec<Item>,
) -> Result<(), Memory>
    requires few { qubits ≤ 1024 }
    requires control_within { control < qubits }
    requires target_within { target < qubits }
    ensures { OnOk result (items.new.items ≡ items.old.items
        ++ controlled qubits letter control target) }
{
    let axis = two_letters(alloc, qubits, control, Letter::Z, target, letter)?;
    let angle = Angle::Quarter;
    items.push(Item::Turn { axis, angle })?;
    push_single_turns(alloc, qubits, letter, control, target, items)
}

// Appends the pi/4 rotations about the minus letter of the target and about -Z of the control.
fn push_single_turns(
    alloc: Global,
    qubits: u32,
    letter: Letter,
    control: u32,
    target: u32,
    items: &mut Vec<Item>,
) -> Result<(), Memory>
    requires few { qubits ≤ 1024 }
    requires control_within { control < qubits }
    requires target_within { target < qubits }
    ensures { OnOk result (items.new.items ≡ items.old.items
        ++ turn_one qubits true target letter Quarter
        ∷ turn_one qubits true control Z Quarter ∷ []) }
{
    push_turn(alloc, qubits, true, target, letter, Angle::Quarter, items)?;
    let letter = Letter::Z;
    push_turn(alloc, qubits, true, control, letter, Angle::Quarter, items)
}

/// Appends a measurement of +Z into a bit.
pub(crate) fn push_measure(
    alloc: Global,
    qubits: u32,
    q: u32,
    bit: u32,
    items: &mut Vec<Item>,
) -> Result<(), Memory>
    requires few { qubits ≤ 1024 }
    requires within { q < qubits }
    ensures { OnOk result (items.new.items ≡ items.old.items ++ measured qubits q bit) }
{
    let axis = one_letter(alloc, qubits, false, q, Letter::Z)?;
    items.push(Item::Measure { axis, bit })?;
    Ok(())
}

/// Appends `x`, `y` or `z`, by its letter.
pub(crate) fn push_half(
    alloc: Global,
    qubits: u32,
    q: u32,
    letter: Letter,
    items: &mut Vec<Item>,
) -> Result<(), Memory>
    requires few { qubits ≤ 1024 }
    requires within { q < qubits }
    ensures { OnOk result (items.new.items ≡ items.old.items
        ++ turn_one qubits false q letter Half ∷ []) }
{
    push_turn(alloc, qubits, false, q, letter, Angle::Half, items)
}

/// Appends `sx`, or `sxdg`.
pub(crate) fn push_sx(
    alloc: Global,
    qubits: u32,
    dagger: bool,
    q: u32,
    items: &mut Vec<Item>,
) -> Result<(), Memory>
    requires few { qubits ≤ 1024 }
    requires within { q < qubits }
    ensures { OnOk result (items.new.items ≡ items.old.items ++ sx_gate qubits dagger q) }
{
    push_turn(alloc, qubits, dagger, q, Letter::X, Angle::Quarter, items)
}

/// Appends a gate that is applied where the bits of a register, the first with weight 1, give a value.
pub(crate) fn push_conditional(
    alloc: Global,
    qubits: u32,
    q: u32,
    letter: Letter,
    first: u32,
    size: u32,
    value: u32,
    items: &mut Vec<Item>,
) -> Result<(), Memory>
    requires few { qubits ≤ 1024 }
    requires within { q < qubits }
    ensures { OnOk result (items.new.items ≡ items.old.items
        ++ conditional qubits letter q first size value) }
{
    let axis = one_letter(alloc, qubits, false, q, letter)?;
    items.push(Item::If {
        axis,
        first,
        size,
        value,
    })?;
    Ok(())
}

/// Appends a reset, which measures into this hidden bit and turns the qubit where the bit is 1.
pub(crate) fn push_reset(
    alloc: Global,
    qubits: u32,
    q: u32,
    bit: u32,
    items: &mut Vec<Item>,
) -> Result<(), Memory>
    requires few { qubits ≤ 1024 }
    requires within { q < qubits }
    ensures { OnOk result (items.new.items ≡ items.old.items ++ reset_by qubits q bit) }
{
    push_measure(alloc, qubits, q, bit, items)?;
    push_conditional(alloc, qubits, q, Letter::X, bit, 1, 1, items)
}
