//! The plain program of the scheme: items one at a time in source order, over a list of Clifford
//! turns (Litinski 2019, section 1).

ghost use Rattle.std.specs.Prelude.{◌≡◌, ℕ, Bool, false, ◌+◌, ◌*◌, ◌^◌, ◌≤◌, ◌==◌, ◌++◌, length, drop, List, slice_index_or, IfOk, OnOk};
ghost use Rattle.pauli_product.specs.Bits.{number_of};
ghost use Rattle.pauli_product.specs.Corrections.{effective, turn_if};
ghost use Rattle.pauli_product.specs.Pulls.{TurnsOfLength, conj, pull};
ghost use Rattle.source_model.specs.Bits.{bits_after};
ghost use Rattle.source_model.specs.inside.Bits.{BitsAre};
ghost use Rattle.source_model.specs.Circuits.{BitsBelow, RightKinds, WellFormed, bits_in};
ghost use Rattle.source_model.specs.inside.Kept.{Carries, clifford_angle, product_axis};
ghost use Rattle.source_model.specs.Outcomes.{raw_of, x_of};
ghost use Rattle.source_model.specs.SourceRun.{axes, axis_of, next_of};

use crate::{Angle, Circuit, Given, Item, Register};
use patch_base::Memory;
use pauli_product::Product;
use std::alloc::Global;
use std::marker::Model;

/// The signed axis of each product in source order, with a table that has one outcome of the right
/// kind per product.
///
/// # Errors
///
/// `Memory` when out of memory.
pub fn axes_plain(alloc: Global, circuit: &Circuit, given: &[Given]) -> Result<Vec<Product>, Memory>
    requires well_formed { WellFormed circuit.now }
    requires right_kinds { RightKinds circuit.now.items given.now }
    ensures { IfOk result (λ found. found.items ≡ axes circuit.now.items given.now) }
{
    let played = play(alloc, circuit, given)?;
    Ok(played.axes)
}

/// The bits of the registers after the run, with such a table.
///
/// # Errors
///
/// `Memory` when out of memory.
pub fn bits_plain(alloc: Global, circuit: &Circuit, given: &[Given]) -> Result<Vec<bool>, Memory>
    requires well_formed { WellFormed circuit.now }
    requires right_kinds { RightKinds circuit.now.items given.now }
    ensures { let bits = bits_after circuit.now.registers circuit.now.items given.now in
        IfOk result (λ found. found.items ≡ bits) }
{
    let played = play(alloc, circuit, given)?;
    let mut bits = played.bits;
    bits.truncate(register_bits(circuit.registers.as_slice()));
    Ok(bits)
}

// The axes of a whole run, and all bits after it.
#[derive(Drop)]
struct Played {
    axes: Vec<Product>,
    bits: Vec<bool>,
}

// Carries out all items.
fn play(alloc: Global, circuit: &Circuit, given: &[Given]) -> Result<Played, Memory>
    requires { WellFormed circuit.now }
    ensures axes { IfOk result (λ p. p.axes.items ≡ axes circuit.now.items given.now) }
    ensures count { let count = bits_in circuit.now.registers + circuit.now.hidden in
        IfOk result (λ p. length p.bits.items ≡ count) }
    ensures bits { IfOk result (λ p. BitsAre p.bits.items circuit.now.items given.now) }
{
    let hidden = circuit.hidden as usize;
    let bit_count = register_bits(circuit.registers.as_slice()) + hidden;
    let mut run = Run {
        turns: Vec::new(alloc),
        bits: vec![in alloc; false; bit_count]?,
    };
    let mut axes = Vec::new(alloc);
    let mut next = 0;
    for item in circuit.items.as_slice() {
        let outcome = outcome_at(given, next);
        if let Some(axis) = run.carry_out(alloc, item, outcome)? {
            axes.push(axis)?;
            next += 1;
        }
    }
    Ok(Played {
        axes,
        bits: run.bits,
    })
}

// The number of bits of the registers.
fn register_bits(registers: &[Register]) -> usize
    requires { length registers.now ≤ 64 }
    ensures value { result ≡ bits_in registers.now }
    ensures small { result ≤ 64 * 2 ^ 32 }
{
    let mut bits = 0;
    for register in registers {
        bits += register.size as usize;
    }
    bits
}

// The outcome at a place of the table, and none past it.
fn outcome_at(given: &[Given], place: usize) -> Given
    ensures { result ≡ next_of (drop place given.now) }
{
    given.get(place).copied().unwrap_or(Given::Settled)
}

impl Given {
    // The raw outcome.
    fn raw(self) -> bool
        ensures { result ≡ raw_of self }
    {
        match self {
            Given::Rotation { raw, .. } | Given::Measure { raw } => raw,
            Given::Settled => false,
        }
    }

    // The X outcome of a magic state.
    fn x(self) -> bool
        ensures { result ≡ x_of self }
    {
        match self {
            Given::Rotation { x, .. } => x,
            Given::Measure { .. } | Given::Settled => false,
        }
    }
}

// A Clifford rotation about an axis, by pi/2 or by pi/4.
#[derive(Drop)]
struct Clifford {
    axis: Product,
    is_half: bool,
}

impl Model for Clifford {
    ghost use Rattle.pauli_product.specs.Pulls.{Turn, turn};
    ghost use Rattle.source_model.specs.inside.Kept.{clifford_angle};

    ghost Value = { Turn };

    ghost view = { λ c. turn c.axis (clifford_angle c.is_half) };
}

impl Clifford {
    // Moves the rotation to after a product.
    fn act_on(&self, p: &mut Product)
        requires { length p.old.letters ≡ length self.now.axis.letters }
        ensures { p.new ≡ conj self.now.axis self.now.angle p.old }
    {
        if self.is_half {
            p.conj_half(&self.axis);
        } else {
            p.conj_quarter(&self.axis);
        }
    }
}

// A product pulled through turns, the latest first.
fn pulled(alloc: Global, turns: &[Clifford], p: &Product) -> Result<Product, Memory>
    requires { TurnsOfLength (length p.now.letters) turns.now }
    ensures { IfOk result (λ image. image ≡ pull turns.now p.now) }
{
    let mut image = p.copy(alloc)?;
    for i in (0..turns.len()).rev() {
        turns[i].act_on(&mut image);
    }
    Ok(image)
}

// The effective outcome about an axis.
fn effective_outcome(executed: &Product, raw: bool) -> bool
    ensures { result ≡ effective executed.now raw }
{
    raw != executed.sign()
}

// Whether bits from `first` on spell a number, the first with weight 1.
fn spells(bits: &[bool], first: usize, size: usize, value: u32) -> bool
    requires { first + size ≤ length bits.now }
    ensures { result ≡ (number_of (λ b. slice_index_or bits.now b false) first size == value) }
{
    let mut rest = value;
    for i in 0..size {
        if bits[first + i] != (rest % 2 == 1) {
            return false;
        }
        rest /= 2;
    }
    rest == 0
}

// A run so far: its turns in time order, and its bits.
#[derive(Drop)]
struct Run {
    turns: Vec<Clifford>,
    bits: Vec<bool>,
}

impl Run {
    // Appends a turn where a truth value says so.
    fn turn_if(
        &mut self,
        alloc: Global,
        holds: bool,
        axis: &Product,
        is_half: bool,
    ) -> Result<(), Memory>
        ensures turns { let more = turn_if holds axis.now (clifford_angle is_half) in
            OnOk result (self.new.turns.items ≡ self.old.turns.items ++ more) }
        ensures bits { self.new.bits ≡ self.old.bits }
    {
        if holds {
            self.turns.push(Clifford {
                axis: axis.copy(alloc)?,
                is_half,
            })?;
        }
        Ok(())
    }

    // Carries out an item with the outcome of its product, and answers the axis of that product.
    fn carry_out(
        &mut self,
        alloc: Global,
        item: &Item,
        given: Given,
    ) -> Result<Option<Product>, Memory>
        requires turns_fit { TurnsOfLength (length (axis_of item.now).letters) self.old.turns.items }
        requires bits_fit { BitsBelow (length self.old.bits.items) item.now }
        ensures axis { IfOk result (λ axis. axis ≡ product_axis self.old.turns.items item.now) }
        ensures state { let old = self.old in
            let new = self.new in
            OnOk result (Carries item.now given
            old.turns.items old.bits.items new.turns.items new.bits.items) }
        ensures count { length self.new.bits.items ≡ length self.old.bits.items }
    {
        match item {
            Item::Turn { axis, angle } => match angle {
                Angle::Eighth => {
                    let executed = pulled(alloc, &self.turns, axis)?;
                    let quarter = effective_outcome(&executed, given.raw());
                    self.turn_if(alloc, quarter, axis, false)?;
                    self.turn_if(alloc, given.x(), axis, true)?;
                    Ok(Some(executed))
                }
                Angle::Quarter => {
                    self.turn_if(alloc, true, axis, false)?;
                    Ok(None)
                }
                Angle::Half => {
                    self.turn_if(alloc, true, axis, true)?;
                    Ok(None)
                }
            },
            Item::Measure { axis, bit } => {
                let executed = pulled(alloc, &self.turns, axis)?;
                self.bits[*bit as usize] = effective_outcome(&executed, given.raw());
                Ok(Some(executed))
            }
            Item::If {
                axis,
                first,
                size,
                value,
            } => {
                let executed = pulled(alloc, &self.turns, axis)?;
                let flips = spells(&self.bits, *first as usize, *size as usize, *value);
                self.turn_if(alloc, flips, axis, true)?;
                Ok(Some(executed))
            }
        }
    }
}
