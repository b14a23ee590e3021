//! The static products of a circuit.

ghost use Rattle.std.specs.Prelude.{◌≡◌, ℕ, ◌++◌, ◌≤◌, List, IfOk};
ghost use Rattle.pauli_product.specs.Signed.{OfLength};
ghost use Rattle.pauli_product.specs.Pulls.{Turn, pull};
ghost use Rattle.frame_table.specs.Images.{qubits};
ghost use Rattle.source_model.specs.declared.Given.{Given};
ghost use Rattle.source_model.specs.Circuits.{AxesOfLength, WellFormed};
ghost use Rattle.source_model.specs.SourceRun.{axes, axis_of, bit_after};
ghost use Rattle.source_model.specs.Statics.{statics, static_items};
ghost use Rattle.static_products.specs.Pulled.{kind_of};
ghost use Rattle.static_products.specs.inside.Pulled.{Answers, turn_of};

use frame_table::Frame;
use patch_base::Memory;
use pauli_product::Product;
use source_model::{Angle, Circuit, Item, Kind, Static, law_equal_runs};
use std::alloc::Global;

/// The static products of a circuit in source order: the axis of each rotation, measurement and
/// settled product, pulled through the quarter and half turns before it, the latest first
/// (Litinski 2019, section 1).
///
/// The circuit and its static circuit, which has these products alone, have equal axes and equal
/// bits for every table of outcomes.
///
/// # Errors
///
/// `Memory` where memory runs out.
pub fn statics(alloc: Global, circuit: &Circuit) -> Result<Vec<Static>, Memory>
    requires { WellFormed circuit.now }
    ensures products { IfOk result (λ found. found.items ≡ statics circuit.now.items) }
    ensures axes { IfOk result (λ found. (given : List Given)
        → axes circuit.now.items given ≡ axes (static_items found.items) given) }
    ensures bits { IfOk result (λ found. (given : List Given) (bit : ℕ)
        → bit_after circuit.now.items given bit ≡ bit_after (static_items found.items) given bit) }
{
    law_equal_runs();
    let products = pulled(alloc, circuit.qubits, circuit.items.as_slice())?;
    Ok(products)
}

// The static products of items on so many qubits.
fn pulled(alloc: Global, qubits: u32, items: &[Item]) -> Result<Vec<Static>, Memory>
    requires few { qubits ≤ 1024 }
    requires long { AxesOfLength qubits items.now }
    ensures { IfOk result (λ found. found.items ≡ statics items.now) }
{
    let mut frame = Frame::new(alloc, qubits)?;
    let mut products = Vec::new(alloc);
    for item in items {
        match kind_of(item) {
            Some(kind) => {
                let axis = image(alloc, &frame, axis_of(item))?;
                products.push(Static { axis, kind })?;
            }
            None => turn(&mut frame, item),
        }
    }
    Ok(products)
}

/// The kind of an item's product; a Clifford rotation is none.
pub fn kind_of(item: &Item) -> Option<Kind>
    ensures { result ≡ kind_of item.now }
{
    match item {
        Item::Turn { angle, .. } => match angle {
            Angle::Eighth => Some(Kind::Rotation),
            Angle::Quarter => None,
            Angle::Half => None,
        },
        Item::Measure { bit, .. } => Some(Kind::Measure { bit: *bit }),
        Item::If {
            first,
            size,
            value,
            ..
        } => Some(Kind::Settle {
            first: *first,
            size: *size,
            value: *value,
        }),
    }
}

// An item's own axis.
fn axis_of(item: &Item) -> &Product
    ensures { result.now ≡ axis_of item.now }
{
    match item {
        Item::Turn { axis, .. } => axis,
        Item::Measure { axis, .. } => axis,
        Item::If { axis, .. } => axis,
    }
}

// An axis, pulled through the turns so far.
fn image(alloc: Global, frame: &Frame, axis: &Product) -> Result<Product, Memory>
    requires { OfLength (qubits frame.now) axis.now }
    ensures { IfOk result (λ p. (n : ℕ) (turns : List Turn) → Answers n turns frame.now
        → p ≡ pull turns axis.now) }
{
    let mut image = axis.copy(alloc)?;
    frame.image(axis, &mut image);
    Ok(image)
}

// Adds the turn of a Clifford rotation. It touches the images at the letters of its axis alone.
fn turn(frame: &mut Frame, item: &Item)
    requires { OfLength (qubits frame.old) (axis_of item.now) }
    ensures { (n : ℕ) (turns : List Turn) → Answers n turns frame.old
        → Answers n (turns ++ turn_of item.now) frame.new }
{
    if let Item::Turn { axis, angle } = item {
        match angle {
            Angle::Eighth => {}
            Angle::Quarter => frame.advance(axis, true, false),
            Angle::Half => frame.advance(axis, false, true),
        }
    }
}
