//! The plain runs, on three products and on a circuit with every kind of item.

ghost use Rattle.std.specs.Prelude.{◌≡◌, [], ◌∷◌, IfOk};
ghost use Rattle.pauli_product.specs.Signed.{plus};
ghost use Rattle.source_model.specs.declared.Angle.TheVariants.{Eighth};
ghost use Rattle.source_model.specs.declared.Item.TheVariants.{Turn, Measure};
ghost use Rattle.source_model.specs.Rows.{every_item, three_products};

use patch_base::Memory;
use pauli_product::{Letter, Product};
use source_model::{
    Angle, Circuit, Given, Item, Items, Name, Register, Registers, axes_plain, bits_plain,
};
use std::alloc::Global;
use std::test::Fail;

// A rotation by pi/8 about a letter of the one qubit.
fn rotation(alloc: Global, letter: Letter) -> Result<Item, Memory>
    ensures { IfOk result (λ i. i ≡ Turn (plus (letter ∷ [])) Eighth) }
{
    Ok(Item::Turn {
        axis: Product::new(alloc, false, &[letter])?,
        angle: Angle::Eighth,
    })
}

// A measurement of a letter of the one qubit.
fn measurement(alloc: Global, letter: Letter, bit: u32) -> Result<Item, Memory>
    ensures { IfOk result (λ i. i ≡ Measure (plus (letter ∷ [])) bit) }
{
    Ok(Item::Measure {
        axis: Product::new(alloc, false, &[letter])?,
        bit,
    })
}

// A circuit on one qubit with the register c[1].
fn on_one_bit(alloc: Global, items: Vec<Item>, hidden: u32) -> Result<Circuit, Memory>
    ensures { IfOk result (λ c. c ≡ record {
      qubits = 1;
      registers = record { name = 99 ∷ []; first = 0; size = 1 } ∷ [];
      items = items.items;
      hidden = hidden;
    }) }
{
    let mut registers = Vec::new(alloc);
    registers.push(Register {
        name: Name::new(alloc, b"c")?,
        first: 0,
        size: 1,
    })?;
    Ok(Circuit {
        qubits: 1,
        registers: Registers::of(registers),
        items: Items::of(items),
        hidden,
    })
}

// Rotations about +Z and +X, and a measurement of +X.
fn three_products_circuit(alloc: Global) -> Result<Circuit, Memory>
    ensures { IfOk result (λ c. c ≡ three_products) }
{
    let mut items = Vec::new(alloc);
    items.push(rotation(alloc, Letter::Z)?)?;
    items.push(rotation(alloc, Letter::X)?)?;
    items.push(measurement(alloc, Letter::X, 0)?)?;
    on_one_bit(alloc, items, 0)
}

// Rotations about +Z and +X, a reset and a measurement of +Z.
fn every_item_circuit(alloc: Global) -> Result<Circuit, Memory>
    ensures { IfOk result (λ c. c ≡ every_item) }
{
    let mut items = Vec::new(alloc);
    items.push(rotation(alloc, Letter::Z)?)?;
    items.push(rotation(alloc, Letter::X)?)?;
    items.push(measurement(alloc, Letter::X, 1)?)?;
    items.push(Item::If {
        axis: Product::new(alloc, false, &[Letter::X])?,
        first: 1,
        size: 1,
        value: 1,
    })?;
    items.push(measurement(alloc, Letter::Z, 0)?)?;
    on_one_bit(alloc, items, 1)
}

// The outcomes 1 and 0 of two rotations.
const TWO_ROTATIONS: [Given; 2] = [
    Given::Rotation {
        raw: true,
        x: false,
    },
    Given::Rotation {
        raw: false,
        x: false,
    },
];

// The text of the axes.
fn axes_text(alloc: Global, axes: &[Product]) -> Result<Vec<u8>, Memory> {
    let mut text = Vec::new(alloc);
    for axis in axes {
        axis.print(&mut text)?;
    }
    Ok(text)
}

// The second rotation is about the first one's axis turned by a quarter, and -Y has the outcome 1.
#[test]
fn plays_three_products(rt: HostRuntime) -> Result<(), Fail> {
    let circuit = three_products_circuit(rt.alloc())?;
    let [first, second] = TWO_ROTATIONS;
    let given = [first, second, Given::Measure { raw: false }];
    let axes = axes_plain(rt.alloc(), &circuit, &given)?;
    let text = axes_text(rt.alloc(), &axes)?;
    assert_eq!(rt; text.as_slice(), "+Z-Y-Y".as_bytes());
    let bits = bits_plain(rt.alloc(), &circuit, &given)?;
    assert_eq!(rt; bits.as_slice(), [true].as_slice());
    Ok(())
}

#[test]
fn plays_items_one_at_a_time(rt: HostRuntime) -> Result<(), Fail> {
    let circuit = every_item_circuit(rt.alloc())?;
    let [first, second] = TWO_ROTATIONS;
    let measured = Given::Measure { raw: false };
    let given = [first, second, measured, Given::Settled, measured];
    let axes = axes_plain(rt.alloc(), &circuit, &given)?;
    let text = axes_text(rt.alloc(), &axes)?;
    assert_eq!(rt; text.as_slice(), "+Z-Y-Y-Y-X".as_bytes());
    let bits = bits_plain(rt.alloc(), &circuit, &given)?;
    assert_eq!(rt; bits.as_slice(), [true].as_slice());
    Ok(())
}
