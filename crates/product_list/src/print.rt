//! Product lists printed.

ghost use Rattle.std.specs.Prelude.{◌≡◌, ◌<◌, ◌≤◌, ◌^◌, ◌++◌, if◌then◌else◌, [], ◌∷◌, length, codes, decimal as decimal_text, Some, None, IfOk, OnOk, OnErr, IfSome, IfNone};
ghost use Rattle.std.specs.List.{flat_map};
ghost use Rattle.std.specs.Option.{option_copied};
ghost use Rattle.patch_base.specs.Texts.{spaced};
ghost use Rattle.pauli_product.specs.Spelling.{product_text};
ghost use Rattle.source_model.specs.Circuits.{WellFormed, bits_in};
ghost use Rattle.source_model.specs.Statics.{statics};
ghost use Rattle.product_list.specs.Printed.{register_with as register_with_bit, register_of as register_of_bits, is_special as is_special_kind, needs_two as needs_version_two, measure_words, settle_words, product_words, header_text, register_text, product_line, list_text};

use patch_base::{Memory, put_decimal};
use pauli_product::Product;
use source_model::{Circuit, Kind, Register, Static};
use std::alloc::Global;

/// Appends the product list of a circuit's static products: its header, its registers in order of
/// declaration, and the products in source order. Version 2 is written exactly where some product
/// measures into a hidden bit or is settled.
///
/// # Errors
///
/// `Memory` where memory runs out; `into` is then as it was.
pub fn print_products(
    alloc: Global,
    circuit: &Circuit,
    products: &[Static],
    into: &mut Vec<u8>,
) -> Result<(), Memory>
    requires well_formed { WellFormed circuit.now }
    requires products { products.now ≡ statics circuit.now.items }
    ensures printed { OnOk result (into.new.items ≡ into.old.items
        ++ list_text circuit.now products.now) }
    ensures refused { OnErr result (into.new.items ≡ into.old.items) }
{
    let text = printed_list(alloc, circuit, products)?;
    into.extend_from_slice(&text)?;
    Ok(())
}

// The product list as a text.
fn printed_list(alloc: Global, circuit: &Circuit, products: &[Static]) -> Result<Vec<u8>, Memory>
    requires { WellFormed circuit.now }
    ensures { IfOk result (λ text. text.items ≡ list_text circuit.now products.now) }
{
    let registers = circuit.registers.as_slice();
    let mut text = Vec::new(alloc);
    print_header(needs_two(registers, products), circuit.qubits, &mut text)?;
    print_registers(registers, &mut text)?;
    print_lines(registers, products, &mut text)?;
    Ok(text)
}

// The first line.
fn print_header(two: bool, qubits: u32, into: &mut Vec<u8>) -> Result<(), Memory>
    ensures { OnOk result (into.new.items ≡ into.old.items ++ header_text two qubits) }
{
    into.extend_from_slice(b"products")?;
    print_word(version(two), into)?;
    print_number(u64::from(qubits), into)?;
    end_line(into)?;
    Ok(())
}

fn version(two: bool) -> &'static [u8]
    ensures { result.now ≡ (if two then codes "2" else codes "1") }
{
    if two {
        b"2".as_slice()
    } else {
        b"1".as_slice()
    }
}

// A line for each register.
fn print_registers(registers: &[Register], into: &mut Vec<u8>) -> Result<(), Memory>
    ensures { OnOk result (into.new.items ≡ into.old.items
        ++ flat_map register_text registers.now) }
{
    for register in registers {
        print_register(register, into)?;
    }
    Ok(())
}

// The line of a register.
fn print_register(register: &Register, into: &mut Vec<u8>) -> Result<(), Memory>
    ensures { OnOk result (into.new.items ≡ into.old.items ++ register_text register.now) }
{
    into.push(b'c')?;
    print_word(register.name.bytes(), into)?;
    print_number(u64::from(register.size), into)?;
    end_line(into)?;
    Ok(())
}

// A line for each product.
fn print_lines(
    registers: &[Register],
    products: &[Static],
    into: &mut Vec<u8>,
) -> Result<(), Memory>
    requires { length registers.now ≤ 64 }
    ensures { OnOk result (into.new.items ≡ into.old.items
        ++ flat_map (product_line registers.now) products.now) }
{
    let bits = register_bits(registers);
    for product in products {
        print_product(registers, bits, product, into)?;
    }
    Ok(())
}

// The line of a product.
fn print_product(
    registers: &[Register],
    bits: u64,
    product: &Static,
    into: &mut Vec<u8>,
) -> Result<(), Memory>
    requires { bits ≡ bits_in registers.now }
    ensures { OnOk result (into.new.items ≡ into.old.items
        ++ product_line registers.now product.now) }
{
    print_words(registers, bits, product, into)?;
    end_line(into)?;
    Ok(())
}

// The words of a product's line.
fn print_words(
    registers: &[Register],
    bits: u64,
    product: &Static,
    into: &mut Vec<u8>,
) -> Result<(), Memory>
    requires { bits ≡ bits_in registers.now }
    ensures { let words = product_words registers.now product.now.axis product.now.kind in
        OnOk result (into.new.items ≡ into.old.items ++ spaced words) }
{
    match product.kind {
        Kind::Rotation => print_axis(b'r', &product.axis, into),
        Kind::Measure { bit } => print_measured(registers, &product.axis, bit, into),
        Kind::Settle { first, size, value } => {
            let hidden = u64::from(first).saturating_sub(bits);
            let register = register_of(registers, first, size);
            print_settled(register, hidden, value, &product.axis, into)
        }
    }
}

// The words of a measurement: into a register's bit, or into the next hidden bit.
fn print_measured(
    registers: &[Register],
    axis: &Product,
    bit: u32,
    into: &mut Vec<u8>,
) -> Result<(), Memory>
    ensures { let words = measure_words axis.now bit (register_with_bit registers.now bit) in
        OnOk result (into.new.items ≡ into.old.items ++ spaced words) }
{
    let Some(register) = register_with(registers, bit) else {
        return print_axis(b'h', axis, into);
    };
    print_axis(b'm', axis, into)?;
    print_word(register.name.bytes(), into)?;
    print_number(u64::from(bit - register.first), into)
}

// The words of a settled product: by a register and a value, or by a hidden bit.
fn print_settled(
    register: Option<&Register>,
    hidden: u64,
    value: u32,
    axis: &Product,
    into: &mut Vec<u8>,
) -> Result<(), Memory>
    ensures { let words = settle_words axis.now hidden value (option_copied register.entry) in
        OnOk result (into.new.items ≡ into.old.items ++ spaced words) }
{
    let Some(register) = register else {
        print_axis(b'j', axis, into)?;
        return print_number(hidden, into);
    };
    print_axis(b'i', axis, into)?;
    print_word(register.name.bytes(), into)?;
    print_number(u64::from(value), into)
}

// A letter and an axis.
fn print_axis(key: u8, axis: &Product, into: &mut Vec<u8>) -> Result<(), Memory>
    ensures { OnOk result (into.new.items ≡ into.old.items ++ key ∷ 32 ∷ product_text axis.now) }
{
    into.push(key)?;
    into.push(b' ')?;
    axis.print(into)
}

// A space and a word.
fn print_word(word: &[u8], into: &mut Vec<u8>) -> Result<(), Memory>
    ensures { OnOk result (into.new.items ≡ into.old.items ++ 32 ∷ word.now) }
{
    into.push(b' ')?;
    into.extend_from_slice(word)?;
    Ok(())
}

/// A space and a number.
pub(crate) fn print_number(number: u64, into: &mut Vec<u8>) -> Result<(), Memory>
    ensures { OnOk result (into.new.items ≡ into.old.items ++ 32 ∷ decimal_text number) }
{
    into.push(b' ')?;
    put_decimal(number, into)
}

/// The end of a line.
pub(crate) fn end_line(into: &mut Vec<u8>) -> Result<(), Memory>
    ensures { OnOk result (into.new.items ≡ into.old.items ++ codes "\n") }
{
    into.push(b'\n')?;
    Ok(())
}

// Whether some product needs version 2.
#[tactic(auto, unfolding(crate::specs::Printed::needs_two))]
fn needs_two(registers: &[Register], products: &[Static]) -> bool
    ensures { result ≡ needs_version_two registers.now products.now }
{
    products
        .iter()
        .any(|product| is_special(registers, product.kind))
}

// Whether version 1 has no line for a product.
fn is_special(registers: &[Register], kind: Kind) -> bool
    ensures { result ≡ is_special_kind registers.now kind }
{
    match kind {
        Kind::Rotation => false,
        Kind::Measure { bit } => register_with(registers, bit).is_none(),
        Kind::Settle { .. } => true,
    }
}

// The register that has a bit.
fn register_with(registers: &[Register], bit: u32) -> Option<&Register>
    ensures found { option_copied result ≡ register_with_bit registers.now bit }
    ensures before { IfSome result (λ r. r.now.first ≤ bit) }
{
    for register in registers {
        if register.first <= bit && bit - register.first < register.size {
            return Some(register);
        }
    }
    None
}

// The register of these bits.
fn register_of(registers: &[Register], first: u32, size: u32) -> Option<&Register>
    ensures { option_copied result ≡ register_of_bits registers.now first size }
{
    for register in registers {
        if register.first == first && register.size == size {
            return Some(register);
        }
    }
    None
}

// The number of bits of the registers.
fn register_bits(registers: &[Register]) -> u64
    requires { length registers.now ≤ 64 }
    ensures { result ≡ bits_in registers.now }
{
    let mut bits = 0;
    for register in registers {
        bits += u64::from(register.size);
    }
    bits
}
