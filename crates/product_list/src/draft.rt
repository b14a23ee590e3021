//! What the lines of a product list have said so far.

ghost use Rattle.std.specs.Prelude.{◌≡◌, ◌≢◌, ◌+◌, ◌≤◌, true, length, find, Some, None, IfOk, IfSome, IfNone};
ghost use Rattle.std.specs.Str.{bytes_eq};
ghost use Rattle.qasm_lex.specs.Tokens.{Gives};
ghost use Rattle.source_model.specs.Circuits.{bits_in};
ghost use Rattle.source_model.specs.declared.Register.{Register as Register_of};
ghost use Rattle.product_list.specs.ListText.{at_line, bare, axis_in_text, named, with_product, with_register, with_line, with_text, is_axis, item_for, hidden_after};
ghost use Rattle.qasm_lex.specs.declared.fault.CircuitFault.TheVariants as fault;
ghost use Rattle.product_list.specs.inside.Lines.{said, ending_said, HasAxis};

use crate::line::{Ending, Line, line_of};
use patch_base::{BITS, Memory, PRODUCTS, QUBITS, REGISTERS, is_skipped};
use pauli_product::Product;
use qasm_lex::{CircuitFault, FaultKind};
use source_model::{Angle, Circuit, Item, Items, Name, Register, Registers};
use std::alloc::Global;
use std::marker::Model;

const MOST_REGISTERS: usize = REGISTERS as usize;

const MOST_PRODUCTS: usize = PRODUCTS as usize;

/// The circuit of the lines so far.
#[derive(Drop)]
pub(crate) struct Draft {
    qubits: u32,
    registers: Vec<Register>,
    /// The number of bits of the registers.
    bits: u32,
    items: Vec<Item>,
    hidden: u32,
}

impl Model for Draft {
    ghost use Rattle.source_model.specs.declared.Circuit.{Circuit};

    ghost Value = { Circuit };

    ghost view = { λ d. record { qubits = d.qubits; registers = d.registers.items; items = d.items.items; hidden = d.hidden } };

    ghost use Rattle.std.specs.Prelude.{◌≡◌, ◌+◌, ◌≤◌, All, length};
    ghost use Rattle.source_model.specs.Circuits.{bits_in};

    ghost invariant = { λ d. record {
      few_qubits : d.qubits ≤ 1024;
      counted : d.bits ≡ bits_in d.registers.items;
      few_bits : d.bits ≤ 16384;
      few_items : length d.items.items ≤ 16384;
      within : All (λ r. r.first + r.size ≤ d.bits) d.registers.items;
      few_hidden : d.hidden ≤ length d.items.items;
    } };
}

impl Draft {
    /// What is there before any line.
    pub(crate) fn new(alloc: Global, qubits: u32) -> Draft
        requires { qubits ≤ 1024 }
        ensures { result ≡ bare qubits }
    {
        Draft {
            qubits,
            registers: Vec::new(alloc),
            bits: 0,
            items: Vec::new(alloc),
            hidden: 0,
        }
    }

    /// The circuit; no memory is taken.
    pub(crate) fn into_circuit(self) -> Circuit
        ensures { result ≡ self }
    {
        Circuit {
            qubits: self.qubits,
            registers: Registers::of(self.registers),
            items: Items::of(self.items),
            hidden: self.hidden,
        }
    }

    /// Takes the line of this number.
    pub(crate) fn take(
        &mut self,
        alloc: Global,
        number: u32,
        two: bool,
        text: &[u8],
    ) -> Result<(), CircuitFault>
        ensures { Gives (λ _. self.new) result (with_text two number self.old text.now) }
    {
        if is_skipped(text) {
            return Ok(());
        }
        match line_of(text, two) {
            None => Err(at(number, FaultKind::Syntax)),
            Some(line) => self.put_line(alloc, number, line),
        }
    }

    // Takes what the line of this number says.
    fn put_line(&mut self, alloc: Global, number: u32, line: Line<'_>) -> Result<(), CircuitFault>
        requires { HasAxis line }
        ensures { Gives (λ _. self.new) result
            (at_line number (with_line self.old (said line.entry))) }
    {
        match line {
            Line::Register { name, size } => self.put_register(alloc, number, name, size),
            Line::Product { axis, ending } => {
                if self.items.len() >= MOST_PRODUCTS {
                    return Err(at(number, FaultKind::TooMany));
                }
                match read_axis(alloc, axis, self.qubits)? {
                    None => Err(at(number, FaultKind::Sizes)),
                    Some(axis) => self.put_product(number, axis, ending),
                }
            }
        }
    }

    // Takes a register from the line of this number.
    fn put_register(
        &mut self,
        alloc: Global,
        number: u32,
        name: &[u8],
        size: u32,
    ) -> Result<(), CircuitFault>
        ensures { Gives (λ _. self.new) result
            (at_line number (with_register self.old name.now size)) }
    {
        if !self.items.is_empty() {
            return Err(at(number, FaultKind::Syntax));
        }
        if self.registers.len() >= MOST_REGISTERS {
            return Err(at(number, FaultKind::TooMany));
        }
        if size > BITS - self.bits {
            return Err(at(number, FaultKind::TooMany));
        }
        if size == 0 {
            return Err(at(number, FaultKind::Sizes));
        }
        if find_register(&self.registers, name).is_some() {
            return Err(at(number, FaultKind::Declared));
        }
        self.registers.push(Register {
            name: Name::new(alloc, name)?,
            first: self.bits,
            size,
        })?;
        self.bits += size;
        Ok(())
    }

    // Takes a product from the line of this number.
    fn put_product(
        &mut self,
        number: u32,
        axis: Product,
        ending: Ending<'_>,
    ) -> Result<(), CircuitFault>
        requires { length self.old.items ≤ 16383 }
        ensures { Gives (λ _. self.new) result
            (at_line number (with_product self.old axis (ending_said ending.entry))) }
    {
        let item = self.item(number, axis, ending)?;
        self.items.push(item)?;
        self.hidden = hidden_after_line(self.hidden, ending);
        Ok(())
    }

    // The item of a product in the line of this number.
    fn item(&self, number: u32, axis: Product, ending: Ending<'_>) -> Result<Item, CircuitFault>
        ensures { Gives (λ i. i) result (at_line number
            (item_for self.now axis (ending_said ending.entry))) }
    {
        match ending {
            Ending::Rotation => Ok(Item::Turn {
                axis,
                angle: Angle::Eighth,
            }),
            Ending::Measurement { name, index } => {
                let Some(register) = find_register(&self.registers, name) else {
                    return Err(at(number, FaultKind::Undeclared));
                };
                if index >= register.size {
                    return Err(at(number, FaultKind::Index));
                }
                Ok(Item::Measure {
                    axis,
                    bit: register.first + index,
                })
            }
            Ending::Hidden => Ok(Item::Measure {
                axis,
                bit: self.bits + self.hidden,
            }),
            Ending::Settled { name, value } => {
                let Some(register) = find_register(&self.registers, name) else {
                    return Err(at(number, FaultKind::Undeclared));
                };
                Ok(Item::If {
                    axis,
                    first: register.first,
                    size: register.size,
                    value,
                })
            }
            Ending::Reset { number: hidden } => {
                if hidden >= self.hidden {
                    return Err(at(number, FaultKind::Index));
                }
                Ok(Item::If {
                    axis,
                    first: self.bits + hidden,
                    size: 1,
                    value: 1,
                })
            }
        }
    }
}

/// A fault of a line.
pub(crate) fn at(line: u32, kind: FaultKind) -> CircuitFault
    ensures { result ≡ fault.At line kind }
{
    CircuitFault::At { line, kind }
}

// The number of hidden bits after a product.
fn hidden_after_line(hidden: u32, ending: Ending<'_>) -> u32
    requires { hidden ≤ 16384 }
    ensures value { result ≡ hidden_after hidden (ending_said ending.entry) }
    ensures few { result ≤ hidden + 1 }
{
    match ending {
        Ending::Hidden => hidden + 1,
        _ => hidden,
    }
}

// The register of a name.
fn find_register<'a>(registers: &'a [Register], name: &[u8]) -> Option<&'a Register>
    ensures some { IfSome result (λ r. named registers.now name.now ≡ Some r.now) }
    ensures none { IfNone result (named registers.now name.now ≡ None) }
{
    for register in registers {
        if register.name.bytes() == name {
            return Some(register);
        }
    }
    None
}

// The axis that a text spells, where it has a letter for each of these qubits.
fn read_axis(alloc: Global, text: &[u8], qubits: u32) -> Result<Option<Product>, Memory>
    requires axis { is_axis text.now ≡ true }
    requires few { qubits ≤ 1024 }
    ensures some { IfOk result (λ found.
        IfSome found (λ p. (p ≡ axis_in_text text.now) × (length p.letters ≡ qubits))) }
    ensures none { IfOk result (λ found.
        IfNone found (length (axis_in_text text.now).letters ≢ qubits)) }
{
    if text.len() != qubits as usize + 1 {
        return Ok(None);
    }
    Product::parse(alloc, text)
}
