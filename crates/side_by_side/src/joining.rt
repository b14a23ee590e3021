//! Circuits joined into one.

ghost use Rattle.std.specs.Prelude.{◌≡◌, ◌+◌, ◌^◌, ◌<◌, ◌≤◌, ◌++◌, [], All, length, map, IfOk, IfErr, OnOk};
ghost use Rattle.source_model.specs.Circuits.{WellFormed, bits_in};
ghost use Rattle.side_by_side.specs.Joined.{IsJoinOf, IsWithin, JoinRefusedBecause, named, products_in, register_at, sums_of};
ghost use Rattle.side_by_side.specs.inside.Drafts.{HasRoom, drafted, place_after};

use crate::law::law_joined;
use crate::place::Place;
use crate::sums::{Sums, bits_in, sum_of};
use patch_base::{Listed, Memory, put_decimal};
use source_model::{Circuit, Items, Name, Register, Registers};
use std::alloc::Global;

/// The first qubit, product, bit of registers and hidden bit of a program among the joined ones.
#[derive(Clone, Copy, Debug, PartialEq, Eq)]
pub struct Span {
    pub qubit: u32,
    pub product: u32,
    pub bit: u32,
    pub hidden: u32,
}

/// Spans, by program.
pub type Spans = Listed<Span>;

/// Programs joined into one.
#[derive(Drop)]
pub struct Joined {
    /// The programs' items one program after another, on qubits and bits that are numbered on, hidden bits after all bits of
    /// registers. Register `c` of program 0 is named `p0_c`.
    pub circuit: Circuit,
    /// The span of each program.
    pub spans: Spans,
}

/// Why programs aren't joined.
#[derive(Clone, Copy, Debug, PartialEq, Eq)]
pub enum JoinFault {
    /// By this program, the first such one, the number of qubits, products, registers or bits of registers passes its limit.
    TooMany { program: u32 },
    /// Out of memory.
    Memory,
}

impl From<Memory> for JoinFault {
    ghost use Rattle.side_by_side.specs.declared.joining.JoinFault.TheVariants as fault;

    ghost from_gives = { λ _ e. e ≡ fault.Memory };

    fn from(_memory: Memory) -> JoinFault {
        JoinFault::Memory
    }
}

/// Joins one to eight circuits.
///
/// # Errors
///
/// `TooMany` with the first program by which a limit of a circuit is passed: 1,024 qubits, 16,384 products, 64 registers or
/// 16,384 bits of registers. `Memory` out of memory.
pub fn join(alloc: Global, circuits: &[Circuit]) -> Result<Joined, JoinFault>
    requires some { 1 ≤ length circuits.now }
    requires few { length circuits.now ≤ 8 }
    requires each { All WellFormed circuits.now }
    ensures joined { IfOk result (IsJoinOf circuits.now) }
    ensures well_formed { IfOk result (λ j. WellFormed j.circuit) }
    ensures products { IfOk result (λ j. products_in j.circuit.items ≤ 16384) }
    ensures refused { IfErr result (λ fault. JoinRefusedBecause fault circuits.now) }
{
    law_joined();
    let all = match sum_of(circuits) {
        Ok(all) => all,
        Err(program) => return Err(JoinFault::TooMany { program }),
    };
    let mut draft = Draft::new(alloc);
    for (program, circuit) in circuits.iter().enumerate() {
        draft.add(alloc, all, program as u32, circuit)?;
    }
    let circuit = Circuit {
        qubits: all.qubits as u32,
        registers: draft.registers,
        items: draft.items,
        hidden: all.hidden as u32,
    };
    Ok(Joined {
        circuit,
        spans: draft.spans,
    })
}

// The programs that are joined so far, and how much they have.
#[derive(Drop)]
struct Draft {
    at: Sums,
    registers: Registers,
    items: Items,
    spans: Spans,
}

impl Draft {
    fn new(alloc: Global) -> Draft
        ensures { result ≡ record { at = sums_of []; registers = []; items = []; spans = [] } }
    {
        Draft {
            at: Sums::new(),
            registers: Registers::new(alloc),
            items: Items::new(alloc),
            spans: Spans::new(alloc),
        }
    }

    // Appends a program, number `program` of all.
    fn add(
        &mut self,
        alloc: Global,
        all: Sums,
        program: u32,
        circuit: &Circuit,
    ) -> Result<(), Memory>
        requires all { IsWithin all }
        requires within { IsWithin self.old.at }
        requires hidden { self.old.at.hidden ≤ 16384 }
        requires qubits { self.old.at.qubits + circuit.now.qubits ≤ all.qubits }
        requires bits { self.old.at.bits + bits_in circuit.now.registers ≤ all.bits }
        requires circuit { WellFormed circuit.now }
        requires room { All (HasRoom (place_after all self.old.at circuit.now)) circuit.now.items }
        ensures { OnOk result (self.new ≡ drafted all program circuit.now self.old) }
    {
        let registers = circuit.registers.as_slice();
        let at = self.at;
        let bit = at.bits as u32;
        let hidden = (all.bits + at.hidden) as u32;
        let place = Place {
            before: at.qubits as u32,
            after: (all.qubits - at.qubits) as u32 - circuit.qubits,
            bits: bits_in(registers) as u32,
            bit,
            hidden,
        };
        self.spans.push(Span {
            qubit: place.before,
            product: at.products as u32,
            bit,
            hidden,
        })?;
        push_registers(alloc, program, bit, registers, &mut self.registers)?;
        place.push_items(alloc, circuit.items.as_slice(), &mut self.items)?;
        self.at = at.with(circuit);
        Ok(())
    }
}

// Appends the registers of a program, whose bits begin at `bit`.
fn push_registers(
    alloc: Global,
    program: u32,
    bit: u32,
    registers: &[Register],
    into: &mut Registers,
) -> Result<(), Memory>
    requires { All (λ r. bit + r.first < 2 ^ 32) registers.now }
    ensures { OnOk result (into.new ≡ into.old
        ++ map (register_at bit (named program)) registers.now) }
{
    for register in registers {
        into.push(Register {
            name: named(alloc, program, &register.name)?,
            first: bit + register.first,
            size: register.size,
        })?;
    }
    Ok(())
}

// The name of a register of a program among the joined ones.
fn named(alloc: Global, program: u32, name: &Name) -> Result<Name, Memory>
    ensures { IfOk result (λ n. n ≡ named program name.now) }
{
    let mut text = Vec::new(alloc);
    text.push(b'p')?;
    put_decimal(u64::from(program), &mut text)?;
    text.push(b'_')?;
    text.extend_from_slice(name.bytes())?;
    Name::new(alloc, &text)
}
