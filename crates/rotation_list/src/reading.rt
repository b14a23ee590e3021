//! Reading circuit texts of both forms.

ghost use Rattle.std.specs.Prelude.{ℕ, List, MatchResult, ◌≡◌, ◌⊎◌, ◌≤◌, IfOk, IfErr, All, length, map};
ghost use Rattle.source_model.specs.declared.Circuit.{Circuit};
ghost use Rattle.qasm_lex.specs.declared.fault.CircuitFault.{CircuitFault};
ghost use Rattle.source_model.specs.Circuits.{WellFormed, kinds};
ghost use Rattle.qasm_lex.specs.declared.fault.CircuitFault.TheVariants as fault;
ghost use Rattle.qasm_expand.specs.Flats.{flats_of};
ghost use Rattle.qasm_expand.specs.Sound.{IsSound, members};
ghost use Rattle.rotation_list.specs.Items.{IsTreeOf, circuit_of, register_in};
ghost use Rattle.rotation_list.specs.inside.Items.{ActsBelow, HasNames, IsNamed};
ghost use Rattle.product_list.specs.Listable.{AxisHasLetter};
ghost use Rattle.rotation_list.specs.Texts.{IsProgramOf, IsRefused, StandsFor, is_list};
ghost use Rattle.rotation_list.specs.inside.Texts.{FaultOf};

use crate::items::program_items;
use crate::law::law_one_circuit;
use patch_base::Memory;
use product_list::read_list;
use qasm_expand::{Flat, expand, law_placed, law_sound};
use qasm_lex::{CircuitFault, tokens};
use qasm_parse::{Declared, Tree, parse};
use source_model::{Circuit, Items, Name, Register, Registers};
use std::alloc::Global;

/// The circuit that a text stands for: a product list, where the text begins with `products `, and else a program in OpenQASM 2.0.
///
/// Each flat operation of a program is replaced by turns about Pauli products, measurements and settled products. A reset measures into
/// a hidden bit of its own, and turns its qubit where that bit is 1.
///
/// # Errors
///
/// That of `read_list` for a product list, and else the first fault of the tokens, of the grammar and the names, and of the limits on
/// operations and products. `Memory` where memory runs out.
pub fn read_circuit(alloc: Global, text: &[u8]) -> Result<Circuit, CircuitFault>
    ensures read { IfOk result (StandsFor text.now) }
    ensures formed { IfOk result (λ c. WellFormed c) }
    ensures few { IfOk result (λ c. length (kinds c.items) ≤ 16384) }
    ensures letters { IfOk result (λ c. All AxisHasLetter c.items) }
    ensures refused { IfErr result (λ f. (f ≡ fault.Memory) ⊎ IsRefused text.now f) }
    ensures exact { (c : Circuit) → StandsFor text.now c
        → MatchResult result (λ d. d ≡ c) (λ f. f ≡ fault.Memory) }
    ensures faults { (f : CircuitFault) → IsRefused text.now f
        → MatchResult result (λ d. ⊥) (λ e. (e ≡ f) ⊎ (e ≡ fault.Memory)) }
{
    law_one_circuit();
    read_either(alloc, text)
}

// The circuit of a text in either form.
fn read_either(alloc: Global, text: &[u8]) -> Result<Circuit, CircuitFault>
    ensures read { IfOk result (StandsFor text.now) }
    ensures formed { IfOk result (λ c. WellFormed c) }
    ensures few { IfOk result (λ c. length (kinds c.items) ≤ 16384) }
    ensures letters { IfOk result (λ c. All AxisHasLetter c.items) }
    ensures refused { IfErr result (λ f. (f ≡ fault.Memory) ⊎ IsRefused text.now f) }
{
    if is_list(text) {
        read_list(alloc, text)
    } else {
        read_program(alloc, text)
    }
}

// Whether a text begins with the nine bytes `products `.
fn is_list(text: &[u8]) -> bool
    ensures { result ≡ is_list text.now }
{
    text.len() >= 9 && &text[..9] == b"products ".as_slice()
}

// The circuit that a program stands for.
fn read_program(alloc: Global, text: &[u8]) -> Result<Circuit, CircuitFault>
    ensures read { IfOk result (IsProgramOf text.now) }
    ensures formed { IfOk result (λ c. WellFormed c) }
    ensures few { IfOk result (λ c. length (kinds c.items) ≤ 16384) }
    ensures letters { IfOk result (λ c. All AxisHasLetter c.items) }
    ensures refused { IfErr result (FaultOf text.now) }
{
    law_sound();
    let tree = read_tree(alloc, text)?;
    let flats = expand(alloc, &tree)?;
    law_placed();
    let circuit = joined(alloc, text, tree, &flats)?;
    Ok(circuit)
}

// The tree of a program.
fn read_tree(alloc: Global, text: &[u8]) -> Result<Tree, CircuitFault>
    ensures read { IfOk result (IsTreeOf text.now) }
    ensures named { IfOk result (HasNames text.now) }
    ensures refused { IfErr result (FaultOf text.now) }
{
    let tokens = tokens(alloc, text)?;
    qasm_lex::law_placed();
    parse(alloc, text, &tokens)
}

// The circuit of a tree and its flat operations. The tree, which is large, goes before the items come.
fn joined(alloc: Global, text: &[u8], tree: Tree, flats: &[Flat]) -> Result<Circuit, Memory>
    requires sound { IsSound tree }
    requires flats { flats.now ≡ flats_of tree }
    requires bounded { length flats.now ≤ 262144 }
    requires placed { All (ActsBelow (members tree.quantum)) flats.now }
    requires named { All (IsNamed text.now) tree.classical }
    ensures { IfOk result (λ c. c ≡ circuit_of text.now tree) }
{
    let qubits = members(tree.quantum.as_slice());
    let bits = members(tree.classical.as_slice());
    let registers = named_registers(alloc, text, tree.classical.as_slice())?;
    drop(tree);
    let (items, hidden) = program_items(alloc, qubits, bits, flats)?;
    Ok(Circuit {
        qubits,
        registers: Registers::of(registers),
        items: Items::of(items),
        hidden,
    })
}

// How many qubits, or bits, registers have.
fn members(registers: &[Declared]) -> u32
    requires { members registers.now ≤ 16384 }
    ensures { result ≡ members registers.now }
{
    let mut members = 0;
    for register in registers {
        members += register.size;
    }
    members
}

// Classical registers with their names.
fn named_registers(
    alloc: Global,
    text: &[u8],
    declared: &[Declared],
) -> Result<Vec<Register>, Memory>
    requires { All (IsNamed text.now) declared.now }
    ensures { IfOk result (λ v. v.items ≡ map (register_in text.now) declared.now) }
{
    let mut registers = Vec::new(alloc);
    for d in declared {
        let name = Name::new(alloc, &text[d.start as usize..d.end as usize])?;
        registers.push(Register {
            name,
            first: d.first,
            size: d.size,
        })?;
    }
    Ok(registers)
}
