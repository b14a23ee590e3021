//! What the statements so far make known.

ghost use Rattle.std.specs.Prelude.{◌≡◌, ◌++◌, ◌∷◌, [], None, OnOk, IfSome, slice_get};
ghost use Rattle.qasm_parse.specs.inside.Small.{IsSmall, IsSmallSpan};
ghost use Rattle.qasm_parse.specs.Known.{nothing_known, place_of, meaning_of, quantum_named, classical_named, gate_named, is_own_gate, is_declared, bars_include, with_name};

use crate::gates::{built_in, is_barred};
use crate::names::NameList;
use crate::tree::{Callee, Tree};
use patch_base::{Listed, Memory};
use std::alloc::Global;
use std::marker::Model;

/// The numbers of a register.
#[derive(Clone, Copy)]
pub struct Span {
    pub first: u32,
    pub size: u32,
}

/// A gate that may be called: what it is, how many qubits it takes, and its depth, which is 0 for a built-in one.
#[derive(Clone, Copy)]
pub struct Called {
    pub gate: Callee,
    pub arity: u32,
    pub depth: u32,
}

/// What a name that the text declares means.
#[derive(Clone, Copy)]
pub enum Meaning {
    Quantum { span: Span },
    Classical { span: Span },
    Gate { called: Called },
}

/// Meanings, which contracts see as a list. The numbers of each register are small.
#[derive(Drop)]
pub struct MeaningList {
    items: Vec<Meaning>,
}

impl Model for MeaningList {
    ghost use Rattle.std.specs.Prelude.{List, All};
    ghost use Rattle.qasm_parse.specs.declared.known.Meaning.{Meaning};

    ghost Value = { List Meaning };

    ghost view = { λ s. s.items.items };

    ghost use Rattle.qasm_parse.specs.inside.Small.{IsSmall};

    ghost invariant = { λ s. All IsSmall s.items.items };
}

impl MeaningList {
    /// No meanings.
    pub fn new(alloc: Global) -> MeaningList
        ensures { result ≡ [] }
    {
        MeaningList {
            items: Vec::new(alloc),
        }
    }

    /// The meaning at a place.
    pub fn get(&self, place: usize) -> Option<Meaning>
        ensures value { result ≡ slice_get self.now place }
        ensures small { IfSome result IsSmall }
    {
        self.items.get(place).copied()
    }

    /// Appends a meaning.
    pub fn push(&mut self, meaning: Meaning) -> Result<(), Memory>
        requires { IsSmall meaning }
        ensures { OnOk result (self.new ≡ self.old ++ meaning ∷ []) }
    {
        self.items.push(meaning)?;
        Ok(())
    }
}

/// What the statements so far make known: whether the include was read, the names that were declared and what each means, in order,
/// the number of qubits and of bits, and the tree.
#[derive(Drop)]
pub struct Known {
    pub included: bool,
    pub names: NameList,
    pub meanings: MeaningList,
    pub qubits: u32,
    pub bits: u32,
    pub tree: Tree,
}

/// Nothing.
pub fn nothing_known(alloc: Global) -> Known
    ensures { result ≡ nothing_known }
{
    Known {
        included: false,
        names: NameList::new(alloc),
        meanings: MeaningList::new(alloc),
        qubits: 0,
        bits: 0,
        tree: Tree {
            quantum: Listed::new(alloc),
            classical: Listed::new(alloc),
            gates: Listed::new(alloc),
            statements: Listed::new(alloc),
        },
    }
}

impl Known {
    /// What a name means that the text declares.
    pub fn meaning(&self, name: &[u8]) -> Option<Meaning>
        ensures value { result ≡ meaning_of self.now name.now }
        ensures small { IfSome result IsSmall }
    {
        let place = self.names.find(name)?;
        self.meanings.get(place)
    }

    /// The quantum register of a name.
    pub fn quantum(&self, name: &[u8]) -> Option<Span>
        ensures value { result ≡ quantum_named self.now name.now }
        ensures small { IfSome result IsSmallSpan }
    {
        match self.meaning(name) {
            Some(Meaning::Quantum { span }) => Some(span),
            _ => None,
        }
    }

    /// The classical register of a name.
    pub fn classical(&self, name: &[u8]) -> Option<Span>
        ensures value { result ≡ classical_named self.now name.now }
        ensures small { IfSome result IsSmallSpan }
    {
        match self.meaning(name) {
            Some(Meaning::Classical { span }) => Some(span),
            _ => None,
        }
    }

    /// The gate of a name. What the text declares goes before what the include makes known.
    pub fn gate(&self, name: &[u8]) -> Option<Called>
        ensures { result ≡ gate_named self.now name.now }
    {
        match self.meaning(name) {
            Some(Meaning::Gate { called }) => Some(called),
            Some(_) => None,
            None => { if self.included { built_in(name) } else { None } }
        }
    }

    /// Whether a name is a gate that the text defines.
    pub fn is_own_gate(&self, name: &[u8]) -> bool
        ensures { result ≡ is_own_gate self.now name.now }
    {
        matches!(self.meaning(name), Some(Meaning::Gate { .. }))
    }

    /// Whether a name can't be declared.
    pub fn is_declared(&self, name: &[u8]) -> bool
        ensures { result ≡ is_declared self.now name.now }
    {
        self.names.find(name).is_some() || (self.included && is_barred(name))
    }

    /// Whether an include can't stand after what is known.
    pub fn bars_include(&self) -> bool
        ensures { result ≡ bars_include self.now }
    {
        self.included || self.names.any_barred()
    }

    /// Declares a name that isn't declared.
    pub fn declare(&mut self, alloc: Global, name: &[u8], meaning: Meaning) -> Result<(), Memory>
        requires new { place_of self.old.names name.now ≡ None }
        requires small { IsSmall meaning }
        ensures { OnOk result (self.new ≡ with_name self.old name.now meaning) }
    {
        self.names.push(alloc, name)?;
        self.meanings.push(meaning)?;
        Ok(())
    }
}
