//! The axes of one of joined programs.

ghost use Rattle.std.specs.Prelude.{◌≡◌, ◌+◌, ◌==◌, ◌<◌, ◌≤◌, if◌then◌else◌, List, Some, None, All, length, map, take, slice_get, IfOk};
ghost use Rattle.source_model.specs.declared.Circuit.{Circuit as Circuits};
ghost use Rattle.source_model.specs.declared.Given.{Given as Givens};
ghost use Rattle.source_model.specs.Statics.{AreOutcomesOf};
ghost use Rattle.board_core.specs.History.{delivered, delivery_in, entries};
ghost use Rattle.board_core.specs.Legal.{Complete};
ghost use Rattle.board_core.specs.Position.{past};
ghost use Rattle.side_by_side.specs.Joined.{IsJoinOf, products_in, qubits_of};
ghost use Rattle.side_by_side.specs.Programs.{IsCarriedOut, Program, axes_alone, own_part, share_of};
ghost use Rattle.side_by_side.specs.inside.Told.{Hears, Tells, start_of};

use crate::joining::Joined;
use crate::law::{law_alone, law_joined};
use board_core::{Board, Entry, Noted};
use node_log::Log;
use patch_base::Memory;
use pauli_product::Product;
use source_model::{Given, axes_plain};
use std::alloc::Global;

/// The axes about which the products of a program were carried out, on its own qubits. The board is one of the joined
/// circuit's static products, carried out to the end.
///
/// # Errors
///
/// `Memory` out of memory.
pub fn axes_of(
    alloc: Global,
    board: &Board,
    joined: &Joined,
    program: u32,
) -> Result<Vec<Product>, Memory>
    requires { (ps : List Program) × IsCarriedOut joined.now board.now ps × (program < length ps) }
    ensures { IfOk result (λ axes. (ps : List Program) (p : Program) →
        IsCarriedOut joined.now board.now ps → slice_get ps program ≡ Some p →
        axes.items ≡ axes_alone p) }
{
    law_alone();
    law_joined();
    let given = outcomes_of(alloc, board)?;
    let all = axes_plain(alloc, &joined.circuit, &given)?;
    own_of(alloc, joined, program, &all)
}

// Of the axes of all products, those of a program on its own qubits.
fn own_of(
    alloc: Global,
    joined: &Joined,
    program: u32,
    all: &[Product],
) -> Result<Vec<Product>, Memory>
    requires joined { (cs : List Circuits) × IsJoinOf cs joined.now × (program < length cs) }
    requires count { length all.now ≡ products_in joined.now.circuit.items }
    requires few { length all.now ≤ 16384 }
    requires long { All (λ axis. length axis.letters ≡ joined.now.circuit.qubits) all.now }
    ensures { IfOk result (λ axes. (cs : List Circuits) (c : Circuits) →
        IsJoinOf cs joined.now → slice_get cs program ≡ Some c →
        axes.items ≡ map (own_part (qubits_of (take program cs)) c.qubits)
        (share_of cs program c all.now)) }
{
    let products = all.len() as u32;
    let at = program as usize;
    let first = start_of(joined, at, products);
    let next = start_of(joined, at + 1, products);
    let own = &all[first.product as usize..next.product as usize];
    own_parts(alloc, own, first.qubit, next.qubit - first.qubit)
}

// The first qubit and the first product of a program.
#[derive(Clone, Copy)]
struct Start {
    qubit: u32,
    product: u32,
}

// Where a program begins, of so many products in all. The number after that of the last program begins where all end.
fn start_of(joined: &Joined, program: usize, products: u32) -> Start
    requires joined { (cs : List Circuits) × IsJoinOf cs joined.now × (program ≤ length cs) }
    requires products { products ≡ products_in joined.now.circuit.items }
    ensures { (cs : List Circuits) → IsJoinOf cs joined.now → result ≡ start_of cs program }
{
    let spans = joined.spans.as_slice();
    if program < spans.len() {
        let span = spans[program];
        return Start {
            qubit: span.qubit,
            product: span.product,
        };
    }
    Start {
        qubit: joined.circuit.qubits,
        product: products,
    }
}

// Products on so many qubits after so many others.
fn own_parts(
    alloc: Global,
    axes: &[Product],
    before: u32,
    count: u32,
) -> Result<Vec<Product>, Memory>
    requires few { before + count ≤ 1024 }
    requires within { All (λ axis. before + count ≤ length axis.letters) axes.now }
    ensures { IfOk result (λ parts. parts.items ≡ map (own_part before count) axes.now) }
{
    let mut parts = Vec::new(alloc);
    for axis in axes {
        parts.push(own_part(alloc, axis, before, count)?)?;
    }
    Ok(parts)
}

// A product on so many qubits after so many others.
fn own_part(alloc: Global, axis: &Product, before: u32, count: u32) -> Result<Product, Memory>
    requires few { before + count ≤ 1024 }
    requires within { before + count ≤ length axis.now.letters }
    ensures { IfOk result (λ p. p ≡ own_part before count axis.now) }
{
    let mut own = Product::identity(alloc, count)?;
    for q in 0..count {
        own.set_letter(q, axis.letter(before + q));
    }
    if axis.sign() {
        own.negate();
    }
    Ok(own)
}

// The outcomes for which a board is complete.
fn outcomes_of(alloc: Global, board: &Board) -> Result<Vec<Given>, Memory>
    ensures { IfOk result (λ given. (table : List Givens) →
        AreOutcomesOf table board.now.job.products →
        Complete board.now.job (past board.now) table → given.items ≡ table) }
{
    let told = Told::of(alloc, board.products().len(), board.history())?;
    let mut given = Vec::new(alloc);
    for outcome in &told.given {
        given.push(outcome.unwrap_or(Given::Settled))?;
    }
    Ok(given)
}

// What is delivered for each product, as far as a history has it.
#[derive(Drop)]
struct Told {
    given: Vec<Option<Given>>,
}

impl Told {
    fn new(alloc: Global, products: usize) -> Result<Told, Memory>
        ensures { IfOk result (λ t. Tells products (λ p. None) t.given.items) }
    {
        Ok(Told {
            given: vec![in alloc; None; products]?,
        })
    }

    // Notes what an entry delivers. What was delivered first stays.
    fn hear(&mut self, entry: &Entry)
        ensures { Hears (λ p. delivery_in p entry.now) self.old.given.items self.new.given.items }
    {
        if let Entry::Deliver { product, given } = entry {
            note(&mut self.given, *product, *given);
        }
    }

    // What a history tells of so many products.
    fn of(alloc: Global, products: usize, history: &Log<Noted>) -> Result<Told, Memory>
        ensures { IfOk result (λ t. Tells products
            (λ p. delivered (entries history.now) p) t.given.items) }
    {
        let mut told = Told::new(alloc, products)?;
        for noted in history.walk() {
            told.hear(&noted.entry);
        }
        Ok(told)
    }
}

fn note(given: &mut [Option<Given>], product: u32, outcome: Given)
    ensures { Hears (λ p. if product == p then Some outcome else None) given.old given.new }
{
    let p = product as usize;
    if p < given.len() {
        given[p] = given[p].or(Some(outcome));
    }
}
