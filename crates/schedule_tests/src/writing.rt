//! Schedules and bits written to sinks that fail, and bits by value.

ghost use Rattle.std.specs.Prelude.{◌≡◌, true, [], ◌∷◌, IfOk};
ghost use Rattle.source_model.specs.Circuits.{WellFormed};
ghost use Rattle.pauli_product.specs.declared.Letter.TheVariants.{Z};

use crate::jobs::{board, circuit};
use board_core::{Board, Entry, Noted};
use node_log::{Log, Node};
use patch_base::{Failed, MemorySink};
use patch_layout::CellList;
use pauli_product::{Letter, Product};
use schedule_text::{bits_of, history_bits, write_bits, write_history, write_schedule};
use source_model::{Circuit, Given, Item, Items, Kind, Name, Register, Registers, Static};
use std::alloc::Global;
use std::process::Abort;
use std::test::Fail;

fn check_board(rt: &impl Abort, alloc: Global, board: &Board) -> Result<(), Fail>
    requires { board.now.job.products ≡ [] }
{
    let circuit = circuit(alloc)?;
    let bits = bits_of(alloc, &circuit, board)?;
    assert_eq!(rt; bits.as_slice(), [false].as_slice());
    let mut sink = MemorySink::new(alloc, 100, 100)?;
    assert_eq!(rt; write_schedule(&circuit, board, &bits, &mut sink), Ok(()));
    assert_eq!(rt; sink.bytes(), b"schedule 2\nbits c 0\n".as_slice());
    Ok(())
}

#[test]
fn writes_a_board(rt: HostRuntime) -> Result<(), Fail> {
    let board = board(rt.alloc())?;
    check_board(&rt, rt.alloc(), &board)
}

#[test]
fn stops_where_the_sink_fails(rt: HostRuntime) -> Result<(), Fail> {
    let circuit = circuit(rt.alloc())?;
    let mut sink = MemorySink::new(rt.alloc(), 100, 1)?;
    sink.fail_at(2)?;
    assert_eq!(rt;
        write_history(&circuit, &Log::new(), &[true], &mut sink),
        Err(Failed)
    );
    assert_eq!(rt; sink.bytes(), b"sc".as_slice());
    Ok(())
}

#[test]
fn stops_where_the_sink_is_full(rt: HostRuntime) -> Result<(), Fail> {
    let circuit = circuit(rt.alloc())?;
    let mut sink = MemorySink::new(rt.alloc(), 3, 100)?;
    assert_eq!(rt; write_bits(&circuit, &[true], &mut sink), Err(Failed));
    assert_eq!(rt; sink.bytes(), b"bit".as_slice());
    Ok(())
}

/// A circuit of one qubit that measures -Z into its one bit.
fn measuring(alloc: Global) -> Result<Circuit, Fail>
    ensures formed { IfOk result (λ c. WellFormed c) }
    ensures items { IfOk result (λ c. c.items ≡ Item.Measure (record { sign = true; letters = Z ∷ [] }) 0 ∷ []) }
{
    let mut registers = Vec::new(alloc);
    registers.push(Register {
        name: Name::new(alloc, b"c")?,
        first: 0,
        size: 1,
    })?;
    let mut items = Vec::new(alloc);
    items.push(Item::Measure {
        axis: Product::new(alloc, true, &[Letter::Z])?,
        bit: 0,
    })?;
    Ok(Circuit {
        qubits: 1,
        registers: Registers::of(registers),
        items: Items::of(items),
        hidden: 0,
    })
}

/// Its claim in cell 1, and its delivery with raw outcome 0.
fn history(alloc: Global) -> Result<Log<Noted>, Fail> {
    let mut history = Log::new();
    let claim = Entry::Claim {
        product: 0,
        axis: Product::new(alloc, true, &[Letter::Z])?,
        port: None,
        state: None,
        cells: CellList::of(Vec::from_slice(alloc, &[1])?),
    };
    history.push(
        Node::empty(alloc)?,
        Noted {
            by: 0,
            entry: claim,
        },
    );
    let given = Given::Measure { raw: false };
    let delivery = Entry::Deliver { product: 0, given };
    history.push(
        Node::empty(alloc)?,
        Noted {
            by: 0,
            entry: delivery,
        },
    );
    Ok(history)
}

#[test]
fn turns_an_outcome_round(rt: HostRuntime) -> Result<(), Fail> {
    let circuit = measuring(rt.alloc())?;
    let mut products = Vec::new(rt.alloc());
    products.push(Static {
        axis: Product::new(rt.alloc(), true, &[Letter::Z])?,
        kind: Kind::Measure { bit: 0 },
    })?;
    let history = history(rt.alloc())?;
    let bits = history_bits(rt.alloc(), &circuit, &products, &history)?;
    assert_eq!(rt; bits.as_slice(), [true].as_slice());
    Ok(())
}
