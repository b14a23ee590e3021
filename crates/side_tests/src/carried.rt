//! Two programs that are carried out side by side on one thread, on the row layout.

ghost use Rattle.std.specs.Prelude.{◌≤◌, IfOk, length};
ghost use Rattle.source_model.specs.Circuits.{RightKinds, WellFormed};
ghost use Rattle.job_read.specs.Kept.{IsCircuit, IsJob};
ghost use Rattle.side_tests.specs.inside.Two.{AreCarriedOut, IsOfTwo};

use crate::programs::{Texts, circuit};
use board_core::Board;
use finish_run::finish;
use job_read::{Job, Products, load_layout, load_outcomes, start_job};
use outcome_table::Outcomes;
use patch_base::{Memory, NeverFails};
use patch_layout::Layout;
use rotation_list::statics;
use side_by_side::{Joined, Spans, join, join_outcomes, law_joined};
use source_model::{Circuit, law_kinds};
use std::alloc::Global;

/// Joined programs, and the board on which they were carried out.
#[derive(Drop)]
pub(crate) struct Carried {
    pub joined: Joined,
    pub board: Board,
}

// A program: its circuit, and its outcomes.
#[derive(Drop)]
struct Side {
    pub circuit: Circuit,
    pub outcomes: Outcomes,
}

// The outcomes of a program. A text that is refused stands for no memory, here and below.
fn table(alloc: Global, text: &[u8], circuit: &Circuit, layout: &Layout) -> Result<Outcomes, Memory>
    requires { WellFormed circuit.now }
    ensures kinds { IfOk result (λ o. RightKinds circuit.now.items o.given) }
    ensures few { IfOk result (λ o. length o.fails ≤ 4096) }
{
    let products = statics(alloc, circuit)?;
    let mut shelf = NeverFails { bytes: text };
    match load_outcomes(alloc, &mut shelf, "outcomes", circuit, &products, layout) {
        Ok(table) => Ok(table),
        Err(_) => Err(Memory),
    }
}

// The program of some texts. Its outcomes name no factory, so that the row layout of its circuit serves to read them.
fn read_side(alloc: Global, texts: Texts) -> Result<Side, Memory>
    ensures circuit { IfOk result (λ s. IsCircuit s.circuit) }
    ensures kinds { IfOk result (λ s. RightKinds s.circuit.items s.outcomes.given) }
    ensures few { IfOk result (λ s. length s.outcomes.fails ≤ 4096) }
{
    let circuit = circuit(alloc, texts.circuit)?;
    let products = statics(alloc, &circuit)?;
    let mut shelf = NeverFails { bytes: b"" };
    let Ok(layout) = load_layout(alloc, &mut shelf, "-", &circuit, &products) else {
        return Err(Memory);
    };
    let outcomes = table(alloc, texts.outcomes, &circuit, &layout)?;
    Ok(Side { circuit, outcomes })
}

// The joined job of two programs, and the spans of each.
#[derive(Drop)]
struct Pair {
    pub job: Job,
    pub spans: Spans,
}

fn joined_job(alloc: Global, first: Side, second: Side) -> Result<Pair, Memory>
    requires first { IsCircuit first.circuit }
    requires second { IsCircuit second.circuit }
    requires kinds { RightKinds first.circuit.items first.outcomes.given }
    requires others { RightKinds second.circuit.items second.outcomes.given }
    requires few { length first.outcomes.fails ≤ 4096 }
    ensures kept { IfOk result (λ p. IsJob p.job) }
    ensures two { IfOk result (λ p. IsOfTwo p.job p.spans) }
{
    law_joined();
    law_kinds();
    let circuits = vec![in alloc; first.circuit, second.circuit]?;
    let Ok(joined) = join(alloc, &circuits) else {
        return Err(Memory);
    };
    let products = statics(alloc, &joined.circuit)?;
    let mut shelf = NeverFails { bytes: b"" };
    let Ok(layout) = load_layout(alloc, &mut shelf, "-", &joined.circuit, &products) else {
        return Err(Memory);
    };
    let tables = vec![in alloc; first.outcomes, second.outcomes]?;
    let outcomes = join_outcomes(alloc, &joined, tables)?;
    let job = Job {
        circuit: joined.circuit,
        products: Products::of(products),
        layout,
        outcomes,
    };
    Ok(Pair {
        job,
        spans: joined.spans,
    })
}

/// Has two programs carried out.
pub(crate) fn carry_out(alloc: Global, first: Texts, second: Texts) -> Result<Carried, Memory>
    ensures { IfOk result (λ c. AreCarriedOut c.joined c.board) }
{
    let one = read_side(alloc, first)?;
    let other = read_side(alloc, second)?;
    let pair = joined_job(alloc, one, other)?;
    let started = start_job(alloc, pair.job)?;
    let Ok(board) = finish(alloc, started.board, &started.outcomes) else {
        return Err(Memory);
    };
    let joined = Joined {
        circuit: started.circuit,
        spans: pair.spans,
    };
    Ok(Carried { joined, board })
}
