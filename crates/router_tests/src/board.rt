//! New boards for jobs.

ghost use Rattle.std.specs.Prelude.{◌≡◌, ◌≤◌, IsTrue, IfOk, All, length, replicate, true, []};
ghost use Rattle.pauli_product.specs.Signed.{IsNotIdentity};
ghost use Rattle.patch_layout.specs.Grid.{Open};
ghost use Rattle.patch_layout.specs.Row.{demand};
ghost use Rattle.source_model.specs.Circuits.{IsOutcomeOf};
ghost use Rattle.source_model.specs.Statics.{AreOutcomesOf};
ghost use Rattle.board_core.specs.Laws.{ProductsOfLength};
ghost use Rattle.router_tests.specs.inside.Jobs.{Suits};

use crate::jobs::Job;
use board_core::{Board, order_of, pool_of};
use outcome_table::{FailList, GivenList, Outcomes};
use patch_base::{Memory, Need, Used};
use patch_layout::Layout;
use pauli_product::{Letter, Product};
use source_model::{Given, Kind, Static};
use std::alloc::Global;

// Whether a product has a letter other than I.
fn has_letter(axis: &Product) -> bool
    ensures { IsTrue result → IsNotIdentity axis.now }
{
    for qubit in 0..axis.len() {
        if axis.letter(qubit) != Letter::I {
            return true;
        }
    }
    false
}

// A product of a job. A text that is none stands for no memory.
fn product(alloc: Global, job: &Job, text: &[u8], kind: Kind) -> Result<Static, Memory>
    ensures { IfOk result (Suits job.now.qubits job.now.rotations) }
{
    let Some(axis) = Product::parse(alloc, text)? else {
        return Err(Memory);
    };
    if axis.len() != job.qubits {
        return Err(Memory);
    }
    if !has_letter(&axis) {
        return Err(Memory);
    }
    if matches!(kind, Kind::Rotation) && !job.rotations {
        return Err(Memory);
    }
    Ok(Static { axis, kind })
}

fn products(alloc: Global, job: &Job) -> Result<Vec<Static>, Memory>
    ensures each { IfOk result (λ v. All (Suits job.now.qubits job.now.rotations) v.items) }
    ensures count { IfOk result (λ v. length v.items ≤ 16) }
{
    let mut list = Vec::new(alloc);
    for at in 0..job.rows.len().min(16) {
        let (text, kind) = job.rows[at];
        list.push(product(alloc, job, text, kind)?)?;
    }
    Ok(list)
}

fn layout(alloc: Global, job: &Job) -> Result<Layout, Memory>
    ensures { IfOk result (λ layout. Open layout (demand (replicate job.now.qubits true)
        job.now.rotations)) }
{
    let need = Need {
        qubits: job.qubits,
        used: Used::of(vec![in alloc; true; job.qubits as usize]?),
        rotations: job.rotations,
    };
    match Layout::read(alloc, job.layout, &need) {
        Ok(layout) => Ok(layout),
        Err(_) => Err(Memory),
    }
}

/// A new board for a job. One of too many qubits stands for no memory, too.
pub(crate) fn board_for(alloc: Global, job: &Job) -> Result<Board, Memory>
    ensures empty { IfOk result (λ b. b.history ≡ []) }
    ensures axes { IfOk result (λ b. ProductsOfLength job.now.qubits b.job.products) }
    ensures few { IfOk result (λ _. job.now.qubits ≤ 1024) }
{
    if job.qubits > 1024 {
        return Err(Memory);
    }
    let products = products(alloc, job)?;
    let order = order_of(alloc, &products)?;
    let layout = layout(alloc, job)?;
    let pool = pool_of(alloc, &layout, &[])?;
    Board::new(alloc, layout, order, products, pool)
}

// An outcome of the product's kind. The X outcome of each magic state is 0.
fn given_for(kind: Kind, raw: bool) -> Given
    ensures { IsOutcomeOf kind result }
{
    match kind {
        Kind::Rotation => Given::Rotation { raw, x: false },
        Kind::Measure { .. } => Given::Measure { raw },
        Kind::Settle { .. } => Given::Settled,
    }
}

/// The outcomes of a board's products.
pub(crate) fn outcomes_for(alloc: Global, board: &Board, job: &Job) -> Result<Outcomes, Memory>
    ensures { IfOk result (λ o. AreOutcomesOf o.given board.now.job.products) }
{
    given_each(alloc, board.products(), job.raws)
}

// A raw outcome that isn't listed is 0.
fn given_each(alloc: Global, products: &[Static], raws: &[bool]) -> Result<Outcomes, Memory>
    ensures { IfOk result (λ o. AreOutcomesOf o.given products.now) }
{
    let mut given = Vec::new(alloc);
    for product in products {
        let at = given.len();
        let raw = at < raws.len() && raws[at];
        given.push(given_for(product.kind, raw))?;
    }
    Ok(Outcomes {
        given: GivenList::of(given),
        fails: FailList::of(Vec::new(alloc)),
    })
}
