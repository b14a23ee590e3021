//! The new board of a job.

ghost use Rattle.std.specs.Prelude.{◌≡◌, IfOk};
ghost use Rattle.source_model.specs.Circuits.{OutcomesOf};
ghost use Rattle.source_model.specs.Statics.{kinds_of};
ghost use Rattle.job_read.specs.Kept.{IsJob};
ghost use Rattle.job_read.specs.Starts.{board_job, new_position};

use crate::Job;
use board_core::{Board, order_of, pool_of};
use outcome_table::Outcomes;
use patch_base::Memory;
use source_model::Circuit;
use std::alloc::Global;

/// A job as its carrying out begins: the layout and the products are the board's.
#[derive(Drop)]
pub struct Started {
    /// The circuit.
    pub circuit: Circuit,
    /// A board on which nothing happened yet.
    pub board: Board,
    /// The outcomes of the products, and the failing runs of the layout's factories.
    pub outcomes: Outcomes,
}

/// A new board for a job's products on its layout, with its failing runs.
///
/// # Errors
///
/// `Memory` out of memory.
pub fn start_job(alloc: Global, job: Job) -> Result<Started, Memory>
    requires { IsJob job }
    ensures circuit { IfOk result (λ s. s.circuit ≡ job.circuit) }
    ensures board { IfOk result (λ s. s.board ≡ new_position (board_job job)) }
    ensures outcomes { IfOk result (λ s. s.outcomes ≡ job.outcomes) }

    // There is an outcome of its kind for each of the board's products.
    ensures given { IfOk result (λ s. OutcomesOf (kinds_of s.board.job.products) s.outcomes.given) }
{
    let Job {
        circuit,
        products,
        layout,
        outcomes,
    } = job;
    let products = products.into_vec();
    let pool = pool_of(alloc, &layout, outcomes.fails.as_slice())?;
    let order = order_of(alloc, &products)?;
    let board = Board::new(alloc, layout, order, products, pool)?;
    Ok(Started {
        circuit,
        board,
        outcomes,
    })
}
