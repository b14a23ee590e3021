//! A job that is made from a number.

ghost use Rattle.std.specs.Prelude.{◌≤◌, IfOk, IfErr};
ghost use Rattle.job_read.specs.declared.Job.{Job as Job_of};
ghost use Rattle.job_read.specs.Kept.{IsJob};
ghost use Rattle.job_read.specs.Jobs.{IsOutside};
ghost use Rattle.job_read.specs.Made.{IsBigJob, BigStops};

use crate::layout::load_layout;
use crate::outcomes::load_outcomes;
use crate::{Job, JobFault, Products};
use patch_base::NeverFails;
use rotation_list::{generate, statics};
use source_model::law_kinds;
use std::alloc::Global;

/// The job that `generate` of `rotation_list` makes from a number: its circuit, and what its texts of a layout and of outcomes
/// stand for.
///
/// # Errors
///
/// `Layout` or `Outcomes` with the fault of a text that is refused, and `Memory` where memory is wanting.
pub fn make_job(alloc: Global, n: u32) -> Result<Job, JobFault>
    requires { n ≤ 4000 }
    ensures made { IfOk result (IsBigJob n) }
    ensures kept { IfOk result IsJob }
    ensures because { IfErr result (BigStops n) }

    // Where the texts stand for a job, nothing but want of memory keeps it from being made.
    ensures exact { (job : Job_of) → IsBigJob n job → IfErr result IsOutside }
{
    law_kinds();
    let big = generate(alloc, n)?;
    let products = statics(alloc, &big.circuit)?;
    let mut layout = NeverFails {
        bytes: big.layout.as_slice(),
    };
    let layout = load_layout(alloc, &mut layout, "layout", &big.circuit, &products)?;
    let mut outcomes = NeverFails {
        bytes: big.outcomes.as_slice(),
    };
    let outcomes = load_outcomes(
        alloc,
        &mut outcomes,
        "outcomes",
        &big.circuit,
        &products,
        &layout,
    )?;
    Ok(Job {
        circuit: big.circuit,
        products: Products::of(products),
        layout,
        outcomes,
    })
}
