//! A job read from a shelf.

ghost use Rattle.std.specs.Prelude.{◌≡◌, ◌⊎◌, ℕ, ◌≤◌, List, IfOk, IfErr, MatchResult};
ghost use Rattle.job_read.specs.declared.Job.{Job as Job_of};
ghost use Rattle.job_read.specs.declared.fault.JobFault.{JobFault as JobFault_of};
ghost use Rattle.job_read.specs.Reading.{reading};
ghost use Rattle.job_read.specs.Kept.{IsJob};
ghost use Rattle.job_read.specs.Jobs.{StandsForJob, Because, Refuses, TellsAll, TellsUpTo, IsOutside};

use crate::circuit::load_circuit;
use crate::layout::load_layout;
use crate::outcomes::load_outcomes;
use crate::{Job, JobFault, Products};
use patch_base::Shelf;
use rotation_list::statics;
use source_model::law_kinds;
use std::alloc::Global;

/// The job for which three texts stand: a circuit, a layout that is open for it, and outcomes of its
/// products with failing runs of the layout's factories. The texts are read in this order, each to
/// its end or one byte past its limit of 4 MiB, and each is accepted or refused before the next one
/// is read. The layout word `-` is the built-in row layout, for which nothing is read.
///
/// # Errors
///
/// `Read` with the text's number where the shelf failed at it, `Circuit`, `Layout` or `Outcomes` with
/// the fault of a text that is refused, and `Memory` where memory is wanting.
pub fn read_job<S: Shelf>(
    alloc: Global,
    shelf: &mut S,
    circuit: &str,
    layout: &str,
    outcomes: &str,
) -> Result<Job, JobFault>
    // The texts that the shelf tells stand for the job.
    ensures accepted { let r = reading (S.tells shelf.old) (S.faults shelf.old)
        (S.faults shelf.new) circuit.now layout.now outcomes.now in
        IfOk result (StandsForJob r) }
    ensures kept { IfOk result IsJob }

    // A fault of the shelf comes only where the count of the text's name rose in this call and the texts before it
    // are accepted, and a refusal has the fault of the first text that is refused.
    ensures because { let r = reading (S.tells shelf.old) (S.faults shelf.old)
        (S.faults shelf.new) circuit.now layout.now outcomes.now in
        IfErr result (Because r) }

    // Texts that are told are accepted or refused for what they say, unless the outside keeps them from being read.
    ensures exact { let r = reading (S.tells shelf.old) (S.faults shelf.old)
        (S.faults shelf.new) circuit.now layout.now outcomes.now in
        (job : Job_of) → TellsAll r → StandsForJob r job
        → MatchResult result (λ j. j ≡ job) IsOutside }
    ensures faults { let r = reading (S.tells shelf.old) (S.faults shelf.old)
        (S.faults shelf.new) circuit.now layout.now outcomes.now in
        (f : JobFault_of) → TellsUpTo r f → Refuses r f
        → MatchResult result (λ j. ⊥) (λ e. (e ≡ f) ⊎ IsOutside e) }

    // What the shelf tells stays, and no count falls.
    ensures told { (n : List ℕ) → S.tells shelf.new n ≡ S.tells shelf.old n }
    ensures counts { (n : List ℕ) → S.faults shelf.old n ≤ S.faults shelf.new n }
{
    law_kinds();
    let circuit = load_circuit(alloc, shelf, circuit)?;
    let products = statics(alloc, &circuit)?;
    let layout = load_layout(alloc, shelf, layout, &circuit, &products)?;
    let outcomes = load_outcomes(alloc, shelf, outcomes, &circuit, &products, &layout)?;
    Ok(Job {
        circuit,
        products: Products::of(products),
        layout,
        outcomes,
    })
}
