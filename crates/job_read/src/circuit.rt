//! A circuit read from a shelf.

ghost use Rattle.std.specs.Prelude.{◌≡◌, ◌⊎◌, ℕ, ◌≤◌, List, IfOk, IfErr, MatchResult};
ghost use Rattle.source_model.specs.declared.Circuit.{Circuit as Circuit_of};
ghost use Rattle.qasm_lex.specs.declared.fault.CircuitFault.{CircuitFault};
ghost use Rattle.job_read.specs.Reading.{seen, IsTold};
ghost use Rattle.job_read.specs.Stages.{CircuitStands, CircuitRefused};
ghost use Rattle.job_read.specs.Kept.{IsCircuit};
ghost use Rattle.job_read.specs.Jobs.{CircuitStops, IsOutside};

use crate::JobFault;
use crate::limited::read_limited;
use patch_base::Shelf;
use qasm_parse::{law_one_fault, law_one_tree, law_tree_or_fault};
use rotation_list::read_circuit;
use source_model::Circuit;
use std::alloc::Global;

/// The circuit for which the text of a name stands. The text is read to its end, or one byte past
/// its limit of 4 MiB.
///
/// # Errors
///
/// `Read { which: 0 }` where the shelf failed, `Circuit` with the fault of a text that stands for no
/// circuit, and `Memory` where memory is wanting.
pub fn load_circuit<S: Shelf>(alloc: Global, shelf: &mut S, name: &str) -> Result<Circuit, JobFault>
    ensures told { (n : List ℕ) → S.tells shelf.new n ≡ S.tells shelf.old n }
    ensures counts { (n : List ℕ) → S.faults shelf.old n ≤ S.faults shelf.new n }
    ensures accepted { let s = seen (S.tells shelf.old) (S.faults shelf.old)
        (S.faults shelf.new) name.now in
        IfOk result (CircuitStands s) }
    ensures kept { IfOk result IsCircuit }
    ensures stops { let s = seen (S.tells shelf.old) (S.faults shelf.old)
        (S.faults shelf.new) name.now in
        IfErr result (CircuitStops s) }

    // A text that is told is accepted or refused for what it says, unless the outside keeps it from being read.
    ensures exact { let s = seen (S.tells shelf.old) (S.faults shelf.old)
        (S.faults shelf.new) name.now in
        (c : Circuit_of) → IsTold s → CircuitStands s c
        → MatchResult result (λ d. d ≡ c) IsOutside }
    ensures faults { let s = seen (S.tells shelf.old) (S.faults shelf.old)
        (S.faults shelf.new) name.now in
        (f : CircuitFault) → IsTold s → CircuitRefused s f
        → MatchResult result (λ d. ⊥) (λ e. (e ≡ JobFault.Circuit f) ⊎ IsOutside e) }
{
    law_one_tree();
    law_tree_or_fault();
    law_one_fault();
    let text = read_limited(alloc, shelf, name, 0)?;
    let circuit = read_circuit(alloc, &text)?;
    Ok(circuit)
}
