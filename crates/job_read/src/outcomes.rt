//! Outcomes read from a shelf.

ghost use Rattle.std.specs.Prelude.{◌≡◌, ◌⊎◌, ℕ, ◌+◌, ◌<◌, ◌≤◌, ◌++◌, List, drop, length, IfOk, IfErr, MatchResult};
ghost use Rattle.source_model.specs.declared.Circuit.{Circuit};
ghost use Rattle.source_model.specs.Circuits.{RightKinds};
ghost use Rattle.source_model.specs.Statics.{statics, kinds_of};
ghost use Rattle.outcome_table.specs.declared.Outcomes.{Outcomes as Outcomes_of};
ghost use Rattle.outcome_table.specs.declared.fault.OutcomeFault.{OutcomeFault as OutcomeFault_of};
ghost use Rattle.job_read.specs.Reading.{seen, IsTold};
ghost use Rattle.job_read.specs.Stages.{factories_in, OutcomesStand, OutcomesRefused};
ghost use Rattle.job_read.specs.Jobs.{OutcomesStop, IsOutside};

use crate::JobFault;
use crate::limited::read_limited;
use outcome_table::{Outcomes, read_outcomes};
use patch_base::{Memory, Shelf};
use patch_layout::{Layout, Tile};
use source_model::{Circuit, Kind, Static, law_kinds};
use std::alloc::Global;

/// The outcomes and failing runs for which the text of a name stands, for the products of a circuit
/// and the factories of a layout. The text is read to its end, or one byte past its limit of 4 MiB.
/// The products are the circuit's static products.
///
/// # Errors
///
/// `Read { which: 2 }` where the shelf failed, `Outcomes` with the fault of a text that is refused
/// for this circuit and layout, and `Memory` where memory is wanting.
pub fn load_outcomes<S: Shelf>(
    alloc: Global,
    shelf: &mut S,
    name: &str,
    circuit: &Circuit,
    products: &[Static],
    layout: &Layout,
) -> Result<Outcomes, JobFault>
    requires products { products.now ≡ statics circuit.now.items }
    ensures told { (n : List ℕ) → S.tells shelf.new n ≡ S.tells shelf.old n }
    ensures counts { (n : List ℕ) → S.faults shelf.old n ≤ S.faults shelf.new n }
    ensures accepted { let s = seen (S.tells shelf.old) (S.faults shelf.old)
        (S.faults shelf.new) name.now in
        IfOk result (OutcomesStand s circuit.now layout.now) }
    ensures kinds { IfOk result (λ o. RightKinds circuit.now.items o.given) }
    ensures few { IfOk result (λ o. length o.fails ≤ 4096) }
    ensures stops { let s = seen (S.tells shelf.old) (S.faults shelf.old)
        (S.faults shelf.new) name.now in
        IfErr result (OutcomesStop s circuit.now layout.now) }

    // A text that is told is accepted or refused for what it says, unless the outside keeps it from being read.
    ensures exact { let s = seen (S.tells shelf.old) (S.faults shelf.old)
        (S.faults shelf.new) name.now in
        (o : Outcomes_of) → IsTold s → OutcomesStand s circuit.now layout.now o
        → MatchResult result (λ p. p ≡ o) IsOutside }
    ensures faults { let s = seen (S.tells shelf.old) (S.faults shelf.old)
        (S.faults shelf.new) name.now in
        (f : OutcomeFault_of) → IsTold s → OutcomesRefused s circuit.now layout.now f
        → MatchResult result (λ p. ⊥) (λ e. (e ≡ JobFault.Outcomes f) ⊎ IsOutside e) }
{
    law_kinds();
    let kinds = kinds_of(alloc, products)?;
    let factories = factories(alloc, layout)?;
    let text = read_limited(alloc, shelf, name, 2)?;
    let outcomes = read_outcomes(alloc, &text, &kinds, &factories)?;
    Ok(outcomes)
}

// The kinds of products.
fn kinds_of(alloc: Global, products: &[Static]) -> Result<Vec<Kind>, Memory>
    ensures { IfOk result (λ kinds. kinds.items ≡ kinds_of products.now) }
{
    let mut kinds = Vec::with_capacity(alloc, products.len())?;
    for product in products {
        kinds.push(product.kind)?;
    }
    Ok(kinds)
}

// The factories that have a port, in the order of their cells.
fn factories(alloc: Global, layout: &Layout) -> Result<Vec<u32>, Memory>
    ensures { IfOk result (λ found. found.items ≡ factories_in layout.now.sites) }
{
    let mut found = Vec::new(alloc);
    for cell in 0..layout.size() {
        push_factory(layout, cell, &mut found)?;
    }
    Ok(found)
}

// Appends the factory whose port is at the cell, if there is one.
fn push_factory(layout: &Layout, cell: u32, found: &mut Vec<u32>) -> Result<(), Memory>
    requires { cell < length layout.now.sites }
    ensures { IfOk result (λ _. found.new.items ++ factories_in (drop (cell + 1) layout.now.sites)
        ≡ found.old.items ++ factories_in (drop cell layout.now.sites)) }
{
    if let Tile::Port { factory } = layout.tile(cell) {
        found.push(factory)?;
    }
    Ok(())
}
