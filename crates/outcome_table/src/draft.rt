//! What the lines of an outcome text have said so far.

ghost use Rattle.std.specs.Prelude.{◌≡◌, ◌≢◌, ◌⊎◌, ℕ, ◌<◌, ◌≤◌, ◌^◌, Bool, true, false, IsTrue, ◌↔◌, List, [], ◌∷◌, ◌++◌, length, map, Some, IfOk, IfErr, OnOk};
ghost use Rattle.source_model.specs.Circuits.{IsOutcomeOf};
ghost use Rattle.source_model.specs.declared.Given.TheVariants as given_of;
ghost use Rattle.source_model.specs.declared.Kind.{Kind as Kind_of};
ghost use Rattle.outcome_table.specs.declared.fault.OutcomeFault.TheVariants as fault;
ghost use Rattle.outcome_table.specs.OutcomeText.{Line as Line_of, outcome, failing, Kept, Breaks, BreaksText};
ghost use Rattle.outcome_table.specs.inside.Drafts.{Holds, Takes, slot_at_first, IsFirstEmpty};

use crate::OutcomeFault;
use crate::line::{Line, line_of};
use magic_pool::Fail;
use patch_base::{FAILS, Memory, is_skipped};
use source_model::{Given, Kind};
use std::alloc::Global;
use std::collections::BTreeSet;

const MOST_FAILS: usize = FAILS as usize;

/// The outcomes and the failing runs that the lines so far gave.
#[derive(Drop)]
pub(crate) struct Draft {
    /// The outcome of each product; that of a settled product stands there from the start.
    pub(crate) table: Vec<Option<Given>>,
    /// The failing runs, in the order of their lines.
    pub(crate) fails: Vec<Fail>,
    /// The factory and the number of each failing run, to find one that is listed again.
    pub(crate) listed: BTreeSet<(u32, u32)>,
}

impl Draft {
    /// What is there before any line.
    pub(crate) fn new(alloc: Global, kinds: &[Kind]) -> Result<Draft, Memory>
        ensures { IfOk result (Holds kinds.now []) }
    {
        Ok(Draft {
            table: kinds.iter().map(|kind| slot_of(*kind)).collect(alloc)?,
            fails: Vec::new(alloc),
            listed: BTreeSet::new(alloc),
        })
    }

    /// Takes the line of this number.
    pub(crate) fn take(
        &mut self,
        kinds: &[Kind],
        factories: &[u32],
        number: u32,
        text: &[u8],
    ) -> Result<(), OutcomeFault>
        requires { length self.old.table.items ≡ length kinds.now }
        ensures kept { OnOk result ((ls : List Line_of) → Holds kinds.now ls self.old
            → Takes (record { kinds = kinds.now; factories = factories.now }) ls text.now
            self.new) }
        ensures broken { IfErr result (λ f. (ls : List Line_of) → Holds kinds.now ls self.old
            → (f ≡ fault.Memory) ⊎ BreaksText
            (record { kinds = kinds.now; factories = factories.now }) ls number text.now f) }
    {
        if is_skipped(text) {
            return Ok(());
        }
        match line_of(text) {
            None => Err(OutcomeFault::Form { line: number }),
            Some(Line::Outcome { product, given }) => {
                self.put_outcome(kinds, number, product, given)
            }
            Some(Line::Failing(fail)) => self.put_fail(factories, number, fail),
        }
    }

    // Takes a product's outcome from the line of this number.
    fn put_outcome(
        &mut self,
        kinds: &[Kind],
        number: u32,
        product: u32,
        given: Given,
    ) -> Result<(), OutcomeFault>
        requires sized { length self.old.table.items ≡ length kinds.now }
        requires unsettled { given ≢ given_of.Settled }
        ensures kept { OnOk result ((factories : List ℕ) (ls : List Line_of)
            → Holds kinds.now ls self.old
            → Kept (record { kinds = kinds.now; factories = factories }) ls (outcome product given)
            × Holds kinds.now (ls ++ outcome product given ∷ []) self.new) }
        ensures broken { IfErr result (λ f. (factories : List ℕ) (ls : List Line_of)
            → Holds kinds.now ls self.old
            → Breaks (record { kinds = kinds.now; factories = factories }) ls number
            (outcome product given) f) }
    {
        let place = product as usize;
        if place >= kinds.len() {
            return Err(OutcomeFault::Number { line: number });
        }
        if !is_outcome_of(kinds[place], given) {
            return Err(OutcomeFault::Kind { line: number });
        }
        if self.table[place].is_some() {
            return Err(OutcomeFault::Repeated { line: number });
        }
        self.table[place] = Some(given);
        Ok(())
    }

    // Takes a failing run from the line of this number.
    fn put_fail(&mut self, factories: &[u32], number: u32, fail: Fail) -> Result<(), OutcomeFault>
        ensures kept { OnOk result ((kinds : List Kind_of) (ls : List Line_of)
            → Holds kinds ls self.old
            → Kept (record { kinds = kinds; factories = factories.now }) ls (failing fail)
            × Holds kinds (ls ++ failing fail ∷ []) self.new) }
        ensures broken { IfErr result (λ f. (kinds : List Kind_of) (ls : List Line_of)
            → Holds kinds ls self.old
            → (f ≡ fault.Memory) ⊎ Breaks
            (record { kinds = kinds; factories = factories.now }) ls number (failing fail) f) }
    {
        if !factories.contains(&fail.factory) {
            return Err(OutcomeFault::Factory { line: number });
        }
        if self.listed.contains(&(fail.factory, fail.run)) {
            return Err(OutcomeFault::Repeated { line: number });
        }
        if self.fails.len() >= MOST_FAILS {
            return Err(OutcomeFault::TooManyFails);
        }
        self.fails.push(fail)?;
        self.listed.insert((fail.factory, fail.run))?;
        Ok(())
    }
}

// What stands at a product of this kind before any line.
fn slot_of(kind: Kind) -> Option<Given>
    ensures { result ≡ slot_at_first kind }
{
    match kind {
        Kind::Settle { .. } => Some(Given::Settled),
        Kind::Rotation | Kind::Measure { .. } => None,
    }
}

// Whether an outcome is one of this kind of product.
fn is_outcome_of(kind: Kind, given: Given) -> bool
    ensures { IsTrue result ↔ IsOutcomeOf kind given }
{
    match (kind, given) {
        (Kind::Rotation, Given::Rotation { .. }) => true,
        (Kind::Measure { .. }, Given::Measure { .. }) => true,
        (Kind::Settle { .. }, Given::Settled) => true,
        _ => false,
    }
}

/// The outcomes of a table in which none is missing.
pub(crate) fn filled(alloc: Global, slots: &[Option<Given>]) -> Result<Vec<Given>, OutcomeFault>
    requires { length slots.now < 2 ^ 32 }
    ensures full { IfOk result (λ table. slots.now ≡ map (λ g. Some g) table.items) }
    ensures least { IfErr result (λ f. (f ≡ fault.Memory) ⊎ IsFirstEmpty slots.now f) }
{
    let mut table = Vec::with_capacity(alloc, slots.len())?;
    for (p, slot) in slots.iter().enumerate() {
        match slot {
            Some(given) => table.push(*given)?,
            None => return Err(OutcomeFault::Missing { number: p as u32 }),
        }
    }
    Ok(table)
}
