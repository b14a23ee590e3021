//! A readout over a table of outcomes.

ghost use Rattle.std.specs.Prelude.{◌≡◌, ◌<◌, ◌^◌, [], ◌∷◌, ◌++◌, drop, length, IfOk, IfSome, IfNone};
ghost use Rattle.live_readout.specs.Listed.{arrivals_at, listed};

use arrival_line::{Arrival, Readout};
use outcome_table::Outcomes;
use patch_base::Memory;
use source_model::Given;
use std::alloc::Global;

/// A readout that gives the outcomes of a table in ascending order of product, without those of settled products.
#[derive(Drop)]
pub struct Listed {
    arrivals: Vec<Arrival>,
    at: usize,
}

impl Listed {
    /// The readout of a table.
    pub fn new(alloc: Global, outcomes: &Outcomes) -> Result<Listed, Memory>
        requires few { length outcomes.now.given < 2 ^ 32 }
        ensures { IfOk result (λ r. ⟦<Listed as Readout>⟧.left r ≡ listed outcomes.now.given) }
    {
        let arrivals = arrivals_of(alloc, outcomes.given.as_slice())?;
        Ok(Listed { arrivals, at: 0 })
    }
}

impl Readout for Listed {
    ghost left = { λ s. drop s.at s.arrivals.items };

    fn next(&mut self) -> Option<Arrival> {
        if self.at >= self.arrivals.len() {
            return None;
        }
        let arrival = self.arrivals[self.at];
        self.at += 1;
        Some(arrival)
    }
}

// The outcomes of a table as arrivals.
fn arrivals_of(alloc: Global, given: &[Given]) -> Result<Vec<Arrival>, Memory>
    requires { length given.now < 2 ^ 32 }
    ensures { IfOk result (λ v. v.items ≡ listed given.now) }
{
    let mut arrivals = Vec::new(alloc);
    for (p, given) in given.iter().enumerate() {
        push_arrival(&mut arrivals, p as u32, *given)?;
    }
    Ok(arrivals)
}

// Adds an outcome as an arrival.
fn push_arrival(arrivals: &mut Vec<Arrival>, product: u32, given: Given) -> Result<(), Memory>
    ensures { IfOk result (λ _. arrivals.new.items ≡ arrivals.old.items
        ++ arrivals_at product given) }
{
    match arrival_at(product, given) {
        Some(arrival) => {
            arrivals.push(arrival)?;
            Ok(())
        }
        None => Ok(()),
    }
}

// An outcome as an arrival; a settled product has none.
fn arrival_at(product: u32, given: Given) -> Option<Arrival>
    ensures some { IfSome result (λ a. arrivals_at product given ≡ a ∷ []) }
    ensures none { IfNone result (arrivals_at product given ≡ []) }
{
    match given {
        Given::Settled => None,
        given => Some(Arrival { product, given }),
    }
}
