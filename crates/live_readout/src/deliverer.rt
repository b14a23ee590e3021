//! What delivers outcomes on a grid.

ghost use Rattle.std.specs.Prelude.{◌≡◌, [], List, All};
ghost use Rattle.source_model.specs.declared.Given.TheVariants as outcomes;
ghost use Rattle.arrival_line.specs.declared.arrival.Arrival.{Arrival as Arrivals};
ghost use Rattle.arrival_line.specs.Made.{made_after};
ghost use Rattle.grid_lock.specs.Passes.{IsCalm, IsPassOf};
ghost use Rattle.router_work.specs.Passing.{Passed};
ghost use Rattle.live_readout.specs.inside.Entries.{delivered_by};
ghost use Rattle.live_readout.specs.inside.Workers.{IsAnyHanding};

use crate::calls::let_go;
use arrival_line::{Arrival, Courier, Delivery};
use board_core::DeliverWhy;
use grid_lock::{Grid, Pass, TryDeliver};
use node_log::Node;
use router_work::{PATIENCE, deliver, outwaits};
use source_model::Given;
use std::alloc::Global;
use std::marker::Model;

/// A courier with a pass of the grid: it delivers an outcome once its product is claimed, and releases the product.
#[derive(Drop)]
pub(crate) struct Deliverer<'a> {
    alloc: Global,
    grid: &'a Grid,
    pass: Pass,
    // How often it reads the history's length in vain before it goes on to another arrival.
    patience: u32,
}

impl<'a> Model for Deliverer<'a> {
    ghost use Rattle.std.specs.Prelude.{All};
    ghost use Rattle.board_core.specs.declared.Noted.{Noted as Entries};
    ghost use Rattle.grid_lock.specs.Passes.{IsPassOf};
    ghost use Rattle.live_readout.specs.inside.Workers.{Handing, handing, IsAnyHanding};

    ghost Value = { Handing };

    ghost view = { λ d. handing d.grid.now d.pass };

    ghost invariant = { λ d. IsPassOf d.grid.now d.pass
        × All (λ (n : Entries). IsAnyHanding n.entry) d.pass.view.mine };
}

impl<'a> Deliverer<'a> {
    /// A deliverer with a pass of the grid that has made nothing.
    pub(crate) fn new(alloc: Global, grid: &'a Grid, pass: Pass) -> Deliverer<'a>
        requires pass { IsPassOf grid.now pass }
        requires new { pass.view.mine ≡ [] }
        ensures grid { result.grid ≡ grid.entry.now }
        ensures pass { result.pass ≡ pass }
    {
        Deliverer {
            alloc,
            grid,
            pass,
            patience: PATIENCE,
        }
    }

    /// The pass.
    pub(crate) fn into_pass(self) -> Pass
        ensures pass { result ≡ self.entry.pass }
        ensures grid { IsPassOf self.entry.grid result }
        ensures calm { IsCalm result }
        ensures made { All (λ n. IsAnyHanding n.entry) result.view.mine }
    {
        let _ = self.pass.number();
        self.pass
    }
}

impl<'a> Courier for Deliverer<'a> {
    ghost use Rattle.std.specs.Prelude.{ℕ};
    ghost use Rattle.grid_lock.specs.Passes.{NamedGrid};
    ghost use Rattle.live_readout.specs.inside.Entries.{delivered_by};

    ghost Key = { NamedGrid × ℕ };

    ghost key = { λ d. (d.grid, d.pass.view.number) };

    ghost made = { λ d. delivered_by d.pass.view.mine };

    fn deliver(&mut self, arrival: Arrival) -> Delivery {
        deliver_in_place(
            self.alloc,
            self.grid,
            &mut self.pass,
            arrival,
            &mut self.patience,
        )
    }
}

// Tries to deliver an outcome, again whenever the history has grown, as long as the patience lasts.
fn deliver_in_place(
    alloc: Global,
    grid: &Grid,
    pass: &mut Pass,
    arrival: Arrival,
    patience: &mut u32,
) -> Delivery
    requires grid { IsPassOf grid.now pass.old }
    ensures passed { Passed IsAnyHanding pass.old pass.new }
    ensures made { delivered_by pass.new.view.mine
        ≡ made_after (delivered_by pass.old.view.mine) arrival result }
{
    let _ = pass.number();
    for _again in 0..u32::MAX {
        let length = grid.length(pass);
        match try_outcome(alloc, grid, pass, arrival) {
            Delivery::Later => {
                if !outwaits(grid, pass, length, patience) {
                    return Delivery::Later;
                }
            }
            answer => return answer,
        }
    }
    try_outcome(alloc, grid, pass, arrival)
}

// Tries to deliver an outcome, and to release its product then.
fn try_outcome(alloc: Global, grid: &Grid, pass: &mut Pass, arrival: Arrival) -> Delivery
    requires grid { IsPassOf grid.now pass.old }
    ensures passed { Passed IsAnyHanding pass.old pass.new }
    ensures made { delivered_by pass.new.view.mine
        ≡ made_after (delivered_by pass.old.view.mine) arrival result }
{
    let _ = pass.number();
    match arrival.given {
        Given::Settled => Delivery::Never,
        _ => hand_over(alloc, grid, pass, arrival),
    }
}

// The same for an outcome of a product that takes a region.
fn hand_over(alloc: Global, grid: &Grid, pass: &mut Pass, arrival: Arrival) -> Delivery
    requires grid { IsPassOf grid.now pass.old }
    requires region { arrival.given ≡ outcomes.Settled → ⊥ }
    ensures passed { Passed IsAnyHanding pass.old pass.new }
    ensures made { delivered_by pass.new.view.mine
        ≡ made_after (delivered_by pass.old.view.mine) arrival result }
{
    let _ = pass.number();
    let (Ok(delivering), Ok(releasing)) = (Node::empty(alloc), Node::empty(alloc)) else {
        return Delivery::Later;
    };
    match deliver(grid, pass, arrival.product, arrival.given, delivering) {
        Ok(_) => {
            let _ = let_go(grid, pass, arrival.product, releasing);
            Delivery::Done
        }
        Err(TryDeliver::Busy { .. }) => Delivery::Later,
        Err(TryDeliver::Refused(refused)) => after_refusal(refused.why),
    }
}

// Whether an outcome that was refused can be delivered later.
fn after_refusal(why: DeliverWhy) -> Delivery
    ensures undone { (made : List Arrivals) (a : Arrivals) → made_after made a result ≡ made }
{
    match why {
        DeliverWhy::Unclaimed => Delivery::Later,
        _ => Delivery::Never,
    }
}
