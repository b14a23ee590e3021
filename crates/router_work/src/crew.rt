//! The workers of a board: each gets a pass, and all of them work until they end.

ghost use Rattle.std.specs.Prelude.{◌≡◌, ◌+◌, ◌<◌, ◌≤◌, ◌++◌, [], List, All, length, map, vec_capacity};
ghost use Rattle.source_model.specs.Statics.{AreOutcomesOf};
ghost use Rattle.board_core.specs.Shows.{IsMadeFor};
ghost use Rattle.grid_lock.specs.Views.{dealing, newcomer};
ghost use Rattle.grid_lock.specs.Passes.{IsPassOf, known};
ghost use Rattle.number_share.specs.Hands as shares;
ghost use Rattle.router_work.specs.Routing.{HasFactory};
ghost use Rattle.router_work.specs.inside.Workers.{AreWorked, HasSplit, HireMakers, IsFirst, IsHired, pass_of};

use crate::gate::Gate;
use crate::maker::Maker;
use crate::router::Router;
use crate::worker::Worker;
use grid_lock::{Grid, Pass};
use number_share::{Hand, Share};
use outcome_table::Outcomes;
use patch_base::{FACTORIES, ROUTERS};
use patch_layout::{Layout, Look};
use std::alloc::Global;
use std::thread::{Threads, for_each_mut};

/// Routers for these gates, with the next passes. There is room for them, and a hand and a look for each.
pub(crate) fn hire_routers<'a, G: Gate>(
    alloc: Global,
    grid: &'a Grid,
    first: &mut Pass,
    layout: &'a Layout,
    share: &'a Share,
    outcomes: &'a Outcomes,
    hands: Vec<Hand>,
    looks: Vec<Look>,
    gates: Vec<G>,
    workers: Vec<Worker<'a, G>>,
) -> Vec<Worker<'a, G>>
    requires first { IsFirst grid.now 0 first.old }
    requires layout { layout.now ≡ grid.now.opened.job.grid }
    requires outcomes { AreOutcomesOf outcomes.now.given grid.now.opened.job.products }
    requires numbers { share.now.numbers ≤ length outcomes.now.given }
    requires gates { length gates.items ≤ ROUTERS }
    requires hands { All (shares.IsHandOf share.now) hands.items }
    requires hand_each { length hands.items ≡ length gates.items }
    requires looks { All (IsMadeFor grid.now.opened) looks.items }
    requires look_each { length looks.items ≡ length gates.items }
    requires empty { workers.items ≡ [] }
    requires room { length gates.items ≤ vec_capacity workers }
    ensures hired { All (IsHired grid.entry.now outcomes.entry.now.given (length gates.items))
        result.items }
    ensures count { length result.items ≡ length gates.items }
    ensures capacity { vec_capacity result ≡ vec_capacity workers.entry }
    ensures first { HasSplit first.old (length gates.items) first.new }
{
    let mut hands = hands;
    let mut looks = looks;
    let mut gates = gates;
    let mut workers = workers;
    // The last gate of the list is the next one.
    gates.reverse();
    while let Some(gate) = gates.pop() {
        let (Some(hand), Some(look)) = (hands.pop(), looks.pop()) else {
            unreachable!()
        };
        let pass = next_pass(grid, first);
        let router = Router::new(alloc, grid, layout, pass, hand, share, outcomes, look, gate);
        workers.push_reserved(Worker::Route(router));
    }
    workers
}

/// Makers for these factories, after the workers that there are, with the next passes. There is room for them.
pub(crate) fn hire_makers<'a, G: Gate>(
    alloc: Global,
    grid: &'a Grid,
    first: &mut Pass,
    factories: Vec<u32>,
    workers: Vec<Worker<'a, G>>,
) -> Vec<Worker<'a, G>>
    requires first { IsFirst grid.now (length workers.items) first.old }
    requires routers { length workers.items ≤ ROUTERS }
    requires factories { All (HasFactory grid.now) factories.items }
    requires few { length factories.items ≤ FACTORIES }
    requires room { length workers.items + length factories.items ≤ vec_capacity workers }
    ensures hired { HireMakers grid.entry.now workers.entry.items result.items }
    ensures count { length result.items ≡ length workers.entry.items + length factories.items }
    ensures capacity { vec_capacity result ≡ vec_capacity workers.entry }
    ensures first { HasSplit first.old (length factories.items) first.new }
{
    let mut workers = workers;
    for factory in &factories {
        let pass = next_pass(grid, first);
        workers.push_reserved(Worker::Make(Maker::new(alloc, grid, pass, *factory)));
    }
    workers
}

// The next pass. There is always memory for it.
fn next_pass(grid: &Grid, first: &mut Pass) -> Pass
    requires grid { IsPassOf grid.now first.old }
    requires first { first.old.view.number ≡ 0 }
    requires few { first.old.view.made < 63 }
    ensures first { first.new ≡ known first.old.grid (dealing first.old.view) }
    ensures new { result ≡ known first.old.grid (newcomer first.old.view) }
{
    match grid.split(first) {
        Ok(pass) => pass,
        Err(_) => unreachable!(),
    }
}

/// All of the workers work, each on a thread of its own where one can be made, and hand their passes back.
pub(crate) fn bring_back<R: Threads + Sync, G: Gate>(
    rt: &R,
    workers: Vec<Worker<'_, G>>,
    passes: Vec<Pass>,
) -> Vec<Pass>
    requires some { 0 < length workers.items }
    requires empty { passes.items ≡ [] }
    requires room { length workers.items ≤ vec_capacity passes }
    ensures { (ended : List _) × AreWorked workers.entry.items ended
        × (result.items ≡ map pass_of ended) }
{
    let mut workers = workers;
    work_all(rt, workers.as_mut_slice());
    passes_of(workers, passes)
}

// All of them work.
fn work_all<R: Threads + Sync, G: Gate>(rt: &R, workers: &mut [Worker<'_, G>])
    requires { 0 < length workers.old }
    ensures { AreWorked workers.old workers.new }
{
    let threads = workers.len();
    for_each_mut(
        rt,
        workers,
        threads,
        &|_, worker: &mut Worker<'_, G>| { worker.work() },
    );
}

// Their passes.
fn passes_of<G: Gate>(workers: Vec<Worker<'_, G>>, passes: Vec<Pass>) -> Vec<Pass>
    requires empty { passes.items ≡ [] }
    requires room { length workers.items ≤ vec_capacity passes }
    ensures { result.items ≡ map pass_of workers.entry.items }
{
    let mut passes = passes;
    for worker in workers {
        passes.push_reserved(worker.into_pass());
    }
    passes
}
