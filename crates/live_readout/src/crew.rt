//! The routers and makers of a live run.

ghost use Rattle.std.specs.Prelude.{◌≡◌, ◌+◌, ◌<◌, ◌≤◌, [], List, All, length, map, vec_capacity};
ghost use Rattle.board_core.specs.Shows.{IsMadeFor};
ghost use Rattle.grid_lock.specs.Views.{dealing, newcomer};
ghost use Rattle.grid_lock.specs.Passes.{IsPassOf, known};
ghost use Rattle.number_share.specs.Hands as shares;
ghost use Rattle.router_work.specs.Routing.{HasFactory};
ghost use Rattle.router_work.specs.inside.Workers.{HasSplit, IsFirst};
ghost use Rattle.live_readout.specs.inside.Shared.{IsShared};
ghost use Rattle.live_readout.specs.inside.Workers.{AreWorked, HireMakers, IsHired, pass_of};

use crate::router::{LiveRouter, Shared};
use crate::worker::Worker;
use grid_lock::{Grid, Pass};
use number_share::Hand;
use patch_base::{FACTORIES, ROUTERS};
use patch_layout::Look;
use router_work::{Gate, Maker};
use std::alloc::Global;
use std::thread::{Threads, for_each_mut};

/// Routers for these gates, with the next passes. There is room for them, and a hand and a look for each.
pub(crate) fn hire_routers<'a, G: Gate>(
    shared: &'a Shared<'a>,
    first: &mut Pass,
    hands: Vec<Hand>,
    looks: Vec<Look>,
    gates: Vec<G>,
    workers: Vec<Worker<'a, G>>,
) -> Vec<Worker<'a, G>>
    requires shared { IsShared shared.now }
    requires first { IsFirst shared.now.grid.now 0 first.old }
    requires gates { length gates.items ≤ ROUTERS }
    requires hands { All (shares.IsHandOf shared.now.share.now) hands.items }
    requires hand_each { length hands.items ≡ length gates.items }
    requires looks { All (IsMadeFor shared.now.grid.now.opened) looks.items }
    requires look_each { length looks.items ≡ length gates.items }
    requires empty { workers.items ≡ [] }
    requires room { length gates.items ≤ vec_capacity workers }
    ensures hired { (m : _)
        → All (IsHired shared.entry.now.grid.now (length gates.items) m) result.items }
    ensures count { length result.items ≡ length gates.items }
    ensures capacity { vec_capacity result ≡ vec_capacity workers.entry }
    ensures first { HasSplit first.old (length gates.items) first.new }
{
    let mut hands = hands;
    let mut looks = looks;
    let mut gates = gates;
    let mut workers = workers;
    // The last gate of the list is the next one.
    gates.reverse();
    while let Some(gate) = gates.pop() {
        let (Some(hand), Some(look)) = (hands.pop(), looks.pop()) else {
            unreachable!()
        };
        let pass = next_pass(shared.grid, first);
        let router = LiveRouter::new(shared, pass, hand, look, gate);
        workers.push_reserved(Worker::Route(router));
    }
    workers
}

/// Makers for these factories, after the workers that there are, with the next passes. There is room for them.
pub(crate) fn hire_makers<'a, G: Gate>(
    alloc: Global,
    grid: &'a Grid,
    first: &mut Pass,
    factories: &[u32],
    workers: Vec<Worker<'a, G>>,
) -> Vec<Worker<'a, G>>
    requires first { IsFirst grid.now (length workers.items) first.old }
    requires routers { length workers.items ≤ ROUTERS }
    requires factories { All (HasFactory grid.now) factories.now }
    requires few { length factories.now ≤ FACTORIES }
    requires room { length workers.items + length factories.now ≤ vec_capacity workers }
    ensures hired { HireMakers grid.entry.now
        (length factories.entry.now) workers.entry.items result.items }
    ensures count { length result.items ≡ length workers.entry.items + length factories.entry.now }
    ensures capacity { vec_capacity result ≡ vec_capacity workers.entry }
    ensures first { HasSplit first.old (length factories.entry.now) first.new }
{
    let mut workers = workers;
    for factory in factories {
        let pass = next_pass(grid, first);
        workers.push_reserved(Worker::Make(Maker::new(alloc, grid, pass, *factory)));
    }
    workers
}

/// The next pass. There is always memory for it.
pub(crate) fn next_pass(grid: &Grid, first: &mut Pass) -> Pass
    requires grid { IsPassOf grid.now first.old }
    requires first { first.old.view.number ≡ 0 }
    requires few { first.old.view.made < 63 }
    ensures first { first.new ≡ known first.old.grid (dealing first.old.view) }
    ensures new { result ≡ known first.old.grid (newcomer first.old.view) }
{
    match grid.split(first) {
        Ok(pass) => pass,
        Err(_) => unreachable!(),
    }
}

/// All of the workers work, each on a thread of its own where one can be made, and hand their passes back.
pub(crate) fn bring_back<T: Threads + Sync, G: Gate>(
    rt: &T,
    workers: Vec<Worker<'_, G>>,
    passes: Vec<Pass>,
) -> Vec<Pass>
    requires some { 0 < length workers.items }
    requires empty { passes.items ≡ [] }
    requires room { length workers.items ≤ vec_capacity passes }
    ensures back { (ended : List _) × AreWorked workers.entry.items ended
        × (result.items ≡ map pass_of ended) }
    ensures room { vec_capacity result ≡ vec_capacity passes }
{
    let mut workers = workers;
    work_all(rt, workers.as_mut_slice());
    passes_of(workers, passes)
}

// All of them work.
fn work_all<T: Threads + Sync, G: Gate>(rt: &T, workers: &mut [Worker<'_, G>])
    requires { 0 < length workers.old }
    ensures { AreWorked workers.old workers.new }
{
    let threads = workers.len();
    for_each_mut(
        rt,
        workers,
        threads,
        &|_, worker: &mut Worker<'_, G>| { worker.work() },
    );
}

// Their passes.
fn passes_of<G: Gate>(workers: Vec<Worker<'_, G>>, passes: Vec<Pass>) -> Vec<Pass>
    requires empty { passes.items ≡ [] }
    requires room { length workers.items ≤ vec_capacity passes }
    ensures passes { result.items ≡ map pass_of workers.entry.items }
    ensures room { vec_capacity result ≡ vec_capacity passes }
{
    let mut passes = passes;
    for worker in workers {
        passes.push_reserved(worker.into_pass());
    }
    passes
}
