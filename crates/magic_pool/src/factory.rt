// One factory: its steps, its ready states, and its failing runs.
ghost use Rattle.std.specs.Prelude.{◌≡◌, ◌==◌, ◌&&◌, ℕ, ◌+◌, ◌-◌, ◌%◌, nat_le, ◌<◌, ◌≤◌, ◌^◌, [], length, drop, All, IfOk};
ghost use Rattle.std.specs.List.{list_any};
ghost use Rattle.std.specs.List.Sorted.{IsNonDecreasing};
ghost use Rattle.magic_pool.specs.Recount.{is_listed, first_of_list};
ghost use Rattle.magic_pool.specs.Pooled.{store_of};
ghost use Rattle.magic_pool.specs.Makers.{IsMaker};

use crate::{Fail, Maker, Stepped};
use arrayvec::ArrayVec;
use patch_base::Memory;
use std::alloc::Global;

/// The steps of a run.
pub(crate) const RUN: u32 = 11;

/// The greatest store.
pub(crate) const STORE: usize = 16;

#[derive(Drop)]
pub(crate) struct Factory {
    /// 0 where there is no such factory.
    pub(crate) store: u32,
    pub(crate) steps: u32,
    /// Ascending.
    pub(crate) ready: ArrayVec<u32, STORE>,
    /// Its runs that are listed as failing, ascending.
    pub(crate) failing: Vec<u32>,
}

impl Factory {
    ghost use Rattle.magic_pool.specs.inside.Factories.{Serves, IsFresh, outcome_here, ready_after};

    pub(crate) fn new(
        alloc: Global,
        makers: &[Maker],
        fails: &[Fail],
        number: u32,
    ) -> Result<Factory, Memory>
        requires { All IsMaker makers.now }
        ensures serves { IfOk result (Serves makers.now fails.now number) }
        ensures fresh { IfOk result IsFresh }
    {
        Ok(Factory {
            store: store_in(makers, number),
            steps: 0,
            ready: ArrayVec::new(),
            failing: runs_of(alloc, fails, number)?,
        })
    }

    /// Whether a run would begin, and the store is full.
    pub(crate) fn is_stocked(&self) -> bool
        ensures { result ≡ (self.now.steps % 11 == 0 && nat_le self.now.store
            (length self.now.ready.items)) }
    {
        self.steps % RUN == 0 && self.ready.len() >= self.store as usize
    }

    /// Makes a step, where so many states were made before.
    pub(crate) fn advance(&mut self, made: u32) -> Stepped
        requires counted { self.old.steps < 2 ^ 32 - 1 }
        requires room { length self.old.ready.items < 16 }
        requires sorted { IsNonDecreasing self.old.failing.items }
        ensures outcome { result ≡ outcome_here self.old.failing.items (self.old.steps + 1) made }
        ensures steps { self.new.steps ≡ self.old.steps + 1 }
        ensures ready { self.new.ready.items ≡ ready_after self.old.failing.items
            (self.old.steps + 1) made self.old.ready.items }
        ensures store { self.new.store ≡ self.old.store }
        ensures failing { self.new.failing.items ≡ self.old.failing.items }
    {
        self.steps += 1;
        if self.steps % RUN != 0 {
            return Stepped::Running;
        }
        let run = self.steps / RUN - 1;
        if is_among(&self.failing, run) {
            return Stepped::Failed { run };
        }
        self.ready.push(made);
        Stepped::Made { state: made }
    }

    /// Takes the least ready state.
    pub(crate) fn take(&mut self) -> Option<u32>
        ensures least { result ≡ first_of_list self.old.ready.items }
        ensures ready { self.new.ready.items ≡ drop 1 self.old.ready.items }
        ensures steps { self.new.steps ≡ self.old.steps }
        ensures store { self.new.store ≡ self.old.store }
        ensures failing { self.new.failing.items ≡ self.old.failing.items }
    {
        if self.ready.is_empty() {
            return None;
        }
        Some(self.ready.remove(0))
    }
}

fn store_in(makers: &[Maker], factory: u32) -> u32
    requires { All IsMaker makers.now }
    ensures store { result ≡ store_of makers.now factory }
    ensures within { result ≤ 16 }
{
    let mut rest = makers;
    while let [maker, after @ ..] = rest {
        if maker.factory == factory {
            return maker.store;
        }
        rest = after;
    }
    0
}

fn runs_of(alloc: Global, fails: &[Fail], factory: u32) -> Result<Vec<u32>, Memory>
    ensures sorted { IfOk result (λ runs. IsNonDecreasing runs.items) }
    ensures listed { IfOk result (λ runs. (run : ℕ)
        → list_any (λ r. r == run) runs.items ≡ is_listed fails.now factory run) }
{
    let mut runs = Vec::new(alloc);
    for fail in fails {
        if fail.factory == factory {
            runs.push(fail.run)?;
        }
    }
    runs.sort_unstable();
    Ok(runs)
}

fn is_among(runs: &[u32], run: u32) -> bool
    requires { IsNonDecreasing runs.now }
    ensures { result ≡ list_any (λ r. r == run) runs.now }
{
    runs.binary_search(&run).is_ok()
}
