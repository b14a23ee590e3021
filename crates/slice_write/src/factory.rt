//! A factory: its steps, its failing runs and the states that it made.

ghost use Rattle.std.specs.Prelude.{◌≡◌, ◌==◌, ◌+◌, ◌%◌, ◌-◌, ◌<◌, ◌^◌, ℕ, IfOk};
ghost use Rattle.std.specs.List.{list_any};
ghost use Rattle.std.specs.List.Sorted.{IsNonDecreasing};
ghost use Rattle.magic_pool.specs.Recount.{is_listed};

use magic_pool::Fail;
use patch_base::Memory;
use std::alloc::Global;

/// The steps of a run.
const RUN: u32 = 11;

#[derive(Drop)]
pub(crate) struct Factory {
    pub(crate) steps: u32,
    /// The slice of its last step, or 0.
    pub(crate) last: u32,
    /// Its states, by the numbers that they have among all states.
    pub(crate) own: Vec<usize>,
    /// Its runs that are listed as failing, ascending.
    pub(crate) failing: Vec<u32>,
}

impl Factory {
    ghost use Rattle.slice_write.specs.inside.Factories.{IsFresh, makes};

    pub(crate) fn new(alloc: Global, fails: &[Fail], number: u32) -> Result<Factory, Memory>
        ensures { IfOk result (IsFresh fails.now number) }
    {
        Ok(Factory {
            steps: 0,
            last: 0,
            own: Vec::new(alloc),
            failing: runs_of(alloc, fails, number)?,
        })
    }

    /// Whether its next step begins a run.
    pub(crate) fn begins_a_run(&self) -> bool
        ensures { result ≡ (self.now.steps % 11 == 0) }
    {
        self.steps % RUN == 0
    }

    /// Makes a step in a slice, and says whether it makes a state.
    pub(crate) fn advance(&mut self, slice: u32) -> bool
        requires counted { self.old.steps < 2 ^ 32 - 1 }
        requires sorted { IsNonDecreasing self.old.failing.items }
        ensures made { result ≡ makes self.old }
        ensures steps { self.new.steps ≡ self.old.steps + 1 }
        ensures last { self.new.last ≡ slice }
        ensures own { self.new.own.items ≡ self.old.own.items }
        ensures failing { self.new.failing.items ≡ self.old.failing.items }
    {
        self.last = slice;
        self.steps += 1;
        self.steps % RUN == 0 && !is_among(&self.failing, self.steps / RUN - 1)
    }
}

fn runs_of(alloc: Global, fails: &[Fail], factory: u32) -> Result<Vec<u32>, Memory>
    ensures sorted { IfOk result (λ runs. IsNonDecreasing runs.items) }
    ensures listed { IfOk result (λ runs. (run : ℕ)
        → list_any (λ r. r == run) runs.items ≡ is_listed fails.now factory run) }
{
    let mut runs = Vec::new(alloc);
    for fail in fails {
        if fail.factory == factory {
            runs.push(fail.run)?;
        }
    }
    runs.sort_unstable();
    Ok(runs)
}

fn is_among(runs: &[u32], run: u32) -> bool
    requires { IsNonDecreasing runs.now }
    ensures { result ≡ list_any (λ r. r == run) runs.now }
{
    runs.binary_search(&run).is_ok()
}
