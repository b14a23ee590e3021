// A pool of factories.
ghost use Rattle.std.specs.Prelude.{◌≡◌, ℕ, ◌-◌, ◌<◌, ◌≤◌, ◌^◌, List, [], ◌∷◌, ◌++◌, length, All, Err, IfOk, IfNone, OnOk, OnErr};
ghost use Rattle.std.specs.Option.{option_to_list};
ghost use Rattle.magic_pool.specs.Recount.{ready_of, first_of_list};
ghost use Rattle.magic_pool.specs.Pooled.{Recounts, HasFewer, step_answer, store_of};
ghost use Rattle.magic_pool.specs.declared.StepRefused.TheVariants.{Stocked};
ghost use Rattle.magic_pool.specs.Makers.{AreDistinct, IsMaker};

use crate::factory::Factory;
use crate::{Fail, Maker, StepRefused, Stepped};
use patch_base::{FACTORIES, Memory};
use std::alloc::Global;
use std::marker::Model;

/// Factories with their ready states. A clause speaks of every history that the pool may have had:
/// the factories stepped, in order, and the states taken, in order. A new pool has had no steps.
#[derive(Drop)]
pub struct Pool {
    makers: Vec<Maker>,
    fails: Vec<Fail>,
    /// By their numbers, all sixteen.
    factories: Vec<Factory>,
    made: u32,
}

impl Model for Pool {
    ghost use Rattle.magic_pool.specs.Pooled.{Pooled};

    ghost Value = { Pooled };

    ghost use Rattle.std.specs.Prelude.{map};
    ghost use Rattle.magic_pool.specs.inside.Factories.{AllServe};

    ghost view = { λ p. record {
      makers = p.makers.items;
      fails = p.fails.items;
      made = p.made;
      steps = map (λ x. x.steps) p.factories.items;
      ready = map (λ x. x.ready.items) p.factories.items;
    } };

    ghost invariant = { λ p. AllServe p.makers.items p.fails.items p.factories.items };
}

impl Pool {
    /// A pool of these factories, with these failing runs. Out of memory, there is none.
    pub fn new(alloc: Global, makers: &[Maker], fails: &[Fail]) -> Result<Pool, Memory>
        requires distinct { AreDistinct makers.now }
        requires makers { All IsMaker makers.now }
        requires fails { length fails.now ≤ 4096 }
        ensures makers { IfOk result (λ p. p.makers ≡ makers.now) }
        ensures fails { IfOk result (λ p. p.fails ≡ fails.now) }
        ensures history { IfOk result (λ p. Recounts p [] []) }
    {
        let mut factories = Vec::new(alloc);
        for number in 0..FACTORIES {
            factories.push(Factory::new(alloc, makers, fails, number)?)?;
        }
        Ok(Pool {
            makers: Vec::from_slice(alloc, makers)?,
            fails: Vec::from_slice(alloc, fails)?,
            factories,
            made: 0,
        })
    }

    /// Makes a step of a factory. A refused step changes nothing. Where a full store refuses it, the number that is named is
    /// that of the ready states, which is the store.
    pub fn step(&mut self, f: u32) -> Result<Stepped, StepRefused>
        requires { HasFewer self.old (2 ^ 32 - 1) }
        ensures answer { (steps taken : List ℕ) → Recounts self.old steps taken
            → result ≡ step_answer self.old.makers self.old.fails steps taken f }
        ensures history { OnOk result ((steps taken : List ℕ) → Recounts self.old steps taken
            → Recounts self.new (steps ++ f ∷ []) taken) }
        ensures stocked { (n : ℕ) → result ≡ Err (Stocked n) → n ≡ store_of self.old.makers f }
        ensures refused { OnErr result (self.new ≡ self.old) }
        ensures makers { self.new.makers ≡ self.old.makers }
        ensures fails { self.new.fails ≡ self.old.fails }
    {
        if f as usize >= self.factories.len() {
            return Err(StepRefused::NoFactory);
        }
        let factory = &mut self.factories[f as usize];
        if factory.store == 0 {
            return Err(StepRefused::NoFactory);
        }
        if factory.is_stocked() {
            return Err(StepRefused::Stocked {
                ready: factory.ready.len() as u32,
            });
        }
        let stepped = factory.advance(self.made);
        if let Stepped::Made { .. } = stepped {
            self.made += 1;
        }
        Ok(stepped)
    }

    /// How many states of a factory are ready, at most its store, and 0 for a factory that isn't there.
    pub fn ready(&self, f: u32) -> u32
        ensures count { (steps taken : List ℕ) → Recounts self.now steps taken
            → result ≡ length (ready_of self.now.fails steps taken f) }
        ensures store { result ≤ store_of self.now.makers f }
    {
        if f as usize >= self.factories.len() {
            return 0;
        }
        self.factories[f as usize].ready.len() as u32
    }

    /// Takes the least ready state of a factory. None where none is ready, and then nothing changes.
    pub fn take(&mut self, f: u32) -> Option<u32>
        ensures least { (steps taken : List ℕ) → Recounts self.old steps taken
            → result ≡ first_of_list (ready_of self.old.fails steps taken f) }
        ensures history { (steps taken : List ℕ) → Recounts self.old steps taken
            → Recounts self.new steps (taken ++ option_to_list result) }
        ensures none { IfNone result (self.new ≡ self.old) }
        ensures makers { self.new.makers ≡ self.old.makers }
        ensures fails { self.new.fails ≡ self.old.fails }
    {
        if f as usize >= self.factories.len() {
            return None;
        }
        self.factories[f as usize].take()
    }

    /// The failing runs that the pool was made with, in their order.
    pub fn fails(&self) -> &[Fail]
        ensures { result.now ≡ self.now.fails }
    {
        &self.fails
    }
}
