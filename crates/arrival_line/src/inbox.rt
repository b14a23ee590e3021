//! What a deliverer keeps: the arrivals, and those that wait for their products' claims.

ghost use Rattle.std.specs.Prelude.{◌≡◌, [], ◌∷◌, ◌++◌, ◌<◌, IfOk, OnErr, vec_len};
ghost use Rattle.arrival_line.specs.inside.Inboxes.{GoesOn, IsOpened};

use crate::arrival::Arrival;
use crate::courier::{Courier, Delivery};
use crate::strays::sift;
use source_model::Kind;
use std::alloc::{AllocError, Global};

/// How often a product is tried, on average, once all arrivals are there.
const TRIES: usize = 64;

#[derive(Drop)]
pub struct Inbox<C: Courier> {
    pub courier: C,
    /// For each product its kind, while an outcome of it is wanted.
    pub wanted: Vec<Option<Kind>>,
    /// All arrivals, oldest first.
    pub kept: Vec<Arrival>,
    /// Those that are no strays and aren't delivered.
    pub pending: Vec<Arrival>,
    at: usize,
}

impl<C: Courier> Inbox<C> {
    /// An inbox without arrivals.
    pub fn new(alloc: Global, courier: C, wanted: Vec<Option<Kind>>) -> Inbox<C>
        ensures parts { (result.courier ≡ courier) × (result.wanted ≡ wanted) }
        ensures opened { IsOpened C.made result }
    {
        Inbox {
            courier,
            wanted,
            kept: Vec::new(alloc),
            pending: Vec::new(alloc),
            at: 0,
        }
    }

    /// Keeps an arrival, and tries to deliver it if it is no stray.
    pub fn arrive(&mut self, arrival: Arrival) -> Result<(), AllocError>
        ensures key { C.key self.new.courier ≡ C.key self.old.courier }
        ensures kept { IfOk result (λ _. self.new.kept.items ≡ self.old.kept.items
            ++ arrival ∷ []) }
        ensures goes_on { IfOk result (λ _. GoesOn C.made self.old self.new) }
        ensures err { OnErr result (C.made self.new.courier ≡ C.made self.old.courier) }
    {
        self.kept.push(arrival)?;
        if sift(&mut self.wanted, arrival) {
            self.at = self.pending.len();
            self.pending.push(arrival)?;
            self.try_one();
        }
        Ok(())
    }

    /// The courier, and all arrivals.
    pub fn into_parts(self) -> (C, Vec<Arrival>)
        ensures { (result.0 ≡ self.courier) × (result.1 ≡ self.kept) }
    {
        let Inbox { courier, kept, .. } = self;
        (courier, kept)
    }

    /// Whether nothing waits.
    pub fn is_idle(&self) -> bool {
        self.pending.is_empty()
    }

    /// Tries the next that waits.
    pub fn try_one(&mut self)
        ensures key { C.key self.new.courier ≡ C.key self.old.courier }
        ensures kept { self.new.kept.items ≡ self.old.kept.items }
        ensures goes_on { GoesOn C.made self.old self.new }
    {
        if self.pending.is_empty() {
            return;
        }
        let at = if self.at < self.pending.len() {
            self.at
        } else {
            0
        };
        self.try_at(at);
    }

    fn try_at(&mut self, at: usize)
        requires { at < vec_len self.old.pending }
        ensures key { C.key self.new.courier ≡ C.key self.old.courier }
        ensures kept { self.new.kept.items ≡ self.old.kept.items }
        ensures goes_on { GoesOn C.made self.old self.new }
    {
        let arrival = self.pending[at];
        match self.courier.deliver(arrival) {
            Delivery::Later => self.at = at + 1,
            Delivery::Done | Delivery::Never => {
                self.pending.swap_remove(at);
                self.at = at;
            }
        }
    }

    /// Tries what waits once more, up to 64 times for each product.
    pub fn finish(&mut self)
        ensures key { C.key self.new.courier ≡ C.key self.old.courier }
        ensures kept { self.new.kept.items ≡ self.old.kept.items }
        ensures goes_on { GoesOn C.made self.old self.new }
    {
        for _ in 0..self.wanted.len().saturating_mul(TRIES) {
            if self.pending.is_empty() {
                return;
            }
            self.try_one();
        }
    }
}
