//! A log and the walk over it. A clause sees each as a list of values.
ghost use Rattle.std.specs.Prelude.{◌≡◌, ◌+◌, ◌-◌, ◌^◌, ◌<◌, ◌≤◌, [], ◌∷◌, ◌++◌, length, slice_get, MatchOption};
ghost use Rattle.std.specs.Iterator.{at_most};
ghost use Rattle.std.specs.Map.Iter.{TakesFirst, ShowsInOrder, deref};

use crate::chain::{Chain, Place};
use crate::node::Node;
use std::alloc::Global;
use std::iter::Iterator;
use std::marker::Model;

/// A list of values that grows at its end. Adding a value takes no memory and constant time; getting
/// one by its place takes time in proportion to the place, so what goes over the log walks it.
pub struct Log<T> {
    chain: Chain<T, Global>,
    head: Place,
    tail: Place,
    len: u32,
}

impl<T> Model for Log<T> {
    ghost use Rattle.std.specs.Prelude.{◌≡◌, ◌^◌, ◌<◌, List, length};
    ghost use Rattle.node_log.specs.Spots.{values, last_place};

    ghost Value = { List T };

    ghost view = { λ l. values l.chain.nodes };

    ghost invariant = { λ l. (l.len ≡ length l.chain.nodes) × (l.len < 2 ^ 32)
        × (l.head.ptr ≡ l.chain.head) × (0 < l.len
        → l.tail.ptr ≡ last_place l.chain.head l.chain.nodes) };
}

/// A walk over a log, seen as the values that it has left.
#[derive(Drop)]
pub struct Walk<'a, T> {
    chain: &'a Chain<T, Global>,
    at: Place,
    from: u32,
    left: u32,
}

impl<'a, T> Model for Walk<'a, T> {
    ghost use Rattle.std.specs.Prelude.{◌≡◌, ◌+◌, ◌^◌, ◌<◌, List, length, drop};
    ghost use Rattle.node_log.specs.Spots.{values, place_of};

    ghost Value = { List T };

    ghost view = { λ w. drop w.from (values w.chain.now.nodes) };

    ghost invariant = { λ w. (w.from + w.left ≡ length w.chain.now.nodes)
        × (w.from + w.left < 2 ^ 32)
        × (w.at.ptr ≡ place_of w.chain.now.head w.chain.now.nodes w.from) };
}

impl<T> Log<T> {
    /// A log without values.
    pub fn new() -> Log<T>
        ensures { result ≡ [] }
    {
        let nowhere = Place::nowhere();
        Log {
            chain: Chain::new(nowhere),
            head: nowhere,
            tail: nowhere,
            len: 0,
        }
    }

    /// Puts a value at the end, in the caller's node, and answers its place: the length before.
    pub fn push(&mut self, node: Node<T>, value: T) -> u32
        requires { length self.old < 2 ^ 32 - 1 }
        ensures place { result ≡ length self.old }
        ensures values { self.new ≡ self.old ++ value ∷ [] }
    {
        let spare = node.into_spare();
        let place = self.len;
        if place == 0 {
            self.tail = self.chain.link_first(spare, value);
            self.head = self.tail;
        } else {
            self.tail = self.chain.link_back(self.tail, spare, value);
        }
        self.len = place + 1;
        place
    }

    /// How many values there are.
    pub fn length(&self) -> u32
        ensures { result ≡ length self.now }
    {
        self.len
    }

    /// The value at a place, counted from 0. None at the length and past it.
    pub fn get(&self, place: u32) -> Option<&T>
        ensures { MatchOption result (length self.now ≤ place)
            (λ x. slice_get self.now place ≡ Some x.now) }
    {
        if place >= self.len {
            return None;
        }
        let mut at = self.head;
        for i in 0..place {
            at = self.chain.next(at, i);
        }
        Some(self.chain.value(at, place))
    }

    /// The value that was pushed last, in constant time. None where there are no values.
    pub fn last(&self) -> Option<&T>
        ensures { MatchOption result (self.now ≡ [])
            (λ x. slice_get self.now (length self.now - 1) ≡ Some x.now) }
    {
        if self.len == 0 {
            return None;
        }
        Some(self.chain.value(self.tail, self.len - 1))
    }

    /// The values in order, the first one first.
    pub fn walk(&self) -> Walk<'_, T>
        ensures values { result ≡ self.now }
        ensures runs { ShowsInOrder (deref {X = T}) }
    {
        Walk {
            chain: &self.chain,
            at: self.head,
            from: 0,
            left: self.len,
        }
    }
}

impl<'a, T> Iterator for Walk<'a, T> {
    type Item = &'a T;

    ghost next_gives = { TakesFirst deref };

    ghost remaining = { λ s. at_most (length s) };

    fn next(&mut self) -> Option<&'a T> {
        if self.left == 0 {
            return None;
        }
        let (chain, at, i) = (self.chain, self.at, self.from);
        self.at = chain.next(at, i);
        self.from = i + 1;
        self.left -= 1;
        Some(chain.value(at, i))
    }
}

impl<T: Drop> Drop for Log<T> {
    fn drop(self) {
        let Log {
            mut chain,
            mut head,
            tail: _,
            mut len,
        } = self;
        while len > 0 {
            let next = chain.next(head, 0);
            let (value, spare) = chain.unlink_front(head);
            drop(value);
            drop(spare.free());
            head = next;
            len -= 1;
        }
        chain.end();
    }
}
