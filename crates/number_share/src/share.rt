// Shares and their hands.
ghost use Rattle.std.specs.Prelude.{◌≡◌, ℕ, ◌+◌, ◌-◌, ◌<◌, ◌≤◌, ◌↔◌, true, false, List, [], ◌∷◌, ◌++◌, length, min, replicate, slice_get, IsNone, IfOk, IfSome, IfNone};
ghost use Rattle.std.specs.List.{All, Any, Contains, flat_map, range_with_len};
ghost use Rattle.number_share.specs.Lists.{HasEachOnce};
ghost use Rattle.number_share.specs.inside.Views.{opener};
ghost use Rattle.number_share.specs.Hands.{NamedShare, Owner, IsHandOf, IsSpent, unused, fresh, drawing, spending, retaking, putting, Takes, LeavesPut};
ghost use Rattle.number_share.specs.inside.Hands.{HoldsAll, Drawn};

use crate::rule::{Counts, Deal, EachOnce, Gather};
use crate::steps::{Core, HandSeat, NEXT, draw};
use crate::view::View;
use atomic_table::Table;
use patch_base::{Memory, PRODUCTS, ROUTERS};
use std::alloc::Global;
use std::collections::VecDeque;
use std::marker::Model;

/// The numbers below a bound, which hands draw from one word. Contracts see which share it is, how
/// many numbers it has and how many hands it was made with.
#[derive(Drop)]
pub struct Share {
    table: Table<(), View, Counts, EachOnce, Global>,
    numbers: u32,
}

impl Model for Share {
    ghost use Rattle.std.specs.Prelude.{◌≡◌, ◌<◌};
    ghost use Rattle.number_share.specs.Hands.{NamedShare};

    ghost Value = { NamedShare };

    ghost view = { λ s.
        record {
          id = s.table.shared.table_id;
          numbers = s.numbers;
          owners = s.table.shared.key.owners;
        } };

    ghost invariant = { λ s. (s.table.shared.table_id.words ≡ 1)
        × (s.table.shared.table_id.slots ≡ 0) × (s.table.shared.key.numbers ≡ s.numbers)
        × (0 < s.table.shared.key.owners) };
}

/// One owner's access to a share, and the numbers that it took and that were put back. Contracts
/// see these lists, the share, and what its steps read past the shared numbers.
#[derive(Drop)]
pub struct Hand {
    seat: HandSeat,
    spent: bool,
    /// What was taken and not put back, the last taken at the end, where `put` looks first.
    held: Vec<u32>,
    /// What was put and not taken again, the oldest first.
    left: VecDeque<u32>,
}

impl Model for Hand {
    ghost use Rattle.std.specs.Prelude.{vec_capacity};
    ghost use Rattle.std.specs.VecDeque.{deque_capacity};
    ghost use Rattle.number_share.specs.Hands.{Owner};
    ghost use Rattle.number_share.specs.inside.Hands.{HandRests};

    ghost Value = { Owner };

    ghost view = { λ h.
        record {
          share = h.seat.table_id;
          numbers = h.seat.me.0.numbers;
          past = h.seat.me.0.past;
          held = h.held.items;
          left = h.left.items;
        } };

    ghost invariant = { λ h. HandRests h.seat.me h.spent h.held.items h.left.items (vec_capacity
        h.held)
        (deque_capacity h.left) };
}

impl Hand {
    // Whether a step of the hand read a number that isn't shared.
    fn is_spent(&self) -> bool
        ensures spent { result ≡ true → IsSpent self.now }
        ensures unspent { result ≡ false → self.now.past ≡ [] }
    {
        self.spent
    }

    /// The next number that no hand has drawn, or, of a spent hand, the number that was put longest
    /// ago. A hand is spent from the step on that read a number past the shared ones.
    pub fn take(&mut self, share: &Share) -> Option<u32>
        requires { IsHandOf share.now self.old }
        ensures share { IsHandOf share.now self.new }
        ensures taken { IfSome result (λ n. (n < share.now.numbers)
            × (self.new.held ≡ self.old.held ++ n ∷ [])) }
        ensures once { IfSome result (λ n. ¬ (Contains self.old.held n)) }
        ensures none { IsNone result ↔ (IsSpent self.new × (self.old.left ≡ [])) }
        ensures kept { IfNone result (self.new.held ≡ self.old.held) }
        ensures told { Takes self.old result self.new }
    {
        if !self.is_spent() {
            if let Some(number) = self.draw(share) {
                return Some(number);
            }
        }
        self.take_again()
    }

    // One step: it draws a number, or the hand is spent.
    fn draw(&mut self, share: &Share) -> Option<u32>
        requires share { IsHandOf share.now self.old }
        requires unspent { self.old.past ≡ [] }
        ensures drawn { IfSome result (λ n. (n < self.old.numbers)
            × (self.new ≡ drawing self.old n)) }
        ensures once { IfSome result (λ n. ¬ (Contains self.old.held n)) }
        ensures ended { IfNone result ((r : ℕ) × (self.old.numbers ≤ r)
            × (self.new ≡ spending self.old r)) }
    {
        let read = draw(&share.table.shared, &mut self.seat);
        if read >= u64::from(share.numbers) {
            self.spent = true;
            return None;
        }
        let number = read as u32;
        self.held.push_reserved(number);
        Some(number)
    }

    // The number that was put longest ago.
    fn take_again(&mut self) -> Option<u32>
        ensures oldest { result ≡ slice_get self.old.left 0 }
        ensures shared { IfSome result (λ n. n < self.old.numbers) }
        ensures once { IfSome result (λ n. ¬ (Contains self.old.held n)) }
        ensures taken { self.new ≡ retaking self.old }
    {
        let number = self.left.pop_front()?;
        self.held.push_reserved(number);
        Some(number)
    }

    /// Keeps a number that this hand took and hasn't put back. It takes no memory.
    pub fn put(&mut self, n: u32)
        requires { Contains self.old.held n }
        ensures { self.new ≡ putting self.old n }
    {
        let mut at = self.held.len() - 1;
        while self.held[at] != n {
            at -= 1;
        }
        self.held.remove(at);
        self.left.push_back_reserved(n);
    }
}

// A hand with the room for all numbers.
fn deal(alloc: Global, core: &Core, root: &mut HandSeat, numbers: u32) -> Result<Hand, Memory>
    requires core { (core.now.table_id.words ≡ 1) × (root.old.table_id ≡ core.now.table_id) }
    requires root { (0 < root.old.me.0.part) ×
        (root.old.me ≡ (opener numbers root.old.me.0.part, [])) }
    ensures same { root.new.table_id ≡ root.old.table_id }
    ensures dealt { IfOk result (λ h. (h ≡ unused core.now.table_id numbers)
        × (root.new.me ≡ (opener numbers (root.old.me.0.part - 1), []))) }
{
    let held = Vec::with_capacity(alloc, numbers as usize)?;
    let left = VecDeque::with_capacity(alloc, numbers as usize)?;
    let seat = core.split_seat::<Deal>(root);
    Ok(Hand {
        seat,
        spent: false,
        held,
        left,
    })
}

// One seat that stands for all hands.
fn join(core: &Core, mut hands: Vec<Hand>) -> HandSeat
    requires core { core.now.table_id.words ≡ 1 }
    requires some { 0 < length hands.items }
    requires hands { All (λ (h : Owner). h.share ≡ core.now.table_id) hands.items }
    ensures seat { (result.table_id ≡ core.now.table_id) × (result.me.1 ≡ []) }
    ensures all { HoldsAll hands.items result.me.0 }
{
    let Some(first) = hands.pop() else {
        unreachable!()
    };
    let Hand {
        mut seat,
        spent: _,
        held: _,
        left: _,
    } = first;
    while let Some(hand) = hands.pop() {
        let Hand {
            seat: other,
            spent: _,
            held: _,
            left: _,
        } = hand;
        core.join_seat::<Gather>(&mut seat, other);
    }
    seat
}

// All that was put and not taken again.
fn put_back(alloc: Global, hands: &[Hand]) -> Result<Vec<u32>, Memory>
    ensures { IfOk result (λ v. v.items ≡ flat_map (λ (h : Owner). h.left) hands.now) }
{
    let mut put = Vec::new(alloc);
    for hand in hands {
        let (front, back) = hand.left.as_slices();
        put.extend_from_slice(front)?;
        put.extend_from_slice(back)?;
    }
    Ok(put)
}

impl Share {
    /// Shares the numbers below `numbers` among this many hands, each with the room to hold and to
    /// put back all of them.
    pub fn new(alloc: Global, numbers: u32, owners: u32) -> Result<(Share, Vec<Hand>), Memory>
        requires numbers { numbers ≤ PRODUCTS }
        requires owners { (0 < owners) × (owners ≤ ROUTERS) }
        ensures share { IfOk result (λ r. (r.0.numbers ≡ numbers) × (r.0.owners ≡ owners)) }
        ensures hands { IfOk result (λ r. r.1.items ≡ replicate owners (fresh r.0)) }
    {
        let counts = Counts { numbers, owners };
        let (table, mut root) = Table::of_words(alloc, &[0], &counts)?;
        let mut hands = Vec::with_capacity(alloc, owners as usize)?;
        for _ in 0..owners {
            hands.push(deal(alloc, &table.shared, &mut root, numbers)?)?;
        }
        Ok((Share { table, numbers }, hands))
    }

    /// The numbers left: those that were put and not taken again, and then those that were never
    /// drawn.
    pub fn gather(self, alloc: Global, hands: Vec<Hand>) -> Result<Vec<u32>, Memory>
        requires all { length hands.items ≡ self.owners }
        requires hands { All (IsHandOf self) hands.items }
        // What is left and what the hands hold are together the shared numbers, each once.
        ensures once { IfOk result (λ v. HasEachOnce self.numbers
            (v.items ++ flat_map (λ (h : Owner). h.held) hands.items)) }
        ensures left { IfOk result (λ v. LeavesPut self.numbers hands.items v.items) }
    {
        let mut left = put_back(alloc, &hands)?;
        let numbers = self.numbers;
        let next = self.close(hands);
        for number in next.min(numbers)..numbers {
            left.push(number)?;
        }
        Ok(left)
    }

    // The next number at the end.
    fn close(self, hands: Vec<Hand>) -> u32
        requires all { length hands.items ≡ self.owners }
        requires hands { All (IsHandOf self) hands.items }
        ensures { Drawn hands.items self.numbers result }
    {
        let Share { table, numbers: _ } = self;
        let seat = join(&table.shared, hands);
        let closed = table.close_with(seat);
        let next = closed.word(NEXT);
        closed.free();
        next as u32
    }
}
