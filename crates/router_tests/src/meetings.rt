//! Two routers that meet: each has looked at the board before the other one claims.

ghost use Rattle.std.specs.Prelude.{◌≡◌, ◌≤◌};
ghost use Rattle.patch_base.specs.Outside.{Rose};

use crate::jobs::pair;
use crate::routed::forward;
use board_core::Board;
use patch_base::Memory;
use router_work::{Gate, Onward, Point};
use std::alloc::Global;
use std::sync::atomic::{AtomicU64, Ordering};
use std::test::Fail;
use std::thread::Threads;

/// How many loads of a flag are enough.
const LOADS: u32 = 100_000_000;

/// What the two gates tell each other, and what they tell the test.
#[derive(Drop)]
struct Flags {
    /// Router 1 has looked.
    looked: AtomicU64,
    /// Router 2's claim was accepted.
    claimed: AtomicU64,
    /// How often a gate waited in vain.
    missed: AtomicU64,
    /// How often router 1's first answer after its look was as it has to be.
    met: AtomicU64,
}

// Waits until a flag is set, for so many loads at most.
fn is_seen(flag: &AtomicU64) -> bool {
    for _ in 0..LOADS {
        if flag.load(Ordering::Acquire) != 0 {
            return true;
        }
    }
    false
}

// Waits, and notes where that was in vain.
fn wait_for(flags: &Flags, flag: &AtomicU64) {
    if !is_seen(flag) {
        flags.missed.fetch_add(1, Ordering::AcqRel);
    }
}

/// Which router asks, and the length of the history at its last look.
#[derive(Drop)]
struct Meeting<'a> {
    flags: &'a Flags,
    router: u32,
    looked_at: Option<u32>,
    waits: bool,
}

impl<'a> Meeting<'a> {
    // Router 1 stays in its first look until router 2 has claimed.
    fn at_look(&mut self, length: u32) {
        if self.router == 1 && self.waits {
            self.waits = false;
            self.looked_at = Some(length);
            self.flags.looked.store(1, Ordering::Release);
            wait_for(self.flags, &self.flags.claimed);
        }
    }

    // Router 2 doesn't look until router 1 has.
    fn at_number(&mut self) {
        if self.router == 2 && self.waits {
            self.waits = false;
            wait_for(self.flags, &self.flags.looked);
        }
    }

    // Router 1 meets a history that is longer than the one that it looked at.
    fn at_answer(&mut self, claimed: bool, held: bool, length: u32) {
        if self.router == 2 {
            if claimed {
                self.flags.claimed.store(1, Ordering::Release);
            }
            return;
        }
        if let Some(before) = self.looked_at {
            self.looked_at = None;
            if (claimed || held) && length > before {
                self.flags.met.fetch_add(1, Ordering::AcqRel);
            }
        }
    }
}

impl<'a> Gate for Meeting<'a> {
    ghost stops = { λ _. 0 };

    fn at(&mut self, point: Point) -> Onward
        ensures counts { 0 ≤ 0 }
        ensures stopped { result ≡ Onward.Stop → Rose 0 0 }
        ensures goes { result ≡ Onward.Go }
    {
        match point {
            Point::Took { .. } => self.at_number(),
            Point::Looked { length, .. } => self.at_look(length),
            Point::Answered {
                claimed,
                held,
                length,
                ..
            } => self.at_answer(claimed, held, length),
            Point::Planned { .. } | Point::Delivered { .. } | Point::Released { .. } => {}
        }
        Onward::Go
    }
}

fn gate_of(flags: &Flags, router: u32) -> Meeting<'_> {
    Meeting {
        flags,
        router,
        looked_at: None,
        waits: true,
    }
}

// No router has looked or claimed.
fn new_flags() -> Flags {
    Flags {
        looked: AtomicU64::new(0),
        claimed: AtomicU64::new(0),
        missed: AtomicU64::new(0),
        met: AtomicU64::new(0),
    }
}

// Two routers that meet on the board of the pair.
fn meet<R: Threads + Sync>(rt: &R, alloc: Global, flags: &Flags) -> Result<Board, Memory> {
    let mut gates = Vec::new(alloc);
    gates.push(gate_of(flags, 1))?;
    gates.push(gate_of(flags, 2))?;
    let (board, _) = forward(rt, alloc, &pair(), gates)?;
    Ok(board)
}

// Router 1 plans by a look that is old by then. No gate waits in vain, and all six entries are made.
#[test]
fn routers_plan_outside_the_turn(rt: HostRuntime) -> Result<(), Fail> {
    let flags = new_flags();
    let board = meet(&rt, rt.alloc(), &flags)?;
    assert_eq!(rt; flags.missed.load(Ordering::Acquire), 0);
    assert_eq!(rt; flags.met.load(Ordering::Acquire), 1);
    assert_eq!(rt; board.history().length(), 6);
    Ok(())
}
