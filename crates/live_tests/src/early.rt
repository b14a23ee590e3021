//! An outcome that isn't there before a product is claimed.

ghost use Rattle.std.specs.Prelude.{◌≡◌, ◌≤◌, drop};
ghost use Rattle.patch_base.specs.Outside.{Rose};

use crate::job::pair;
use job_read::{Started, read_job, start_job};
use live_readout::{Arrival, Readout, route_live};
use patch_base::Memory;
use router_work::{Gate, Onward, Point};
use source_model::Given;
use std::sync::atomic::{AtomicU64, Ordering};
use std::test::Fail;

/// How many loads of a flag are enough.
const LOADS: u32 = 100_000_000;

/// What the gates tell the readout, and what the readout tells the test.
#[derive(Drop)]
struct Flags {
    /// A claim was accepted.
    claimed: AtomicU64,
    /// How often the readout waited in vain.
    missed: AtomicU64,
}

// Waits until a flag is set, for so many loads at most.
fn is_seen(flag: &AtomicU64) -> bool {
    for _ in 0..LOADS {
        if flag.load(Ordering::Acquire) != 0 {
            return true;
        }
    }
    false
}

/// Gives its arrivals once a claim was accepted.
#[derive(Drop)]
struct Late<'a> {
    flags: &'a Flags,
    arrivals: Vec<Arrival>,
    at: usize,
}

impl<'a> Late<'a> {
    fn wait(&self) {
        if !is_seen(&self.flags.claimed) {
            self.flags.missed.fetch_add(1, Ordering::AcqRel);
        }
    }
}

impl<'a> Readout for Late<'a> {
    ghost left = { λ late. drop late.at late.arrivals.items };

    fn next(&mut self) -> Option<Arrival> {
        if self.at >= self.arrivals.len() {
            return None;
        }
        self.wait();
        let arrival = self.arrivals[self.at];
        self.at += 1;
        Some(arrival)
    }
}

/// Tells that a claim was accepted.
#[derive(Drop)]
struct Telling<'a> {
    flags: &'a Flags,
}

impl<'a> Gate for Telling<'a> {
    ghost stops = { λ _. 0 };

    fn at(&mut self, point: Point) -> Onward
        ensures counts { 0 ≤ 0 }
        ensures stopped { result ≡ Onward.Stop → Rose 0 0 }
        ensures goes { result ≡ Onward.Go }
    {
        if let Point::Answered { claimed: true, .. } = point {
            self.flags.claimed.store(1, Ordering::Release);
        }
        Onward::Go
    }
}

fn measured(product: u32) -> Arrival {
    Arrival {
        product,
        given: Given::Measure { raw: false },
    }
}

#[test]
fn outcomes_are_taken_while_routers_work(rt: HostRuntime) -> Result<(), Fail> {
    let alloc = rt.alloc();
    let job = read_job(alloc, &mut pair(), "c", "l", "o")
        .ok()
        .ok_or(Memory)?;
    let started = start_job(alloc, job)?;
    let Started { board, .. } = started;
    let flags = Flags {
        claimed: AtomicU64::new(0),
        missed: AtomicU64::new(0),
    };
    let arrivals = vec![in alloc; measured(0), measured(9), measured(0), measured(1)]?;
    let taken = arrivals.clone()?;
    let readout = Late {
        flags: &flags,
        arrivals,
        at: 0,
    };
    let gates = vec![in alloc; Telling { flags: &flags }, Telling { flags: &flags }]?;
    let live = route_live(&rt, alloc, board, readout, 2, gates)
        .ok()
        .ok_or(Memory)?;
    assert_eq!(rt; flags.missed.load(Ordering::Acquire), 0);
    assert_eq!(rt; live.taken.as_slice(), taken.as_slice());
    assert_eq!(rt; live.strays.as_slice(), [1, 2].as_slice());
    Ok(())
}
