//! Why routers end, and which numbers they leave.

use crate::jobs::{Job, line, pair};
use crate::site::{Before, gathered, prepare, shared, site_for, take_first};
use router_work::{Gate, NoGate, Router, RouterEnd, StopAt};
use std::alloc::Global;
use std::process::Abort;
use std::test::Fail;

/// How a router ended, how many entries there are then, and which numbers are left.
#[derive(Drop)]
pub(crate) struct Ended {
    pub(crate) end: RouterEnd,
    pub(crate) length: u32,
    pub(crate) left: Vec<u32>,
}

/// Has a router work on a new board for a job, where something was done before and another hand took the first numbers.
pub(crate) fn work<G: Gate>(
    alloc: Global,
    job: &Job,
    before: Before,
    taken: u32,
    gate: G,
) -> Result<Ended, Fail> {
    let (site, mut first, look) = site_for(alloc, job)?;
    let earlier = site.grid.split(&mut first)?;
    let pass = site.grid.split(&mut first)?;
    prepare(alloc, &site, earlier, before)?;
    let (share, mut other, hand) = shared(alloc, &site.outcomes)?;
    take_first(&share, &mut other, taken)?;
    let mut router = Router::new(
        alloc,
        &site.grid,
        &site.layout,
        pass,
        hand,
        &share,
        &site.outcomes,
        look,
        gate,
    );
    let end = router.work();
    let (mut pass, hand) = router.into_parts();
    let length = site.grid.length(&mut pass);
    let left = gathered(alloc, share, other, hand)?;
    Ok(Ended { end, length, left })
}

// It ended so.
fn expect(rt: &impl Abort, ended: &Ended, end: RouterEnd, length: u32, left: &[u32]) {
    assert_eq!(rt; ended.end, end);
    assert_eq!(rt; ended.length, length);
    assert_eq!(rt; ended.left.as_slice(), left);
}

// Two products have three entries each, and no number is left.
#[test]
fn all_numbers_are_carried_out(rt: HostRuntime) -> Result<(), Fail> {
    let ended = work(rt.alloc(), &pair(), Before::Nothing, 0, NoGate)?;
    expect(&rt, &ended, RouterEnd::NoNumber, 6, &[]);
    Ok(())
}

// Product 0 is claimed already. Its number isn't put back, so that the router ends once product 1 is done.
#[test]
fn a_taken_number_is_not_put_back(rt: HostRuntime) -> Result<(), Fail> {
    let before = Before::Claimed(0, b"+ZI", &[5]);
    let ended = work(rt.alloc(), &pair(), before, 0, NoGate)?;
    expect(&rt, &ended, RouterEnd::NoNumber, 4, &[]);
    Ok(())
}

// Product 1 waits on product 0, whose number another hand keeps. After each refusal the number is put back.
#[test]
fn tries_come_to_an_end(rt: HostRuntime) -> Result<(), Fail> {
    let ended = work(rt.alloc(), &line(), Before::Nothing, 1, NoGate)?;
    expect(&rt, &ended, RouterEnd::Tries, 0, &[1]);
    Ok(())
}

// For each number of points that are passed before the router is stopped: how many entries there are, and which numbers are
// left. A number is put back, unless its product is claimed.
static STOPS: [(u32, &'static [u32]); 12] = [
    (0, &[0, 1]),
    (0, &[0, 1]),
    (0, &[0, 1]),
    (1, &[1]),
    (2, &[1]),
    (3, &[1]),
    (3, &[1]),
    (3, &[1]),
    (3, &[1]),
    (4, &[]),
    (5, &[]),
    (6, &[]),
];

#[test]
fn a_router_stops_at_each_point(rt: HostRuntime) -> Result<(), Fail> {
    for left in 0..12 {
        let (length, numbers) = STOPS[left as usize];
        let gate = StopAt { left, stops: 0 };
        let ended = work(rt.alloc(), &pair(), Before::Nothing, 0, gate)?;
        expect(&rt, &ended, RouterEnd::Stopped, length, numbers);
    }
    Ok(())
}
