//! A router's single tries.

ghost use Rattle.router_tests.specs.inside.Sites.{MayTry};

use crate::jobs::{Job, line, pair, settled, seven, sides};
use crate::site::{Before, prepare, shared, site_for, take_first};
use router_work::{Attempt, Gate, NoGate, Router};
use std::alloc::Global;
use std::test::Fail;

/// The first row with another answer than the router's. It may try the products below `count`.
pub(crate) fn first_wrong<G: Gate>(
    router: &mut Router<'_, G>,
    count: u32,
    rows: &[(u32, Attempt)],
) -> Option<usize>
    requires { MayTry router.old count }
{
    for at in 0..rows.len() {
        let (number, answer) = rows[at];
        if number >= count {
            return Some(at);
        }
        if router.attempt(number) != answer {
            return Some(at);
        }
    }
    None
}

// The same on a new board for a job, where something was done before.
fn play(
    alloc: Global,
    job: &Job,
    before: Before,
    count: u32,
    rows: &[(u32, Attempt)],
) -> Result<Option<usize>, Fail> {
    let (site, mut first, look) = site_for(alloc, job)?;
    let other = site.grid.split(&mut first)?;
    let pass = site.grid.split(&mut first)?;
    prepare(alloc, &site, other, before)?;
    let (share, mut hand, _) = shared(alloc, &site.outcomes)?;
    take_first(&share, &mut hand, count)?;
    let mut router = Router::new(
        alloc,
        &site.grid,
        &site.layout,
        pass,
        hand,
        &share,
        &site.outcomes,
        look,
        NoGate,
    );
    Ok(first_wrong(&mut router, count, rows))
}

static ONCE: [(u32, Attempt); 2] = [
    (0, Attempt::Claimed { place: 0 }),
    (0, Attempt::Taken { place: 0 }),
];

// The first try claims, delivers and releases, and the second one finds the claim.
#[test]
fn a_product_is_claimed_once(rt: HostRuntime) -> Result<(), Fail> {
    assert_eq!(rt; play(rt.alloc(), &pair(), Before::Nothing, 1, &ONCE)?, None);
    Ok(())
}

static IN_ORDER: [(u32, Attempt); 4] = [
    (1, Attempt::NotReady { on: 0 }),
    (0, Attempt::Claimed { place: 0 }),
    (1, Attempt::Claimed { place: 3 }),
    (1, Attempt::Taken { place: 3 }),
];

// X waits on the Z of the same qubit, until that is delivered.
#[test]
fn a_product_waits_on_an_earlier_one(rt: HostRuntime) -> Result<(), Fail> {
    assert_eq!(rt;
        play(rt.alloc(), &line(), Before::Nothing, 2, &IN_ORDER)?,
        None
    );
    Ok(())
}

static SETTLES: [(u32, Attempt); 6] = [
    (2, Attempt::NotReady { on: 1 }),
    (1, Attempt::NotReady { on: 0 }),
    (0, Attempt::Claimed { place: 0 }),
    (1, Attempt::Settled { place: 3 }),
    (1, Attempt::Taken { place: 3 }),
    (2, Attempt::Claimed { place: 4 }),
];

// A settled product waits on the bit that it reads, and is settled once.
#[test]
fn a_product_is_settled_once(rt: HostRuntime) -> Result<(), Fail> {
    assert_eq!(rt;
        play(rt.alloc(), &settled(), Before::Nothing, 3, &SETTLES)?,
        None
    );
    Ok(())
}

static UNSTOCKED: [(u32, Attempt); 3] = [
    (0, Attempt::NoReady),
    (2, Attempt::Claimed { place: 0 }),
    (0, Attempt::NoReady),
];

// A rotation wants a magic state, and a measurement doesn't.
#[test]
fn a_rotation_wants_a_state(rt: HostRuntime) -> Result<(), Fail> {
    assert_eq!(rt;
        play(rt.alloc(), &seven(), Before::Nothing, 3, &UNSTOCKED)?,
        None
    );
    Ok(())
}

static STOCKED: [(u32, Attempt); 3] = [
    (0, Attempt::Claimed { place: 22 }),
    (1, Attempt::Claimed { place: 25 }),
    (0, Attempt::Taken { place: 22 }),
];

// The maker of factory 0 made two states by 22 steps.
#[test]
fn a_rotation_takes_a_state(rt: HostRuntime) -> Result<(), Fail> {
    assert_eq!(rt;
        play(rt.alloc(), &seven(), Before::Filled(0), 2, &STOCKED)?,
        None
    );
    Ok(())
}

static HELD: [(u32, Attempt); 2] = [(1, Attempt::Blocked), (0, Attempt::Taken { place: 0 })];

// The other product holds the only Z side of the patch.
#[test]
fn a_product_is_blocked(rt: HostRuntime) -> Result<(), Fail> {
    let before = Before::Claimed(0, b"+IY", &[1, 2, 3, 4, 10]);
    assert_eq!(rt; play(rt.alloc(), &sides(), before, 2, &HELD)?, None);
    Ok(())
}
