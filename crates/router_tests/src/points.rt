//! What gates are told.

ghost use Rattle.std.specs.Prelude.{◌≡◌, ◌≤◌};
ghost use Rattle.patch_base.specs.Outside.{Rose};

use crate::ends::work;
use crate::jobs::{Job, line, pair, settled};
use crate::site::Before;
use router_work::{Gate, Onward, Point, RouterEnd};
use std::alloc::Global;
use std::sync::atomic::{AtomicU64, Ordering};
use std::test::Fail;

/// A gate that compares what it is told with a list, over and over, and counts.
#[derive(Drop)]
struct Script<'a> {
    points: &'static [Point],
    at: usize,
    right: &'a AtomicU64,
    wrong: &'a AtomicU64,
}

impl<'a> Script<'a> {
    // Whether the next point of the list is this one. The list begins again at its end.
    fn is_next(&mut self, point: Point) -> bool {
        if self.at >= self.points.len() {
            self.at = 0;
        }
        if self.at >= self.points.len() {
            return false;
        }
        let next = self.points[self.at];
        self.at += 1;
        next == point
    }
}

impl<'a> Gate for Script<'a> {
    ghost stops = { λ _. 0 };

    fn at(&mut self, point: Point) -> Onward
        ensures counts { 0 ≤ 0 }
        ensures stopped { result ≡ Onward.Stop → Rose 0 0 }
        ensures goes { result ≡ Onward.Go }
    {
        let count = if self.is_next(point) {
            self.right
        } else {
            self.wrong
        };
        count.fetch_add(1, Ordering::AcqRel);
        Onward::Go
    }
}

// How many points a router told in the list's order and how many not, and how it ended. Another hand took the first numbers.
fn told(
    alloc: Global,
    job: &Job,
    taken: u32,
    points: &'static [Point],
) -> Result<(u64, u64, RouterEnd), Fail> {
    let right = AtomicU64::new(0);
    let wrong = AtomicU64::new(0);
    let gate = Script {
        points,
        at: 0,
        right: &right,
        wrong: &wrong,
    };
    let end = work(alloc, job, Before::Nothing, taken, gate)?.end;
    Ok((
        right.load(Ordering::Acquire),
        wrong.load(Ordering::Acquire),
        end,
    ))
}

static BOTH: [Point; 12] = [
    Point::Took { product: 0 },
    Point::Looked {
        product: 0,
        length: 0,
    },
    Point::Planned {
        product: 0,
        region: true,
    },
    Point::Answered {
        product: 0,
        claimed: true,
        held: false,
        length: 1,
    },
    Point::Delivered { product: 0 },
    Point::Released { product: 0 },
    Point::Took { product: 1 },
    Point::Looked {
        product: 1,
        length: 3,
    },
    Point::Planned {
        product: 1,
        region: true,
    },
    Point::Answered {
        product: 1,
        claimed: true,
        held: false,
        length: 4,
    },
    Point::Delivered { product: 1 },
    Point::Released { product: 1 },
];

#[test]
fn each_step_is_told(rt: HostRuntime) -> Result<(), Fail> {
    let told = told(rt.alloc(), &pair(), 0, &BOTH)?;
    assert_eq!(rt; told, (12, 0, RouterEnd::NoNumber));
    Ok(())
}

static WAITING: [Point; 1] = [Point::Took { product: 1 }];

// 64 tries for each of the two products. A product that waits isn't looked at.
#[test]
fn each_try_is_told(rt: HostRuntime) -> Result<(), Fail> {
    let told = told(rt.alloc(), &line(), 1, &WAITING)?;
    assert_eq!(rt; told, (128, 0, RouterEnd::Tries));
    Ok(())
}

static SETTLING: [Point; 14] = [
    Point::Took { product: 0 },
    Point::Looked {
        product: 0,
        length: 0,
    },
    Point::Planned {
        product: 0,
        region: true,
    },
    Point::Answered {
        product: 0,
        claimed: true,
        held: false,
        length: 1,
    },
    Point::Delivered { product: 0 },
    Point::Released { product: 0 },
    Point::Took { product: 1 },
    Point::Delivered { product: 1 },
    Point::Took { product: 2 },
    Point::Looked {
        product: 2,
        length: 4,
    },
    Point::Planned {
        product: 2,
        region: true,
    },
    Point::Answered {
        product: 2,
        claimed: true,
        held: false,
        length: 5,
    },
    Point::Delivered { product: 2 },
    Point::Released { product: 2 },
];

// A product is settled without a look and a plan.
#[test]
fn a_settling_is_told(rt: HostRuntime) -> Result<(), Fail> {
    let told = told(rt.alloc(), &settled(), 0, &SETTLING)?;
    assert_eq!(rt; told, (14, 0, RouterEnd::NoNumber));
    Ok(())
}
