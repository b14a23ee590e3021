ghost use Rattle.std.specs.Prelude.{◌≡◌, ◌<◌, ◌^◌, drop, length, IfOk};

use crate::feed::{Fed, feed};
use crate::inbox::Inbox;
use crate::readout::Readout;
use crate::receive::{Received, receive};
use crate::{Arrival, Courier, Delivery, Line, Relayed, relay};
use source_model::{Given, Kind};
use std::alloc::{AllocError, Global};
use std::sync::Wait;
use std::sync::atomic::AtomicBool;
use std::test::Fail;
use std::thread::Threads;

// Gives the arrivals of a list.
#[derive(Drop)]
struct Tape {
    items: Vec<Arrival>,
    at: usize,
}

impl Readout for Tape {
    ghost left = { λ s. drop s.at s.items.items };

    fn next(&mut self) -> Option<Arrival> {
        if self.at >= self.items.len() {
            return None;
        }
        let arrival = self.items[self.at];
        self.at += 1;
        Some(arrival)
    }
}

fn new_tape(items: Vec<Arrival>) -> Tape
    ensures { drop result.at result.items.items ≡ items.items }
{
    Tape { items, at: 0 }
}

// Says no a few times, and then delivers.
#[derive(Drop)]
struct Book {
    made: Vec<Arrival>,
    says_no: u32,
}

impl Courier for Book {
    ghost Key = { Unit {0} };

    ghost key = { λ _. tt };

    ghost made = { λ s. s.made.items };

    fn deliver(&mut self, arrival: Arrival) -> Delivery {
        if self.says_no > 0 {
            self.says_no -= 1;
            return Delivery::Later;
        }
        match self.made.push(arrival) {
            Ok(()) => Delivery::Done,
            Err(_) => Delivery::Later,
        }
    }
}

fn measured(product: u32, raw: bool) -> Arrival {
    Arrival {
        product,
        given: Given::Measure { raw },
    }
}

fn turned(product: u32) -> Arrival {
    Arrival {
        product,
        given: Given::Rotation {
            raw: true,
            x: false,
        },
    }
}

fn new_book(alloc: Global, says_no: u32) -> Book {
    Book {
        made: Vec::new(alloc),
        says_no,
    }
}

// An outcome of each of so many rotations.
fn turns(alloc: Global, count: u32) -> Result<Vec<Arrival>, AllocError>
    ensures { IfOk result (λ v. length v.items ≡ count) }
{
    let mut items = Vec::new(alloc);
    for product in 0..count {
        items.push(turned(product))?;
    }
    Ok(items)
}

// So many rotations are wanted.
fn rotations(alloc: Global, count: u32) -> Result<Vec<Option<Kind>>, AllocError> {
    let mut wanted = Vec::new(alloc);
    for _ in 0..count {
        wanted.push(Some(Kind::Rotation))?;
    }
    Ok(wanted)
}

// A list goes to a book that says no so many times at first, while a third thread makes a 7.
fn relay_all<T: Threads + Wait + Sync>(
    rt: &T,
    alloc: Global,
    wanted: Vec<Option<Kind>>,
    items: Vec<Arrival>,
    says_no: u32,
) -> Result<Relayed<Book, u32>, AllocError>
    requires { length items.items < 2 ^ 32 }
{
    let line = Line::new(alloc, wanted)?;
    let others = || 7u32;
    Ok(relay(
        rt,
        alloc,
        line,
        new_tape(items),
        new_book(alloc, says_no),
        others,
    ))
}

// A measurement, a rotation, and a product that is done.
fn three(alloc: Global) -> Result<Vec<Option<Kind>>, AllocError> {
    let mut wanted = Vec::new(alloc);
    wanted.push(Some(Kind::Measure { bit: 0 }))?;
    wanted.push(Some(Kind::Rotation))?;
    wanted.push(None)?;
    Ok(wanted)
}

// Arrivals for them. The first and the last are no strays.
fn six(alloc: Global) -> Result<Vec<Arrival>, AllocError>
    ensures { IfOk result (λ v. length v.items ≡ 6) }
{
    let mut items = Vec::new(alloc);
    items.push(measured(0, false))?;
    items.push(measured(9, true))?;
    items.push(measured(0, true))?;
    items.push(measured(1, true))?;
    items.push(turned(2))?;
    items.push(turned(1))?;
    Ok(items)
}

#[test]
fn strays_are_kept_and_not_delivered(rt: HostRuntime) -> Result<(), Fail> {
    let relayed = relay_all(&rt, rt.alloc(), three(rt.alloc())?, six(rt.alloc())?, 0)?;
    let given = six(rt.alloc())?;
    let taken = relayed.taken?;
    assert_eq!(rt; relayed.others, 7);
    assert_eq!(rt; taken.arrivals.as_slice(), given.as_slice());
    assert_eq!(rt; taken.strays.as_slice(), [1, 2, 3, 4].as_slice());
    assert_eq!(rt;
        relayed.courier.made.as_slice(),
        [measured(0, false), turned(1)].as_slice()
    );
    Ok(())
}

#[test]
fn more_than_the_channel_holds(rt: HostRuntime) -> Result<(), Fail> {
    let wanted = rotations(rt.alloc(), 300)?;
    let relayed = relay_all(&rt, rt.alloc(), wanted, turns(rt.alloc(), 300)?, 900)?;
    let given = turns(rt.alloc(), 300)?;
    let taken = relayed.taken?;
    assert_eq!(rt; taken.arrivals.as_slice(), given.as_slice());
    assert!(rt; taken.strays.is_empty());
    assert_eq!(rt; relayed.courier.made.len(), 300);
    Ok(())
}

// The feeder runs first, and then the receiver, on one thread.
fn one_after_another<T: Wait>(
    rt: &T,
    alloc: Global,
    line: Line,
    readout: Tape,
) -> (Fed<Tape>, Received<Book>) {
    let Line {
        sender,
        receiver,
        feeder,
        deliverer,
        wanted,
        ..
    } = line;
    let inbox = Inbox::new(alloc, new_book(alloc, 0), wanted);
    let alone = AtomicBool::new(true);
    let fed = feed(rt, &sender, &alone, feeder, readout);
    let received = receive(rt, &receiver, true, deliverer, inbox);
    (fed, received)
}

#[test]
fn a_feeder_alone_stops_where_the_channel_is_full(rt: HostRuntime) -> Result<(), Fail> {
    let line = Line::new(rt.alloc(), rotations(rt.alloc(), 100)?)?;
    let readout = new_tape(turns(rt.alloc(), 100)?);
    let (fed, received) = one_after_another(&rt, rt.alloc(), line, readout);
    assert!(rt; fed.back.is_some());
    assert_eq!(rt; received.inbox.kept.len(), 64);
    Ok(())
}
