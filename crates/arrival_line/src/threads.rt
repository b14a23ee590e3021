//! A readout's arrivals go from a feeder's thread to a deliverer's.

ghost use Rattle.std.specs.Prelude.{◌≡◌, true, false, [], ◌^◌, ◌<◌, length, IfOk};
ghost use Rattle.crossbeam_channel.specs.Claims.{view, IsSeatAt};
ghost use Rattle.crossbeam_channel.specs.Ends.{sends_on, receives_on};
ghost use Rattle.arrival_line.specs.inside.Feeds.{HasFed, HasReceived};
ghost use Rattle.arrival_line.specs.inside.Inboxes.{IsOpened};
ghost use Rattle.arrival_line.specs.Line.{traffic};
ghost use Rattle.arrival_line.specs.Strays.{strays_of, Delivers};

use crate::arrival::{Message, Traffic};
use crate::courier::Courier;
use crate::feed::{Fed, feed};
use crate::gather::{Taken, gather};
use crate::inbox::Inbox;
use crate::line::{LinePass, Ordered, Receiver, Roles, Sender};
use crate::promise::Feeds;
use crate::readout::Readout;
use crate::receive::{Received, receive};
use crossbeam_channel::bounded_with;
use source_model::Kind;
use std::alloc::{AllocError, Global};
use std::marker::Model;
use std::snapshot::Snapshot;
use std::sync::Wait;
use std::sync::atomic::{AtomicBool, Ordering};
use std::thread;
use std::thread::Threads;

/// How many messages the channel holds.
const CAPACITY: usize = 64;

/// A channel for the arrivals of one readout. It knows, and contracts see, what is wanted: for each product its kind, while an
/// outcome of it is still to come, and else None.
#[derive(Drop)]
pub struct Line {
    pub(crate) sender: Sender,
    pub(crate) receiver: Receiver,
    pub(crate) feeder: LinePass,
    pub(crate) deliverer: LinePass,
    pub(crate) wanted: Vec<Option<Kind>>,
    // The same once more, for the search for strays.
    pub(crate) sifting: Vec<Option<Kind>>,
}

impl Model for Line {
    ghost use Rattle.std.specs.Prelude.{◌≡◌, true, false, [], List, Option};
    ghost use Rattle.crossbeam_channel.specs.Claims.{IsSeatAt};
    ghost use Rattle.crossbeam_channel.specs.Claims.{view as known};
    ghost use Rattle.crossbeam_channel.specs.Ends.{sends_on, receives_on};
    ghost use Rattle.source_model.specs.declared.Kind.{Kind as Kinds};
    ghost use Rattle.arrival_line.specs.Line.{traffic};

    ghost Value = { List (Option Kinds) };

    ghost view = { λ l. l.wanted.items };

    ghost invariant = { λ l. (receives_on l.receiver ≡ sends_on l.sender)
        × IsSeatAt (sends_on l.sender) l.feeder × (known l.feeder ≡ traffic true false [] [])
        × IsSeatAt (sends_on l.sender) l.deliverer × (known l.deliverer ≡ traffic false true [] [])
        × (l.sifting.items ≡ l.wanted.items) };
}

/// All that comes of a readout, a courier and the others that worked meanwhile. Where memory ran out nothing is said of what
/// was taken.
#[derive(Drop)]
pub struct Relayed<C, X> {
    pub courier: C,
    pub others: X,
    pub taken: Result<Taken, AllocError>,
}

impl Line {
    /// A channel for the arrivals of one readout.
    pub fn new(alloc: Global, wanted: Vec<Option<Kind>>) -> Result<Line, AllocError>
        ensures { IfOk result (λ l. l ≡ wanted.items) }
    {
        let sifting = Vec::from_slice(alloc, &wanted)?;
        let (sender, receiver, mut feeder) = bounded_with::<Message, Traffic, Ordered, Global>(
            alloc, CAPACITY,
        )?;
        let deliverer = sender.another::<Roles>(&mut feeder);
        Ok(Line {
            sender,
            receiver,
            feeder,
            deliverer,
            wanted,
            sifting,
        })
    }
}

// Runs the feeder in a thread of its own, and the deliverer in another beside the others, which run in this one. Where no
// thread can be made for the feeder it runs first, and stops where the channel is full; where none can be made for the
// deliverer it runs last.
fn run<R: Readout, C: Courier, X, O: FnOnce() -> X, T: Threads + Wait + Sync>(
    rt: &T,
    to: &Sender,
    from: &Receiver,
    readout: R,
    inbox: Inbox<C>,
    feeder: LinePass,
    deliverer: LinePass,
    others: O,
) -> (Fed<R>, Received<C>, X)
    requires sends { IsSeatAt (sends_on to.now) feeder × (view feeder ≡ traffic true false [] []) }
    requires receives { IsSeatAt (receives_on from.now) deliverer
        × (view deliverer ≡ traffic false true [] []) }
    requires inbox { IsOpened C.made inbox }
    requires others { O.pre others }
    ensures fed { IsSeatAt (sends_on to.now) result.0.pass × HasFed R.left readout result.0 }
    ensures received { IsSeatAt (receives_on from.now) result.1.pass
        × HasReceived C.made C.key inbox result.1 }
    ensures others { O.post others result.2 }
{
    let lone = AtomicBool::new(false);
    let alone = &lone;
    thread::scope(
        thread::scope_env(),
        rt,
        |scope| -> (Fed<R>, Received<C>, X)
            requires { IsSeatAt (sends_on to.now) feeder × (view feeder ≡ traffic true false [] [])
                × IsSeatAt (receives_on from.now) deliverer
                × (view deliverer ≡ traffic false true [] [])
                × IsOpened C.made inbox × O.pre others }
            ensures { IsSeatAt (sends_on to.entry.now) result.0.pass
                × HasFed R.left readout result.0
                × IsSeatAt (receives_on from.entry.now) result.1.pass
                × HasReceived C.made C.key inbox result.1
                × O.post others result.2 }
        {
            let promise = Feeds {
                to: Snapshot::of(to),
                readout: Snapshot::of(&readout),
            };
            let started = scope.spawn_with(
                promise,
                move || -> Fed<R>
                    requires { IsSeatAt (sends_on to.now) feeder
                        × (view feeder ≡ traffic true false [] []) }
                    ensures { IsSeatAt (sends_on to.entry.now) result.pass
                        × HasFed R.left readout result }
                { feed(rt, to, alone, feeder, readout) },
            );
            match started {
                Ok(child) => {
                    let (received, made) = beside(rt, from, false, inbox, deliverer, others);
                    (child.join(rt), received, made)
                }
                Err(refused) => {
                    alone.store(true, Ordering::SeqCst);
                    let fed = (refused.value)();
                    let (received, made) = beside(rt, from, true, inbox, deliverer, others);
                    (fed, received, made)
                }
            }
        },
    )
}

// The deliverer and the others.
fn beside<C: Courier, X, O: FnOnce() -> X, T: Threads + Wait + Sync>(
    rt: &T,
    from: &Receiver,
    alone: bool,
    inbox: Inbox<C>,
    deliverer: LinePass,
    others: O,
) -> (Received<C>, X)
    requires receives { IsSeatAt (receives_on from.now) deliverer
        × (view deliverer ≡ traffic false true [] []) }
    requires inbox { IsOpened C.made inbox }
    requires others { O.pre others }
    ensures received { IsSeatAt (receives_on from.now) result.0.pass
        × HasReceived C.made C.key inbox result.0 }
    ensures others { O.post others result.1 }
{
    thread::join(
        rt,
        move || -> Received<C>
            requires { IsSeatAt (receives_on from.now) deliverer
                × (view deliverer ≡ traffic false true [] [])
                × IsOpened C.made inbox }
            ensures { IsSeatAt (receives_on from.entry.now) result.pass
                × HasReceived C.made C.key inbox result }
        { receive(rt, from, alone, deliverer, inbox) },
        others,
    )
}

/// Takes all arrivals of a readout, and delivers those that are no strays where the courier lets it, while the others work.
///
/// Each of the three has a thread: a feeder takes the arrivals off the readout and sends them, and after them an end message,
/// through the line; a deliverer receives and keeps them, and hands them to the courier, each as often as it takes. After the
/// end message it makes at most 64 tries for each product. What the line still holds once all have ended, what was handed
/// back, and what the readout has left are taken last, so that no answer of the line loses an arrival.
pub fn relay<R: Readout, C: Courier, X, O: FnOnce() -> X, T: Threads + Wait + Sync>(
    rt: &T,
    alloc: Global,
    line: Line,
    readout: R,
    courier: C,
    others: O,
) -> Relayed<C, X>
    requires few { length (R.left readout) < 2 ^ 32 }
    requires others { O.pre others }
    ensures taken { IfOk result.taken (λ t. t.arrivals.items ≡ R.left readout) }
    ensures strays { IfOk result.taken (λ t. t.strays.items ≡ strays_of line (R.left readout)) }
    ensures delivers { Delivers line (R.left readout) (C.made courier) (C.made result.courier) }
    ensures key { C.key result.courier ≡ C.key courier }
    ensures others { O.post others result.others }
{
    let Line {
        sender,
        receiver,
        feeder,
        deliverer,
        wanted,
        sifting,
    } = line;
    let inbox = Inbox::new(alloc, courier, wanted);
    let (fed, received, made) = run(
        rt, &sender, &receiver, readout, inbox, feeder, deliverer, others,
    );
    let (courier, taken) = gather(rt, alloc, &sender, &receiver, fed, received, sifting);
    Relayed {
        courier,
        others: made,
        taken,
    }
}
