//! What is left once both threads have ended.

ghost use Rattle.std.specs.Prelude.{◌≡◌, true, false, [], ◌++◌, List, IfOk, ◌^◌, ◌<◌, length};
ghost use Rattle.std.specs.Bool.{OnTrue};
ghost use Rattle.crossbeam_channel.specs.Claims.{view, IsSeatAt};
ghost use Rattle.crossbeam_channel.specs.Ends.{sends_on, receives_on};
ghost use Rattle.arrival_line.specs.declared.arrival.Arrival.{Arrival};
ghost use Rattle.arrival_line.specs.Line.{traffic};
ghost use Rattle.arrival_line.specs.Messages.{arrivals, handed_back};
ghost use Rattle.arrival_line.specs.Strays.{strays_of};

use crate::arrival::{Arrival, Message};
use crate::courier::Courier;
use crate::feed::Fed;
use crate::line::{LinePass, Receiver, Rest, Roles, Sender};
use crate::readout::Readout;
use crate::receive::Received;
use crate::strays::strays;
use source_model::Kind;
use std::alloc::{AllocError, Global};
use std::sync::Wait;

/// All that was taken of a readout, oldest first, and the indices of the strays in it, ascending.
#[derive(Drop)]
pub struct Taken {
    pub arrivals: Vec<Arrival>,
    pub strays: Vec<u32>,
}

// One pass of the two. What was received is the beginning of what was sent.
fn rejoin(to: &Sender, mut pass: LinePass, theirs: LinePass) -> LinePass
    requires seats { IsSeatAt (sends_on to.now) pass × IsSeatAt (sends_on to.now) theirs }
    requires sent { view pass ≡ traffic true false (view pass).sent [] }
    requires got { view theirs ≡ traffic false true [] (view theirs).got }
    ensures seat { IsSeatAt (sends_on to.now) result }
    ensures role { view result ≡ traffic true true (view pass).sent (view theirs).got }
    ensures prefix { (rest : List Arrival)
        × (arrivals (view pass).sent ≡ arrivals (view theirs).got ++ rest) }
{
    to.absorb::<Roles>(&mut pass, theirs);
    to.learn_as::<Rest>(&mut pass);
    pass
}

// Takes what the channel still holds.
fn drain<T: Wait>(
    rt: &T,
    from: &Receiver,
    mut pass: LinePass,
    mut kept: Vec<Arrival>,
) -> Result<Vec<Arrival>, AllocError>
    requires seat { IsSeatAt (receives_on from.now) pass }
    requires role { view pass ≡ traffic true true (view pass).sent (view pass).got }
    requires kept { kept.items ≡ arrivals (view pass).got }
    ensures { IfOk result (λ v. v.items ≡ arrivals (view pass).sent) }
{
    for _ in rt.forever() {
        match from.try_recv_as::<Rest, T>(rt, &mut pass) {
            Ok(Message::Arrived(arrival)) => kept.push(arrival)?,
            Ok(Message::End) => {}
            Err(_) => return Ok(kept),
        }
    }
    unreachable!()
}

// Takes the message that was handed back, and what the readout has left.
fn take_left<R: Readout>(
    mut readout: R,
    back: Option<Message>,
    mut kept: Vec<Arrival>,
) -> Result<Vec<Arrival>, AllocError>
    ensures { IfOk result (λ v. v.items ≡ (kept.items ++ arrivals (handed_back back))
        ++ R.left readout) }
{
    if let Some(Message::Arrived(arrival)) = back {
        kept.push(arrival)?;
    }
    while let Some(arrival) = readout.next() {
        kept.push(arrival)?;
    }
    Ok(kept)
}

// Takes the rest: what the channel still holds, the message that was handed back, and what the readout has left.
fn take_rest<R: Readout, T: Wait>(
    rt: &T,
    alloc: Global,
    from: &Receiver,
    pass: LinePass,
    fed: (R, Option<Message>),
    kept: Vec<Arrival>,
    wanted: Vec<Option<Kind>>,
) -> Result<Taken, AllocError>
    requires seat { IsSeatAt (receives_on from.now) pass }
    requires role { view pass ≡ traffic true true (view pass).sent (view pass).got }
    requires kept { kept.items ≡ arrivals (view pass).got }
    requires few { length ((arrivals (view pass).sent ++ arrivals (handed_back fed.1))
        ++ R.left fed.0) < 2 ^ 32 }
    ensures taken { IfOk result (λ t. t.arrivals.items
        ≡ (arrivals (view pass).sent ++ arrivals (handed_back fed.1)) ++ R.left fed.0) }
    ensures strays { IfOk result (λ t. t.strays.items ≡ strays_of wanted.items t.arrivals.items) }
{
    let kept = drain(rt, from, pass, kept)?;
    let arrivals = take_left(fed.0, fed.1, kept)?;
    let strays = strays(alloc, wanted, &arrivals)?;
    Ok(Taken { arrivals, strays })
}

/// Takes, in this order, what was received, what the channel still holds, the message that was handed back, and what the
/// readout has left. The courier comes back too.
pub fn gather<R: Readout, C: Courier, T: Wait>(
    rt: &T,
    alloc: Global,
    to: &Sender,
    from: &Receiver,
    fed: Fed<R>,
    received: Received<C>,
    wanted: Vec<Option<Kind>>,
) -> (C, Result<Taken, AllocError>)
    requires ends { receives_on from.now ≡ sends_on to.now }
    requires seats { IsSeatAt (sends_on to.now) fed.pass
        × IsSeatAt (receives_on from.now) received.pass }
    requires sent { view fed.pass ≡ traffic true false (view fed.pass).sent [] }
    requires got { view received.pass ≡ traffic false true [] (view received.pass).got }
    requires kept { OnTrue received.whole (received.inbox.kept.items
        ≡ arrivals (view received.pass).got) }
    requires few { length ((arrivals (view fed.pass).sent ++ arrivals (handed_back fed.back))
        ++ R.left fed.readout) < 2 ^ 32 }
    ensures prefix { (rest : List Arrival)
        × (arrivals (view fed.pass).sent ≡ arrivals (view received.pass).got ++ rest) }
    ensures courier { result.0 ≡ received.inbox.courier }
    ensures taken { IfOk result.1 (λ t. t.arrivals.items
        ≡ (arrivals (view fed.pass).sent ++ arrivals (handed_back fed.back))
        ++ R.left fed.readout) }
    ensures strays { IfOk result.1 (λ t. t.strays.items ≡ strays_of wanted.items t.arrivals.items) }
{
    let Fed {
        readout,
        pass,
        back,
    } = fed;
    let Received {
        inbox,
        pass: theirs,
        whole,
    } = received;
    let (courier, kept) = inbox.into_parts();
    let pass = rejoin(to, pass, theirs);
    if !whole {
        return (courier, Err(AllocError));
    }
    let taken = take_rest(rt, alloc, from, pass, (readout, back), kept, wanted);
    (courier, taken)
}
