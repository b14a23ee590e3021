//! The thread that receives the messages and delivers what they bring.
ghost use Rattle.std.specs.Prelude.{◌≡◌, true, false, [], ◌++◌, List};
ghost use Rattle.std.specs.Bool.{OnTrue};
ghost use Rattle.crossbeam_channel.specs.Claims.{view, IsSeatAt};
ghost use Rattle.crossbeam_channel.specs.Ends.{receives_on};
ghost use Rattle.arrival_line.specs.Line.{traffic};
ghost use Rattle.arrival_line.specs.inside.Came.{came, what_came, IsEnd};
ghost use Rattle.arrival_line.specs.declared.arrival.Arrival.{Arrival};
ghost use Rattle.arrival_line.specs.Messages.{arrivals, is_open};
ghost use Rattle.arrival_line.specs.Strays.{Delivers};
ghost use Rattle.arrival_line.specs.inside.Inboxes.{IsOpened};

use crate::arrival::{Arrival, Message};
use crate::courier::Courier;
use crate::inbox::Inbox;
use crate::line::{Got, LinePass, Receiver};
use crossbeam_channel::TryRecvError;
use std::sync::Wait;
use std::thread;

// What the channel answered: an arrival, nothing yet, the end message, or that it is closed.
pub enum Next {
    Came(Arrival),
    Nothing,
    Ended,
    Closed,
}

/// What is left when the deliverer has ended. `whole` is false where it had no memory for an arrival.
#[derive(Drop)]
pub struct Received<C: Courier> {
    pub inbox: Inbox<C>,
    pub pass: LinePass,
    pub whole: bool,
}

fn as_next(message: Message) -> Next
    ensures { result ≡ what_came message }
{
    match message {
        Message::Arrived(arrival) => Next::Came(arrival),
        Message::End => Next::Ended,
    }
}

// Waits for a message.
fn wait<T: Wait>(rt: &T, from: &Receiver, pass: &mut LinePass) -> Next
    requires seat { IsSeatAt (receives_on from.now) pass.old }
    requires role { view pass.old ≡ traffic false true [] (view pass.old).got }
    ensures seat { IsSeatAt (receives_on from.now) pass.new }
    ensures role { view pass.new ≡ traffic false true [] (view pass.new).got }
    ensures came { arrivals (view pass.new).got ≡ arrivals (view pass.old).got ++ came result }
    ensures ended { IsEnd result → is_open (view pass.new).got ≡ false }
{
    match from.recv_as::<Got, T>(rt, pass) {
        Ok(message) => as_next(message),
        Err(_) => Next::Closed,
    }
}

// Looks for a message. Where no feeder runs, an empty channel is closed.
fn look<T: Wait>(rt: &T, from: &Receiver, alone: bool, pass: &mut LinePass) -> Next
    requires seat { IsSeatAt (receives_on from.now) pass.old }
    requires role { view pass.old ≡ traffic false true [] (view pass.old).got }
    ensures seat { IsSeatAt (receives_on from.now) pass.new }
    ensures role { view pass.new ≡ traffic false true [] (view pass.new).got }
    ensures came { arrivals (view pass.new).got ≡ arrivals (view pass.old).got ++ came result }
    ensures ended { IsEnd result → is_open (view pass.new).got ≡ false }
{
    match from.try_recv_as::<Got, T>(rt, pass) {
        Ok(message) => as_next(message),
        Err(TryRecvError::Empty) if !alone => Next::Nothing,
        Err(_) => Next::Closed,
    }
}

// Waits only where nothing else is to do and a feeder runs.
fn ask<T: Wait>(rt: &T, from: &Receiver, alone: bool, pass: &mut LinePass, idle: bool) -> Next
    requires seat { IsSeatAt (receives_on from.now) pass.old }
    requires role { view pass.old ≡ traffic false true [] (view pass.old).got }
    ensures seat { IsSeatAt (receives_on from.now) pass.new }
    ensures role { view pass.new ≡ traffic false true [] (view pass.new).got }
    ensures came { arrivals (view pass.new).got ≡ arrivals (view pass.old).got ++ came result }
    ensures ended { IsEnd result → is_open (view pass.new).got ≡ false }
{
    if idle && !alone {
        wait(rt, from, pass)
    } else {
        look(rt, from, alone, pass)
    }
}

// Receives and drops what comes until the end message.
fn drop_rest<T: Wait>(rt: &T, from: &Receiver, alone: bool, mut pass: LinePass) -> LinePass
    requires seat { IsSeatAt (receives_on from.now) pass }
    requires role { view pass ≡ traffic false true [] (view pass).got }
    ensures seat { IsSeatAt (receives_on from.now) result }
    ensures role { view result ≡ traffic false true [] (view result).got }
    ensures more { (more : List Arrival)
        × (arrivals (view result).got ≡ arrivals (view pass).got ++ more) }
{
    for _ in rt.forever() {
        match ask(rt, from, alone, &mut pass, true) {
            Next::Came(_) | Next::Nothing => {}
            Next::Ended | Next::Closed => return pass,
        }
    }
    unreachable!()
}

/// Receives what comes until the end message, keeps it and delivers it. `alone` says that the feeder has ended.
pub fn receive<C: Courier, T: Wait>(
    rt: &T,
    from: &Receiver,
    alone: bool,
    mut pass: LinePass,
    mut inbox: Inbox<C>,
) -> Received<C>
    requires seat { IsSeatAt (receives_on from.now) pass }
    requires role { view pass ≡ traffic false true [] [] }
    requires inbox { IsOpened C.made inbox }
    ensures seat { IsSeatAt (receives_on from.now) result.pass }
    ensures role { view result.pass ≡ traffic false true [] (view result.pass).got }
    ensures kept { OnTrue result.whole (result.inbox.kept.items ≡ arrivals (view result.pass).got) }
    ensures delivers { Delivers inbox.wanted.items (arrivals (view result.pass).got)
        (C.made inbox.courier) (C.made result.inbox.courier) }
    ensures key { C.key result.inbox.courier ≡ C.key inbox.courier }
{
    for _ in rt.forever() {
        match ask(rt, from, alone, &mut pass, inbox.is_idle()) {
            Next::Came(arrival) => {
                if let Err(_) = inbox.arrive(arrival) {
                    let pass = drop_rest(rt, from, alone, pass);
                    return Received {
                        inbox,
                        pass,
                        whole: false,
                    };
                }
            }
            Next::Nothing => {
                inbox.try_one();
                thread::yield_now();
            }
            Next::Ended | Next::Closed => {
                inbox.finish();
                return Received {
                    inbox,
                    pass,
                    whole: true,
                };
            }
        }
    }
    unreachable!()
}
