//! The thread that sends what a readout gives.
ghost use Rattle.std.specs.Prelude.{◌≡◌, true, false, [], ◌∷◌, ◌++◌, IfNone, MatchResult};
ghost use Rattle.crossbeam_channel.specs.Claims.{view, IsSeatAt};
ghost use Rattle.crossbeam_channel.specs.Ends.{sends_on};
ghost use Rattle.arrival_line.specs.Line.{traffic};
ghost use Rattle.arrival_line.specs.Messages.{arrivals, is_open, handed_back};

use crate::arrival::Message;
use crate::line::{LinePass, Sender, Sent};
use crate::readout::Readout;
use crossbeam_channel::TrySendError;
use std::sync::Wait;
use std::sync::atomic::{AtomicBool, Ordering};

/// What is left when the feeder has ended. `back` is the message that the channel handed back, and None where the end message
/// was sent.
#[derive(Drop)]
pub struct Fed<R> {
    pub readout: R,
    pub pass: LinePass,
    pub back: Option<Message>,
}

// Waits for room, unless there is no other thread to make some.
fn send<T: Wait>(
    rt: &T,
    to: &Sender,
    alone: &AtomicBool,
    pass: &mut LinePass,
    message: Message,
) -> Result<(), Message>
    requires seat { IsSeatAt (sends_on to.now) pass.old }
    requires role { (view pass.old).sends ≡ true }
    requires unended { is_open (view pass.old).sent ≡ true }
    ensures seat { IsSeatAt (sends_on to.now) pass.new }
    ensures sent { MatchResult result
        (λ _. view pass.new ≡ traffic (view pass.old).sends (view pass.old).receives
        ((view pass.old).sent ++ message ∷ []) (view pass.old).got)
        (λ m. (m ≡ message) × (view pass.new ≡ view pass.old)) }
{
    match to.try_send_as::<Sent, T>(rt, pass, message) {
        Ok(()) => Ok(()),
        Err(TrySendError::Full(back)) if !alone.load(Ordering::SeqCst) => {
            match to.send_as::<Sent, T>(rt, pass, back) {
                Ok(()) => Ok(()),
                Err(e) => Err(e.into_inner()),
            }
        }
        Err(e) => Err(e.into_inner()),
    }
}

/// Sends each arrival and then the end message, and no more once a message is handed back.
pub fn feed<R: Readout, T: Wait>(
    rt: &T,
    to: &Sender,
    alone: &AtomicBool,
    mut pass: LinePass,
    mut readout: R,
) -> Fed<R>
    requires seat { IsSeatAt (sends_on to.now) pass }
    requires role { view pass ≡ traffic true false [] [] }
    ensures seat { IsSeatAt (sends_on to.now) result.pass }
    ensures role { view result.pass ≡ traffic true false (view result.pass).sent [] }
    ensures all { R.left readout ≡ (arrivals (view result.pass).sent
        ++ arrivals (handed_back result.back)) ++ R.left result.readout }
    ensures end { IfNone result.back ((is_open (view result.pass).sent ≡ false)
        × (R.left result.readout ≡ [])) }
{
    for _ in rt.forever() {
        let Some(arrival) = readout.next() else {
            return finish(rt, to, alone, pass, readout);
        };
        let sent = send(rt, to, alone, &mut pass, Message::Arrived(arrival));
        if let Err(message) = sent {
            let back = Some(message);
            return Fed {
                readout,
                pass,
                back,
            };
        }
    }
    unreachable!()
}

// Sends the end message.
fn finish<R: Readout, T: Wait>(
    rt: &T,
    to: &Sender,
    alone: &AtomicBool,
    mut pass: LinePass,
    readout: R,
) -> Fed<R>
    requires seat { IsSeatAt (sends_on to.now) pass }
    requires role { view pass ≡ traffic true false (view pass).sent [] }
    requires unended { is_open (view pass).sent ≡ true }
    requires none { R.left readout ≡ [] }
    ensures seat { IsSeatAt (sends_on to.now) result.pass }
    ensures role { view result.pass ≡ traffic true false (view result.pass).sent [] }
    ensures all { arrivals (view pass).sent ≡
        (arrivals (view result.pass).sent ++ arrivals (handed_back result.back))
        ++ R.left result.readout }
    ensures end { IfNone result.back ((is_open (view result.pass).sent ≡ false)
        × (R.left result.readout ≡ [])) }
{
    match send(rt, to, alone, &mut pass, Message::End) {
        Ok(()) => Fed {
            readout,
            pass,
            back: None,
        },
        Err(message) => Fed {
            readout,
            pass,
            back: Some(message),
        },
    }
}
