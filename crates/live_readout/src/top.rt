//! All that `patchlive` does.

ghost use Rattle.std.specs.Prelude.{◌≡◌, ◌≤◌, ◌⊎◌, ℕ, List, map, codes, string_bytes};
ghost use Rattle.fault_lines.specs.Sinks.{Said, writing};
ghost use Rattle.job_read.specs.Shelves.{shelved};
ghost use Rattle.job_read.specs.Statuses.{IsDoneStatus};
ghost use Rattle.live_readout.specs.declared.fault.LiveFault.{LiveFault as Fault_of};
ghost use Rattle.live_readout.specs.Commands.{Command, IsCommand, live_words};
ghost use Rattle.live_readout.specs.Ends.{Accepts, AnswersBy, CarriesOut, Refuses, RefusesWords, Writes};

use crate::live::live;
use crate::saying::say;
use crate::words::live_command;
use fault_lines::{FaultLine, say_line};
use patch_base::{Shelf, Sink};
use std::alloc::Global;
use std::sync::Wait;
use std::thread::Threads;

/// Does what the words `live CIRCUIT LAYOUT OUTCOMES K` say, with texts from the shelf and routers in threads, and gives the
/// status: the outcomes arrive while the routers work. The output goes to `out`, and why it isn't all there to `err`. That
/// the call returns isn't promised.
pub fn live_main<T: Threads + Wait + Sync, S: Shelf, O: Sink, E: Sink>(
    rt: &T,
    alloc: Global,
    words: &[String],
    shelf: &mut S,
    out: &mut O,
    err: &mut E,
) -> u8
    // At status 0 the output took the schedule of one legal history of the circuit on the layout, with the outcomes, that the
    // three texts stand for, however the threads interleave.
    ensures headline { let r = shelved S.tells S.faults shelf.old shelf.new in
        let w = writing O.taken O.faults out.old out.new in
        result ≡ 0 → Writes (map string_bytes words.now) r w }
    // Each status has its cause, and its line on `err`.
    ensures ends { let r = shelved S.tells S.faults shelf.old shelf.new in
        let w = writing O.taken O.faults out.old out.new in
        let e = writing E.taken E.faults err.old err.new in
        RefusesWords (map string_bytes words.now) w e result
        ⊎ CarriesOut (map string_bytes words.now) r w e result }
    // Words of the command and texts that are told and accepted give status 0, unless the outside fails.
    ensures complete { let r = shelved S.tells S.faults shelf.old shelf.new in
        (t : Command) → map string_bytes words.now ≡ live_words t → IsCommand t → Accepts r t
        → IsDoneStatus result }
    // Told texts of which one is refused give the status and the line of its refusal, unless the outside fails.
    ensures refuses { let r = shelved S.tells S.faults shelf.old shelf.new in
        let e = writing E.taken E.faults err.old err.new in
        (t : Command) (f : Fault_of) → map string_bytes words.now ≡ live_words t → IsCommand t
        → Refuses r t f → AnswersBy e t f result }

    // What the shelf tells stays, and no count falls.
    ensures told { (n : List ℕ) → S.tells shelf.new n ≡ S.tells shelf.old n }
    ensures shelf_counts { (n : List ℕ) → S.faults shelf.old n ≤ S.faults shelf.new n }
    ensures out_counts { O.faults out.old ≤ O.faults out.new }
    ensures err_counts { E.faults err.old ≤ E.faults err.new }
{
    let Some(command) = live_command(words) else {
        return refuse(err);
    };
    match live(rt, alloc, command, shelf, out) {
        Ok(()) => 0,
        Err(fault) => say(err, command, fault),
    }
}

// Says that the words are those of no command.
fn refuse<E: Sink>(err: &mut E) -> u8
    ensures status { result ≡ 2 }
    ensures counts { E.faults err.old ≤ E.faults err.new }
    ensures said { Said (writing E.taken E.faults err.old err.new) (codes "words\n") }
{
    say_line(err, FaultLine::Words);
    2
}
