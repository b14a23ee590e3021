//! All that `patchrun` does.

ghost use Rattle.std.specs.Prelude.{◌≡◌, ◌≤◌, ◌⊎◌, ℕ, List, map, codes, string_bytes};
ghost use Rattle.fault_lines.specs.Sinks.{Said, writing};
ghost use Rattle.job_read.specs.Shelves.{shelved};
ghost use Rattle.job_read.specs.Statuses.{IsDoneStatus};
ghost use Rattle.tool_words.specs.Commands.{IsRun, Run, run_of, run_words};
ghost use Rattle.run_top.specs.declared.fault.RunFault.{RunFault as Fault_of};
ghost use Rattle.run_top.specs.Ends.{CarriesOut, Ends, RefusesWords, Writes};
ghost use Rattle.run_top.specs.Told.{Accepts, AnswersBy, Refuses};
ghost use Rattle.run_top.specs.inside.Told.{EndsBy, IsDone};

use crate::big::run_big;
use crate::fault::RunFault;
use crate::run::{Asked, run, run_bits};
use crate::saying::say;
use crate::side::run_side;
use fault_lines::{FaultLine, say_line};
use patch_base::{Shelf, Sink};
use std::alloc::Global;
use std::thread::Threads;
use tool_words::{RunCommand, run_command};

/// Does what the words say, with texts from the shelf and routers in threads, and gives the status. The output goes to
/// `out`, and why it isn't all there to `err`.
pub fn run_main<T: Threads + Sync, S: Shelf, O: Sink, E: Sink>(
    rt: &T,
    alloc: Global,
    words: &[String],
    shelf: &mut S,
    out: &mut O,
    err: &mut E,
) -> u8
    // At status 0 the output took what the command writes. For `run` it is the schedule of one legal history of the
    // circuit on the layout, with the outcomes, that the three texts stand for, however the routers' threads interleave.
    // For `side` it is that of the joined programs, of which each has the axes and the bits that it has alone.
    ensures headline { let r = shelved S.tells S.faults shelf.old shelf.new in
        let w = writing O.taken O.faults out.old out.new in
        result ≡ 0 → Writes (map string_bytes words.now) r w }
    // Each status has its cause, and its line on `err`.
    ensures ends { let r = shelved S.tells S.faults shelf.old shelf.new in
        let w = writing O.taken O.faults out.old out.new in
        let e = writing E.taken E.faults err.old err.new in
        RefusesWords (map string_bytes words.now) w e result
        ⊎ CarriesOut (map string_bytes words.now) r w e result }
    // Words of a command and texts that are told and accepted give status 0, unless the outside fails.
    ensures complete { let r = shelved S.tells S.faults shelf.old shelf.new in
        (t : Run) → map string_bytes words.now ≡ run_words t → IsRun t → Accepts r t
        → IsDoneStatus result }
    // Told texts of which one is refused give the status and the line of its refusal, unless the outside fails.
    ensures refuses { let r = shelved S.tells S.faults shelf.old shelf.new in
        let e = writing E.taken E.faults err.old err.new in
        (t : Run) (f : Fault_of) → map string_bytes words.now ≡ run_words t → IsRun t
        → Refuses r t f → AnswersBy e t f result }

    // What the shelf tells stays, and no count falls.
    ensures told { (n : List ℕ) → S.tells shelf.new n ≡ S.tells shelf.old n }
    ensures shelf_counts { (n : List ℕ) → S.faults shelf.old n ≤ S.faults shelf.new n }
    ensures out_counts { O.faults out.old ≤ O.faults out.new }
    ensures err_counts { E.faults err.old ≤ E.faults err.new }
{
    let Some(command) = run_command(words) else {
        return refuse(err);
    };
    match carry_out(rt, alloc, command, shelf, out) {
        Ok(()) => 0,
        Err(fault) => say(err, command, fault),
    }
}

// Says that the words are those of no command.
fn refuse<E: Sink>(err: &mut E) -> u8
    ensures status { result ≡ 2 }
    ensures counts { E.faults err.old ≤ E.faults err.new }
    ensures said { Said (writing E.taken E.faults err.old err.new) (codes "words\n") }
{
    say_line(err, FaultLine::Words);
    2
}

// Carries a command out.
fn carry_out<T: Threads + Sync, S: Shelf, O: Sink>(
    rt: &T,
    alloc: Global,
    command: RunCommand<'_>,
    shelf: &mut S,
    out: &mut O,
) -> Result<(), RunFault>
    requires { IsRun (run_of command) }
    ensures told { (n : List ℕ) → S.tells shelf.new n ≡ S.tells shelf.old n }
    ensures counts { (n : List ℕ) → S.faults shelf.old n ≤ S.faults shelf.new n }
    ensures out_counts { O.faults out.old ≤ O.faults out.new }
    ensures ends { let r = shelved S.tells S.faults shelf.old shelf.new in
        let w = writing O.taken O.faults out.old out.new in
        Ends r w (run_of command.entry) result }
    ensures complete { let r = shelved S.tells S.faults shelf.old shelf.new in
        Accepts r (run_of command.entry) → IsDone result }
    ensures refuses { let r = shelved S.tells S.faults shelf.old shelf.new in
        (f : Fault_of) → Refuses r (run_of command.entry) f → EndsBy f result }
{
    match command {
        RunCommand::Run {
            circuit,
            layout,
            outcomes,
            k,
        } => {
            let asked = Asked {
                circuit,
                layout,
                outcomes,
                k,
            };
            run(rt, alloc, asked, shelf, out)
        }
        RunCommand::Bits {
            circuit,
            layout,
            outcomes,
            k,
        } => {
            let asked = Asked {
                circuit,
                layout,
                outcomes,
                k,
            };
            run_bits(rt, alloc, asked, shelf, out)
        }
        RunCommand::Big { n, k } => run_big(rt, alloc, n, k, out),
        RunCommand::Side { layout, k, pairs } => run_side(rt, alloc, layout, k, pairs, shelf, out),
    }
}
