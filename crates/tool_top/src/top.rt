//! All that `patchtool` does.

ghost use Rattle.std.specs.Prelude.{◌≡◌, ◌≤◌, ◌⊎◌, ℕ, List, map, codes, string_bytes};
ghost use Rattle.tool_words.specs.Commands.{Tool, tool_of, tool_words};
ghost use Rattle.tool_top.specs.declared.fault.ToolFault.{ToolFault as Fault_of};
ghost use Rattle.fault_lines.specs.Sinks.{Said, writing};
ghost use Rattle.job_read.specs.Shelves.{shelved};
ghost use Rattle.job_read.specs.Statuses.{IsDoneStatus};
ghost use Rattle.tool_top.specs.Ends.{CarriesOut, Ends, RefusesWords, Writes};
ghost use Rattle.tool_top.specs.Told.{Accepts, AnswersBy, Refuses};
ghost use Rattle.tool_top.specs.inside.Told.{EndsBy, IsDone};

use crate::fault::ToolFault;
use crate::layers::layers;
use crate::layout::show_layout;
use crate::least::least;
use crate::lower::lower;
use crate::migrate::migrate_schedule;
use crate::saying::say;
use crate::schedule::Names;
use crate::serial::serial;
use crate::slices::slice_schedule;
use crate::verify::verify_schedule;
use fault_lines::{FaultLine, say_line};
use patch_base::{Shelf, Sink};
use std::alloc::Global;
use tool_words::{ToolCommand, tool_command};

/// Does what the words say, with texts from the shelf, and gives the status. The output goes to `out`,
/// and why it isn't all there to `err`.
pub fn tool_main<S: Shelf, O: Sink, E: Sink>(
    alloc: Global,
    words: &[String],
    shelf: &mut S,
    out: &mut O,
    err: &mut E,
) -> u8
    // At status 0 the output took what the command writes. For `serial` it is the schedule of one legal history of the
    // circuit on the layout, with the outcomes, that the three texts stand for.
    ensures headline { let r = shelved S.tells S.faults shelf.old shelf.new in
        let w = writing O.taken O.faults out.old out.new in
        result ≡ 0 → Writes (map string_bytes words.now) r w }
    // Each status has its cause, and its line on `err`.
    ensures ends { let r = shelved S.tells S.faults shelf.old shelf.new in
        let w = writing O.taken O.faults out.old out.new in
        let e = writing E.taken E.faults err.old err.new in
        RefusesWords (map string_bytes words.now) w e result
        ⊎ CarriesOut (map string_bytes words.now) r w e result }
    // Words of a command and texts that are told and accepted give status 0, unless the outside fails.
    ensures complete { let r = shelved S.tells S.faults shelf.old shelf.new in
        (t : Tool) → map string_bytes words.now ≡ tool_words t → Accepts r t → IsDoneStatus result }
    // Told texts of which one is refused give the status and the line of its refusal, unless the outside fails.
    ensures refuses { let r = shelved S.tells S.faults shelf.old shelf.new in
        let e = writing E.taken E.faults err.old err.new in
        (t : Tool) (f : Fault_of) → map string_bytes words.now ≡ tool_words t → Refuses r t f
        → AnswersBy e t f result }

    // What the shelf tells stays, and no count falls.
    ensures told { (n : List ℕ) → S.tells shelf.new n ≡ S.tells shelf.old n }
    ensures shelf_counts { (n : List ℕ) → S.faults shelf.old n ≤ S.faults shelf.new n }
    ensures out_counts { O.faults out.old ≤ O.faults out.new }
    ensures err_counts { E.faults err.old ≤ E.faults err.new }
{
    let Some(command) = tool_command(words) else {
        return refuse(err);
    };
    match carry_out(alloc, command, shelf, out) {
        Ok(()) => 0,
        Err(fault) => say(err, command, fault),
    }
}

// Says that the words are those of no command.
fn refuse<E: Sink>(err: &mut E) -> u8
    ensures status { result ≡ 2 }
    ensures counts { E.faults err.old ≤ E.faults err.new }
    ensures said { Said (writing E.taken E.faults err.old err.new) (codes "words\n") }
{
    say_line(err, FaultLine::Words);
    2
}

// Carries a command out.
fn carry_out<S: Shelf, O: Sink>(
    alloc: Global,
    command: ToolCommand<'_>,
    shelf: &mut S,
    out: &mut O,
) -> Result<(), ToolFault>
    ensures told { (n : List ℕ) → S.tells shelf.new n ≡ S.tells shelf.old n }
    ensures counts { (n : List ℕ) → S.faults shelf.old n ≤ S.faults shelf.new n }
    ensures out_counts { O.faults out.old ≤ O.faults out.new }
    ensures ends { let r = shelved S.tells S.faults shelf.old shelf.new in
        let w = writing O.taken O.faults out.old out.new in
        Ends r w (tool_of command.entry) result }
    ensures complete { let r = shelved S.tells S.faults shelf.old shelf.new in
        Accepts r (tool_of command.entry) → IsDone result }
    ensures refuses { let r = shelved S.tells S.faults shelf.old shelf.new in
        (f : Fault_of) → Refuses r (tool_of command.entry) f → EndsBy f result }
{
    match command {
        ToolCommand::Serial {
            circuit,
            layout,
            outcomes,
        } => serial(alloc, circuit, layout, outcomes, shelf, out),
        ToolCommand::Lower { circuit } => lower(alloc, circuit, shelf, out),
        ToolCommand::Layout { circuit, layout } => {
            show_layout(alloc, circuit, layout, shelf, out)
        }
        ToolCommand::Verify {
            circuit,
            layout,
            outcomes,
            schedule,
        } => {
            let names = Names {
                circuit,
                layout,
                outcomes,
                schedule,
            };
            verify_schedule(alloc, names, shelf, out)
        }
        ToolCommand::Slices {
            circuit,
            layout,
            outcomes,
            schedule,
        } => {
            let names = Names {
                circuit,
                layout,
                outcomes,
                schedule,
            };
            slice_schedule(alloc, names, shelf, out)
        }
        ToolCommand::Migrate {
            circuit,
            layout,
            outcomes,
            schedule,
        } => {
            let names = Names {
                circuit,
                layout,
                outcomes,
                schedule,
            };
            migrate_schedule(alloc, names, shelf, out)
        }
        ToolCommand::Layers { circuit } => layers(alloc, circuit, shelf, out),
        ToolCommand::Least {
            circuit,
            layout,
            outcomes,
        } => least(alloc, circuit, layout, outcomes, shelf, out),
    }
}
