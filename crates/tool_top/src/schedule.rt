//! Reading a schedule's text against a job.

ghost use Rattle.std.specs.Prelude.{◌≡◌, ℕ, ◌<◌, ◌≤◌, List, length, IfOk, IfErr};
ghost use Rattle.board_core.specs.declared.Noted.{Noted};
ghost use Rattle.schedule_text.specs.Text.{Version};
ghost use Rattle.history_replay.specs.Replay.{IsTextOf, FirstBadLine};
ghost use Rattle.job_read.specs.Kept.{IsJob};
ghost use Rattle.tool_top.specs.declared.fault.ToolFault.{ToolFault as Fault_of};
ghost use Rattle.job_read.specs.Shelves.{shelved};
ghost use Rattle.tool_top.specs.Schedules.{IsShort, asked_of};
ghost use Rattle.tool_top.specs.Told.{AcceptsSchedule, RefusesSchedule};
ghost use Rattle.tool_top.specs.inside.Told.{EndsBy, IsOutside};
ghost use Rattle.tool_top.specs.inside.Replayed.{IsReplayed, IsReplayedOn, StopsReading, StopsReplaying};

use crate::fault::ToolFault;
use board_core::Board;
use history_replay::{Verdict, verify};
use job_read::{Job, Started, read_job, start_job};
use patch_base::{ReadFault, SCHEDULE_BYTES, Shelf, read_text};
use source_model::Circuit;
use std::alloc::Global;

/// The names of a job's texts and of a schedule.
#[derive(Clone, Copy)]
pub struct Names<'a> {
    pub circuit: &'a str,
    pub layout: &'a str,
    pub outcomes: &'a str,
    pub schedule: &'a str,
}

/// A circuit, and a board that has the history of a schedule of it.
#[derive(Drop)]
pub struct Replayed {
    pub circuit: Circuit,
    pub board: Board,
}

/// Reads a job, and then its schedule.
pub fn read_schedule<S: Shelf>(
    alloc: Global,
    names: Names<'_>,
    shelf: &mut S,
) -> Result<Replayed, ToolFault>
    ensures told { (n : List ℕ) → S.tells shelf.new n ≡ S.tells shelf.old n }
    ensures counts { (n : List ℕ) → S.faults shelf.old n ≤ S.faults shelf.new n }
    ensures replayed { let r = shelved S.tells S.faults shelf.old shelf.new in
        IfOk result
        (IsReplayed r names.entry.circuit.now names.entry.layout.now names.entry.outcomes.now
        names.entry.schedule.now) }
    ensures stops { let r = shelved S.tells S.faults shelf.old shelf.new in
        IfErr result
        (StopsReading r names.entry.circuit.now names.entry.layout.now names.entry.outcomes.now
        names.entry.schedule.now) }
    ensures complete { let r = shelved S.tells S.faults shelf.old shelf.new in
        AcceptsSchedule r names.entry.circuit.now names.entry.layout.now names.entry.outcomes.now
        names.entry.schedule.now → IfErr result IsOutside }
    ensures refuses { let r = shelved S.tells S.faults shelf.old shelf.new in
        (f : Fault_of)
        → RefusesSchedule r names.entry.circuit.now names.entry.layout.now names.entry.outcomes.now
        names.entry.schedule.now f → EndsBy f result }
{
    let job = read_job(alloc, shelf, names.circuit, names.layout, names.outcomes)?;
    match read_text(alloc, shelf, names.schedule, SCHEDULE_BYTES) {
        Ok(text) => replay(alloc, job, &text),
        Err(ReadFault::Failed) => Err(ToolFault::ScheduleUnread),
        Err(ReadFault::Memory) => Err(ToolFault::Memory),
    }
}

// Reads the text of a schedule on the new board of a job.
fn replay(alloc: Global, job: Job, text: &[u8]) -> Result<Replayed, ToolFault>
    requires { IsJob job }
    ensures replayed { IfOk result (IsReplayedOn job text.now) }
    ensures stops { IfErr result (StopsReplaying job text.now) }
    ensures complete { (v : Version) (h : List Noted) → IsShort text.now
        → IsTextOf (asked_of job) text.now v h → IfErr result IsOutside }
    ensures long { 67108864 < length text.now → result ≡ Err ToolFault.ScheduleTooLong }
    ensures bad { (line : ℕ) → IsShort text.now → FirstBadLine (asked_of job) text.now line
        → EndsBy (ToolFault.ScheduleIllegal line) result }
{
    if text.len() as u64 > SCHEDULE_BYTES {
        return Err(ToolFault::ScheduleTooLong);
    }
    let started = start_job(alloc, job)?;
    let Started {
        circuit,
        board,
        outcomes,
    } = started;
    match verify(alloc, board, &circuit, &outcomes, text)? {
        Verdict::Legal(board) => Ok(Replayed { circuit, board }),
        Verdict::Illegal { line } => Err(ToolFault::ScheduleIllegal { line }),
    }
}
