//! The command: a job that is read, carried out while its outcomes arrive, and written.

ghost use Rattle.std.specs.Prelude.{◌≡◌, ℕ, ◌≤◌, List};
ghost use Rattle.fault_lines.specs.Sinks.{writing};
ghost use Rattle.job_read.specs.Shelves.{shelved};
ghost use Rattle.live_readout.specs.declared.fault.LiveFault.{LiveFault as Fault_of};
ghost use Rattle.live_readout.specs.Commands.{IsCommand};
ghost use Rattle.live_readout.specs.inside.Commands.{command_of};
ghost use Rattle.live_readout.specs.Ends.{Accepts, Ends, Refuses};
ghost use Rattle.live_readout.specs.inside.Ends.{EndsBy, IsDone};

use crate::carry::carry_out;
use crate::fault::LiveFault;
use crate::words::LiveCommand;
use board_write::{law_complete_boards, write_board};
use job_read::read_job;
use patch_base::{Shelf, Sink};
use std::alloc::Global;
use std::sync::Wait;
use std::thread::Threads;

/// Reads a job, carries it out live, and writes the schedule.
pub fn live<T: Threads + Wait + Sync, S: Shelf, O: Sink>(
    rt: &T,
    alloc: Global,
    command: LiveCommand<'_>,
    shelf: &mut S,
    out: &mut O,
) -> Result<(), LiveFault>
    requires { IsCommand (command_of command) }
    ensures told { (n : List ℕ) → S.tells shelf.new n ≡ S.tells shelf.old n }
    ensures counts { (n : List ℕ) → S.faults shelf.old n ≤ S.faults shelf.new n }
    ensures out_counts { O.faults out.old ≤ O.faults out.new }
    ensures ends { let r = shelved S.tells S.faults shelf.old shelf.new in
        let w = writing O.taken O.faults out.old out.new in
        Ends r w (command_of command.entry) result }
    ensures complete { let r = shelved S.tells S.faults shelf.old shelf.new in
        Accepts r (command_of command.entry) → IsDone result }
    ensures refuses { let r = shelved S.tells S.faults shelf.old shelf.new in
        (f : Fault_of) → Refuses r (command_of command.entry) f → EndsBy f result }
{
    law_complete_boards();
    let job = read_job(
        alloc,
        shelf,
        command.circuit,
        command.layout,
        command.outcomes,
    )?;
    let done = carry_out(rt, alloc, job, command.k)?;
    write_board(alloc, &done.circuit, &done.board, out)?;
    Ok(())
}
