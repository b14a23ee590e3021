//! The commands `run` and `bits`: a job carried out by routers, and its schedule or its bits alone.

ghost use Rattle.std.specs.Prelude.{◌≡◌, ℕ, ◌≤◌, List};
ghost use Rattle.fault_lines.specs.Sinks.{writing};
ghost use Rattle.job_read.specs.Shelves.{shelved};
ghost use Rattle.tool_words.specs.Commands as words;
ghost use Rattle.tool_words.specs.Commands.{AreRouters};
ghost use Rattle.run_top.specs.declared.fault.RunFault.{RunFault as Fault_of};
ghost use Rattle.run_top.specs.Ends.{Ends};
ghost use Rattle.run_top.specs.Told.{Accepts, Refuses};
ghost use Rattle.run_top.specs.inside.Told.{EndsBy, IsDone};

use crate::carry::carry_out;
use crate::fault::RunFault;
use board_write::{law_complete_boards, write_board, write_board_bits};
use job_read::read_job;
use patch_base::{Shelf, Sink};
use std::alloc::Global;
use std::thread::Threads;

/// The names of a job's texts, and the number of routers.
#[derive(Clone, Copy)]
pub struct Asked<'a> {
    pub circuit: &'a str,
    pub layout: &'a str,
    pub outcomes: &'a str,
    pub k: u32,
}

/// Reads a job, has it carried out by routers, and writes the schedule.
pub fn run<T: Threads + Sync, S: Shelf, O: Sink>(
    rt: &T,
    alloc: Global,
    asked: Asked<'_>,
    shelf: &mut S,
    out: &mut O,
) -> Result<(), RunFault>
    requires { AreRouters asked.k }
    ensures told { (n : List ℕ) → S.tells shelf.new n ≡ S.tells shelf.old n }
    ensures counts { (n : List ℕ) → S.faults shelf.old n ≤ S.faults shelf.new n }
    ensures out_counts { O.faults out.old ≤ O.faults out.new }
    ensures ends { let r = shelved S.tells S.faults shelf.old shelf.new in
        let w = writing O.taken O.faults out.old out.new in
        Ends r w
        (words.run asked.entry.circuit.now asked.entry.layout.now asked.entry.outcomes.now
        asked.entry.k) result }
    ensures complete { let r = shelved S.tells S.faults shelf.old shelf.new in
        Accepts r
        (words.run asked.entry.circuit.now asked.entry.layout.now asked.entry.outcomes.now
        asked.entry.k) → IsDone result }
    ensures refuses { let r = shelved S.tells S.faults shelf.old shelf.new in
        (f : Fault_of)
        → Refuses r
        (words.run asked.entry.circuit.now asked.entry.layout.now asked.entry.outcomes.now
        asked.entry.k) f → EndsBy f result }
{
    law_complete_boards();
    let job = read_job(alloc, shelf, asked.circuit, asked.layout, asked.outcomes)?;
    let done = carry_out(rt, alloc, job, asked.k)?;
    write_board(alloc, &done.circuit, &done.board, out)?;
    Ok(())
}

/// Reads a job, has it carried out by routers, and writes the bits.
pub fn run_bits<T: Threads + Sync, S: Shelf, O: Sink>(
    rt: &T,
    alloc: Global,
    asked: Asked<'_>,
    shelf: &mut S,
    out: &mut O,
) -> Result<(), RunFault>
    requires { AreRouters asked.k }
    ensures told { (n : List ℕ) → S.tells shelf.new n ≡ S.tells shelf.old n }
    ensures counts { (n : List ℕ) → S.faults shelf.old n ≤ S.faults shelf.new n }
    ensures out_counts { O.faults out.old ≤ O.faults out.new }
    ensures ends { let r = shelved S.tells S.faults shelf.old shelf.new in
        let w = writing O.taken O.faults out.old out.new in
        Ends r w
        (words.bits asked.entry.circuit.now asked.entry.layout.now asked.entry.outcomes.now
        asked.entry.k) result }
    ensures complete { let r = shelved S.tells S.faults shelf.old shelf.new in
        Accepts r
        (words.bits asked.entry.circuit.now asked.entry.layout.now asked.entry.outcomes.now
        asked.entry.k) → IsDone result }
    ensures refuses { let r = shelved S.tells S.faults shelf.old shelf.new in
        (f : Fault_of)
        → Refuses r
        (words.bits asked.entry.circuit.now asked.entry.layout.now asked.entry.outcomes.now
        asked.entry.k) f → EndsBy f result }
{
    let job = read_job(alloc, shelf, asked.circuit, asked.layout, asked.outcomes)?;
    let done = carry_out(rt, alloc, job, asked.k)?;
    write_board_bits(alloc, b"", &done.circuit, &done.board, out)?;
    Ok(())
}
