//! The command `side`: several programs carried out side by side by routers, and the schedule of all.

ghost use Rattle.std.specs.Prelude.{◌≡◌, ℕ, ◌≤◌, List, map, string_bytes};
ghost use Rattle.fault_lines.specs.Sinks.{writing};
ghost use Rattle.job_read.specs.Shelves.{shelved};
ghost use Rattle.tool_words.specs.Commands as words;
ghost use Rattle.tool_words.specs.Commands.{ArePairs, AreRouters};
ghost use Rattle.run_top.specs.declared.fault.RunFault.{RunFault as Fault_of};
ghost use Rattle.run_top.specs.Ends.{Ends};
ghost use Rattle.run_top.specs.Told.{Accepts, Refuses};
ghost use Rattle.run_top.specs.inside.Told.{EndsBy, IsDone};

use crate::carry::carry_out;
use crate::fault::RunFault;
use crate::sides::read_sides;
use board_write::{law_complete_boards, write_board};
use patch_base::{Shelf, Sink};
use side_by_side::{law_alone, law_claims};
use std::alloc::Global;
use std::thread::Threads;

/// Reads programs, has them carried out side by side by k routers, and writes the schedule of the joined job.
///
/// `pairs` has the names of a circuit and of outcomes for each program.
pub fn run_side<T: Threads + Sync, S: Shelf, O: Sink>(
    rt: &T,
    alloc: Global,
    layout: &str,
    k: u32,
    pairs: &[String],
    shelf: &mut S,
    out: &mut O,
) -> Result<(), RunFault>
    requires routers { AreRouters k }
    requires pairs { ArePairs (map string_bytes pairs.now) }
    ensures told { (n : List ℕ) → S.tells shelf.new n ≡ S.tells shelf.old n }
    ensures counts { (n : List ℕ) → S.faults shelf.old n ≤ S.faults shelf.new n }
    ensures out_counts { O.faults out.old ≤ O.faults out.new }
    ensures ends { let r = shelved S.tells S.faults shelf.old shelf.new in
        let w = writing O.taken O.faults out.old out.new in
        Ends r w (words.side layout.now k (map string_bytes pairs.now)) result }
    ensures complete { let r = shelved S.tells S.faults shelf.old shelf.new in
        Accepts r (words.side layout.now k (map string_bytes pairs.now)) → IsDone result }
    ensures refuses { let r = shelved S.tells S.faults shelf.old shelf.new in
        (f : Fault_of) → Refuses r (words.side layout.now k (map string_bytes pairs.now)) f
        → EndsBy f result }
{
    law_complete_boards();
    law_alone();
    law_claims();
    let job = read_sides(alloc, layout, pairs, shelf)?;
    let done = carry_out(rt, alloc, job, k)?;
    write_board(alloc, &done.circuit, &done.board, out)?;
    Ok(())
}
