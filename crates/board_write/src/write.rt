//! The texts of a board.

ghost use Rattle.std.specs.Prelude.{◌≡◌, ◌≤◌, ◌++◌, List};
ghost use Rattle.source_model.specs.declared.Given.{Given};
ghost use Rattle.source_model.specs.Circuits.{WellFormed};
ghost use Rattle.source_model.specs.Statics.{statics};
ghost use Rattle.fault_lines.specs.Sinks.{writing};
ghost use Rattle.board_write.specs.Boards.{IsComplete, WritesText, bits_shown, schedule_of};

use crate::fault::WriteFault;
use board_core::Board;
use patch_base::{Sink, write_all};
use schedule_text::{bits_of, write_bits, write_schedule};
use source_model::Circuit;
use std::alloc::Global;

/// Writes the schedule of a circuit's board whose products are all done.
///
/// # Errors
///
/// `Memory` out of memory, with nothing written, and `Failed` where the sink failed, which then took a prefix of the text.
pub fn write_board<O: Sink>(
    alloc: Global,
    circuit: &Circuit,
    board: &Board,
    out: &mut O,
) -> Result<(), WriteFault>
    requires circuit { WellFormed circuit.now }
    requires products { board.now.job.products ≡ statics circuit.now.items }
    ensures counts { O.faults out.old ≤ O.faults out.new }
    ensures written { (table : List Given) → IsComplete circuit.now board.now table →
        let w = writing O.taken O.faults out.old out.new in
        WritesText w (schedule_of circuit.now table board.now.history) result }
{
    let bits = bits_of(alloc, circuit, board)?;
    write_schedule(circuit, board, &bits, out)?;
    Ok(())
}

/// Writes some bytes, and then the bits of a circuit's board whose products are all done: the last lines of its schedule
/// alone.
///
/// # Errors
///
/// `Memory` out of memory, with nothing written, and `Failed` where the sink failed, which then took a prefix of the text.
pub fn write_board_bits<O: Sink>(
    alloc: Global,
    before: &[u8],
    circuit: &Circuit,
    board: &Board,
    out: &mut O,
) -> Result<(), WriteFault>
    requires circuit { WellFormed circuit.now }
    requires products { board.now.job.products ≡ statics circuit.now.items }
    ensures counts { O.faults out.old ≤ O.faults out.new }
    ensures written { (table : List Given) → IsComplete circuit.now board.now table →
        let w = writing O.taken O.faults out.old out.new in
        WritesText w (before.now ++ bits_shown circuit.now table) result }
{
    let bits = bits_of(alloc, circuit, board)?;
    write_all(out, before)?;
    write_bits(circuit, &bits, out)?;
    Ok(())
}
