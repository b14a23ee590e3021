//! Schedules as text: a header, a line for each entry of a history, and a line for each register's bits.
#![tactic(auto)]

ghost use Rattle.std.specs.Prelude.{◌≡◌, ◌≤◌, ◌⊎◌, List, length, OnOk, OnErr, IfOk, IfSome};
ghost use Rattle.patch_base.specs.Outside.{Rose, Grew, AppendsPrefix};
ghost use Rattle.source_model.specs.declared.Given.{Given};
ghost use Rattle.source_model.specs.Bits.{bits_after};
ghost use Rattle.source_model.specs.Circuits.{RightKinds, WellFormed, bits_in};
ghost use Rattle.source_model.specs.Statics.{statics};
ghost use Rattle.board_core.specs.declared.Noted.{Noted};
ghost use Rattle.board_core.specs.History.{entries};
ghost use Rattle.board_core.specs.Legal.{Complete};
ghost use Rattle.board_core.specs.Position.{past};
ghost use Rattle.schedule_text.specs.Bits.{LeavesBits};
ghost use Rattle.schedule_text.specs.Lines.{IsEntryLine, version_of};
ghost use Rattle.schedule_text.specs.Text.{text_of, bits_text, two, bit_in, TextTellsAll};
ghost use Rattle.schedule_text.specs.Laws.{OneSchedule, LegalEntriesStand};

mod bits;
mod read;
mod write;

use bits::{Said, count};
use board_core::{Board, Noted, law_headline, law_short};
use node_log::Log;
use patch_base::{Failed, Memory, Pen, Sink, Words};
use read::{entry, worker};
use source_model::{Circuit, Static, law_bits};
use std::alloc::Global;
use write::{put_bits, put_entries};

/// Writes a history as text of version 2: the header, a line for each entry, and a line for each register's bits.
/// `bits` has one truth value per bit of the registers. No memory is taken.
///
/// # Errors
///
/// `Failed` where the sink failed, which then took a prefix of the text.
pub fn write_history<O: Sink>(
    circuit: &Circuit,
    history: &Log<Noted>,
    bits: &[bool],
    out: &mut O,
) -> Result<(), Failed>
    requires circuit { WellFormed circuit.now }
    requires bits { length bits.now ≡ bits_in circuit.now.registers }
    ensures counts { O.faults out.old ≤ O.faults out.new }
    ensures all { OnOk result (Grew (O.taken out.old) (O.taken out.new)
        (text_of two history.now circuit.now.registers (bit_in bits.now))) }
    ensures prefix { OnErr result (AppendsPrefix (O.taken out.old) (O.taken out.new)
        (text_of two history.now circuit.now.registers (bit_in bits.now))) }
    ensures failed { OnErr result (Rose (O.faults out.old) (O.faults out.new)) }
{
    let mut pen = Pen::new();
    pen.put(b"schedule 2\n");
    put_entries(&mut pen, history, out)?;
    put_bits(&mut pen, circuit, bits, out)?;
    pen.send(out)
}

/// Writes the last lines of a schedule alone: a line for each register's bits, the highest index first. `bits` has one
/// truth value per bit of the registers. No memory is taken.
///
/// # Errors
///
/// `Failed` where the sink failed, which then took a prefix of the lines.
pub fn write_bits<O: Sink>(circuit: &Circuit, bits: &[bool], out: &mut O) -> Result<(), Failed>
    requires circuit { WellFormed circuit.now }
    requires bits { length bits.now ≡ bits_in circuit.now.registers }
    ensures counts { O.faults out.old ≤ O.faults out.new }
    ensures all { OnOk result (Grew (O.taken out.old) (O.taken out.new)
        (bits_text circuit.now.registers (bit_in bits.now))) }
    ensures prefix { OnErr result (AppendsPrefix (O.taken out.old) (O.taken out.new)
        (bits_text circuit.now.registers (bit_in bits.now))) }
    ensures failed { OnErr result (Rose (O.faults out.old) (O.faults out.new)) }
{
    let mut pen = Pen::new();
    put_bits(&mut pen, circuit, bits, out)?;
    pen.send(out)
}

/// The bits of the registers after a history of the circuit's static products, in order: each is the effective outcome of
/// the last product that measures into it, in source order, and 0 where there is none.
///
/// # Errors
///
/// `Memory` where memory ran out.
pub fn history_bits(
    alloc: Global,
    circuit: &Circuit,
    products: &[Static],
    history: &Log<Noted>,
) -> Result<Vec<bool>, Memory>
    requires circuit { WellFormed circuit.now }
    requires products { products.now ≡ statics circuit.now.items }
    ensures size { IfOk result (λ bits. length bits.items ≡ bits_in circuit.now.registers) }
    ensures bits { IfOk result (λ bits. LeavesBits circuit.now (entries history.now) bits.items) }
{
    law_bits();
    let said = Said::of(alloc, products.len(), history)?;
    let size = count(circuit.registers.as_slice());
    let mut bits = vec![in alloc; false; size]?;
    said.write(products, &mut bits);
    Ok(bits)
}

/// The bits of the registers after a board of the circuit's static products: where the board is complete for a table of
/// outcomes, those of the circuit's own run with that table.
///
/// # Errors
///
/// `Memory` where memory ran out.
pub fn bits_of(alloc: Global, circuit: &Circuit, board: &Board) -> Result<Vec<bool>, Memory>
    requires circuit { WellFormed circuit.now }
    requires products { board.now.job.products ≡ statics circuit.now.items }
    ensures size { IfOk result (λ bits. length bits.items ≡ bits_in circuit.now.registers) }
    ensures bits { IfOk result (λ bits. (table : List Given) → RightKinds circuit.now.items table
        → Complete board.now.job (past board.now) table
        → bits.items ≡ bits_after circuit.now.registers circuit.now.items table) }
{
    law_headline();
    let bits = history_bits(alloc, circuit, board.products(), board.history())?;
    Ok(bits)
}

/// Writes a board's schedule: the text of version 2 of its history. `bits` has one truth value per bit of the registers. No
/// memory is taken.
///
/// # Errors
///
/// `Failed` where the sink failed, which then took a prefix of the text.
pub fn write_schedule<O: Sink>(
    circuit: &Circuit,
    board: &Board,
    bits: &[bool],
    out: &mut O,
) -> Result<(), Failed>
    requires circuit { WellFormed circuit.now }
    requires bits { length bits.now ≡ bits_in circuit.now.registers }
    ensures counts { O.faults out.old ≤ O.faults out.new }
    ensures all { OnOk result (Grew (O.taken out.old) (O.taken out.new)
        (text_of two board.now.history circuit.now.registers (bit_in bits.now))) }
    ensures prefix { OnErr result (AppendsPrefix (O.taken out.old) (O.taken out.new)
        (text_of two board.now.history circuit.now.registers (bit_in bits.now))) }
    ensures failed { OnErr result (Rose (O.faults out.old) (O.faults out.new)) }
{
    write_history(circuit, board.history(), bits, out)
}

/// The entry that a line of a schedule names, with the number of the worker that made it, which is 0 in version 1.
/// `version` is 1 or 2. None where the line is no entry line of that version.
///
/// # Errors
///
/// `Memory` where there was none for the axis or the cells of a claim.
pub fn read_entry(alloc: Global, line: &[u8], version: u32) -> Result<Option<Noted>, Memory>
    requires { (version ≡ 1) ⊎ (version ≡ 2) }
    ensures found { IfOk result (λ f. IfSome f (IsEntryLine (version_of version) line.now)) }
    ensures exact { IfOk result (λ f. (n : Noted) → IsEntryLine (version_of version) line.now n
        → f ≡ Some n) }
{
    let mut words = Words::of(line);
    let Some(by) = worker(&mut words, version) else {
        return Ok(None);
    };
    let Some(entry) = entry(alloc, &mut words, version)? else {
        return Ok(None);
    };
    Ok(Some(Noted { by, entry }))
}

/// No two triples of a version, a history and bits of one circuit share a text.
pub fn law_text_tells_all()
    ensures { TextTellsAll }
{}

/// A text is the schedule of one history alone.
pub fn law_one_schedule()
    ensures { OneSchedule }
{}

/// Each entry of a legal history may stand in a schedule's text, where its worker has a number of 0 to 63.
pub fn law_legal_entries_stand()
    ensures { LegalEntriesStand }
{
    law_short();
}
