//! A line to standard error.

ghost use Rattle.std.specs.Prelude.{◌≤◌, OnOk, OnErr};
ghost use Rattle.patch_base.specs.Outside.{Rose, Grew, AppendsPrefix};
ghost use Rattle.fault_lines.specs.Lines.{circuit_line, layout_line, line_text, outcomes_line};
ghost use Rattle.fault_lines.specs.Sinks.{Said, writing};

use crate::kinds::{edge_text, kind_text};
use crate::line::FaultLine;
use crate::writing::{write_line, write_numbered};
use outcome_table::OutcomeFault;
use patch_base::{Failed, Sink};
use patch_layout::LayoutFault;
use qasm_lex::CircuitFault;

/// Writes a fault line. A sink that fails takes a prefix of it, and nothing more comes of that.
pub fn say_line<E: Sink>(err: &mut E, line: FaultLine<'_>)
    ensures counts { E.faults err.old ≤ E.faults err.new }
    ensures said { Said (writing E.taken E.faults err.old err.new) (line_text line.entry) }
{
    let _ = write_fault(err, line);
}

fn write_fault<E: Sink>(err: &mut E, line: FaultLine<'_>) -> Result<(), Failed>
    ensures counts { E.faults err.old ≤ E.faults err.new }
    ensures all { OnOk result (Grew (E.taken err.old) (E.taken err.new) (line_text line.entry)) }
    ensures part { OnErr result (AppendsPrefix (E.taken err.old) (E.taken err.new)
        (line_text line.entry)) }
    ensures failed { OnErr result (Rose (E.faults err.old) (E.faults err.new)) }
{
    match line {
        FaultLine::Words => write_line(err, b"words", b""),
        FaultLine::Read { name } => write_line(err, b"read ", name.as_bytes()),
        FaultLine::Circuit(fault) => write_circuit(err, fault),
        FaultLine::Layout(fault) => write_layout(err, fault),
        FaultLine::Outcomes(fault) => write_outcomes(err, fault),
        FaultLine::LongSchedule => write_line(err, b"schedule TooLong", b""),
        FaultLine::BadSchedule { line } => write_numbered(err, b"schedule ", line, b""),
        FaultLine::Write => write_line(err, b"write", b""),
        FaultLine::Memory => write_line(err, b"memory", b""),
    }
}

fn write_circuit<E: Sink>(err: &mut E, fault: CircuitFault) -> Result<(), Failed>
    ensures counts { E.faults err.old ≤ E.faults err.new }
    ensures all { OnOk result (Grew (E.taken err.old) (E.taken err.new) (circuit_line fault)) }
    ensures part { OnErr result (AppendsPrefix (E.taken err.old) (E.taken err.new)
        (circuit_line fault)) }
    ensures failed { OnErr result (Rose (E.faults err.old) (E.faults err.new)) }
{
    match fault {
        CircuitFault::At { line, kind } => write_numbered(err, b"circuit ", line, kind_text(kind)),
        CircuitFault::Memory => write_line(err, b"memory", b""),
    }
}

fn write_layout<E: Sink>(err: &mut E, fault: LayoutFault) -> Result<(), Failed>
    ensures counts { E.faults err.old ≤ E.faults err.new }
    ensures all { OnOk result (Grew (E.taken err.old) (E.taken err.new) (layout_line fault)) }
    ensures part { OnErr result (AppendsPrefix (E.taken err.old) (E.taken err.new)
        (layout_line fault)) }
    ensures failed { OnErr result (Rose (E.faults err.old) (E.faults err.new)) }
{
    match fault {
        LayoutFault::TooLong => write_line(err, b"layout TooLong", b""),
        LayoutFault::Form { line } => write_numbered(err, b"layout Form ", line, b""),
        LayoutFault::Size => write_line(err, b"layout Size", b""),
        LayoutFault::Overlap { cell } => write_numbered(err, b"layout Overlap ", cell, b""),
        LayoutFault::PatchMissing { qubit } => {
            write_numbered(err, b"layout PatchMissing ", qubit, b"")
        }
        LayoutFault::Split { cell } => write_numbered(err, b"layout Split ", cell, b""),
        LayoutFault::Shut { qubit, edge } => {
            write_numbered(err, b"layout Shut ", qubit, edge_text(edge))
        }
        LayoutFault::NoPort => write_line(err, b"layout NoPort", b""),
        LayoutFault::ShutPort { factory } => {
            write_numbered(err, b"layout ShutPort ", factory, b"")
        }
        LayoutFault::Memory => write_line(err, b"memory", b""),
    }
}

fn write_outcomes<E: Sink>(err: &mut E, fault: OutcomeFault) -> Result<(), Failed>
    ensures counts { E.faults err.old ≤ E.faults err.new }
    ensures all { OnOk result (Grew (E.taken err.old) (E.taken err.new) (outcomes_line fault)) }
    ensures part { OnErr result (AppendsPrefix (E.taken err.old) (E.taken err.new)
        (outcomes_line fault)) }
    ensures failed { OnErr result (Rose (E.faults err.old) (E.faults err.new)) }
{
    match fault {
        OutcomeFault::TooLong => write_line(err, b"outcomes TooLong", b""),
        OutcomeFault::Form { line } => write_numbered(err, b"outcomes ", line, b" Form"),
        OutcomeFault::Number { line } => write_numbered(err, b"outcomes ", line, b" Number"),
        OutcomeFault::Kind { line } => write_numbered(err, b"outcomes ", line, b" Kind"),
        OutcomeFault::Repeated { line } => write_numbered(err, b"outcomes ", line, b" Repeated"),
        OutcomeFault::Factory { line } => write_numbered(err, b"outcomes ", line, b" Factory"),
        OutcomeFault::TooManyFails => write_line(err, b"outcomes TooManyFails", b""),
        OutcomeFault::Missing { number } => {
            write_numbered(err, b"outcomes Missing ", number, b"")
        }
        OutcomeFault::Memory => write_line(err, b"memory", b""),
    }
}
