//! How a program ends where no job is read.

ghost use Rattle.std.specs.Prelude.{◌≡◌, ◌≤◌};
ghost use Rattle.fault_lines.specs.Lines.{line_text};
ghost use Rattle.fault_lines.specs.Sinks.{Said, writing};
ghost use Rattle.job_read.specs.Statuses.{job_line, job_status, name_of};

use crate::JobFault;
use fault_lines::{FaultLine, say_line};
use outcome_table::OutcomeFault;
use patch_base::Sink;
use patch_layout::LayoutFault;
use qasm_lex::CircuitFault;

/// Writes the line of a fault, by the names of the job's three texts, and gives the status: 3, 4 or 5 for a text that is
/// refused, 7 for one that can't be read, 9 for want of memory. A sink that fails changes no status.
pub fn say_job<E: Sink>(
    err: &mut E,
    fault: JobFault,
    circuit: &str,
    layout: &str,
    outcomes: &str,
) -> u8
    ensures status { result ≡ job_status fault }
    ensures counts { E.faults err.old ≤ E.faults err.new }
    ensures said { Said (writing E.taken E.faults err.old err.new)
        (job_line circuit.now layout.now outcomes.now fault) }
{
    say_line(err, line_of(fault, circuit, layout, outcomes));
    status_of(fault)
}

// What the line says.
fn line_of<'a>(
    fault: JobFault,
    circuit: &'a str,
    layout: &'a str,
    outcomes: &'a str,
) -> FaultLine<'a>
    ensures { line_text result ≡ job_line circuit.now layout.now outcomes.now fault }
{
    match fault {
        JobFault::Read { which } => FaultLine::Read {
            name: name_of(which, circuit, layout, outcomes),
        },
        JobFault::Circuit(fault) => FaultLine::Circuit(fault),
        JobFault::Layout(fault) => FaultLine::Layout(fault),
        JobFault::Outcomes(fault) => FaultLine::Outcomes(fault),
        JobFault::Memory => FaultLine::Memory,
    }
}

// The name of the text of a number, as a fault counts them.
fn name_of<'a>(which: u32, circuit: &'a str, layout: &'a str, outcomes: &'a str) -> &'a str
    ensures { result.now ≡ name_of circuit.now layout.now outcomes.now which }
{
    match which {
        0 => circuit,
        1 => layout,
        _ => outcomes,
    }
}

// Want of memory has one status, whoever met it.
fn status_of(fault: JobFault) -> u8
    ensures { result ≡ job_status fault }
{
    match fault {
        JobFault::Read { which: _ } => 7,
        JobFault::Circuit(CircuitFault::At { line: _, kind: _ }) => 3,
        JobFault::Layout(LayoutFault::Memory) => 9,
        JobFault::Layout(_) => 4,
        JobFault::Outcomes(OutcomeFault::Memory) => 9,
        JobFault::Outcomes(_) => 5,
        JobFault::Circuit(CircuitFault::Memory) => 9,
        JobFault::Memory => 9,
    }
}
