//! The line that says why nothing was written.

ghost use Rattle.std.specs.Prelude.{◌≡◌, ◌≤◌};
ghost use Rattle.fault_lines.specs.Sinks.{Said, writing};
ghost use Rattle.job_read.specs.Statuses.{job_line, job_status};
ghost use Rattle.tool_words.specs.Commands.{run_of};
ghost use Rattle.run_top.specs.Faults.{circuit_name, layout_name, outcomes_name, fault_line, status_of};

use crate::fault::RunFault;
use crate::names::name_at;
use fault_lines::{FaultLine, say_line};
use job_read::{JobFault, say_job};
use patch_base::Sink;
use tool_words::RunCommand;

/// Writes the fault line of a command, and gives the status. A sink that fails changes no status.
pub fn say<E: Sink>(err: &mut E, command: RunCommand<'_>, fault: RunFault) -> u8
    ensures status { result ≡ status_of fault }
    ensures counts { E.faults err.old ≤ E.faults err.new }
    ensures said { Said (writing E.taken E.faults err.old err.new)
        (fault_line (run_of command.entry) fault) }
{
    match fault {
        RunFault::Job(fault) => say_text(err, command, 0, fault),
        RunFault::Program { program, fault } => say_text(err, command, program, fault),
        RunFault::Unwritten => {
            say_line(err, FaultLine::Write);
            8
        }
        RunFault::Memory => {
            say_line(err, FaultLine::Memory);
            9
        }
    }
}

// The same of a text of a program.
fn say_text<E: Sink>(err: &mut E, command: RunCommand<'_>, program: u32, fault: JobFault) -> u8
    ensures status { result ≡ job_status fault }
    ensures counts { E.faults err.old ≤ E.faults err.new }
    ensures said { let t = run_of command.entry in
        Said (writing E.taken E.faults err.old err.new)
        (job_line (circuit_name t program) (layout_name t) (outcomes_name t program) fault) }
{
    say_job(
        err,
        fault,
        circuit_name(command, program),
        layout_name(command),
        outcomes_name(command, program),
    )
}

fn circuit_name<'a>(command: RunCommand<'a>, program: u32) -> &'a str
    ensures { result.now ≡ circuit_name (run_of command.entry) program }
{
    match command {
        RunCommand::Run { circuit, .. } => circuit,
        RunCommand::Bits { circuit, .. } => circuit,
        RunCommand::Big { .. } => "",
        RunCommand::Side { pairs, .. } => name_at(pairs, 2 * program as usize),
    }
}

fn layout_name<'a>(command: RunCommand<'a>) -> &'a str
    ensures { result.now ≡ layout_name (run_of command.entry) }
{
    match command {
        RunCommand::Run { layout, .. } => layout,
        RunCommand::Bits { layout, .. } => layout,
        RunCommand::Big { .. } => "",
        RunCommand::Side { layout, .. } => layout,
    }
}

fn outcomes_name<'a>(command: RunCommand<'a>, program: u32) -> &'a str
    ensures { result.now ≡ outcomes_name (run_of command.entry) program }
{
    match command {
        RunCommand::Run { outcomes, .. } => outcomes,
        RunCommand::Bits { outcomes, .. } => outcomes,
        RunCommand::Big { .. } => "",
        RunCommand::Side { pairs, .. } => name_at(pairs, 2 * program as usize + 1),
    }
}
