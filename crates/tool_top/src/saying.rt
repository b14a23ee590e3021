//! The line that says why nothing was written.

ghost use Rattle.std.specs.Prelude.{◌≡◌, ◌≤◌};
ghost use Rattle.fault_lines.specs.Sinks.{Said, writing};
ghost use Rattle.tool_words.specs.Commands.{tool_of};
ghost use Rattle.tool_top.specs.Faults.{circuit_name, layout_name, outcomes_name, schedule_name, fault_line, status_of};

use crate::fault::ToolFault;
use fault_lines::{FaultLine, say_line};
use job_read::say_job;
use patch_base::Sink;
use tool_words::ToolCommand;

/// Writes the fault line of a command, and gives the status. A sink that fails changes no status.
pub fn say<E: Sink>(err: &mut E, command: ToolCommand<'_>, fault: ToolFault) -> u8
    ensures status { result ≡ status_of fault }
    ensures counts { E.faults err.old ≤ E.faults err.new }
    ensures said { Said (writing E.taken E.faults err.old err.new)
        (fault_line (tool_of command.entry) fault) }
{
    match fault {
        ToolFault::Job(fault) => say_job(
            err,
            fault,
            circuit_name(command),
            layout_name(command),
            outcomes_name(command),
        ),
        ToolFault::ScheduleUnread => {
            let name = schedule_name(command);
            say_line(err, FaultLine::Read { name });
            7
        }
        ToolFault::ScheduleTooLong => {
            say_line(err, FaultLine::LongSchedule);
            6
        }
        ToolFault::ScheduleIllegal { line } => {
            say_line(err, FaultLine::BadSchedule { line });
            6
        }
        ToolFault::Unwritten => {
            say_line(err, FaultLine::Write);
            8
        }
        ToolFault::Memory => {
            say_line(err, FaultLine::Memory);
            9
        }
    }
}

fn circuit_name<'a>(command: ToolCommand<'a>) -> &'a str
    ensures { result.now ≡ circuit_name (tool_of command.entry) }
{
    match command {
        ToolCommand::Serial { circuit, .. } => circuit,
        ToolCommand::Lower { circuit } => circuit,
        ToolCommand::Layout { circuit, .. } => circuit,
        ToolCommand::Verify { circuit, .. } => circuit,
        ToolCommand::Slices { circuit, .. } => circuit,
        ToolCommand::Migrate { circuit, .. } => circuit,
        ToolCommand::Layers { circuit } => circuit,
        ToolCommand::Least { circuit, .. } => circuit,
    }
}

fn layout_name<'a>(command: ToolCommand<'a>) -> &'a str
    ensures { result.now ≡ layout_name (tool_of command.entry) }
{
    match command {
        ToolCommand::Serial { layout, .. } => layout,
        ToolCommand::Lower { .. } => "",
        ToolCommand::Layout { layout, .. } => layout,
        ToolCommand::Verify { layout, .. } => layout,
        ToolCommand::Slices { layout, .. } => layout,
        ToolCommand::Migrate { layout, .. } => layout,
        ToolCommand::Layers { .. } => "",
        ToolCommand::Least { layout, .. } => layout,
    }
}

fn outcomes_name<'a>(command: ToolCommand<'a>) -> &'a str
    ensures { result.now ≡ outcomes_name (tool_of command.entry) }
{
    match command {
        ToolCommand::Serial { outcomes, .. } => outcomes,
        ToolCommand::Lower { .. } => "",
        ToolCommand::Layout { .. } => "",
        ToolCommand::Verify { outcomes, .. } => outcomes,
        ToolCommand::Slices { outcomes, .. } => outcomes,
        ToolCommand::Migrate { outcomes, .. } => outcomes,
        ToolCommand::Layers { .. } => "",
        ToolCommand::Least { outcomes, .. } => outcomes,
    }
}

fn schedule_name<'a>(command: ToolCommand<'a>) -> &'a str
    ensures { result.now ≡ schedule_name (tool_of command.entry) }
{
    match command {
        ToolCommand::Verify { schedule, .. } => schedule,
        ToolCommand::Slices { schedule, .. } => schedule,
        ToolCommand::Migrate { schedule, .. } => schedule,
        _ => "",
    }
}
