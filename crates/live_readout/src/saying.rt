//! The line that says why nothing was written.

ghost use Rattle.std.specs.Prelude.{◌≡◌, ◌≤◌};
ghost use Rattle.fault_lines.specs.Sinks.{Said, writing};
ghost use Rattle.live_readout.specs.inside.Commands.{command_of};
ghost use Rattle.live_readout.specs.Faults.{fault_line, status_of};

use crate::fault::LiveFault;
use crate::words::LiveCommand;
use fault_lines::{FaultLine, say_line};
use job_read::say_job;
use patch_base::Sink;

/// Writes the fault line, and gives the status. A sink that fails changes no status.
pub fn say<E: Sink>(err: &mut E, command: LiveCommand<'_>, fault: LiveFault) -> u8
    ensures status { result ≡ status_of fault }
    ensures counts { E.faults err.old ≤ E.faults err.new }
    ensures said { Said (writing E.taken E.faults err.old err.new) (fault_line (command_of command.entry) fault) }
{
    match fault {
        LiveFault::Job(fault) => say_job(
            err,
            fault,
            command.circuit,
            command.layout,
            command.outcomes,
        ),
        LiveFault::Unwritten => {
            say_line(err, FaultLine::Write);
            8
        }
        LiveFault::Memory => {
            say_line(err, FaultLine::Memory);
            9
        }
    }
}
