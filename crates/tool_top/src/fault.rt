//! Why a command ends before its output is written.

ghost use Rattle.std.specs.Prelude.{◌≡◌};

use board_write::WriteFault;
use job_read::JobFault;
use patch_base::{Failed, Memory};

/// Why a command ends before all of its output is written.
#[derive(Clone, Copy, Debug, PartialEq, Eq)]
pub enum ToolFault {
    /// The circuit, the layout or the outcomes can't be read, or are refused.
    Job(JobFault),
    /// The schedule's text can't be read.
    ScheduleUnread,
    /// The schedule's text is past 64 MiB.
    ScheduleTooLong,
    /// The first bad line of the schedule, counted from 1.
    ScheduleIllegal { line: u32 },
    /// The output failed.
    Unwritten,
    /// Want of memory.
    Memory,
}

impl From<JobFault> for ToolFault {
    ghost use Rattle.std.specs.Prelude.{◌≡◌};
    ghost use Rattle.tool_top.specs.declared.fault.ToolFault.TheVariants as fault;

    ghost from_gives = { λ f e. e ≡ fault.Job f };

    fn from(fault: JobFault) -> ToolFault {
        ToolFault::Job(fault)
    }
}

impl From<WriteFault> for ToolFault {
    ghost use Rattle.std.specs.Prelude.{◌≡◌};
    ghost use Rattle.tool_top.specs.Faults.{fault_of_write};

    ghost from_gives = { λ f e. e ≡ fault_of_write f };

    fn from(fault: WriteFault) -> ToolFault {
        match fault {
            WriteFault::Memory => ToolFault::Memory,
            WriteFault::Failed => ToolFault::Unwritten,
        }
    }
}

impl From<Memory> for ToolFault {
    ghost use Rattle.std.specs.Prelude.{◌≡◌};
    ghost use Rattle.tool_top.specs.declared.fault.ToolFault.TheVariants as fault;

    ghost from_gives = { λ _ e. e ≡ fault.Memory };

    fn from(_want: Memory) -> ToolFault {
        ToolFault::Memory
    }
}

impl From<Failed> for ToolFault {
    ghost use Rattle.std.specs.Prelude.{◌≡◌};
    ghost use Rattle.tool_top.specs.declared.fault.ToolFault.TheVariants as fault;

    ghost from_gives = { λ _ e. e ≡ fault.Unwritten };

    fn from(_failed: Failed) -> ToolFault {
        ToolFault::Unwritten
    }
}
