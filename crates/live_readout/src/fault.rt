//! Why the command ends before its output is written.

ghost use Rattle.std.specs.Prelude.{◌≡◌};

use board_write::WriteFault;
use job_read::JobFault;
use patch_base::Memory;

/// Why a command ends before all of its output is written.
#[derive(Clone, Copy, Debug, PartialEq, Eq)]
pub enum LiveFault {
    /// The circuit, the layout or the outcomes can't be read, or are refused.
    Job(JobFault),
    /// The output failed.
    Unwritten,
    /// Out of memory.
    Memory,
}

impl From<JobFault> for LiveFault {
    ghost use Rattle.std.specs.Prelude.{◌≡◌};
    ghost use Rattle.live_readout.specs.declared.fault.LiveFault.TheVariants as fault;

    ghost from_gives = { λ f e. e ≡ fault.Job f };

    fn from(fault: JobFault) -> LiveFault {
        LiveFault::Job(fault)
    }
}

impl From<WriteFault> for LiveFault {
    ghost use Rattle.std.specs.Prelude.{◌≡◌};
    ghost use Rattle.live_readout.specs.Faults.{fault_of_write};

    ghost from_gives = { λ f e. e ≡ fault_of_write f };

    fn from(fault: WriteFault) -> LiveFault {
        match fault {
            WriteFault::Memory => LiveFault::Memory,
            WriteFault::Failed => LiveFault::Unwritten,
        }
    }
}

impl From<Memory> for LiveFault {
    ghost use Rattle.std.specs.Prelude.{◌≡◌};
    ghost use Rattle.live_readout.specs.declared.fault.LiveFault.TheVariants as fault;

    ghost from_gives = { λ _ e. e ≡ fault.Memory };

    fn from(_memory: Memory) -> LiveFault {
        LiveFault::Memory
    }
}
