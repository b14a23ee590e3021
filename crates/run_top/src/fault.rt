//! Why a command ends before its output is written.

ghost use Rattle.std.specs.Prelude.{◌≡◌};

use board_write::WriteFault;
use job_read::JobFault;
use patch_base::Memory;
use std::alloc::AllocFailed;

/// Why a command ends before all of its output is written.
#[derive(Clone, Copy, Debug, PartialEq, Eq)]
pub enum RunFault {
    /// The circuit, the layout or the outcomes can't be read, or are refused.
    Job(JobFault),
    /// The same of the circuit or the outcomes of one of several programs.
    Program { program: u32, fault: JobFault },
    /// The output failed.
    Unwritten,
    /// Out of memory.
    Memory,
}

impl From<JobFault> for RunFault {
    ghost use Rattle.std.specs.Prelude.{◌≡◌};
    ghost use Rattle.run_top.specs.declared.fault.RunFault.TheVariants as fault;

    ghost from_gives = { λ f e. e ≡ fault.Job f };

    fn from(fault: JobFault) -> RunFault {
        RunFault::Job(fault)
    }
}

impl From<WriteFault> for RunFault {
    ghost use Rattle.std.specs.Prelude.{◌≡◌};
    ghost use Rattle.run_top.specs.Faults.{fault_of_write};

    ghost from_gives = { λ f e. e ≡ fault_of_write f };

    fn from(fault: WriteFault) -> RunFault {
        match fault {
            WriteFault::Memory => RunFault::Memory,
            WriteFault::Failed => RunFault::Unwritten,
        }
    }
}

impl From<Memory> for RunFault {
    ghost use Rattle.std.specs.Prelude.{◌≡◌};
    ghost use Rattle.run_top.specs.declared.fault.RunFault.TheVariants as fault;

    ghost from_gives = { λ _ e. e ≡ fault.Memory };

    fn from(_memory: Memory) -> RunFault {
        RunFault::Memory
    }
}

impl<T: Drop> From<AllocFailed<T>> for RunFault {
    ghost use Rattle.std.specs.Prelude.{◌≡◌};
    ghost use Rattle.run_top.specs.declared.fault.RunFault.TheVariants as fault;

    ghost from_gives = { λ _ e. e ≡ fault.Memory };

    fn from(_refused: AllocFailed<T>) -> RunFault {
        RunFault::Memory
    }
}
