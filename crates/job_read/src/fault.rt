//! Why no job is read.

ghost use Rattle.std.specs.Prelude.{◌≡◌};
ghost use Rattle.job_read.specs.Faults.{fault_of_circuit, fault_of_layout, fault_of_outcomes};

use outcome_table::OutcomeFault;
use patch_base::Memory;
use patch_layout::LayoutFault;
use qasm_lex::CircuitFault;
use std::alloc::{AllocError, AllocFailed};
use thiserror::Error;

/// Why no job is read. The texts are read in the order circuit, layout, outcomes, and the first
/// cause is answered.
#[derive(Clone, Copy, Debug, PartialEq, Eq, Error)]
pub enum JobFault {
    /// The shelf failed at a text: 0 is the circuit's, 1 the layout's, 2 that of the outcomes.
    #[error("text {which} can't be read")]
    Read { which: u32 },
    /// The circuit's text is refused; never `CircuitFault::Memory`.
    #[error("{0}")]
    Circuit(CircuitFault),
    /// The layout is refused for the circuit; never `LayoutFault::Memory`.
    #[error("{0}")]
    Layout(LayoutFault),
    /// The outcomes' text is refused for the circuit and the layout; never `OutcomeFault::Memory`.
    #[error("{0}")]
    Outcomes(OutcomeFault),
    /// Want of memory.
    #[error("want of memory")]
    Memory,
}

impl From<CircuitFault> for JobFault {
    ghost from_gives = { λ fault e. e ≡ fault_of_circuit fault };

    fn from(fault: CircuitFault) -> JobFault {
        if fault == CircuitFault::Memory {
            return JobFault::Memory;
        }
        JobFault::Circuit(fault)
    }
}

impl From<LayoutFault> for JobFault {
    ghost from_gives = { λ fault e. e ≡ fault_of_layout fault };

    fn from(fault: LayoutFault) -> JobFault {
        if fault == LayoutFault::Memory {
            return JobFault::Memory;
        }
        JobFault::Layout(fault)
    }
}

impl From<OutcomeFault> for JobFault {
    ghost from_gives = { λ fault e. e ≡ fault_of_outcomes fault };

    fn from(fault: OutcomeFault) -> JobFault {
        if fault == OutcomeFault::Memory {
            return JobFault::Memory;
        }
        JobFault::Outcomes(fault)
    }
}

impl From<Memory> for JobFault {
    ghost use Rattle.job_read.specs.declared.fault.JobFault.TheVariants as variant;

    ghost from_gives = { λ _ e. e ≡ variant.Memory };

    fn from(_want: Memory) -> JobFault {
        JobFault::Memory
    }
}

impl From<AllocError> for JobFault {
    ghost use Rattle.job_read.specs.declared.fault.JobFault.TheVariants as variant;

    ghost from_gives = { λ _ e. e ≡ variant.Memory };

    fn from(_want: AllocError) -> JobFault {
        JobFault::Memory
    }
}

impl<T: Drop> From<AllocFailed<T>> for JobFault {
    ghost use Rattle.job_read.specs.declared.fault.JobFault.TheVariants as variant;

    ghost from_gives = { λ _ e. e ≡ variant.Memory };

    fn from(_want: AllocFailed<T>) -> JobFault {
        JobFault::Memory
    }
}
