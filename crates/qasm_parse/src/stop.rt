//! Where a text is refused.

ghost use Rattle.std.specs.Prelude.{◌≡◌};
ghost use Rattle.qasm_parse.specs.declared.stop.Fault.TheVariants as faults;
ghost use Rattle.qasm_parse.specs.Refused.{kind_of};
ghost use Rattle.qasm_parse.specs.inside.Refused.{fault_of};

use patch_base::Memory;
use qasm_grammar::{Refusal, Unread};
use qasm_lex::FaultKind;
use std::alloc::AllocFailed;

/// The place of a token, or of the end, at which a text is refused.
#[derive(Clone, Copy, Debug, PartialEq, Eq)]
pub struct Stop {
    pub at: usize,
    pub kind: FaultKind,
}

/// Why a text isn't read.
#[derive(Clone, Copy, Debug, PartialEq, Eq)]
pub enum Fault {
    /// Out of memory.
    Memory,
    Stopping(Stop),
}

impl<T: Drop> From<AllocFailed<T>> for Fault {
    ghost from_gives = { λ _ e. e ≡ faults.Memory };

    fn from(_e: AllocFailed<T>) -> Fault {
        Fault::Memory
    }
}

impl From<Memory> for Fault {
    ghost from_gives = { λ _ e. e ≡ faults.Memory };

    fn from(_e: Memory) -> Fault {
        Fault::Memory
    }
}

impl From<Unread> for Fault {
    ghost from_gives = { λ u e. e ≡ fault_of u };

    fn from(u: Unread) -> Fault {
        match u {
            Unread::Memory => Fault::Memory,
            Unread::Halted(halt) => Fault::Stopping(Stop {
                at: halt.at,
                kind: kind_of(halt.kind),
            }),
        }
    }
}

// The fault of a text whose grammar refuses a token.
fn kind_of(refusal: Refusal) -> FaultKind
    ensures { result ≡ kind_of refusal }
{
    match refusal {
        Refusal::Version => FaultKind::Version,
        Refusal::Syntax => FaultKind::Syntax,
        Refusal::Parameters => FaultKind::Parameters,
        Refusal::Unsupported => FaultKind::Unsupported,
    }
}
