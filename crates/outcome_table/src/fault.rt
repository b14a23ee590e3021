//! Why an outcome text is refused.

use patch_base::Memory;
use std::alloc::{AllocError, AllocFailed};
use thiserror::Error;

/// Why an outcome text is refused. Lines are counted from 1.
#[derive(Clone, Copy, Debug, PartialEq, Eq, Error)]
pub enum OutcomeFault {
    /// The text is past 4 MiB.
    #[error("the text is too long")]
    TooLong,
    /// The first line isn't `outcomes 1`, or a line has none of the forms.
    #[error("line {line} is no line of outcomes")]
    Form { line: u32 },
    /// There is no such product.
    #[error("line {line} names no product")]
    Number { line: u32 },
    /// The product is of another kind: a settled product has no line at all.
    #[error("line {line} is for a product of another kind")]
    Kind { line: u32 },
    /// An earlier line speaks of the same product, or of the same run of the same factory.
    #[error("line {line} repeats an earlier one")]
    Repeated { line: u32 },
    /// There is no such factory.
    #[error("line {line} names no factory")]
    Factory { line: u32 },
    /// More than 4,096 failing runs are listed.
    #[error("too many failing runs")]
    TooManyFails,
    /// The least product without a line, of those that aren't settled.
    #[error("product {number} has no line")]
    Missing { number: u32 },
    /// Out of memory.
    #[error("out of memory")]
    Memory,
}

impl From<Memory> for OutcomeFault {
    ghost use Rattle.std.specs.Prelude.{◌≡◌};
    ghost use Rattle.outcome_table.specs.declared.fault.OutcomeFault.TheVariants as fault;

    ghost from_gives = { λ _ f. f ≡ fault.Memory };

    fn from(_want: Memory) -> OutcomeFault {
        OutcomeFault::Memory
    }
}

impl From<AllocError> for OutcomeFault {
    ghost use Rattle.std.specs.Prelude.{◌≡◌};
    ghost use Rattle.outcome_table.specs.declared.fault.OutcomeFault.TheVariants as fault;

    ghost from_gives = { λ _ f. f ≡ fault.Memory };

    fn from(_want: AllocError) -> OutcomeFault {
        OutcomeFault::Memory
    }
}

impl<T: Drop> From<AllocFailed<T>> for OutcomeFault {
    ghost use Rattle.std.specs.Prelude.{◌≡◌};
    ghost use Rattle.outcome_table.specs.declared.fault.OutcomeFault.TheVariants as fault;

    ghost from_gives = { λ _ f. f ≡ fault.Memory };

    fn from(_want: AllocFailed<T>) -> OutcomeFault {
        OutcomeFault::Memory
    }
}
