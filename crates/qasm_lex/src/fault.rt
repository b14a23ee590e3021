//! Why a circuit text is refused.

use patch_base::Memory;
use std::alloc::{AllocError, AllocFailed};
use thiserror::Error;

/// What is wrong with a circuit text.
#[derive(Clone, Copy, Debug, PartialEq, Eq)]
pub enum FaultKind {
    /// The text is past 4 MiB.
    TooLong,
    /// A byte begins no token.
    Token,
    /// No form of the grammar allows the token, or the end of the text, at this place.
    Syntax,
    /// The first statement isn't the version.
    Version,
    /// The called name is no known gate.
    Unknown,
    /// A bracket for parameters isn't closed at once.
    Parameters,
    /// A name is declared that is known or taken, or the include stands a second time.
    Declared,
    /// An argument names no register of the kind that is needed, or no formal qubit.
    Undeclared,
    /// An index isn't below the size of its register.
    Index,
    /// The number of arguments isn't that of the gate.
    Arity,
    /// A register has size 0, or arguments differ in size.
    Sizes,
    /// A gate is applied to one qubit twice.
    SameQubit,
    /// A statement of OpenQASM 2.0 that isn't read here.
    Unsupported,
    /// A limit on the size of circuits is passed.
    TooMany,
}

/// Why a circuit text is refused.
#[derive(Clone, Copy, Debug, PartialEq, Eq, Error)]
pub enum CircuitFault {
    /// The line, counted from 1, at which the text is refused; 0 for a text past 4 MiB.
    #[error("line {line} of the circuit: {kind:?}")]
    At { line: u32, kind: FaultKind },
    /// Out of memory.
    #[error("out of memory")]
    Memory,
}

impl From<Memory> for CircuitFault {
    ghost use Rattle.std.specs.Prelude.{◌≡◌};
    ghost use Rattle.qasm_lex.specs.declared.fault.CircuitFault.TheVariants as fault;

    ghost from_gives = { λ _ f. f ≡ fault.Memory };

    fn from(_want: Memory) -> CircuitFault {
        CircuitFault::Memory
    }
}

impl From<AllocError> for CircuitFault {
    ghost use Rattle.std.specs.Prelude.{◌≡◌};
    ghost use Rattle.qasm_lex.specs.declared.fault.CircuitFault.TheVariants as fault;

    ghost from_gives = { λ _ f. f ≡ fault.Memory };

    fn from(_want: AllocError) -> CircuitFault {
        CircuitFault::Memory
    }
}

impl<T: Drop> From<AllocFailed<T>> for CircuitFault {
    ghost use Rattle.std.specs.Prelude.{◌≡◌};
    ghost use Rattle.qasm_lex.specs.declared.fault.CircuitFault.TheVariants as fault;

    ghost from_gives = { λ _ f. f ≡ fault.Memory };

    fn from(_want: AllocFailed<T>) -> CircuitFault {
        CircuitFault::Memory
    }
}
