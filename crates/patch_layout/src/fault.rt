//! Why a layout is refused.

use crate::layout::Edge;
use patch_base::Memory;
use std::alloc::AllocError;
use thiserror::Error;

/// Why a layout is refused. The refusals are tried in this order, and the first one that holds is answered.
#[derive(Clone, Copy, Debug, PartialEq, Eq, Error)]
pub enum LayoutFault {
    /// The text is past 4 MiB.
    #[error("the text is too long")]
    TooLong,
    /// The first line that has none of the forms, has a number out of its range, or names a qubit or factory that an earlier line has. Lines are counted from 1.
    #[error("line {line} is no line of a layout")]
    Form { line: u32 },
    /// There is no cell or more than 4,096, or a line names a cell that isn't there.
    #[error("the size of the grid")]
    Size,
    /// The least cell that two lines name.
    #[error("two lines name cell {cell}")]
    Overlap { cell: u32 },
    /// The least used qubit without a patch.
    #[error("qubit {qubit} has no patch")]
    PatchMissing { qubit: u32 },
    /// The least ancilla cell that no walk joins to the least ancilla cell.
    #[error("cell {cell} is cut off")]
    Split { cell: u32 },
    /// The least used qubit whose patch has no ancilla neighbour on an edge, X before Z.
    #[error("the patch of qubit {qubit} is shut on its {edge:?} sides")]
    Shut { qubit: u32, edge: Edge },
    /// There are rotations, and no port.
    #[error("there is no port")]
    NoPort,
    /// The least factory whose port has no ancilla neighbour on a Z side.
    #[error("the port of factory {factory} is shut")]
    ShutPort { factory: u32 },
    /// Out of memory.
    #[error("out of memory")]
    Memory,
}

impl From<Memory> for LayoutFault {
    ghost use Rattle.std.specs.Prelude.{◌≡◌};
    ghost use Rattle.patch_layout.specs.declared.fault.LayoutFault.TheVariants as fault;

    ghost from_gives = { λ _ f. f ≡ fault.Memory };

    fn from(_want: Memory) -> LayoutFault {
        LayoutFault::Memory
    }
}

impl From<AllocError> for LayoutFault {
    ghost use Rattle.std.specs.Prelude.{◌≡◌};
    ghost use Rattle.patch_layout.specs.declared.fault.LayoutFault.TheVariants as fault;

    ghost from_gives = { λ _ f. f ≡ fault.Memory };

    fn from(_want: AllocError) -> LayoutFault {
        LayoutFault::Memory
    }
}
