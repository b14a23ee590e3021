//! Why a board wasn't written.

ghost use Rattle.std.specs.Prelude.{◌≡◌};
ghost use Rattle.board_write.specs.declared.fault.WriteFault.TheVariants as fault;

use patch_base::{Failed, Memory};

/// Why a board wasn't written.
#[derive(Clone, Copy, Debug, PartialEq, Eq)]
pub enum WriteFault {
    /// Out of memory: nothing was written.
    Memory,
    /// The sink failed: it took a prefix of the text.
    Failed,
}

impl From<Memory> for WriteFault {
    ghost from_gives = { λ _ e. e ≡ fault.Memory };

    fn from(_memory: Memory) -> WriteFault {
        WriteFault::Memory
    }
}

impl From<Failed> for WriteFault {
    ghost from_gives = { λ _ e. e ≡ fault.Failed };

    fn from(_failed: Failed) -> WriteFault {
        WriteFault::Failed
    }
}
