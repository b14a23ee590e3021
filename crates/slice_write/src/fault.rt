//! Why slices weren't written.

ghost use Rattle.std.specs.Prelude.{◌≡◌};
ghost use Rattle.slice_write.specs.declared.fault.SliceFault.TheVariants as fault;

use patch_base::{Failed, Memory};

/// Why slices weren't written.
#[derive(Clone, Copy, Debug, PartialEq, Eq)]
pub enum SliceFault {
    /// Out of memory.
    Memory,
    /// The sink failed.
    Failed,
}

impl From<Memory> for SliceFault {
    ghost from_gives = { λ _ e. e ≡ fault.Memory };

    fn from(_memory: Memory) -> SliceFault {
        SliceFault::Memory
    }
}

impl From<Failed> for SliceFault {
    ghost from_gives = { λ _ e. e ≡ fault.Failed };

    fn from(_failed: Failed) -> SliceFault {
        SliceFault::Failed
    }
}
