// The outside: texts that are read by name, bytes that are written, and what may go wrong.
ghost use Rattle.std.specs.Prelude.{◌≡◌, ℕ, ◌<◌, ◌≤◌, ◌^◌, List, Option, IfOk, OnErr};
ghost use Rattle.patch_base.specs.Outside.{Rose, Gives, Appends, IsEndOnly};
ghost use Rattle.patch_base.specs.declared.outside.ReadFault.TheVariants as fault;

use std::alloc::{AllocError, AllocFailed};

/// Out of memory.
#[derive(Clone, Copy, Debug, PartialEq, Eq)]
pub struct Memory;

impl From<AllocError> for Memory {
    fn from(_error: AllocError) -> Memory {
        Memory
    }
}

impl<T: Drop> From<AllocFailed<T>> for Memory {
    fn from(_refused: AllocFailed<T>) -> Memory {
        Memory
    }
}

/// A fault of the outside.
#[derive(Clone, Copy, Debug, PartialEq, Eq)]
pub struct Failed;

/// Why a text wasn't read.
#[derive(Clone, Copy, Debug, PartialEq, Eq)]
pub enum ReadFault {
    /// The shelf failed.
    Failed,
    /// Out of memory.
    Memory,
}

impl From<Failed> for ReadFault {
    ghost from_gives = { λ _ e. e ≡ fault.Failed };

    fn from(_failed: Failed) -> ReadFault {
        ReadFault::Failed
    }
}

impl From<AllocError> for ReadFault {
    ghost from_gives = { λ _ e. e ≡ fault.Memory };

    fn from(_error: AllocError) -> ReadFault {
        ReadFault::Memory
    }
}

/// Texts by name. What is told of a name stays, and no count of faults falls.
pub trait Shelf {
    /// The bytes of a name, where the shelf tells them.
    ghost tells: { Self → List ℕ → Option (List ℕ) };

    /// How many calls that asked for a name have failed.
    ghost faults: { Self → List ℕ → ℕ };

    /// Reads bytes of a name from a place on, and says how many. A name that isn't there fails.
    /// After a fault nothing is said of the bytes of `into`.
    fn read_at(&mut self, name: &str, at: u64, into: &mut [u8]) -> Result<usize, Failed>
        requires { at < 2 ^ 32 }
        ensures told { (n : List ℕ) → tells self.new n ≡ tells self.old n }
        ensures counts { (n : List ℕ) → faults self.old n ≤ faults self.new n }
        ensures given { IfOk result (λ n. Gives (tells self.old name.now) at n into.new) }
        ensures failed { OnErr result
            (Rose (faults self.old name.now) (faults self.new name.now)) };
}

/// Where bytes are written. The count of its faults doesn't fall.
pub trait Sink {
    /// The bytes taken so far, where the sink tells them.
    ghost taken: { Self → Option (List ℕ) };

    /// How many calls have failed.
    ghost faults: { Self → ℕ };

    /// Appends the first bytes of a piece, and says how many. After a fault none was appended.
    fn write(&mut self, bytes: &[u8]) -> Result<usize, Failed>
        ensures counts { faults self.old ≤ faults self.new }
        ensures appended { IfOk result
            (λ n. Appends (taken self.old) (taken self.new) bytes.now n) }
        ensures nothing { result ≡ Ok 0 → IsEndOnly (faults self.old) (faults self.new) bytes.now }
        ensures kept { OnErr result (taken self.new ≡ taken self.old) }
        ensures failed { OnErr result (Rose (faults self.old) (faults self.new)) };
}
