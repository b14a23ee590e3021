//! One text read from a shelf.

ghost use Rattle.std.specs.Prelude.{◌≡◌, ◌⊎◌, ℕ, ◌≤◌, List, take, IfOk, IfErr, IfSome};
ghost use Rattle.patch_base.specs.Outside.{Rose};

use crate::JobFault;
use patch_base::{ReadFault, Shelf, TEXT_BYTES, read_text};
use std::alloc::Global;

/// Reads a text to its end, or one byte past 4 MiB. `which` is its number in a job.
pub fn read_limited<S: Shelf>(
    alloc: Global,
    shelf: &mut S,
    name: &str,
    which: u32,
) -> Result<Vec<u8>, JobFault>
    ensures told { (n : List ℕ) → S.tells shelf.new n ≡ S.tells shelf.old n }
    ensures counts { (n : List ℕ) → S.faults shelf.old n ≤ S.faults shelf.new n }
    ensures text { IfOk result (λ text. IfSome (S.tells shelf.old name.now)
        (λ bytes. text.items ≡ take 4194305 bytes)) }
    ensures failed { IfErr result (λ e. (e ≡ JobFault.Memory)
        ⊎ ((e ≡ JobFault.Read which) × Rose (S.faults shelf.old name.now)
        (S.faults shelf.new name.now))) }
{
    match read_text(alloc, shelf, name, TEXT_BYTES) {
        Ok(text) => Ok(text),
        Err(ReadFault::Failed) => Err(JobFault::Read { which }),
        Err(ReadFault::Memory) => Err(JobFault::Memory),
    }
}
