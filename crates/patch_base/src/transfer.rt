// Whole texts read from a shelf, and whole texts written to a sink.
ghost use Rattle.std.specs.Prelude.{◌≡◌, ℕ, ◌+◌, ◌<◌, ◌≤◌, ◌^◌, List, length, take, IfOk, IfSome, OnOk, OnErr};
ghost use Rattle.patch_base.specs.Outside.{Rose, Grew, AppendsPrefix};

use crate::outside::{Failed, ReadFault, Shelf, Sink};
use std::alloc::Global;

/// Writes all bytes, by as many calls as the sink wants. After `Failed` a first part of the bytes
/// was appended. A call that takes nothing of a piece that isn't empty is a fault.
pub fn write_all<O: Sink>(out: &mut O, bytes: &[u8]) -> Result<(), Failed>
    ensures counts { O.faults out.old ≤ O.faults out.new }
    ensures all { OnOk result (Grew (O.taken out.old) (O.taken out.new) bytes.now) }
    ensures prefix { OnErr result (AppendsPrefix (O.taken out.old) (O.taken out.new) bytes.now) }
    ensures failed { OnErr result (Rose (O.faults out.old) (O.faults out.new)) }
{
    let mut written = 0;
    while written < bytes.len() {
        let taken = out.write(&bytes[written..])?;
        if taken == 0 {
            return Err(Failed);
        }
        written += taken;
    }
    Ok(())
}

/// The greatest number of bytes that one call asks of a shelf.
const PIECE: usize = 65_536;

/// Reads the bytes of a name, or their first `limit + 1` where there are more.
pub fn read_text<S: Shelf>(
    alloc: Global,
    shelf: &mut S,
    name: &str,
    limit: u64,
) -> Result<Vec<u8>, ReadFault>
    requires { limit < 2 ^ 32 }
    ensures told { (n : List ℕ) → S.tells shelf.new n ≡ S.tells shelf.old n }
    ensures counts { (n : List ℕ) → S.faults shelf.old n ≤ S.faults shelf.new n }
    ensures text { IfOk result (λ text. IfSome (S.tells shelf.old name.now)
        (λ bytes. text.items ≡ take (limit + 1) bytes)) }
    ensures len { IfOk result (λ text. length text.items ≤ limit + 1) }
    ensures failed { result ≡ Err ReadFault.Failed
        → Rose (S.faults shelf.old name.now) (S.faults shelf.new name.now) }
{
    let enough = limit as usize + 1;
    let mut text = Vec::new(alloc);
    let mut piece = [0; PIECE];
    while text.len() < enough {
        let asked = (enough - text.len()).min(PIECE);
        let given = shelf.read_at(name, text.len() as u64, &mut piece[..asked])?;
        if given == 0 {
            break;
        }
        text.extend_from_slice(&piece[..given])?;
    }
    Ok(text)
}
