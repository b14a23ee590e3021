//! The end of a schedule: lines of bits after a complete history.

ghost use Rattle.std.specs.Prelude.{◌≡◌, ◌↔◌, ℕ, ◌+◌, ◌^◌, ◌<◌, ◌≤◌, List, ◌∷◌, ◌++◌, All, length, drop, MatchOption, IfOk, IfSome, IfNone, IsTrue};
ghost use Rattle.source_model.specs.declared.Given.{Given};
ghost use Rattle.source_model.specs.Circuits.{WellFormed, RightKinds, IsOneLine};
ghost use Rattle.source_model.specs.SourceRun.{bit_after};
ghost use Rattle.source_model.specs.Statics.{statics};
ghost use Rattle.board_core.specs.Position.{IsLegal};
ghost use Rattle.schedule_text.specs.Text.{bits_line, bits_text, bit_in};
ghost use Rattle.schedule_text.specs.Pens.{IsWithin};
ghost use Rattle.history_replay.specs.inside.Lines.{StopsAt};
ghost use Rattle.history_replay.specs.inside.Joining.{IsOver, AllOver, AgreeAll, Closes, Fails};

use crate::lines::{ended_line, is_bits_line};
use board_core::Board;
use patch_base::Memory;
use schedule_text::bits_of;
use source_model::{Circuit, Kind, Register};
use std::alloc::Global;

// Whether a product is done, and has given its region back.
fn is_over(board: &Board, p: u32, kind: Kind) -> bool
    requires { p < length board.now.job.products }
    ensures { IsTrue result ↔ IsOver board.now p kind }
{
    let Some(standing) = board.standing(p) else {
        return false;
    };
    match kind {
        Kind::Settle { .. } => standing.deliver.is_some(),
        _ => standing.claim.is_some() && standing.deliver.is_some() && standing.release.is_some(),
    }
}

// Whether all products are over.
fn is_complete(board: &Board) -> bool
    requires { IsLegal board.now }
    ensures { IsTrue result ↔ AllOver board.now }
{
    for (p, product) in board.products().iter().enumerate() {
        if !is_over(board, p as u32, product.kind) {
            return false;
        }
    }
    true
}

// Where the line after the register's line of bits begins.
fn behind(text: &[u8], at: usize, register: &Register, bits: &[bool]) -> Option<usize>
    requires name { IsOneLine register.now.name }
    requires bits { IsWithin (length bits.now) register.now }
    ensures found { IfSome result (λ next. drop at text.now
        ≡ bits_line (bit_in bits.now) register.now ++ 10 ∷ drop next text.now) }
    ensures within { IfSome result (λ next. next ≤ length text.now) }
    ensures other { IfNone result ((more : List ℕ)
        → drop at text.now ≡ bits_line (bit_in bits.now) register.now ++ 10 ∷ more → ⊥) }
{
    let Some(ended) = ended_line(text, at) else {
        return None;
    };
    if is_bits_line(ended.line, register, bits) {
        return Some(ended.next);
    }
    None
}

/// The number of the first line that isn't as it has to be, where the lines of the registers' bits are to end the text.
/// The line at this place has the number `first`.
fn close_bits(
    registers: &[Register],
    bits: &[bool],
    text: &[u8],
    at: usize,
    first: u32,
) -> Option<u32>
    requires names { All (λ r. IsOneLine r.name) registers.now }
    requires bits { All (IsWithin (length bits.now)) registers.now }
    requires at { at ≤ length text.now }
    requires few { first + length registers.now < 2 ^ 32 }
    ensures { MatchOption result (drop at text.now ≡ bits_text registers.now (bit_in bits.now))
        (λ line. (k : ℕ) × StopsAt registers.now (bit_in bits.now) (drop at text.now) k
        × (line ≡ first + k)) }
{
    let mut at = at;
    let mut line = first;
    for register in registers {
        let Some(next) = behind(text, at, register, bits) else {
            return Some(line);
        };
        at = next;
        line += 1;
    }
    if at < text.len() { Some(line) } else { None }
}

/// The first bad line from a place on, after the entry lines of the board's history.
pub(crate) fn close(
    alloc: Global,
    board: &Board,
    circuit: &Circuit,
    text: &[u8],
    at: usize,
) -> Result<Option<u32>, Memory>
    requires circuit { WellFormed circuit.now }
    requires products { board.now.job.products ≡ statics circuit.now.items }
    requires at { at ≤ length text.now }
    ensures { IfOk result (λ r. (table : List Given) → RightKinds circuit.now.items table
        → AgreeAll table board.now.history → MatchOption r
        (Closes table board.now circuit.now.registers (bit_after circuit.now.items table)
        (drop at text.now)) (Fails table board.now circuit.now.registers
        (bit_after circuit.now.items table) (drop at text.now))) }
{
    let first = board.history().length() + 2;
    if !is_complete(board) {
        return Ok(Some(first));
    }
    let bits = bits_of(alloc, circuit, board)?;
    Ok(close_bits(circuit.registers.as_slice(), &bits, text, at, first))
}
