//! Following tokens: where a statement doesn't go on, and the reading of fixed tokens.

ghost use Rattle.std.specs.Prelude.{◌≡◌, ◌≤◌, ◌+◌, length, drop, None, IfOk};
ghost use Rattle.qasm_grammar.specs.declared.follow.Unread.TheVariants as faults;
ghost use Rattle.qasm_grammar.specs.Forms.{Form, refusal, reads, GoesOn, Closes};
ghost use Rattle.qasm_grammar.specs.inside.Forms.{tokens_then, is_next};
ghost use Rattle.qasm_grammar.specs.Grammar as grammar;
ghost use Rattle.qasm_grammar.specs.Spelling.{Spells};
ghost use Rattle.qasm_grammar.specs.inside.Spelling.{fixed_text};

use crate::terminal::{Terminal, fits};
use patch_base::Memory;
use std::alloc::AllocFailed;

/// How a token is refused.
#[derive(Clone, Copy, Debug, PartialEq, Eq)]
pub enum Refusal {
    /// The text doesn't begin with `OPENQASM 2.0;`.
    Version,
    /// The grammar allows no such token here.
    Syntax,
    /// Gates with parameters aren't read.
    Parameters,
    /// A part of OpenQASM that isn't read.
    Unsupported,
}

/// The place of a token, or of the end, at which a statement doesn't go on.
#[derive(Clone, Copy, Debug, PartialEq, Eq)]
pub struct Halt {
    pub at: usize,
    pub kind: Refusal,
}

/// Why a statement isn't read.
#[derive(Clone, Copy, Debug, PartialEq, Eq)]
pub enum Unread {
    /// Out of memory.
    Memory,
    Halted(Halt),
}

impl<T: Drop> From<AllocFailed<T>> for Unread {
    ghost from_gives = { λ _ e. e ≡ faults.Memory };

    fn from(_e: AllocFailed<T>) -> Unread {
        Unread::Memory
    }
}

impl From<Memory> for Unread {
    ghost from_gives = { λ _ e. e ≡ faults.Memory };

    fn from(_e: Memory) -> Unread {
        Unread::Memory
    }
}

/// Whether the next token is this one.
pub fn is_next(found: &[Terminal], at: usize, wanted: Terminal) -> bool
    ensures { result ≡ is_next wanted (drop at found.now) }
{
    at < found.len() && fits(found[at], wanted)
}

/// Reads these tokens.
pub fn expect(found: &[Terminal], at: usize, wanted: &[Terminal]) -> Result<usize, Unread>
    requires { at ≤ length found.now }
    ensures within { IfOk result (λ end.
        (end ≡ at + length wanted.now) × (end ≤ length found.now)) }
    ensures form { (k : Form) → refusal k ≡ None
        → GoesOn (λ end. end) result k found.now
        (reads (tokens_then wanted.now k) (drop at found.now) at) }
    ensures spelled { IfOk result (λ end. Spells (fixed_text wanted.now) found.now at end) }
{
    let mut end = at;
    for next in wanted {
        if !is_next(found, end, *next) {
            return Err(Unread::Halted(Halt {
                at: end,
                kind: Refusal::Syntax,
            }));
        }
        end += 1;
    }
    Ok(end)
}

/// Reads the version, which every text begins with.
pub fn version(found: &[Terminal]) -> Result<usize, Unread>
    ensures within { IfOk result (λ end. end ≤ length found.now) }
    ensures form { Closes (λ end. end) grammar.version found.now 0 result }
{
    if !is_next(found, 0, Terminal::Openqasm) {
        return Err(Unread::Halted(Halt {
            at: 0,
            kind: Refusal::Version,
        }));
    }
    if !is_next(found, 1, Terminal::Two) {
        return Err(Unread::Halted(Halt {
            at: 1,
            kind: Refusal::Version,
        }));
    }
    if !is_next(found, 2, Terminal::Semicolon) {
        return Err(Unread::Halted(Halt {
            at: 2,
            kind: Refusal::Version,
        }));
    }
    Ok(3)
}
