//! Entry lines, each brought to the board.

ghost use Rattle.std.specs.Prelude.{◌≡◌, ◌↔◌, ◌⊎◌, ◌+◌, ◌≤◌, [], slice_get, length, Some, IfOk, IsTrue, IsFalse};
ghost use Rattle.board_core.specs.declared.Entry.TheVariants.{Settle as SettleEntry};
ghost use Rattle.board_core.specs.Causes.{claim_of};
ghost use Rattle.board_core.specs.Legal.{Allowed};
ghost use Rattle.board_core.specs.Position.{past, with_entry};
ghost use Rattle.schedule_text.specs.Text.{Version};
ghost use Rattle.schedule_text.specs.Lines.{IsShaped, version_of};
ghost use Rattle.history_replay.specs.inside.Joining.{Joins, MayJoin, CertifiedAs, IsEntered};

use crate::lines::ended_line;
use board_core::{Board, Entry, Noted};
use node_log::Node;
use patch_base::Memory;
use patch_layout::{Plan, certify};
use schedule_text::read_entry;
use source_model::Given;
use std::alloc::Global;

/// How far entry lines go.
#[derive(Drop)]
pub(crate) enum Entered {
    /// This entry line may not stand where it stands.
    Bad { line: u32 },
    /// The board has all entries up to this place, where no entry line begins.
    UpTo { at: usize },
}

// Whether the table has this outcome for the product.
fn has_outcome(table: &[Given], product: u32, given: Given) -> bool
    ensures { IsTrue result ↔ (slice_get table.now product ≡ Some given) }
{
    match table.get(product as usize) {
        Some(own) => *own == given,
        None => false,
    }
}

// Whether two states are the same.
fn is_same(state: Option<u32>, other: Option<u32>) -> bool
    ensures { IsTrue result ↔ (state ≡ other) }
{
    state == other
}

// Claims a region, which takes this state. Where it takes another, the answer is false, and the board is of no further use.
fn claim(board: &mut Board, by: u32, plan: Plan, state: Option<u32>, node: Node<Noted>) -> bool
    requires { CertifiedAs board.old.job.grid plan }
    ensures joined { IsTrue result → Allowed board.old.job (past board.old) (claim_of plan state)
        × (board.new ≡ with_entry board.old by (claim_of plan state)) }
    ensures barred { IsFalse result → Allowed board.old.job (past board.old) (claim_of plan state)
        → ⊥ }
{
    match board.claim(by, plan, node) {
        Ok(claimed) => is_same(claimed.state, state),
        Err(_refused) => false,
    }
}

// Settles a product, which flips or not as it is said.
fn settle(board: &mut Board, by: u32, product: u32, flip: bool, node: Node<Noted>) -> bool
    ensures joined { IsTrue result → Allowed board.old.job (past board.old)
        (SettleEntry product flip)
        × (board.new ≡ with_entry board.old by (SettleEntry product flip)) }
    ensures barred { IsFalse result → Allowed board.old.job (past board.old)
        (SettleEntry product flip) → ⊥ }
{
    let Ok(_place) = board.deliver(by, product, Given::Settled, node) else {
        return false;
    };
    match board.history().last() {
        Some(noted) => match noted.entry {
            Entry::Settle { flip: own, .. } => own == flip,
            _ => false,
        },
        None => false,
    }
}

// Whether an entry may come after the board's history and agrees with the table. The board then has it; else it is of no
// further use.
fn enter(alloc: Global, board: &mut Board, table: &[Given], noted: Noted) -> Result<bool, Memory>
    requires { (v : Version) × IsShaped v noted.entry }
    ensures joined { IfOk result (λ joins. IsTrue joins
        → Joins table.now board.old noted board.new) }
    ensures barred { IfOk result (λ joins. IsFalse joins → MayJoin table.now board.old noted → ⊥) }
{
    let node = Node::empty(alloc)?;
    let by = noted.by;
    match noted.entry {
        Entry::Claim {
            product,
            axis,
            port,
            state,
            cells,
        } => {
            let plan = certify(alloc, board.layout(), product, axis, port, cells)?;
            Ok(claim(board, by, plan, state, node))
        }
        Entry::Deliver { product, given } => Ok(
            has_outcome(table, product, given) && board.deliver(by, product, given, node).is_ok(),
        ),
        Entry::Release { product } => Ok(board.release(by, product, node).is_ok()),
        Entry::Step { factory } => Ok(board.step(by, factory, node).is_ok()),
        Entry::Settle { product, flip } => Ok(settle(board, by, product, flip, node)),
    }
}

/// Brings the entry lines from a place on to the board, up to the first line that is none.
pub(crate) fn enter_all(
    alloc: Global,
    board: &mut Board,
    table: &[Given],
    version: u32,
    text: &[u8],
    start: usize,
) -> Result<Entered, Memory>
    requires version { (version ≡ 1) ⊎ (version ≡ 2) }
    requires start { start ≤ length text.now }
    requires new { board.old.history ≡ [] }
    ensures { IfOk result (IsEntered table.now
        (version_of version) text.now start board.old board.new) }
{
    let mut at = start;
    while let Some(ended) = ended_line(text, at) {
        let Some(noted) = read_entry(alloc, ended.line, version)? else {
            return Ok(Entered::UpTo { at });
        };
        let line = board.history().length() + 2;
        if !enter(alloc, board, table, noted)? {
            return Ok(Entered::Bad { line });
        }
        at = ended.next;
    }
    Ok(Entered::UpTo { at })
}
