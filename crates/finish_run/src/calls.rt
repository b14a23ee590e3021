//! Calls of the board that it can't refuse.

ghost use Rattle.std.specs.Prelude.{◌≡◌, ℕ, ◌<◌, Option, None, IsSome, IsTrue, ◌↔◌, length};
ghost use Rattle.board_core.specs.History.{done_place};
ghost use Rattle.board_core.specs.declared.Entry.{Entry as Entries};
ghost use Rattle.board_core.specs.declared.Entry.TheVariants as entry;
ghost use Rattle.board_core.specs.Legal.{Allowed};
ghost use Rattle.board_core.specs.Position.{past, with_entry, IsLegal};
ghost use Rattle.board_core.specs.Causes.{EntryOf, IsClaimable, IsDeliverable, claim_of, stepped_by};
ghost use Rattle.finish_run.specs.Next.{IsPending, IsUnreleased};

use board_core::{Board, Noted, Standing};
use magic_pool::Stepped;
use node_log::Node;
use patch_layout::Plan;
use source_model::Given;

/// Claims by a plan that nothing speaks against.
pub(crate) fn claim(board: &mut Board, plan: Plan, node: Node<Noted>)
    requires { IsClaimable board.old plan }
    ensures claimed { (state : Option ℕ)
        × (board.new ≡ with_entry board.old 0 (claim_of plan state)) }
    ensures legal { IsLegal board.new }
{
    let Ok(_) = board.claim(0, plan, node) else {
        unreachable!()
    };
}

/// Delivers an outcome, or settles, where nothing speaks against it.
pub(crate) fn deliver(board: &mut Board, p: u32, given: Given, node: Node<Noted>)
    requires { IsDeliverable board.old p given }
    ensures delivered { (e : Entries) × EntryOf p given e × (board.new ≡ with_entry board.old 0 e) }
    ensures legal { IsLegal board.new }
{
    let Ok(_) = board.deliver(0, p, given, node) else {
        unreachable!()
    };
}

/// Releases a product that may be released.
pub(crate) fn release(board: &mut Board, p: u32, node: Node<Noted>)
    requires { Allowed board.old.job (past board.old) (entry.Release p) }
    ensures released { board.new ≡ with_entry board.old 0 (entry.Release p) }
    ensures legal { IsLegal board.new }
{
    let Ok(_) = board.release(0, p, node) else {
        unreachable!()
    };
}

/// Makes a step of a factory that may make one, and answers what it did.
pub(crate) fn step(board: &mut Board, factory: u32, node: Node<Noted>) -> Stepped
    requires { Allowed board.old.job (past board.old) (entry.Step factory) }
    ensures stepped { board.new ≡ with_entry board.old 0 (entry.Step factory) }
    ensures outcome { result ≡ stepped_by board.old factory }
    ensures legal { IsLegal board.new }
{
    let Ok((_, stepped)) = board.step(0, factory, node) else {
        unreachable!()
    };
    stepped
}

/// Whether a product is claimed and not done.
pub(crate) fn is_pending(board: &Board, p: u32) -> bool
    ensures pending { IsTrue result ↔ IsPending (past board.now) p }
    ensures legal { IsLegal board.now }
{
    let _ = board.history();
    match board.standing(p) {
        Some(standing) => standing.claim.is_some() && standing.deliver.is_none(),
        None => false,
    }
}

/// Whether a product is delivered and not released.
pub(crate) fn is_unreleased(board: &Board, p: u32) -> bool
    ensures unreleased { IsTrue result ↔ IsUnreleased (past board.now) p }
    ensures legal { IsLegal board.now }
{
    let _ = board.history();
    match board.standing(p) {
        Some(standing) => holds_on(standing),
        None => false,
    }
}

/// Whether a product with these places is claimed and done, and not released.
fn holds_on(standing: Standing) -> bool
    ensures { IsTrue result ↔ (IsSome standing.claim × IsSome standing.deliver
        × (standing.release ≡ None)) }
{
    standing.claim.is_some() && standing.deliver.is_some() && standing.release.is_none()
}

/// Whether a product isn't done.
pub(crate) fn is_undone(board: &Board, p: u32) -> bool
    requires { p < length board.now.job.products }
    ensures undone { IsTrue result ↔ (done_place (past board.now) p ≡ None) }
    ensures legal { IsLegal board.now }
{
    let _ = board.history();
    match board.standing(p) {
        Some(standing) => standing.deliver.is_none(),
        None => false,
    }
}
