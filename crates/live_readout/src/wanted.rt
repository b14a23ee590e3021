//! What a board wants of a readout.

ghost use Rattle.std.specs.Prelude.{◌≡◌, length, map, IfOk};
ghost use Rattle.source_model.specs.Statics.{kinds_of};
ghost use Rattle.board_core.specs.Position.{IsLegal};
ghost use Rattle.live_readout.specs.Wanted.{wanted_at, wanted_of};

use board_core::Board;
use patch_base::Memory;
use source_model::Kind;
use std::alloc::Global;

/// For each product its kind, unless it is done.
pub(crate) fn wanted_of(alloc: Global, board: &Board) -> Result<Vec<Option<Kind>>, Memory>
    ensures { IfOk result (λ v. v.items ≡ wanted_of board.now) }
{
    let _ = board.history();
    let mut wanted = Vec::new(alloc);
    for p in 0..board.products().len() {
        wanted.push(wanted_at(board, p as u32))?;
    }
    Ok(wanted)
}

// A product's kind, unless it is done.
fn wanted_at(board: &Board, p: u32) -> Option<Kind>
    ensures { result ≡ wanted_at board.now p }
{
    let standing = board.standing(p)?;
    if let Some(_) = standing.deliver {
        return None;
    }
    Some(board.products()[p as usize].kind)
}

/// The kind of each product.
pub(crate) fn kinds_of(alloc: Global, board: &Board) -> Result<Vec<Kind>, Memory>
    ensures { IfOk result (λ v. v.items ≡ kinds_of board.now.job.products) }
{
    let mut kinds = Vec::new(alloc);
    for product in board.products() {
        kinds.push(product.kind)?;
    }
    Ok(kinds)
}
