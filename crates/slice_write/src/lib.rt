//! Slices of a history: which of its entries can be carried out at once, and the picture of the claims of each slice.
#![tactic(auto)]

ghost use Rattle.std.specs.Prelude.{◌≡◌, ◌≤◌, IfOk, OnOk, OnErr};
ghost use Rattle.patch_base.specs.Outside.{Rose, Grew, AppendsPrefix};
ghost use Rattle.board_core.specs.Position.{past};
ghost use Rattle.slice_write.specs.Slices.{sliced, slices_of};
ghost use Rattle.slice_write.specs.Pictures.{picture, nobody, slices_text};
ghost use Rattle.slice_write.specs.Laws.{ClaimsOfASliceAreApart, ClaimsOfASliceCommute};

mod cells;
mod clashes;
mod drawing;
mod factory;
mod fault;
mod history;
mod ledger;
mod marks;
mod numbers;
mod page;
mod picture;
mod placed;
mod text;

use board_core::Board;
pub use fault::SliceFault;
use history::{slice_history, write_history_slices};
use patch_base::{Failed, Memory, Pen, Sink};
use patch_layout::Layout;
use picture::put_picture;
use std::alloc::Global;

/// The slice of each entry of a board's history. Entries of one slice can be carried out at once: an entry's slice is the
/// least that leaves it after all that it needs.
///
/// # Errors
///
/// `Memory` where memory ran out.
pub fn slices(alloc: Global, board: &Board) -> Result<Vec<u32>, Memory>
    ensures { IfOk result (λ v. v.items ≡ slices_of board.now.job (past board.now)) }
{
    slice_history(
        alloc,
        board.products(),
        board.layout(),
        board.fails(),
        board.history(),
    )
}

/// Writes the slices of a board's history: the greatest slice, and for each slice from 1 on its number, the factories that
/// step in it, and the picture of its claims where it has some. `slices` are those that `slices` answers.
///
/// # Errors
///
/// `Memory` where memory ran out, and then nothing was written. `Failed` where the sink failed, which then took a
/// prefix of the text.
pub fn write_slices<O: Sink>(
    alloc: Global,
    board: &Board,
    slices: &[u32],
    out: &mut O,
) -> Result<(), SliceFault>
    requires { slices.now ≡ slices_of board.now.job (past board.now) }
    ensures counts { O.faults out.old ≤ O.faults out.new }
    ensures all { OnOk result (Grew (O.taken out.old) (O.taken out.new)
        (slices_text board.now.job.grid (sliced board.now.job (past board.now)))) }
    ensures prefix { result ≡ Err SliceFault.Failed
        → AppendsPrefix (O.taken out.old) (O.taken out.new)
        (slices_text board.now.job.grid (sliced board.now.job (past board.now))) }
    ensures failed { result ≡ Err SliceFault.Failed → Rose (O.faults out.old) (O.faults out.new) }
    ensures memory { result ≡ Err SliceFault.Memory → O.taken out.new ≡ O.taken out.old }
{
    write_history_slices(
        alloc,
        board.products(),
        board.layout(),
        board.fails(),
        board.history(),
        slices,
        out,
    )
}

/// Writes the picture of a layout without claims: a line for each row, and six columns for each cell. No memory is taken.
///
/// # Errors
///
/// `Failed` where the sink failed, which then took a prefix of the picture.
pub fn write_picture<O: Sink>(layout: &Layout, out: &mut O) -> Result<(), Failed>
    ensures counts { O.faults out.old ≤ O.faults out.new }
    ensures all { OnOk result (Grew (O.taken out.old) (O.taken out.new)
        (picture layout.now nobody)) }
    ensures prefix { OnErr result (AppendsPrefix (O.taken out.old) (O.taken out.new)
        (picture layout.now nobody)) }
    ensures failed { OnErr result (Rose (O.faults out.old) (O.faults out.new)) }
{
    let mut pen = Pen::new();
    put_picture(&mut pen, layout, out)?;
    pen.send(out)
}

/// Two claims of one slice share no held cell, and their products commute.
pub fn law_one_slice()
    ensures apart { ClaimsOfASliceAreApart }
    ensures commute { ClaimsOfASliceCommute }
{}
