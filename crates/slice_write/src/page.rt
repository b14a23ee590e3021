//! What is written of one slice.

ghost use Rattle.std.specs.Prelude.{◌≡◌, ◌∷◌, ◌++◌, [], map, OnOk};
ghost use Rattle.board_core.specs.History.{History};
ghost use Rattle.slice_write.specs.inside.Marks.{mark as mark_of, HasRoom, FewFactories};

use crate::cells::held_cells;
use crate::marks::Mark;
use board_core::Entry;
use patch_base::Memory;
use patch_layout::Layout;
use std::alloc::Global;

#[derive(Drop)]
pub(crate) struct Page {
    /// By factory: whether it steps.
    pub(crate) steps: [bool; 16],
    /// Whether there is a claim.
    pub(crate) claims: bool,
    /// The cells of the claims.
    pub(crate) marks: Vec<Mark>,
}

impl Page {
    ghost use Rattle.slice_write.specs.inside.Pages.{PageIs};
    ghost use Rattle.patch_layout.specs.Grid.{Grid};

    pub(crate) fn new(alloc: Global) -> Page
        ensures { (g : Grid) → PageIs g [] result }
    {
        Page {
            steps: [false; 16],
            claims: false,
            marks: Vec::new(alloc),
        }
    }

    /// Adds an entry of the slice. `held` is room for the cells of a claim.
    pub(crate) fn add(
        &mut self,
        layout: &Layout,
        entry: &Entry,
        held: &mut Vec<u32>,
    ) -> Result<(), Memory>
        requires room { HasRoom layout.now entry.now }
        requires factories { FewFactories layout.now }
        ensures { OnOk result ((here : History) → PageIs layout.now here self.old
            → PageIs layout.now (here ++ entry.now ∷ []) self.new) }
    {
        match entry {
            Entry::Claim {
                product,
                axis,
                port,
                state: _,
                cells,
            } => {
                held_cells(layout, axis, *port, cells.cells(), held)?;
                let _qubits = axis.len();
                mark(held, *product, &mut self.marks)?;
                self.claims = true;
            }
            Entry::Step { factory } => self.steps[*factory as usize] = true,
            Entry::Deliver { .. } => {}
            Entry::Release { .. } => {}
            Entry::Settle { .. } => {}
        }
        Ok(())
    }
}

// Marks cells with a product.
fn mark(cells: &[u32], product: u32, marks: &mut Vec<Mark>) -> Result<(), Memory>
    ensures { OnOk result (marks.new.items ≡ marks.old.items ++ map (mark_of product) cells.now) }
{
    for cell in cells {
        marks.push(Mark {
            cell: *cell,
            product,
        })?;
    }
    Ok(())
}
