//! A region in the order of its growth.

ghost use Rattle.std.specs.Prelude.{◌≡◌, ℕ, ◌<◌, ◌∷◌, [], length, slice_get, IfOk, Some, ◌↔◌};
ghost use Rattle.patch_layout.specs.Spread.{starting, InQueue};
ghost use Rattle.region_plan.specs.inside.Tree.{growth, PlaceOf, Pushed};

use patch_base::Memory;
use patch_layout::Reached;
use std::alloc::Global;
use std::marker::Model;

/// A region in the order of its growth: each cell but the first has the place of the one that it was joined to, and one step more.
#[derive(Drop)]
pub(crate) struct Tree {
    tree: Vec<Reached>,
    /// The place of each cell of the grid that is in the region.
    places: Vec<Option<u32>>,
}

impl Model for Tree {
    ghost use Rattle.std.specs.Prelude.{length};
    ghost use Rattle.region_plan.specs.inside.Tree.{Growth, Placing, growth};

    ghost Value = { Growth };

    ghost view = { λ s. growth (length s.places.items) s.tree.items };

    ghost invariant = { λ s. Placing s.tree.items s.places.items };
}

impl Tree {
    /// The region of one cell, where there are so many cells.
    pub(crate) fn new(alloc: Global, size: u32, first: u32) -> Result<Tree, Memory>
        requires { first < size }
        ensures { IfOk result (λ tree. tree ≡ growth size (starting first ∷ [])) }
    {
        let mut places = vec![in alloc; None; size as usize]?;
        let mut tree = Vec::new(alloc);
        tree.push(Reached {
            cell: first,
            from: 0,
            steps: 0,
        })?;
        places[first as usize] = Some(0);
        Ok(Tree { tree, places })
    }

    /// The place of the cell, where it is in the region.
    pub(crate) fn place(&self, cell: u32) -> Option<u32>
        ensures { PlaceOf self.now.tree cell result }
    {
        entry(&self.places, cell)
    }

    /// Joins a cell to the one at a place, and tells its own place.
    pub(crate) fn push(&mut self, cell: u32, from: u32) -> Result<u32, Memory>
        requires cell { cell < self.old.size }
        requires new { InQueue self.old.tree cell → ⊥ }
        requires from { from < length self.old.tree }
        ensures pushed { IfOk result (λ place. Pushed self.old.tree cell from place self.new.tree) }
        ensures size { self.new.size ≡ self.old.size }
    {
        let place = self.tree.len() as u32;
        let steps = self.tree[from as usize].steps + 1;
        self.tree.push(Reached { cell, from, steps })?;
        self.places[cell as usize] = Some(place);
        Ok(place)
    }

    /// The cells, in the order of their growth.
    pub(crate) fn as_slice(&self) -> &[Reached]
        ensures { result.now ≡ self.now.tree }
    {
        self.tree.as_slice()
    }
}

// What a table has at a number, and None past its end.
fn entry(table: &[Option<u32>], at: u32) -> Option<u32>
    ensures { (c : ℕ) → (result ≡ Some c) ↔ (slice_get table.now at ≡ Some (Some c)) }
{
    let at = at as usize;
    if at < table.len() { table[at] } else { None }
}
