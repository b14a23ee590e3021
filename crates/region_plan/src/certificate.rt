//! From a region in the order of its growth to its plan.

ghost use Rattle.std.specs.Prelude.{◌≡◌, ◌≢◌, ℕ, ◌<◌, ◌≤◌, length, IfOk, AllPairs, All, IsPermutation};
ghost use Rattle.patch_layout.specs.Case.{Ascending};
ghost use Rattle.patch_layout.specs.Tree.{Tree, ParentsNamed};
ghost use Rattle.patch_layout.specs.Region.{wanted_sides};
ghost use Rattle.region_plan.specs.Free.{Free};
ghost use Rattle.region_plan.specs.inside.Tree.{cells_in};
ghost use Rattle.region_plan.specs.inside.Ways.{Sprung};
ghost use Rattle.region_plan.specs.inside.Finish.{PlacesIn, Renumbered, Finished};

use crate::growth::Region;
use patch_base::Memory;
use patch_layout::{CellList, Layout, Look, Parent, ParentList, Plan, Reached, TouchList};
use std::alloc::Global;

// The cells of the region in ascending order.
fn in_order(alloc: Global, tree: &[Reached]) -> Result<Vec<u32>, Memory>
    ensures same { IfOk result (λ cells. IsPermutation (cells_in tree.now) cells.items) }
    ensures ascending { IfOk result (λ cells. AllPairs (λ a b. a ≢ b) cells.items
        → Ascending cells.items) }
{
    let mut cells: Vec<u32> = tree.iter().map(|reached| reached.cell).collect(alloc)?;
    cells.sort_unstable();
    Ok(cells)
}

// The place of each cell, where there are so many cells on the grid; 0 for a cell that isn't in the list.
fn places_of(alloc: Global, size: u32, cells: &[u32]) -> Result<Vec<u32>, Memory>
    requires cells { All (λ c. c < size) cells.now }
    requires distinct { AllPairs (λ a b. a ≢ b) cells.now }
    requires few { size ≤ 4096 }
    ensures sizes { IfOk result (λ places. length places.items ≡ size) }
    ensures places { IfOk result (λ places. PlacesIn cells.now places.items) }
{
    let mut places = vec![in alloc; 0u32; size as usize]?;
    for (index, cell) in cells.iter().enumerate() {
        places[*cell as usize] = index as u32;
    }
    Ok(places)
}

// The parent of each cell: the place of the one that it was joined to, and its steps.
fn parents_of(
    alloc: Global,
    cells: &[u32],
    tree: &[Reached],
    places: &[u32],
) -> Result<Vec<Parent>, Memory>
    requires tree { Tree cells.now tree.now }
    requires places { PlacesIn cells.now places.now }
    ensures sizes { IfOk result (λ parents. length parents.items ≡ length cells.now) }
    ensures named { IfOk result (λ parents. ParentsNamed tree.now places.now parents.items
        (length tree.now)) }
{
    let mut parents = vec![in alloc; Parent { index: 0, depth: 0 }; cells.len()]?;
    for index in 0..tree.len() {
        let reached = tree[index];
        let base = tree[reached.from as usize];
        let at = places[reached.cell as usize];
        parents[at as usize] = Parent {
            index: places[base.cell as usize],
            depth: reached.steps,
        };
    }
    Ok(parents)
}

// The places of the cells that touch the sides.
fn touches_of(
    alloc: Global,
    tree: &[Reached],
    touched: &[u32],
    places: &[u32],
) -> Result<Vec<u32>, Memory>
    requires touched { All (λ t. t < length tree.now) touched.now }
    requires cells { All (λ c. c < length places.now) (cells_in tree.now) }
    ensures { IfOk result (λ touches. Renumbered tree.now places.now touched.now touches.items) }
{
    let mut touches = Vec::new(alloc);
    for place in touched {
        let reached = tree[*place as usize];
        touches.push(places[reached.cell as usize])?;
    }
    Ok(touches)
}

/// The certified plan of a region that grew for the look.
pub(crate) fn finish(
    alloc: Global,
    layout: &Layout,
    look: &Look,
    port: Option<u32>,
    region: Region,
) -> Result<Plan, Memory>
    requires { (first : ℕ) × Sprung layout.now (Free layout.now look.now.held)
        (wanted_sides look.now.axis port) first region.tree.tree region.touched.items }
    ensures { IfOk result (Finished layout.now look.now port (cells_in region.tree.tree)) }
{
    let tree = region.tree.as_slice();
    let cells = in_order(alloc, tree)?;
    let places = places_of(alloc, layout.size(), &cells)?;
    let parents = parents_of(alloc, &cells, tree, &places)?;
    let touches = touches_of(alloc, tree, &region.touched, &places)?;
    let axis = look.axis.copy(alloc)?;
    Ok(Plan {
        number: look.product,
        axis,
        cells: CellList::of(cells),
        parents: ParentList::of(parents),
        touches: TouchList::of(touches),
        port,
    })
}
