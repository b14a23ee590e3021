//! The growth of a region over its sides.

ghost use Rattle.std.specs.Prelude.{◌≡◌, ◌≢◌, ℕ, length, IfOk, All, AllPairs, []};
ghost use Rattle.patch_layout.specs.Grid.{Sound};
ghost use Rattle.patch_layout.specs.Region.{OnSide};
ghost use Rattle.region_plan.specs.Free.{Free};
ghost use Rattle.region_plan.specs.inside.Tree.{cells_in, Rooted, Grafted};
ghost use Rattle.region_plan.specs.inside.Ways.{At, Served, SprungFrom};
ghost use Rattle.region_plan.specs.inside.Kept.{Suits};
ghost use Rattle.region_plan.specs.inside.Follow.{SomeLeading, EachFollows};

use crate::free::free_one;
use crate::kept::Walks;
use crate::marks::Marks;
use crate::tree::Tree;
use crate::walk::{Met, meet, seek};
use patch_base::Memory;
use patch_layout::{Layout, Reached, Side};
use std::alloc::Global;

/// A region, the place of a cell on each of its sides, and the marks and the queue of its walks.
#[derive(Drop)]
pub(crate) struct Region {
    pub(crate) tree: Tree,
    pub(crate) touched: Vec<u32>,
    pub(crate) seen: Marks,
    pub(crate) queue: Vec<Reached>,
}

// Joins the region to the side by the cells from the entry where a walk from there met it, and tells the place of its cell on the side.
fn follow(queue: &[Reached], met: Option<Met>, tree: &mut Tree) -> Result<Option<u32>, Memory>
    requires { SomeLeading tree.old queue.now met }
    ensures followed { IfOk result (EachFollows tree.old tree.new queue.now met) }
    ensures size { IfOk result (λ _. tree.new.size ≡ tree.old.size) }
{
    let Some(start) = met else {
        return Ok(None);
    };
    let mut at = queue[start.head];
    let mut place = start.place;
    'back: while at.steps > 0 {
        at = queue[at.from as usize];
        place = tree.push(at.cell, place)?;
    }
    Ok(Some(place))
}

/// Joins the region to the side by the least number of free cells, and tells the place of its cell there.
pub(crate) fn join(
    layout: &Layout,
    held: &[Option<u32>],
    walks: &Walks,
    tree: &mut Tree,
    side: Side,
    seen: &mut Marks,
    queue: &mut Vec<Reached>,
) -> Result<Option<u32>, Memory>
    requires size { tree.old.size ≡ length layout.now.sites }
    requires seen { length seen.old ≡ length layout.now.sites }
    requires sound { Sound layout.now }
    requires suits { Suits layout.now held.now walks.now }
    requires free { All (Free layout.now held.now) (cells_in tree.old.tree) }
    ensures grafted { IfOk result (Grafted layout.now (Free layout.now held.now)
        (OnSide layout.now side) tree.old.tree tree.new.tree) }
    ensures rooted { IfOk result (λ _. (first : ℕ)
        → Rooted layout.now (Free layout.now held.now) first tree.old.tree
        → Rooted layout.now (Free layout.now held.now) first tree.new.tree) }
    ensures size { IfOk result (λ _. tree.new.size ≡ tree.old.size) }
    ensures marks { IfOk result (λ _. length seen.new ≡ length seen.old) }
{
    let pair = layout.side(side);
    if let Some(walk) = walks.walk(side, pair) {
        let met = meet(walk, tree);
        let place = follow(walk, met, tree)?;
        return Ok(place);
    }
    let met = seek(layout, held, tree, &pair, seen, queue)?;
    let place = follow(queue.as_slice(), met, tree)?;
    Ok(place)
}

// Joins the region to each of the sides in turn, each time by the least number of free cells, and tells whether all could be joined.
fn grow(
    layout: &Layout,
    held: &[Option<u32>],
    walks: &Walks,
    tree: &mut Tree,
    sides: &[Side],
    touched: &mut Vec<u32>,
    seen: &mut Marks,
    queue: &mut Vec<Reached>,
) -> Result<bool, Memory>
    requires size { tree.old.size ≡ length layout.now.sites }
    requires seen { length seen.old ≡ length layout.now.sites }
    requires sound { Sound layout.now }
    requires free { All (Free layout.now held.now) (cells_in tree.old.tree) }
    requires distinct { AllPairs (λ a b. a ≢ b) (cells_in tree.old.tree) }
    requires touched { touched.old.items ≡ [] }
    requires suits { Suits layout.now held.now walks.now }
    ensures sprung { IfOk result (SprungFrom layout.now
        (Free layout.now held.now) sides.now tree.old.tree tree.new.tree touched.new.items) }
    ensures size { IfOk result (λ _. tree.new.size ≡ tree.old.size) }
    ensures marks { IfOk result (λ _. length seen.new ≡ length seen.old) }
{
    for side in sides {
        match join(layout, held, walks, tree, *side, seen, queue)? {
            Some(place) => touched.push(place)?,
            None => return Ok(false),
        }
    }
    Ok(true)
}

// The region that grows from a free cell over the sides.
fn sprout(
    alloc: Global,
    layout: &Layout,
    held: &[Option<u32>],
    walks: &Walks,
    first: u32,
    sides: &[Side],
) -> Result<Option<Region>, Memory>
    requires first { Free layout.now held.now first }
    requires suits { Suits layout.now held.now walks.now }
    ensures { IfOk result (At layout.now (Free layout.now held.now) (Some first) sides.now) }
{
    let size = layout.size();
    let mut tree = Tree::new(alloc, size, first)?;
    let mut touched = Vec::new(alloc);
    let mut seen = Marks::new(alloc, size)?;
    let mut queue = Vec::new(alloc);
    if grow(
        layout,
        held,
        walks,
        &mut tree,
        sides,
        &mut touched,
        &mut seen,
        &mut queue,
    )? {
        Ok(Some(Region {
            tree,
            touched,
            seen,
            queue,
        }))
    } else {
        Ok(None)
    }
}

/// The region that grows from this cell, where there is one and it is free.
pub(crate) fn region_at(
    alloc: Global,
    layout: &Layout,
    held: &[Option<u32>],
    walks: &Walks,
    cell: Option<u32>,
    sides: &[Side],
) -> Result<Option<Region>, Memory>
    requires { Suits layout.now held.now walks.now }
    ensures { IfOk result (At layout.now (Free layout.now held.now) cell sides.now) }
{
    match free_one(layout, held, cell) {
        Some(first) => sprout(alloc, layout, held, walks, first, sides),
        None => Ok(None),
    }
}

/// The region that grows over the sides from the least free cell on this side that serves.
pub(crate) fn region_on(
    alloc: Global,
    layout: &Layout,
    held: &[Option<u32>],
    walks: &Walks,
    side: Side,
    sides: &[Side],
) -> Result<Option<Region>, Memory>
    requires { Suits layout.now held.now walks.now }
    ensures { IfOk result (Served layout.now (Free layout.now held.now) side sides.now) }
{
    let pair = layout.side(side);
    for index in 0..pair.len() {
        if let Some(region) = region_at(alloc, layout, held, walks, pair[index], sides)? {
            return Ok(Some(region));
        }
    }
    Ok(None)
}
