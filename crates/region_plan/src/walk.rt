//! The walk from a side back to a region, breadth first.

ghost use Rattle.std.specs.Prelude.{◌≡◌, ℕ, ◌+◌, ◌<◌, ◌≤◌, length, List, [], None, IfOk};
ghost use Rattle.patch_layout.specs.Grid.{Sound};
ghost use Rattle.patch_layout.specs.Spread.{Spread, unseen};
ghost use Rattle.region_plan.specs.Free.{Free};
ghost use Rattle.region_plan.specs.inside.Walk.{Looked, BegunTo, Sought, WalkGoesOn, Continues, Meets};

use crate::free::is_free;
use crate::marks::Marks;
use crate::tree::Tree;
use patch_base::Memory;
use patch_layout::{Layout, Reached};

/// Where a walk came to the region: the place in the queue, and that in the region.
#[derive(Clone, Copy)]
pub(crate) struct Met {
    pub(crate) head: usize,
    pub(crate) place: u32,
}

// Puts a free cell into the queue that isn't marked yet, and marks it.
fn reach(
    layout: &Layout,
    held: &[Option<u32>],
    seen: &mut Marks,
    queue: &mut Vec<Reached>,
    next: Reached,
) -> Result<(), Memory>
    requires { length seen.old ≡ length layout.now.sites }
    ensures { IfOk result
        (λ _. Looked layout.now held.now next seen.old queue.old.items seen.new queue.new.items) }
{
    if seen.has(next.cell) || !is_free(layout, held, next.cell) {
        return Ok(());
    }
    seen.mark(next.cell);
    queue.push(next)?;
    Ok(())
}

// Starts a walk at the free cells of the pair.
fn begin(
    layout: &Layout,
    held: &[Option<u32>],
    pair: &[Option<u32>],
    seen: &mut Marks,
    queue: &mut Vec<Reached>,
) -> Result<(), Memory>
    requires { length seen.old ≡ length layout.now.sites }
    ensures { IfOk result (λ _. BegunTo layout.now held.now pair.now
        (length pair.now) queue.new.items seen.new) }
{
    queue.clear();
    seen.clear();
    for start in pair {
        if let Some(cell) = start {
            let next = Reached {
                cell: *cell,
                from: 0,
                steps: 0,
            };
            reach(layout, held, seen, queue, next)?;
        }
    }
    Ok(())
}

// Reaches the free neighbours of the cell at a place in the queue.
fn look_around(
    layout: &Layout,
    held: &[Option<u32>],
    head: usize,
    seen: &mut Marks,
    queue: &mut Vec<Reached>,
) -> Result<(), Memory>
    requires walk { (starts : List ℕ) × Spread layout.now
        (Free layout.now held.now) starts queue.old.items head seen.old }
    requires head { head < length queue.old.items }
    requires few { length queue.old.items + unseen seen.old ≤ 8192 }
    requires sizes { length seen.old ≡ length layout.now.sites }
    ensures walk { IfOk result (λ _. WalkGoesOn layout.now
        (Free layout.now held.now) queue.old.items queue.new.items head seen.old seen.new) }
    ensures kept { IfOk result (λ _. Continues queue.old.items queue.new.items) }
    ensures whole { IfOk result (λ _. length queue.new.items + unseen seen.new
        ≡ length queue.old.items + unseen seen.old) }
    ensures sizes { IfOk result (λ _. length seen.new ≡ length seen.old) }
{
    let at = queue[head];
    for neighbour in layout.neighbours(at.cell) {
        if let Some(cell) = neighbour {
            let next = Reached {
                cell,
                from: head as u32,
                steps: at.steps + 1,
            };
            reach(layout, held, seen, queue, next)?;
        }
    }
    Ok(())
}

/// Goes from the pair through free cells until a cell of the region comes first in the queue, or until no cell is left.
pub(crate) fn seek(
    layout: &Layout,
    held: &[Option<u32>],
    tree: &Tree,
    pair: &[Option<u32>],
    seen: &mut Marks,
    queue: &mut Vec<Reached>,
) -> Result<Option<Met>, Memory>
    requires seen { length seen.old ≡ length layout.now.sites }
    requires few { length pair.now ≤ 4096 }
    requires sound { Sound layout.now }
    ensures sought { IfOk result
        (Sought layout.now held.now pair.now tree.now.tree queue.new.items seen.new) }
    ensures sizes { IfOk result (λ _. length seen.new ≡ length seen.old) }
{
    begin(layout, held, pair, seen, queue)?;
    let mut head = 0;
    while head < queue.len() {
        let reached = queue[head];
        if let Some(place) = tree.place(reached.cell) {
            return Ok(Some(Met { head, place }));
        }
        look_around(layout, held, head, seen, queue)?;
        head += 1;
    }
    Ok(None)
}

/// Goes from the pair through free cells until no cell is left.
pub(crate) fn walk_from(
    layout: &Layout,
    held: &[Option<u32>],
    pair: &[Option<u32>],
    seen: &mut Marks,
    queue: &mut Vec<Reached>,
) -> Result<(), Memory>
    requires seen { length seen.old ≡ length layout.now.sites }
    requires few { length pair.now ≤ 4096 }
    requires sound { Sound layout.now }
    ensures { IfOk result
        (λ _. Sought layout.now held.now pair.now [] queue.new.items seen.new None) }
{
    begin(layout, held, pair, seen, queue)?;
    let mut head = 0;
    while head < queue.len() {
        look_around(layout, held, head, seen, queue)?;
        head += 1;
    }
    Ok(())
}

/// The first entry of a walk whose cell is in the region.
pub(crate) fn meet(walk: &[Reached], tree: &Tree) -> Option<Met>
    ensures { Meets walk.now tree.now.tree result }
{
    for head in 0..walk.len() {
        let reached = walk[head];
        if let Some(place) = tree.place(reached.cell) {
            return Some(Met { head, place });
        }
    }
    None
}
