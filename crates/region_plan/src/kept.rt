//! Walks that are kept from plan to plan.

ghost use Rattle.std.specs.Prelude.{◌≡◌, ℕ, ◌<◌, [], length, IfOk, IfSome, IsTrue, false, List, Option};
ghost use Rattle.patch_layout.specs.Grid.{Grid};
ghost use Rattle.region_plan.specs.inside.Kept.{Like, AncillaTo, Unheld, KeptFrom, HasWalk, Suits};

use crate::marks::Marks;
use crate::walk::walk_from;
use patch_base::Memory;
use patch_layout::{Edge, Layout, Reached, Side};
use std::alloc::Global;
use std::marker::Model;

// So many walks are kept at most: those of 64 qubits and 16 ports, which take 48 KiB each on 4,096 cells.
const MOST_WALKS: u32 = 144;

// So many sides there are at most: two of each of 1,024 qubits, and one of each of 16 ports.
const SIDES: usize = 2064;

/// The cells to which a walk leads from a pair of cells where no product holds a cell, in the order of the walk.
#[derive(Drop)]
pub(crate) struct Walk {
    pub(crate) pair: [Option<u32>; 2],
    pub(crate) queue: Vec<Reached>,
}

/// Walks through all ancilla cells of a layout, of which contracts see those that are in use: all, or none.
#[derive(Drop)]
pub(crate) struct Walks {
    columns: u32,
    ancilla: Vec<bool>,
    walks: Vec<Walk>,
    made: u32,
    keeps: bool,
    in_use: bool,
}

impl Model for Walks {
    ghost use Rattle.std.specs.Prelude.{List};
    ghost use Rattle.region_plan.specs.declared.kept.Walk.{Walk};
    ghost use Rattle.region_plan.specs.inside.Kept.{AllKept, used};

    ghost Value = { List Walk };

    ghost view = { λ s. used s.in_use s.walks.items };

    ghost invariant = { λ s. AllKept s.columns s.ancilla.items s.walks.items };
}

impl Walks {
    /// No walks, to which some may be added or not.
    pub(crate) fn new(alloc: Global, keeps: bool) -> Walks
        ensures { result ≡ [] }
    {
        Walks {
            columns: 0,
            ancilla: Vec::new(alloc),
            walks: Vec::new(alloc),
            made: 0,
            keeps,
            in_use: false,
        }
    }

    /// The walk from the pair of cells of this side, where there is one.
    pub(crate) fn walk(&self, side: Side, pair: [Option<u32>; 2]) -> Option<&[Reached]>
        ensures { IfSome result (λ queue. HasWalk self.now pair queue.now) }
    {
        if !self.in_use {
            return None;
        }
        let walk = self.walks.get(number_of(side))?;
        if is_pair(walk.pair, pair) {
            Some(walk.queue.as_slice())
        } else {
            None
        }
    }

    /// Puts the walks into use where no product holds a cell, with those from these sides and from the ports.
    pub(crate) fn prepare(
        &mut self,
        alloc: Global,
        layout: &Layout,
        held: &[Option<u32>],
        sides: &[Side],
    ) -> Result<(), Memory>
        requires held { length held.now ≡ length layout.now.sites }
        ensures { IfOk result (λ _. Suits layout.now held.now self.new) }
    {
        self.in_use = false;
        if !self.keeps || is_any_held(held) {
            return Ok(());
        }
        if !is_like(layout, self.columns, &self.ancilla) {
            self.walks.clear();
            self.made = 0;
            self.columns = layout.columns();
            self.ancilla = ancilla_of(alloc, layout)?;
        }
        add_walks(alloc, layout, held, sides, &mut self.walks, &mut self.made)?;
        add_ports(alloc, layout, held, &mut self.walks, &mut self.made)?;
        self.in_use = true;
        Ok(())
    }
}

// The number of a side: no two sides of a layout have the same.
fn number_of(side: Side) -> usize {
    match side {
        Side::Patch { qubit, edge } => 2 * qubit as usize + (edge == Edge::Z) as usize + 16,
        Side::Port { factory } => factory as usize,
    }
}

// Whether the pairs are the same.
fn is_pair(pair: [Option<u32>; 2], other: [Option<u32>; 2]) -> bool
    ensures { IsTrue result → pair ≡ other }
{
    pair[0] == other[0] && pair[1] == other[1]
}

// Whether a product holds a cell. The loop goes to the end, so that it looks at many cells at once.
fn is_any_held(held: &[Option<u32>]) -> bool
    ensures { result ≡ false → Unheld held.now }
{
    let mut any = false;
    for by in held {
        any |= by.is_some();
    }
    any
}

// Whether the layout has so many columns and these ancilla cells.
fn is_like(layout: &Layout, columns: u32, ancilla: &[bool]) -> bool
    ensures { IsTrue result → Like layout.now columns ancilla.now }
{
    if layout.columns() != columns || layout.size() as usize != ancilla.len() {
        return false;
    }
    for cell in 0..layout.size() {
        if layout.is_ancilla(cell) != ancilla[cell as usize] {
            return false;
        }
    }
    true
}

// Which cells are ancilla cells.
fn ancilla_of(alloc: Global, layout: &Layout) -> Result<Vec<bool>, Memory>
    ensures { IfOk result (λ ancilla. AncillaTo layout.now
        (length layout.now.sites) ancilla.items) }
{
    let mut ancilla = Vec::new(alloc);
    for cell in 0..layout.size() {
        ancilla.push(layout.is_ancilla(cell))?;
    }
    Ok(ancilla)
}

// Adds the walk from a side, unless it is there or there are too many.
fn add_walk(
    alloc: Global,
    layout: &Layout,
    held: &[Option<u32>],
    side: Side,
    walks: &mut Vec<Walk>,
    made: &mut u32,
) -> Result<(), Memory>
    requires held { length held.now ≡ length layout.now.sites }
    requires kept { Suits layout.now held.now walks.old.items }
    ensures { Suits layout.now held.now walks.new.items }
{
    let number = number_of(side);
    let pair = layout.side(side);
    if number >= SIDES || *made >= MOST_WALKS || has_walk(walks, number, pair) {
        return Ok(());
    }
    let queue = whole_walk(alloc, layout, held, pair)?;
    widen(alloc, walks, number)?;
    walks[number] = Walk { pair, queue };
    *made += 1;
    Ok(())
}

// Adds the walks from these sides.
fn add_walks(
    alloc: Global,
    layout: &Layout,
    held: &[Option<u32>],
    sides: &[Side],
    walks: &mut Vec<Walk>,
    made: &mut u32,
) -> Result<(), Memory>
    requires held { length held.now ≡ length layout.now.sites }
    requires kept { Suits layout.now held.now walks.old.items }
    ensures { Suits layout.now held.now walks.new.items }
{
    for side in sides {
        add_walk(alloc, layout, held, *side, walks, made)?;
    }
    Ok(())
}

// Adds the walks from the ports.
fn add_ports(
    alloc: Global,
    layout: &Layout,
    held: &[Option<u32>],
    walks: &mut Vec<Walk>,
    made: &mut u32,
) -> Result<(), Memory>
    requires held { length held.now ≡ length layout.now.sites }
    requires kept { Suits layout.now held.now walks.old.items }
    ensures { Suits layout.now held.now walks.new.items }
{
    for factory in 0..16 {
        add_walk(alloc, layout, held, Side::Port { factory }, walks, made)?;
    }
    Ok(())
}

// Whether the walk of this number is there and goes from this pair of cells.
fn has_walk(walks: &[Walk], number: usize, pair: [Option<u32>; 2]) -> bool {
    match walks.get(number) {
        Some(walk) => is_pair(walk.pair, pair),
        None => false,
    }
}

// The walk from a pair of cells to all cells that it leads to.
fn whole_walk(
    alloc: Global,
    layout: &Layout,
    held: &[Option<u32>],
    pair: [Option<u32>; 2],
) -> Result<Vec<Reached>, Memory>
    ensures { IfOk result (λ queue. KeptFrom layout.now held.now pair queue.items) }
{
    let mut seen = Marks::new(alloc, layout.size())?;
    let mut queue = Vec::new(alloc);
    walk_from(layout, held, &pair, &mut seen, &mut queue)?;
    Ok(queue)
}

// Makes room for the walk of this number.
fn widen(alloc: Global, walks: &mut Vec<Walk>, number: usize) -> Result<(), Memory>
    ensures kept { (g : Grid) (held : List (Option ℕ)) → Suits g held walks.old.items
        → Suits g held walks.new.items }
    ensures room { IfOk result (λ _. number < length walks.new.items) }
{
    'widen: while walks.len() <= number {
        walks.push(Walk {
            pair: [None, None],
            queue: Vec::new(alloc),
        })?;
    }
    Ok(())
}
