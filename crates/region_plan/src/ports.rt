//! Regions through ports.

ghost use Rattle.std.specs.Prelude.{◌≡◌, ℕ, ◌<◌, All, None, IfOk, false};
ghost use Rattle.patch_layout.specs.Region.{wanted_sides};
ghost use Rattle.region_plan.specs.Free.{Free, IsOffered};
ghost use Rattle.region_plan.specs.inside.Tree.{cells_in};
ghost use Rattle.region_plan.specs.inside.Ways.{HasTables};
ghost use Rattle.region_plan.specs.inside.Kept.{Suits};
ghost use Rattle.region_plan.specs.inside.Ports.{PortTried, PortJoined, WayAt, BestWay};

use crate::free::{is_offered, ready_of};
use crate::growth::{Region, join, region_at};
use crate::kept::Walks;
use patch_base::Memory;
use patch_layout::{Layout, Look, Side};
use std::alloc::Global;

/// A region, and the factory whose port it goes through.
#[derive(Drop)]
pub(crate) struct Way {
    pub(crate) region: Region,
    pub(crate) factory: u32,
}

// Joins the region to the factory's port, where that is offered and free cells lead there.
fn join_port(
    layout: &Layout,
    look: &Look,
    walks: &Walks,
    region: &mut Region,
    factory: u32,
) -> Result<bool, Memory>
    requires suits { Suits layout.now look.now.held walks.now }
    requires tables { HasTables layout.now region.old }
    requires free { All (Free layout.now look.now.held) (cells_in region.old.tree.tree) }
    ensures { IfOk result (PortTried layout.now look.now factory region.old region.new) }
{
    if !is_offered(layout, look, factory) {
        return Ok(false);
    }
    let side = Side::Port { factory };
    match join(
        layout,
        look.held.as_slice(),
        walks,
        &mut region.tree,
        side,
        &mut region.seen,
        &mut region.queue,
    )? {
        Some(place) => {
            region.touched.push(place)?;
            Ok(true)
        }
        None => Ok(false),
    }
}

// Joins the region to the least offered port below this factory number to which free cells lead.
fn join_least_port(
    layout: &Layout,
    look: &Look,
    walks: &Walks,
    region: &mut Region,
    below: u32,
) -> Result<Option<u32>, Memory>
    requires suits { Suits layout.now look.now.held walks.now }
    requires tables { HasTables layout.now region.old }
    requires free { All (Free layout.now look.now.held) (cells_in region.old.tree.tree) }
    ensures { IfOk result (PortJoined layout.now look.now below region.old region.new) }
{
    for factory in 0..below {
        if join_port(layout, look, walks, region, factory)? {
            return Ok(Some(factory));
        }
    }
    Ok(None)
}

// Whether a port below this factory number is offered.
fn is_any_offered(layout: &Layout, look: &Look, below: u32) -> bool
    ensures { result ≡ false → (f : ℕ) → f < below → IsOffered layout.now look.now f → ⊥ }
{
    for factory in 0..below {
        if is_offered(layout, look, factory) {
            return true;
        }
    }
    false
}

// The region that grows from this cell over the sides of the patches, and then through the least offered port below this factory number that it reaches.
fn way_at(
    alloc: Global,
    layout: &Layout,
    look: &Look,
    walks: &Walks,
    cell: Option<u32>,
    sides: &[Side],
    below: u32,
) -> Result<Option<Way>, Memory>
    requires sides { sides.now ≡ wanted_sides look.now.axis None }
    requires suits { Suits layout.now look.now.held walks.now }
    ensures { IfOk result (WayAt layout.now look.now cell below) }
{
    if !is_any_offered(layout, look, below) {
        return Ok(None);
    }
    let Some(mut region) = region_at(alloc, layout, look.held.as_slice(), walks, cell, sides)?
    else {
        return Ok(None);
    };
    match join_least_port(layout, look, walks, &mut region, below)? {
        Some(factory) => Ok(Some(Way { region, factory })),
        None => Ok(None),
    }
}

/// The region through the least offered port that serves, from the least cell on this side that serves.
pub(crate) fn best_way(
    alloc: Global,
    layout: &Layout,
    look: &Look,
    walks: &Walks,
    side: Side,
    sides: &[Side],
) -> Result<Option<Way>, Memory>
    requires sides { sides.now ≡ wanted_sides look.now.axis None }
    requires suits { Suits layout.now look.now.held walks.now }
    ensures { IfOk result (BestWay layout.now look.now side) }
{
    let [first, second] = layout.side(side);
    let count = ready_of(look).len() as u32;
    match way_at(alloc, layout, look, walks, first, sides, count)? {
        Some(way) => match way_at(alloc, layout, look, walks, second, sides, way.factory)? {
            Some(lesser) => Ok(Some(lesser)),
            None => Ok(Some(way)),
        },
        None => {
            let other = way_at(alloc, layout, look, walks, second, sides, count)?;
            Ok(other)
        }
    }
}
