//! The least entry on a side.

ghost use Rattle.std.specs.Prelude.{◌≡◌, ℕ, ◌<◌, length, List};
ghost use Rattle.patch_layout.specs.Spread.{OnGoal};
ghost use Rattle.patch_layout.specs.declared.layout.Side.{Side as SideValue};
ghost use Rattle.least_region.specs.inside.Pick.{BetterTo, Better, BetterPort, BestPort, Split, Picked};

use crate::free::{is_offered, ready_of};
use patch_layout::{Layout, Look, Side};

/// A cell at which a region is least, with the region's size and port.
#[derive(Clone, Copy)]
pub(crate) struct Pick {
    pub(crate) port: Option<u32>,
    pub(crate) cell: u32,
    pub(crate) size: u32,
}

// The pick, or one of the cells where a size is less.
fn better_among(places: &[Option<u32>], sizes: &[u32], port: Option<u32>, pick: Pick) -> Pick
    requires { (c : ℕ) → OnGoal places.now c → c < length sizes.now }
    ensures { BetterTo sizes.now places.now (length places.now) port pick result }
{
    let mut best = pick;
    for place in places {
        if let Some(cell) = place {
            let size = sizes[*cell as usize];
            if size < best.size {
                best = Pick {
                    port,
                    cell: *cell,
                    size,
                };
            }
        }
    }
    best
}

// The pick, or a cell on the side where a size is less.
fn better(layout: &Layout, sizes: &[u32], side: Side, port: Option<u32>, pick: Pick) -> Pick
    requires { length sizes.now ≡ length layout.now.sites }
    ensures { Better layout.now sizes.now side port pick result }
{
    let places = layout.side(side);
    better_among(&places, sizes, port, pick)
}

// The pick, or a cell on the factory's port where a size is less, if that is offered.
fn better_port(layout: &Layout, look: &Look, sizes: &[u32], factory: u32, pick: Pick) -> Pick
    requires { length sizes.now ≡ length layout.now.sites }
    ensures { BetterPort layout.now look.now sizes.now factory pick result }
{
    if is_offered(layout, look, factory) {
        better(layout, sizes, Side::Port { factory }, Some(factory), pick)
    } else {
        pick
    }
}

// The pick, or a cell on an offered port where a size is less.
fn best_port(layout: &Layout, look: &Look, sizes: &[u32], pick: Pick) -> Pick
    requires { length sizes.now ≡ length layout.now.sites }
    ensures { BestPort layout.now look.now sizes.now (length look.now.ready) pick result }
{
    let mut best = pick;
    for factory in 0..ready_of(look).len() as u32 {
        best = better_port(layout, look, sizes, factory, best);
    }
    best
}

/// The pick, or a cell with a lesser size on a side that a region must touch beside these.
pub(crate) fn best_pick(
    layout: &Layout,
    look: &Look,
    goal: Option<Side>,
    sizes: &[u32],
    pick: Pick,
) -> Pick
    requires { length sizes.now ≡ length layout.now.sites }
    ensures { (sides : List SideValue) → Split look.now sides goal
        → Picked layout.now look.now sides sizes.now pick result }
{
    match goal {
        Some(side) => better(layout, sizes, side, None, pick),
        None => best_port(layout, look, sizes, pick),
    }
}
