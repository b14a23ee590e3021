//! Routers that don't deliver.

ghost use Rattle.std.specs.Prelude.{◌≡◌, ◌<◌, ◌≤◌, length};
ghost use Rattle.std.specs.List.{Contains};
ghost use Rattle.board_core.specs.Shows.{IsMadeFor};
ghost use Rattle.grid_lock.specs.Passes.{IsPassOf};
ghost use Rattle.number_share.specs.Hands as shares;
ghost use Rattle.router_work.specs.Passing.{Passed};
ghost use Rattle.live_readout.specs.Entries.{IsTaking};
ghost use Rattle.live_readout.specs.inside.Shared.{IsShared};

use crate::calls::{claim_by, is_held_back, length_now, look_at, settle};
use board_core::{ClaimWhy, DeliverWhy};
use crossbeam_utils::Backoff;
use grid_lock::{Grid, Pass, TryClaim, TryDeliver, TryLook};
use node_log::Node;
use number_share::{Hand, Share};
use patch_layout::{Layout, Look, Plan};
use region_plan::{Planned, plan};
use router_work::{Gate, Onward, PATIENCE, Point, outwaits};
use source_model::Kind;
use std::alloc::Global;
use std::marker::Model;

/// How many tries a router makes for each product.
const TRIES: u64 = 64;

/// What all routers of a live run share.
#[derive(Drop)]
pub(crate) struct Shared<'a> {
    pub(crate) alloc: Global,
    pub(crate) grid: &'a Grid,
    pub(crate) layout: &'a Layout,
    pub(crate) share: &'a Share,
    /// The products' kinds.
    pub(crate) kinds: &'a [Kind],
}

/// A worker that takes products' numbers, looks, plans a region outside the turn and claims, and settles what takes no region.
/// It goes on without waiting for outcomes. Contracts see its pass.
#[derive(Drop)]
pub(crate) struct LiveRouter<'a, G: Gate> {
    shared: &'a Shared<'a>,
    pass: Pass,
    hand: Hand,
    look: Look,
    gate: G,
}

impl<'a, G: Gate> Model for LiveRouter<'a, G> {
    ghost use Rattle.grid_lock.specs.Passes.{IsPassOf, Known};
    ghost use Rattle.board_core.specs.Shows.{IsMadeFor};
    ghost use Rattle.number_share.specs.Hands as shares;
    ghost use Rattle.live_readout.specs.inside.Shared.{IsShared};

    ghost Value = { Known };

    ghost view = { λ r. r.pass };

    ghost invariant = { λ r. IsShared r.shared.now × IsPassOf r.shared.now.grid.now r.pass
        × shares.IsHandOf r.shared.now.share.now r.hand
        × IsMadeFor r.shared.now.grid.now.opened r.look };
}

// What came of a try: whether the product is begun by then, and whether the router ends.
#[derive(Clone, Copy)]
struct Tried {
    begun: bool,
    ends: bool,
}

impl<'a, G: Gate> LiveRouter<'a, G> {
    /// A router with a pass of the grid and a hand of the share. The look was made for the grid's board.
    pub(crate) fn new(
        shared: &'a Shared<'a>,
        pass: Pass,
        hand: Hand,
        look: Look,
        gate: G,
    ) -> LiveRouter<'a, G>
        requires shared { IsShared shared.now }
        requires pass { IsPassOf shared.now.grid.now pass }
        requires hand { shares.IsHandOf shared.now.share.now hand }
        requires look { IsMadeFor shared.now.grid.now.opened look }
        ensures { result ≡ pass }
    {
        LiveRouter {
            shared,
            pass,
            hand,
            look,
            gate,
        }
    }

    /// The pass.
    pub(crate) fn into_pass(self) -> Pass
        ensures { result ≡ self.entry }
    {
        self.pass
    }

    /// Takes numbers and makes a try for each, until there is none left, or its gate, the tries, the turn or the memory end
    /// it. A number whose product isn't begun is put back.
    pub(crate) fn work(&mut self)
        ensures { Passed IsTaking self.old self.new }
    {
        take_numbers(
            self.shared,
            &mut self.pass,
            &mut self.hand,
            &mut self.look,
            &mut self.gate,
        );
    }
}

// Takes numbers and makes a try for each.
fn take_numbers<G: Gate>(
    shared: &Shared<'_>,
    pass: &mut Pass,
    hand: &mut Hand,
    look: &mut Look,
    gate: &mut G,
)
    requires shared { IsShared shared.now }
    requires pass { IsPassOf shared.now.grid.now pass.old }
    requires hand { shares.IsHandOf shared.now.share.now hand.old }
    requires look { IsMadeFor shared.now.grid.now.opened look.old }
    ensures passed { Passed IsTaking pass.old pass.new }
    ensures hand { shares.IsHandOf shared.now.share.now hand.new }
    ensures look { IsMadeFor shared.now.grid.now.opened look.new }
{
    let _ = pass.number();
    let mut patience = PATIENCE;
    let backoff = Backoff::new();
    for _try in 0..tries(shared.kinds) {
        let Some(number) = hand.take(shared.share) else {
            return;
        };
        let tried = try_number(shared, pass, look, gate, number, &mut patience);
        put_unless(hand, number, tried.begun);
        if tried.ends {
            return;
        }
        pause(&backoff, tried.begun);
    }
}

// Puts a number back whose product isn't begun.
fn put_unless(hand: &mut Hand, number: u32, begun: bool)
    requires held { Contains hand.old.held number }
    ensures share { hand.new.share ≡ hand.old.share }
    ensures numbers { hand.new.numbers ≡ hand.old.numbers }
{
    if !begun {
        hand.put(number);
    }
}

// How many tries are enough.
fn tries(kinds: &[Kind]) -> u64 {
    TRIES.saturating_mul(kinds.len() as u64)
}

// After a try that began nothing the router waits a little, longer and longer.
fn pause(backoff: &Backoff, begun: bool) {
    if begun {
        backoff.reset();
    } else {
        backoff.snooze();
    }
}

// Tries to begin a product, unless the gate says Stop.
fn try_number<G: Gate>(
    shared: &Shared<'_>,
    pass: &mut Pass,
    look: &mut Look,
    gate: &mut G,
    number: u32,
    patience: &mut u32,
) -> Tried
    requires shared { IsShared shared.now }
    requires pass { IsPassOf shared.now.grid.now pass.old }
    requires look { IsMadeFor shared.now.grid.now.opened look.old }
    requires below { number < length shared.now.kinds.now }
    ensures passed { Passed IsTaking pass.old pass.new }
    ensures look { IsMadeFor shared.now.grid.now.opened look.new }
{
    let _ = pass.number();
    if says_stop(gate, Point::Took { product: number }) {
        return Tried {
            begun: false,
            ends: true,
        };
    }
    try_in_place(shared, pass, look, gate, number, patience)
}

// Tries to begin a product, again whenever the history has grown, as long as the patience lasts.
fn try_in_place<G: Gate>(
    shared: &Shared<'_>,
    pass: &mut Pass,
    look: &mut Look,
    gate: &mut G,
    number: u32,
    patience: &mut u32,
) -> Tried
    requires shared { IsShared shared.now }
    requires pass { IsPassOf shared.now.grid.now pass.old }
    requires look { IsMadeFor shared.now.grid.now.opened look.old }
    requires below { number < length shared.now.kinds.now }
    ensures passed { Passed IsTaking pass.old pass.new }
    ensures look { IsMadeFor shared.now.grid.now.opened look.new }
{
    let _ = pass.number();
    for _again in 0..u32::MAX {
        let length = length_now(shared.grid, pass);
        let tried = begin(shared, pass, look, gate, number);
        if tried.begun || tried.ends {
            return tried;
        }
        if !outwaits(shared.grid, pass, length, patience) {
            return tried;
        }
    }
    begin(shared, pass, look, gate, number)
}

// One try to begin a product.
fn begin<G: Gate>(
    shared: &Shared<'_>,
    pass: &mut Pass,
    look: &mut Look,
    gate: &mut G,
    number: u32,
) -> Tried
    requires shared { IsShared shared.now }
    requires pass { IsPassOf shared.now.grid.now pass.old }
    requires look { IsMadeFor shared.now.grid.now.opened look.old }
    requires below { number < length shared.now.kinds.now }
    ensures passed { Passed IsTaking pass.old pass.new }
    ensures look { IsMadeFor shared.now.grid.now.opened look.new }
{
    if let Kind::Settle { .. } = shared.kinds[number as usize] {
        return settle_number(shared, pass, gate, number);
    }
    claim_next(shared, pass, look, gate, number)
}

// Claims a product's region, unless the product waits on an earlier one: then it isn't looked at.
fn claim_next<G: Gate>(
    shared: &Shared<'_>,
    pass: &mut Pass,
    look: &mut Look,
    gate: &mut G,
    number: u32,
) -> Tried
    requires shared { IsShared shared.now }
    requires pass { IsPassOf shared.now.grid.now pass.old }
    requires look { IsMadeFor shared.now.grid.now.opened look.old }
    ensures passed { Passed IsTaking pass.old pass.new }
    ensures look { IsMadeFor shared.now.grid.now.opened look.new }
{
    if is_held_back(shared.grid, pass, number) {
        return Tried {
            begun: false,
            ends: false,
        };
    }
    claim_number(shared, pass, look, gate, number)
}

// Settles a settled product.
fn settle_number<G: Gate>(shared: &Shared<'_>, pass: &mut Pass, gate: &mut G, number: u32) -> Tried
    requires pass { IsPassOf shared.now.grid.now pass.old }
    ensures { Passed IsTaking pass.old pass.new }
{
    let _ = pass.number();
    let Ok(node) = Node::empty(shared.alloc) else {
        return Tried {
            begun: false,
            ends: true,
        };
    };
    match settle(shared.grid, pass, number, node) {
        Ok(_) => Tried {
            begun: true,
            ends: says_stop(gate, Point::Delivered { product: number }),
        },
        Err(TryDeliver::Busy { .. }) => Tried {
            begun: false,
            ends: true,
        },
        Err(TryDeliver::Refused(refused)) => Tried {
            begun: !matches!(refused.why, DeliverWhy::Waits { .. }),
            ends: false,
        },
    }
}

// Looks at a product and plans, and claims by the region.
fn claim_number<G: Gate>(
    shared: &Shared<'_>,
    pass: &mut Pass,
    look: &mut Look,
    gate: &mut G,
    number: u32,
) -> Tried
    requires shared { IsShared shared.now }
    requires pass { IsPassOf shared.now.grid.now pass.old }
    requires look { IsMadeFor shared.now.grid.now.opened look.old }
    ensures passed { Passed IsTaking pass.old pass.new }
    ensures look { IsMadeFor shared.now.grid.now.opened look.new }
{
    let planned = match plan_number(shared, pass, look, gate, number) {
        Ok(planned) => planned,
        Err(tried) => return tried,
    };
    match planned {
        Planned::Region(plan) => claim_region(shared, pass, gate, number, plan),
        Planned::Taken { .. } => Tried {
            begun: true,
            ends: false,
        },
        Planned::Memory => Tried {
            begun: false,
            ends: true,
        },
        _ => Tried {
            begun: false,
            ends: false,
        },
    }
}

// Looks at a product and plans a region for it, unless that ends the try.
fn plan_number<G: Gate>(
    shared: &Shared<'_>,
    pass: &mut Pass,
    look: &mut Look,
    gate: &mut G,
    number: u32,
) -> Result<Planned, Tried>
    requires shared { IsShared shared.now }
    requires pass { IsPassOf shared.now.grid.now pass.old }
    requires look { IsMadeFor shared.now.grid.now.opened look.old }
    ensures passed { Passed IsTaking pass.old pass.new }
    ensures look { IsMadeFor shared.now.grid.now.opened look.new }
{
    match look_at(shared.grid, pass, number, look) {
        Ok(()) => {}
        Err(TryLook::Busy) => {
            return Err(Tried {
                begun: false,
                ends: true,
            });
        }
        Err(TryLook::NoProduct) => {
            return Err(Tried {
                begun: true,
                ends: false,
            });
        }
    }
    let looked = Point::Looked {
        product: number,
        length: look.length,
    };
    if says_stop(gate, looked) {
        return Err(Tried {
            begun: false,
            ends: true,
        });
    }
    let planned = plan(shared.alloc, shared.layout, look);
    let told = Point::Planned {
        product: number,
        region: matches!(planned, Planned::Region(_)),
    };
    if says_stop(gate, told) {
        return Err(Tried {
            begun: false,
            ends: true,
        });
    }
    Ok(planned)
}

// Claims by a region.
fn claim_region<G: Gate>(
    shared: &Shared<'_>,
    pass: &mut Pass,
    gate: &mut G,
    number: u32,
    plan: Plan,
) -> Tried
    requires pass { IsPassOf shared.now.grid.now pass.old }
    ensures { Passed IsTaking pass.old pass.new }
{
    let _ = pass.number();
    let Ok(node) = Node::empty(shared.alloc) else {
        return Tried {
            begun: false,
            ends: true,
        };
    };
    match claim_by(shared.grid, pass, plan, node) {
        Ok(_) => Tried {
            begun: true,
            ends: says_stop_to_answer(shared, pass, gate, number, true, false),
        },
        Err(TryClaim::Busy { .. }) => Tried {
            begun: false,
            ends: true,
        },
        Err(TryClaim::Refused(refused)) => {
            let held = matches!(refused.why, ClaimWhy::Held { .. });
            Tried {
                begun: matches!(refused.why, ClaimWhy::Taken { .. }),
                ends: says_stop_to_answer(shared, pass, gate, number, false, held),
            }
        }
    }
}

// Whether the gate says Stop at the board's answer to a claim.
fn says_stop_to_answer<G: Gate>(
    shared: &Shared<'_>,
    pass: &mut Pass,
    gate: &mut G,
    number: u32,
    claimed: bool,
    held: bool,
) -> bool
    requires pass { IsPassOf shared.now.grid.now pass.old }
    ensures { Passed IsTaking pass.old pass.new }
{
    let length = shared.grid.length(pass);
    let answered = Point::Answered {
        product: number,
        claimed,
        held,
        length,
    };
    says_stop(gate, answered)
}

// Whether a gate says Stop at a point.
fn says_stop<G: Gate>(gate: &mut G, point: Point) -> bool {
    matches!(gate.at(point), Onward::Stop)
}
