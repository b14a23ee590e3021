//! A router whose plan is old once it claims: another pass claims in between.

ghost use Rattle.std.specs.Prelude.{◌≤◌, ◌≡◌};
ghost use Rattle.patch_base.specs.Outside.{Rose};
ghost use Rattle.grid_lock.specs.Passes.{IsPassOf};

use crate::attempts::first_wrong;
use crate::jobs::pair;
use crate::site::{Site, plan_for, shared, site_for, take_first};
use board_core::{ClaimWhy, Noted};
use grid_lock::{Grid, Pass};
use node_log::Node;
use patch_base::Memory;
use patch_layout::Plan;
use router_work::{Attempt, Gate, Onward, Point, Router};
use std::alloc::Global;
use std::marker::Model;
use std::test::Fail;

/// A gate at which another pass makes one claim, as soon as the router's plan is made.
#[derive(Drop)]
struct Rival<'a> {
    grid: &'a Grid,
    pass: Pass,
    claim: Option<(Plan, Node<Noted>)>,
}

impl<'a> Model for Rival<'a> {
    ghost use Rattle.grid_lock.specs.Passes.{Known, IsPassOf};

    ghost Value = { Known };

    ghost view = { λ r. r.pass };

    ghost invariant = { λ r. IsPassOf r.grid.now r.pass };
}

impl<'a> Rival<'a> {
    // Makes the claim, if it isn't made yet.
    fn go_first(&mut self) {
        if let Some((plan, node)) = self.claim.take() {
            let _ = self.grid.try_claim(&mut self.pass, plan, node);
        }
    }
}

impl<'a> Gate for Rival<'a> {
    ghost stops = { λ _. 0 };

    fn at(&mut self, point: Point) -> Onward
        ensures counts { 0 ≤ 0 }
        ensures stopped { result ≡ Onward.Stop → Rose 0 0 }
        ensures goes { result ≡ Onward.Go }
    {
        if let Point::Planned { .. } = point {
            self.go_first();
        }
        Onward::Go
    }
}

// A rival that claims product 0 by this cell.
fn rival_for<'a>(alloc: Global, site: &'a Site, pass: Pass, cell: u32) -> Result<Rival<'a>, Memory>
    requires { IsPassOf site.now.grid pass }
{
    let plan = plan_for(alloc, &site.layout, 0, b"+ZI", &[cell])?;
    let node = Node::empty(alloc)?;
    Ok(Rival {
        grid: &site.grid,
        pass,
        claim: Some((plan, node)),
    })
}

// The first row with another answer than the router's, where a rival claims product 0 by this cell during the first try.
fn play(alloc: Global, cell: u32, rows: &[(u32, Attempt)]) -> Result<Option<usize>, Fail> {
    let (site, mut first, look) = site_for(alloc, &pair())?;
    let other = site.grid.split(&mut first)?;
    let pass = site.grid.split(&mut first)?;
    let gate = rival_for(alloc, &site, other, cell)?;
    let (share, mut hand, _) = shared(alloc, &site.outcomes)?;
    take_first(&share, &mut hand, 2)?;
    let mut router = Router::new(
        alloc,
        &site.grid,
        &site.layout,
        pass,
        hand,
        &share,
        &site.outcomes,
        look,
        gate,
    );
    Ok(first_wrong(&mut router, 2, rows))
}

static HELD: [(u32, Attempt); 2] = [
    (
        1,
        Attempt::Refused {
            why: ClaimWhy::Held { cell: 7, by: 0 },
        },
    ),
    (1, Attempt::Claimed { place: 1 }),
];

// Product 1 was planned by cell 7, which product 0 holds by then. The next plan is by cell 9.
#[test]
fn a_planned_cell_is_held(rt: HostRuntime) -> Result<(), Fail> {
    assert_eq!(rt; play(rt.alloc(), 7, &HELD)?, None);
    Ok(())
}

static TAKEN: [(u32, Attempt); 2] = [
    (
        0,
        Attempt::Refused {
            why: ClaimWhy::Taken { place: 0 },
        },
    ),
    (0, Attempt::Taken { place: 0 }),
];

// The product itself was claimed in between.
#[test]
fn a_planned_product_is_taken(rt: HostRuntime) -> Result<(), Fail> {
    assert_eq!(rt; play(rt.alloc(), 7, &TAKEN)?, None);
    Ok(())
}
