//! The calls that are made again while the turn is held, in one thread.

ghost use Rattle.board_core.specs.Shows.{IsMadeFor};
ghost use Rattle.grid_lock.specs.Passes.{IsPassOf};

use crate::jobs::pair;
use crate::site::{Site, plan_for, site_for};
use board_core::{Claimed, Noted};
use grid_lock::{Pass, TryLook};
use node_log::Node;
use patch_layout::{Look, Plan};
use router_work::{claim, deliver, look, release};
use source_model::Given;
use std::process::Abort;
use std::test::Fail;

// A look at product 0, and none at a product that isn't there.
fn look_twice(rt: &impl Abort, site: &Site, pass: &mut Pass, shown: &mut Look)
    requires grid { IsPassOf site.now.grid pass.old }
    requires made { IsMadeFor site.now.grid.opened shown.old }
    ensures grid { IsPassOf site.now.grid pass.new }
{
    let seen = look(&site.grid, pass, 0, shown);
    assert_eq!(rt; seen, Ok(()));
    assert_eq!(rt; (shown.product, shown.length, shown.taken), (0, 0, None));
    let none = look(&site.grid, pass, 2, shown);
    assert_eq!(rt; none, Err(TryLook::NoProduct));
}

// The product is claimed, delivered and released.
fn carry_out(
    rt: &impl Abort,
    site: &Site,
    pass: &mut Pass,
    plan: Plan,
    nodes: (Node<Noted>, Node<Noted>, Node<Noted>),
)
    requires { IsPassOf site.now.grid pass.old }
{
    let claimed = claim(&site.grid, pass, plan, nodes.0);
    let state = None;
    assert_eq!(rt; claimed.ok(), Some(Claimed { place: 0, state }));
    let given = Given::Measure { raw: false };
    let delivered = deliver(&site.grid, pass, 0, given, nodes.1);
    assert_eq!(rt; delivered.ok(), Some(1));
    let released = release(&site.grid, pass, 0, nodes.2);
    assert_eq!(rt; released.ok(), Some(2));
}

#[test]
fn each_call_answers(rt: HostRuntime) -> Result<(), Fail> {
    let alloc = rt.alloc();
    let (site, mut pass, mut shown) = site_for(alloc, &pair())?;
    look_twice(&rt, &site, &mut pass, &mut shown);
    let plan = plan_for(alloc, &site.layout, 0, b"+ZI", &[7])?;
    let nodes = (
        Node::empty(alloc)?,
        Node::empty(alloc)?,
        Node::empty(alloc)?,
    );
    carry_out(&rt, &site, &mut pass, plan, nodes);
    Ok(())
}
