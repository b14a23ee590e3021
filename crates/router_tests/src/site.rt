//! Grids over new boards, and what their routers are made of.

ghost use Rattle.std.specs.Prelude.{◌≡◌, ◌≤◌, [], length, IfOk};
ghost use Rattle.board_core.specs.Laws.{ProductsOfLength};
ghost use Rattle.board_core.specs.Shows.{IsMadeFor};
ghost use Rattle.grid_lock.specs.Passes.{IsPassOf};
ghost use Rattle.number_share.specs.Hands as shares;
ghost use Rattle.router_tests.specs.inside.Sites.{HoldsBelow, IsFirst, IsSite};

use crate::board::{board_for, outcomes_for};
use crate::jobs::Job;
use board_core::Board;
use grid_lock::{Grid, Pass};
use node_log::Node;
use number_share::{Hand, Share};
use outcome_table::Outcomes;
use patch_base::Memory;
use patch_layout::{CellList, Layout, Look, Plan, certify};
use pauli_product::Product;
use router_work::{Maker, MakerEnd};
use std::alloc::Global;
use std::test::Fail;

/// A grid over a new board, its layout, and the outcomes of its products.
#[derive(Drop)]
pub(crate) struct Site {
    pub(crate) grid: Grid,
    pub(crate) layout: Layout,
    pub(crate) outcomes: Outcomes,
}

// A grid over an empty board, and its pass 0.
fn open(alloc: Global, board: Board) -> Result<(Grid, Pass), Memory>
    requires { board.history ≡ [] }
    ensures opened { IfOk result (λ r. r.0.opened ≡ board) }
    ensures first { IfOk result (λ r. IsFirst r.0 r.1) }
{
    match Grid::open(alloc, board) {
        Ok(opened) => Ok(opened),
        Err(_) => Err(Memory),
    }
}

// A look for a board's routers.
fn look_for(alloc: Global, board: &Board, qubits: u32) -> Result<Look, Memory>
    requires axes { ProductsOfLength qubits board.now.job.products }
    requires few { qubits ≤ 1024 }
    ensures { IfOk result (IsMadeFor board.now) }
{
    Look::new(alloc, board.layout(), qubits)
}

/// A site for a job, with pass 0 and a look.
pub(crate) fn site_for(alloc: Global, job: &Job) -> Result<(Site, Pass, Look), Memory>
    ensures site { IfOk result (λ r. IsSite r.0.grid r.0.layout r.0.outcomes.given) }
    ensures first { IfOk result (λ r. IsFirst r.0.grid r.1) }
    ensures look { IfOk result (λ r. IsMadeFor r.0.grid.opened r.2) }
{
    let board = board_for(alloc, job)?;
    let outcomes = outcomes_for(alloc, &board, job)?;
    let layout = board.layout().copy(alloc)?;
    let look = look_for(alloc, &board, job.qubits)?;
    let (grid, first) = open(alloc, board)?;
    let site = Site {
        grid,
        layout,
        outcomes,
    };
    Ok((site, first, look))
}

/// The numbers of the products, shared by two hands.
pub(crate) fn shared(alloc: Global, outcomes: &Outcomes) -> Result<(Share, Hand, Hand), Fail>
    ensures owners { IfOk result (λ r. r.0.owners ≡ 2) }
    ensures numbers { IfOk result (λ r. r.0.numbers ≤ length outcomes.now.given) }
    ensures hands { IfOk result (λ r. shares.IsHandOf r.0 r.1 × shares.IsHandOf r.0 r.2) }
{
    let numbers = outcomes.given.as_slice().len();
    if numbers > 16 {
        return Err("few products".into());
    }
    let (share, mut hands) = Share::new(alloc, numbers as u32, 2)?;
    let second = hands.pop().ok_or("a hand")?;
    let first = hands.pop().ok_or("a hand")?;
    Ok((share, first, second))
}

/// A hand takes the first numbers.
pub(crate) fn take_first(share: &Share, hand: &mut Hand, count: u32) -> Result<(), Fail>
    requires { shares.IsHandOf share.now hand.old }
    ensures share { shares.IsHandOf share.now hand.new }
    ensures taken { IfOk result (λ _. HoldsBelow share.now hand.new count) }
{
    for number in 0..count {
        let Some(taken) = hand.take(share) else {
            return Err("a number".into());
        };
        if taken != number {
            return Err("another number".into());
        }
    }
    Ok(())
}

/// What is left once two hands are handed in.
pub(crate) fn gathered(
    alloc: Global,
    share: Share,
    first: Hand,
    second: Hand,
) -> Result<Vec<u32>, Fail>
    requires owners { share.owners ≡ 2 }
    requires hands { shares.IsHandOf share first × shares.IsHandOf share second }
{
    let mut hands = Vec::with_capacity(alloc, 2)?;
    hands.push(first)?;
    hands.push(second)?;
    Ok(share.gather(alloc, hands)?)
}

/// A plan of a measurement, made by hand.
pub(crate) fn plan_for(
    alloc: Global,
    layout: &Layout,
    p: u32,
    axis: &[u8],
    cells: &[u32],
) -> Result<Plan, Memory> {
    let Some(axis) = Product::parse(alloc, axis)? else {
        return Err(Memory);
    };
    let cells = CellList::of(Vec::from_slice(alloc, cells)?);
    certify(alloc, layout, p, axis, None, cells)
}

/// What was done on a board before a router comes to it.
#[derive(Clone, Copy)]
pub(crate) enum Before {
    Nothing,
    /// A maker filled this factory.
    Filled(u32),
    /// A measurement was claimed: its number, the text of its axis, and its cells.
    Claimed(u32, &'static [u8], &'static [u32]),
}

// Claims a measurement.
fn claim(
    alloc: Global,
    site: &Site,
    mut pass: Pass,
    p: u32,
    axis: &[u8],
    cells: &[u32],
) -> Result<(), Fail>
    requires { IsPassOf site.now.grid pass }
{
    let plan = plan_for(alloc, &site.layout, p, axis, cells)?;
    match site.grid.try_claim(&mut pass, plan, Node::empty(alloc)?) {
        Ok(_) => Ok(()),
        Err(_) => Err("a claim".into()),
    }
}

/// How a maker of a factory ends, and how many entries there are then.
pub(crate) fn filled(
    alloc: Global,
    site: &Site,
    pass: Pass,
    factory: u32,
) -> Result<(MakerEnd, u32), Fail>
    requires site { IsSite site.now.grid site.now.layout site.now.outcomes.given }
    requires pass { IsPassOf site.now.grid pass }
{
    let Some(_) = site.layout.store(factory) else {
        return Err("a factory".into());
    };
    let mut maker = Maker::new(alloc, &site.grid, pass, factory);
    let end = maker.work();
    let mut pass = maker.into_pass();
    Ok((end, site.grid.length(&mut pass)))
}

/// Does what is done before a router comes.
pub(crate) fn prepare(alloc: Global, site: &Site, pass: Pass, before: Before) -> Result<(), Fail>
    requires site { IsSite site.now.grid site.now.layout site.now.outcomes.given }
    requires pass { IsPassOf site.now.grid pass }
{
    match before {
        Before::Nothing => Ok(()),
        Before::Filled(factory) => match filled(alloc, site, pass, factory)?.0 {
            MakerEnd::Stocked => Ok(()),
            _ => Err("a full factory".into()),
        },
        Before::Claimed(p, axis, cells) => claim(alloc, site, pass, p, axis, cells),
    }
}
