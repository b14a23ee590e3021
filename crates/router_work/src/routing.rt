//! A board that routers and makers bring forward.

ghost use Rattle.std.specs.Prelude.{◌≡◌, ℕ, ◌<◌, ◌≤◌, All, length, IfOk, IfErr, MatchResult};
ghost use Rattle.source_model.specs.Statics.{AreOutcomesOf};
ghost use Rattle.board_core.specs.declared.Noted.{Noted as Entries};
ghost use Rattle.board_core.specs.Laws.{ProductsOfLength};
ghost use Rattle.board_core.specs.Position.{IsLegal};
ghost use Rattle.patch_layout.specs.Grid.{HasStore};
ghost use Rattle.grid_lock.specs.Passes.{IsPassOf, Closes};
ghost use Rattle.router_work.specs.Routes.{Routes};
ghost use Rattle.router_work.specs.inside.Workers.{HasSplit, IsBack, IsFirst, IsLookOf};

use crate::crew::{bring_back, hire_makers, hire_routers};
use crate::gate::Gate;
use board_core::Board;
use grid_lock::{Grid, OpenMemory, Pass};
use number_share::Share;
use outcome_table::Outcomes;
use patch_base::{FACTORIES, Memory, ROUTERS};
use patch_layout::{Layout, Look};
use std::alloc::Global;
use std::thread::Threads;

/// Out of memory.
#[derive(Drop)]
pub struct RouteMemory {
    /// The board, with what was done so far. Its history is legal and continues that of the board that was handed in.
    pub board: Board,
}

/// Brings a board forward by k routers and one maker for each factory of the layout, each on a thread of its own, until each
/// of them ends. Gate i, counted from 1, is asked by router i. Routers have the numbers 1 to k and the makers the next ones.
/// Where no thread can be made the workers run one after another.
///
/// There is an outcome of its kind for each product, and each entry of the history has the number 0. Whatever the workers
/// leave undone, `finish` completes.
///
/// # Errors
///
/// `RouteMemory` out of memory.
pub fn route_all<R: Threads + Sync, G: Gate>(
    rt: &R,
    alloc: Global,
    board: Board,
    outcomes: &Outcomes,
    k: u32,
    gates: Vec<G>,
) -> Result<Board, RouteMemory>
    requires workers { (0 < k) × (k ≤ ROUTERS) }
    requires gates { length gates.items ≡ k }
    requires numbers { All (λ (n : Entries). n.by ≡ 0) board.history }
    requires outcomes { AreOutcomesOf outcomes.now.given board.job.products }
    ensures routed { MatchResult result (Routes outcomes.now.given k board)
        (λ r. Routes outcomes.now.given k board r.board) }
{
    let qubits = qubits_of(&board);
    let Ok(layout) = board.layout().copy(alloc) else {
        return Err(RouteMemory { board });
    };
    let (grid, mut first) = match Grid::open(alloc, board) {
        Ok(opened) => opened,
        Err(OpenMemory { board }) => return Err(RouteMemory { board }),
    };
    match bring(
        rt, alloc, &grid, &mut first, &layout, qubits, outcomes, gates,
    ) {
        Ok(others) => Ok(close(grid, first, others)),
        Err(_) => Err(RouteMemory {
            board: close(grid, first, Vec::new(alloc)),
        }),
    }
}

// The number of qubits of a board's products.
fn qubits_of(board: &Board) -> u32
    ensures each { ProductsOfLength result board.now.job.products }
    ensures few { result ≤ 1024 }
    ensures legal { IsLegal board.now }
{
    let _ = board.history();
    match board.products().first() {
        Some(product) => product.axis.len(),
        None => 0,
    }
}

// The board at the end.
fn close(grid: Grid, first: Pass, others: Vec<Pass>) -> Board
    requires grid { IsPassOf grid first }
    requires first { first.view.number ≡ 0 }
    requires others { All (IsPassOf grid) others.items }
    requires all { length others.items ≡ first.view.made }
    ensures { Closes grid first others.items result }
{
    match grid.close(first, others) {
        Ok(board) => board,
        Err(_) => unreachable!(),
    }
}

// The workers' passes, once all of them have ended. Memory is taken before the first pass is split off, so that none is lost.
fn bring<R: Threads + Sync, G: Gate>(
    rt: &R,
    alloc: Global,
    grid: &Grid,
    first: &mut Pass,
    layout: &Layout,
    qubits: u32,
    outcomes: &Outcomes,
    gates: Vec<G>,
) -> Result<Vec<Pass>, Memory>
    requires first { IsFirst grid.now 0 first.old }
    requires legal { IsLegal grid.now.opened }
    requires layout { layout.now ≡ grid.now.opened.job.grid }
    requires qubits { ProductsOfLength qubits grid.now.opened.job.products }
    requires few { qubits ≤ 1024 }
    requires outcomes { AreOutcomesOf outcomes.now.given grid.now.opened.job.products }
    requires gates { (0 < length gates.items) × (length gates.items ≤ ROUTERS) }
    ensures back { IfOk result
        (λ v. All (IsBack grid.now outcomes.now.given (length gates.items)) v.items) }
    ensures all { IfOk result (λ v. HasSplit first.old (length v.items) first.new) }
    ensures none { IfErr result (λ _. first.new ≡ first.old) }
{
    let routers = gates.len();
    let numbers = outcomes.given.as_slice().len() as u32;
    let (share, hands) = Share::new(alloc, numbers, routers as u32)?;
    let looks = looks(alloc, layout, qubits, routers)?;
    let factories = factories(alloc, layout)?;
    let workers = Vec::with_capacity(alloc, routers + factories.len())?;
    let passes = Vec::with_capacity(alloc, routers + factories.len())?;
    let workers = hire_routers(
        alloc, grid, first, layout, &share, outcomes, hands, looks, gates, workers,
    );
    let workers = hire_makers(alloc, grid, first, factories, workers);
    Ok(bring_back(rt, workers, passes))
}

// A look for each router.
fn looks(alloc: Global, layout: &Layout, qubits: u32, count: usize) -> Result<Vec<Look>, Memory>
    requires { qubits ≤ 1024 }
    ensures made { IfOk result (λ v. All (IsLookOf layout.now qubits) v.items) }
    ensures count { IfOk result (λ v. length v.items ≡ count) }
{
    let mut looks = Vec::with_capacity(alloc, count)?;
    for _ in 0..count {
        looks.push_reserved(Look::new(alloc, layout, qubits)?);
    }
    Ok(looks)
}

// The layout's factories, in ascending order.
fn factories(alloc: Global, layout: &Layout) -> Result<Vec<u32>, Memory>
    ensures stores { IfOk result (λ v. All (λ f. (s : ℕ) × HasStore layout.now f s) v.items) }
    ensures few { IfOk result (λ v. length v.items ≤ FACTORIES) }
{
    let mut factories = Vec::new(alloc);
    for factory in 0..FACTORIES {
        let Some(_) = layout.store(factory) else {
            continue;
        };
        factories.push(factory)?;
    }
    Ok(factories)
}
