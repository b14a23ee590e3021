//! A board that routers, makers and a deliverer bring forward.

ghost use Rattle.std.specs.Prelude.{◌≡◌, ℕ, ◌+◌, ◌<◌, ◌≤◌, ◌^◌, [], ◌∷◌, ◌++◌, List, All, length, filter, map, vec_capacity, IfOk, IfErr, IsOk, MatchResult};
ghost use Rattle.source_model.specs.Statics.{kinds_of};
ghost use Rattle.board_core.specs.declared.Noted.{Noted as Entries};
ghost use Rattle.board_core.specs.Laws.{ProductsOfLength};
ghost use Rattle.board_core.specs.Position.{IsLegal};
ghost use Rattle.grid_lock.specs.Passes.{IsPassOf, Closes};
ghost use Rattle.router_work.specs.inside.Workers.{HasSplit, IsFirst, IsLookOf};
ghost use Rattle.arrival_line.specs.Strays.{Serves, strays_of};
ghost use Rattle.live_readout.specs.Routes.{RoutesLive, factories_of, has_factory};
ghost use Rattle.live_readout.specs.Wanted.{wanted_of};
ghost use Rattle.live_readout.specs.inside.Workers.{AreBack, AreWorked, IsLast, pass_of};

use crate::crew::{bring_back, hire_makers, hire_routers, next_pass};
use crate::deliverer::Deliverer;
use crate::router::Shared;
use crate::wanted::{kinds_of, wanted_of};
use crate::worker::Worker;
use arrival_line::{Arrival, Line, Readout, Relayed, Taken, relay};
use board_core::Board;
use grid_lock::{Grid, OpenMemory, Pass};
use number_share::Share;
use patch_base::{FACTORIES, Memory, ROUTERS};
use patch_layout::{Layout, Look};
use router_work::Gate;
use source_model::Kind;
use std::alloc::{AllocError, Global};
use std::sync::Wait;
use std::thread::Threads;

/// Arrivals, oldest first.
pub type Arrivals = patch_base::Listed<Arrival>;

/// Places in a list of arrivals, ascending.
pub type Strays = patch_base::Listed<u32>;

/// What a live run leaves.
#[derive(Drop)]
pub struct Live {
    /// The board, whose history continues that of the board that was handed in.
    pub board: Board,
    /// All arrivals of the readout.
    pub taken: Arrivals,
    /// The places in `taken` of the strays.
    pub strays: Strays,
}

/// Out of memory.
#[derive(Drop)]
pub struct LiveMemory {
    /// The board, with what was done so far. Its history is legal and continues that of the board that was handed in.
    pub board: Board,
}

/// Brings a board forward by k routers and one maker for each factory of the layout, while outcomes arrive: a feeder takes them
/// off the readout, and a deliverer delivers each one once its product is claimed, and releases the product. Routers claim
/// and settle, and go on without delivering. Gate i, counted from 1, is asked by router i. Routers have the numbers 1 to k,
/// the makers the next ones, and the deliverer the one after these.
///
/// The strays are the arrivals that serve nothing: of no product of the board, not of its kind, of a product that is done in
/// the board that was handed in, or with an earlier arrival that is no stray.
///
/// Each entry of the history has the number 0. Whatever is left undone, `finish` completes. That the call returns isn't
/// promised: it waits for the readout.
///
/// # Errors
///
/// `LiveMemory` out of memory.
pub fn route_live<T: Threads + Wait + Sync, R: Readout, G: Gate>(
    rt: &T,
    alloc: Global,
    board: Board,
    readout: R,
    k: u32,
    gates: Vec<G>,
) -> Result<Live, LiveMemory>
    requires workers { (0 < k) × (k ≤ ROUTERS) }
    requires gates { length gates.items ≡ k }
    requires numbers { All (λ (n : Entries). n.by ≡ 0) board.history }
    requires few { length (R.left readout) < 2 ^ 32 }
    ensures taken { IfOk result (λ live. live.taken ≡ R.left readout) }
    ensures strays { IfOk result (λ live. live.strays
        ≡ strays_of (wanted_of board) (R.left readout)) }
    ensures routed { MatchResult result
        (λ live. RoutesLive (R.left readout) k board live.board)
        (λ m. RoutesLive (R.left readout) k board m.board) }
{
    let qubits = qubits_of(&board);
    let Ok(plans) = read_off(alloc, &board) else {
        return Err(LiveMemory { board });
    };
    let (grid, mut first) = match Grid::open(alloc, board) {
        Ok(opened) => opened,
        Err(OpenMemory { board }) => return Err(LiveMemory { board }),
    };
    match bring(rt, alloc, &grid, &mut first, plans, qubits, readout, gates) {
        Ok(brought) => {
            let board = close(grid, first, brought.passes);
            live_of(board, brought.taken)
        }
        Err(_) => Err(LiveMemory {
            board: close(grid, first, Vec::new(alloc)),
        }),
    }
}

// The answer.
fn live_of(board: Board, taken: Result<Taken, AllocError>) -> Result<Live, LiveMemory>
    ensures taken { IfOk result (λ live. IfOk taken (λ t. live.taken ≡ t.arrivals.items)) }
    ensures strays { IfOk result (λ live. IfOk taken (λ t. live.strays ≡ t.strays.items)) }
    ensures board { MatchResult result (λ live. live.board ≡ board) (λ m. m.board ≡ board) }
    ensures both { IfOk result (λ _. IsOk taken) }
{
    match taken {
        Ok(taken) => Ok(Live {
            board,
            taken: Arrivals::of(taken.arrivals),
            strays: Strays::of(taken.strays),
        }),
        Err(_) => Err(LiveMemory { board }),
    }
}

// What is read off a board before threads share it.
#[derive(Drop)]
struct Plans {
    layout: Layout,
    kinds: Vec<Kind>,
    wanted: Vec<Option<Kind>>,
}

fn read_off(alloc: Global, board: &Board) -> Result<Plans, Memory>
    ensures layout { IfOk result (λ p. p.layout ≡ board.now.job.grid) }
    ensures kinds { IfOk result (λ p. p.kinds.items ≡ kinds_of board.now.job.products) }
    ensures wanted { IfOk result (λ p. p.wanted.items ≡ wanted_of board.now) }
{
    let layout = board.layout().copy(alloc)?;
    let kinds = kinds_of(alloc, board)?;
    let wanted = wanted_of(alloc, board)?;
    Ok(Plans {
        layout,
        kinds,
        wanted,
    })
}

// The number of qubits of a board's products.
fn qubits_of(board: &Board) -> u32
    ensures each { ProductsOfLength result board.now.job.products }
    ensures few { result ≤ 1024 }
    ensures legal { IsLegal board.now }
{
    let _ = board.history();
    match board.products().first() {
        Some(product) => product.axis.len(),
        None => 0,
    }
}

// The board at the end.
fn close(grid: Grid, first: Pass, others: Vec<Pass>) -> Board
    requires grid { IsPassOf grid first }
    requires first { first.view.number ≡ 0 }
    requires others { All (IsPassOf grid) others.items }
    requires all { length others.items ≡ first.view.made }
    ensures { Closes grid first others.items result }
{
    match grid.close(first, others) {
        Ok(board) => board,
        Err(_) => unreachable!(),
    }
}

// The passes at the end, and what was taken of the readout.
#[derive(Drop)]
struct Brought {
    passes: Vec<Pass>,
    taken: Result<Taken, AllocError>,
}

// The passes, once all have ended. Memory is taken before the first pass is split off, so that none is lost.
fn bring<T: Threads + Wait + Sync, R: Readout, G: Gate>(
    rt: &T,
    alloc: Global,
    grid: &Grid,
    first: &mut Pass,
    plans: Plans,
    qubits: u32,
    readout: R,
    gates: Vec<G>,
) -> Result<Brought, Memory>
    requires first { IsFirst grid.now 0 first.old }
    requires legal { IsLegal grid.now.opened }
    requires layout { plans.layout ≡ grid.now.opened.job.grid }
    requires kinds { plans.kinds.items ≡ kinds_of grid.now.opened.job.products }
    requires qubits { ProductsOfLength qubits grid.now.opened.job.products }
    requires few_qubits { qubits ≤ 1024 }
    requires gates { (0 < length gates.items) × (length gates.items ≤ ROUTERS) }
    requires few { length (R.left readout) < 2 ^ 32 }
    ensures back { let Fits = Serves plans.wanted.items (R.left readout) in
        IfOk result (λ b. AreBack grid.now Fits (length gates.items) b.passes.items) }
    ensures all { IfOk result (λ b. HasSplit first.old (length b.passes.items) first.new) }
    ensures taken { IfOk result (λ b. IfOk b.taken (λ t. t.arrivals.items ≡ R.left readout)) }
    ensures strays { IfOk result (λ b. IfOk b.taken
        (λ t. t.strays.items ≡ strays_of plans.wanted.items (R.left readout))) }
    ensures none { IfErr result (λ _. first.new ≡ first.old) }
{
    let Plans {
        layout,
        kinds,
        wanted,
    } = plans;
    let routers = gates.len();
    let (share, hands) = Share::new(alloc, kinds.len() as u32, routers as u32)?;
    let looks = looks(alloc, &layout, qubits, routers)?;
    let factories = factories(alloc, &layout)?;
    let workers = Vec::with_capacity(alloc, routers + factories.len())?;
    let passes = Vec::with_capacity(alloc, routers + factories.len() + 1)?;
    let line = Line::new(alloc, wanted)?;
    let shared = Shared {
        alloc,
        grid,
        layout: &layout,
        share: &share,
        kinds: kinds.as_slice(),
    };
    let workers = hire_routers(&shared, first, hands, looks, gates, workers);
    let workers = hire_makers(alloc, grid, first, factories.as_slice(), workers);
    let pass = next_pass(grid, first);
    Ok(run(rt, alloc, grid, line, readout, pass, workers, passes))
}

// All work, while the readout's arrivals go to the deliverer, whose pass comes last.
fn run<T: Threads + Wait + Sync, R: Readout, G: Gate>(
    rt: &T,
    alloc: Global,
    grid: &Grid,
    line: Line,
    readout: R,
    pass: Pass,
    workers: Vec<Worker<'_, G>>,
    passes: Vec<Pass>,
) -> Brought
    requires pass { IsPassOf grid.now pass }
    requires new { pass.view.mine ≡ [] }
    requires few { length (R.left readout) < 2 ^ 32 }
    requires some { 0 < length workers.items }
    requires empty { passes.items ≡ [] }
    requires room { length workers.items + 1 ≤ vec_capacity passes }
    ensures passes { (ended : List _) × (last : _) × AreWorked workers.entry.items ended
        × IsLast grid.now line (R.left readout) pass last
        × (result.passes.items ≡ map pass_of ended ++ last ∷ []) }
    ensures taken { IfOk result.taken (λ t. t.arrivals.items ≡ R.left readout) }
    ensures strays { IfOk result.taken (λ t. t.strays.items ≡ strays_of line (R.left readout)) }
{
    let deliverer = Deliverer::new(alloc, grid, pass);
    let relayed = relay(
        rt,
        alloc,
        line,
        readout,
        deliverer,
        move || -> Vec<Pass>
            requires { (0 < length workers.items) × (passes.items ≡ [])
                × (length workers.items + 1 ≤ vec_capacity passes) }
            ensures { ((ended : List _) × AreWorked workers.entry.items ended
                × (result.items ≡ map pass_of ended))
                × (vec_capacity result ≡ vec_capacity passes) }
        { bring_back(rt, workers, passes) },
    );
    let Relayed {
        courier,
        others,
        taken,
    } = relayed;
    let mut passes = others;
    passes.push_reserved(courier.into_pass());
    Brought { passes, taken }
}

// A look for each router.
fn looks(alloc: Global, layout: &Layout, qubits: u32, count: usize) -> Result<Vec<Look>, Memory>
    requires { qubits ≤ 1024 }
    ensures made { IfOk result (λ v. All (IsLookOf layout.now qubits) v.items) }
    ensures count { IfOk result (λ v. length v.items ≡ count) }
{
    let mut looks = Vec::with_capacity(alloc, count)?;
    for _ in 0..count {
        looks.push_reserved(Look::new(alloc, layout, qubits)?);
    }
    Ok(looks)
}

// The layout's factories, in ascending order.
fn factories(alloc: Global, layout: &Layout) -> Result<Vec<u32>, Memory>
    ensures { IfOk result (λ v. v.items ≡ factories_of layout.now) }
{
    let mut factories = Vec::new(alloc);
    for factory in 0..FACTORIES {
        push_factory(&mut factories, layout, factory)?;
    }
    Ok(factories)
}

// Adds a factory, if the layout has it.
fn push_factory(factories: &mut Vec<u32>, layout: &Layout, factory: u32) -> Result<(), Memory>
    ensures { IfOk result (λ _. factories.new.items ≡ factories.old.items
        ++ filter (has_factory layout.now) (factory ∷ [])) }
{
    match layout.store(factory) {
        Some(_) => {
            factories.push(factory)?;
            Ok(())
        }
        None => Ok(()),
    }
}
