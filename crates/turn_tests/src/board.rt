//! Boards for products on two qubits.
//!
//! The row layout has cells 0 to 5 above; 6, 7 (patch 0), 8, 9 (patch 1), 10 and 11 (port 0) below. The sides for X lie
//! left and right of a patch, and those for Z above it. The factory of port 0 has room for one state.

ghost use Rattle.std.specs.Prelude.{◌≡◌, ◌≤◌, IsTrue, IfOk, All, length, true, [], ◌∷◌};
ghost use Rattle.pauli_product.specs.Signed.{IsNotIdentity};
ghost use Rattle.patch_layout.specs.Grid.{Open};
ghost use Rattle.patch_layout.specs.Row.{demand};
ghost use Rattle.board_core.specs.Laws.{ProductsOfLength};
ghost use Rattle.board_core.specs.Shows.{IsMadeFor};
ghost use Rattle.grid_lock.specs.Passes.{IsPassOf};
ghost use Rattle.turn_tests.specs.Rows.{IsServed};

use board_core::{Board, order_of, pool_of};
use grid_lock::{Grid, Pass};
use magic_pool::Fail as Failing;
use patch_base::{Memory, Need, Used};
use patch_layout::{CellList, Layout, Look, Plan, certify};
use pauli_product::{Letter, Product};
use source_model::{Kind, Static};
use std::alloc::Global;

/// The text of a product's axis, and what it does.
pub(crate) type Row = (&'static [u8], Kind);

static ROWS: [Row; 2] = [(b"+ZI", Kind::Rotation), (b"+ZI", Kind::Measure { bit: 0 })];

// Whether a product has a letter other than I.
fn has_letter(axis: &Product) -> bool
    ensures { IsTrue result → IsNotIdentity axis.now }
{
    for qubit in 0..axis.len() {
        if axis.letter(qubit) != Letter::I {
            return true;
        }
    }
    false
}

// A text that isn't such a product's stands for no memory.
fn product(alloc: Global, text: &[u8], kind: Kind, rotations: bool) -> Result<Static, Memory>
    ensures { IfOk result (IsServed rotations) }
{
    let Some(axis) = Product::parse(alloc, text)? else {
        return Err(Memory);
    };
    if axis.len() != 2 {
        return Err(Memory);
    }
    if !has_letter(&axis) {
        return Err(Memory);
    }
    if let Kind::Rotation = kind {
        if !rotations {
            return Err(Memory);
        }
    }
    Ok(Static { axis, kind })
}

fn products(alloc: Global, rows: &[Row], rotations: bool) -> Result<Vec<Static>, Memory>
    ensures each { IfOk result (λ v. All (IsServed rotations) v.items) }
    ensures count { IfOk result (λ v. length v.items ≡ length rows.now) }
{
    let mut list = Vec::new(alloc);
    for at in 0..rows.len() {
        let (text, kind) = rows[at];
        list.push(product(alloc, text, kind, rotations)?)?;
    }
    Ok(list)
}

fn layout(alloc: Global, text: &[u8], rotations: bool) -> Result<Layout, Memory>
    ensures { IfOk result (λ layout. Open layout (demand (true ∷ true ∷ []) rotations)) }
{
    let need = Need {
        qubits: 2,
        used: Used::of(Vec::from_slice(alloc, &[true, true])?),
        rotations,
    };
    match Layout::read(alloc, text, &need) {
        Ok(layout) => Ok(layout),
        Err(_) => Err(Memory),
    }
}

/// A new board for these products on the layout of a text, with rotations among them or not.
pub(crate) fn board_for(
    alloc: Global,
    text: &[u8],
    rotations: bool,
    rows: &[Row],
    fails: &[Failing],
) -> Result<Board, Memory>
    requires few { length rows.now ≤ 16 }
    requires fails { length fails.now ≤ 4096 }
    ensures empty { IfOk result (λ b. b.history ≡ []) }
    ensures axes { IfOk result (λ b. ProductsOfLength 2 b.job.products) }
{
    let products = products(alloc, rows, rotations)?;
    let order = order_of(alloc, &products)?;
    let layout = layout(alloc, text, rotations)?;
    let pool = pool_of(alloc, &layout, fails)?;
    Board::new(alloc, layout, order, products, pool)
}

/// A look for such a board.
pub(crate) fn look_for(alloc: Global, board: &Board) -> Result<Look, Memory>
    requires { ProductsOfLength 2 board.now.job.products }
    ensures { IfOk result (IsMadeFor board.now) }
{
    Look::new(alloc, board.layout(), 2)
}

/// A plan for a product with this axis and these cells.
pub(crate) fn plan_for(
    alloc: Global,
    layout: &Layout,
    p: u32,
    axis: &[u8],
    port: Option<u32>,
    cells: &[u32],
) -> Result<Plan, Memory> {
    let Some(axis) = Product::parse(alloc, axis)? else {
        return Err(Memory);
    };
    let cells = CellList::of(Vec::from_slice(alloc, cells)?);
    certify(alloc, layout, p, axis, port, cells)
}

/// A board on the row layout, where product 0 is a rotation and product 1 a measurement, both about Z of qubit 0.
pub(crate) fn row_board(alloc: Global, fails: &[Failing]) -> Result<Board, Memory>
    requires fails { length fails.now ≤ 4096 }
    ensures empty { IfOk result (λ b. b.history ≡ []) }
    ensures axes { IfOk result (λ b. ProductsOfLength 2 b.job.products) }
{
    let text = b"layout 1 2 6\npatch 0 7 h\npatch 1 9 h\nport 0 11 h 1\n";
    board_for(alloc, text, true, &ROWS, fails)
}

/// A plan of the rotation, through port 0.
pub(crate) fn rotation(alloc: Global, layout: &Layout) -> Result<Plan, Memory> {
    plan_for(alloc, layout, 0, b"+ZI", Some(0), &[1, 2, 3, 4, 5])
}

/// A plan of the measurement, which shares cell 1 with the rotation.
pub(crate) fn measurement(alloc: Global, layout: &Layout) -> Result<Plan, Memory> {
    plan_for(alloc, layout, 1, b"+ZI", None, &[1])
}

/// A grid over an empty board, and its pass 0.
pub(crate) fn open(alloc: Global, board: Board) -> Result<(Grid, Pass), Memory>
    requires { board.history ≡ [] }
    ensures grid { IfOk result (λ r. IsPassOf r.0 r.1) }
    ensures opened { IfOk result (λ r. r.0.opened ≡ board) }
    ensures first { IfOk result (λ r. (r.1.view.number ≡ 0) × (r.1.view.made ≡ 0)) }
{
    match Grid::open(alloc, board) {
        Ok(opened) => Ok(opened),
        Err(_) => Err(Memory),
    }
}
