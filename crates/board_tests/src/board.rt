//! Boards on the row layout of two qubits: cells 0 to 5 above; 6, 7 (patch 0), 8, 9 (patch 1), 10 and 11 (port 0) below. The
//! sides for X lie left and right of a patch, and those for Z above it.

ghost use Rattle.std.specs.Prelude.{◌≡◌, ◌≤◌, IsTrue, IfOk, All, length, true, [], ◌∷◌};
ghost use Rattle.pauli_product.specs.Signed.{IsNotIdentity};
ghost use Rattle.patch_layout.specs.Grid.{Open};
ghost use Rattle.patch_layout.specs.Row.{demand};
ghost use Rattle.board_tests.specs.Rows.{IsOnTwo};

use board_core::{Board, order_of, pool_of};
use magic_pool::Fail as Failing;
use patch_base::{Memory, Need, Used};
use patch_layout::Layout;
use pauli_product::{Letter, Product};
use source_model::{Kind, Static};
use std::alloc::Global;

/// The text of a product's axis, and what it does.
pub(crate) type Row = (&'static [u8], Kind);

// Whether a product has a letter other than I.
fn has_letter(axis: &Product) -> bool
    ensures { IsTrue result → IsNotIdentity axis.now }
{
    for qubit in 0..axis.len() {
        if axis.letter(qubit) != Letter::I {
            return true;
        }
    }
    false
}

// A product on two qubits. A text that is none stands for no memory.
fn product(alloc: Global, text: &[u8], kind: Kind) -> Result<Static, Memory>
    ensures { IfOk result IsOnTwo }
{
    let Some(axis) = Product::parse(alloc, text)? else {
        return Err(Memory);
    };
    if axis.len() != 2 {
        return Err(Memory);
    }
    if !has_letter(&axis) {
        return Err(Memory);
    }
    Ok(Static { axis, kind })
}

fn products(alloc: Global, rows: &[Row]) -> Result<Vec<Static>, Memory>
    ensures each { IfOk result (λ v. All IsOnTwo v.items) }
    ensures count { IfOk result (λ v. length v.items ≡ length rows.now) }
{
    let mut list = Vec::new(alloc);
    for at in 0..rows.len() {
        let (text, kind) = rows[at];
        list.push(product(alloc, text, kind)?)?;
    }
    Ok(list)
}

fn row(alloc: Global) -> Result<Layout, Memory>
    ensures { IfOk result (λ layout. Open layout (demand (true ∷ true ∷ []) true)) }
{
    let need = Need {
        qubits: 2,
        used: Used::of(Vec::from_slice(alloc, &[true, true])?),
        rotations: true,
    };
    match Layout::row(alloc, &need) {
        Ok(layout) => Ok(layout),
        Err(_) => Err(Memory),
    }
}

/// A new board for these products, with these failing runs.
pub(crate) fn board_for(alloc: Global, rows: &[Row], fails: &[Failing]) -> Result<Board, Memory>
    requires few { length rows.now ≤ 16 }
    requires fails { length fails.now ≤ 4096 }
{
    let products = products(alloc, rows)?;
    let order = order_of(alloc, &products)?;
    let layout = row(alloc)?;
    let pool = pool_of(alloc, &layout, fails)?;
    Board::new(alloc, layout, order, products, pool)
}
