//! The order of waiting of products.

ghost use Rattle.std.specs.Prelude.{◌≡◌, ℕ, ◌≤◌, length, IfOk};
ghost use Rattle.board_core.specs.Laws.{ProductsOfLength};
ghost use Rattle.board_core.specs.Uses.{IsOrderOf, bits_used_by};

use commute_order::{Order, Uses};
use patch_base::Memory;
use source_model::{Kind, Static};
use std::alloc::Global;

/// The bits that a product reads and writes.
fn uses_of(kind: Kind) -> Uses
    ensures { result ≡ bits_used_by kind }
{
    match kind {
        Kind::Rotation => Uses {
            read_first: 0,
            read_size: 0,
            write: None,
        },
        Kind::Measure { bit } => Uses {
            read_first: 0,
            read_size: 0,
            write: Some(bit),
        },
        Kind::Settle { first, size, .. } => Uses {
            read_first: first,
            read_size: size,
            write: None,
        },
    }
}

/// The order of at most 16,384 products on equally many qubits, as a new board takes it.
pub fn order_of(alloc: Global, products: &[Static]) -> Result<Order, Memory>
    requires few { length products.now ≤ 16384 }
    requires qubits { (n : ℕ) × ProductsOfLength n products.now }
    ensures { IfOk result (IsOrderOf products.now) }
{
    let mut axes = Vec::new(alloc);
    let mut uses = Vec::new(alloc);
    for product in products {
        axes.push(product.axis.copy(alloc)?)?;
        uses.push(uses_of(product.kind))?;
    }
    Order::build(alloc, &axes, &uses)
}
