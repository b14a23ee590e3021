//! What the tests are about: a circuit of one bit that does nothing, and a board without products.

ghost use Rattle.std.specs.Prelude.{◌≡◌, true, [], ◌∷◌, IfOk};
ghost use Rattle.source_model.specs.Circuits.{WellFormed, bits_in};
ghost use Rattle.patch_layout.specs.Grid.{Open};
ghost use Rattle.patch_layout.specs.Row.{demand};

use board_core::{Board, order_of, pool_of};
use patch_base::{Need, Used};
use patch_layout::Layout;
use source_model::{Circuit, Items, Name, Register, Registers};
use std::alloc::Global;
use std::test::Fail;

/// A circuit with one register of one bit, that does nothing.
pub(crate) fn circuit(alloc: Global) -> Result<Circuit, Fail>
    ensures formed { IfOk result (λ c. WellFormed c) }
    ensures bits { IfOk result (λ c. bits_in c.registers ≡ 1) }
    ensures items { IfOk result (λ c. c.items ≡ []) }
{
    let mut registers = Vec::new(alloc);
    registers.push(Register {
        name: Name::new(alloc, b"c")?,
        first: 0,
        size: 1,
    })?;
    Ok(Circuit {
        qubits: 1,
        registers: Registers::of(registers),
        items: Items::of(Vec::new(alloc)),
        hidden: 0,
    })
}

/// One patch and one port in two rows.
pub(crate) fn layout(alloc: Global) -> Result<Layout, Fail>
    ensures { IfOk result (λ l. Open l (demand (true ∷ []) true)) }
{
    let need = Need {
        qubits: 1,
        used: Used::of(vec![in alloc; true]?),
        rotations: true,
    };
    match Layout::row(alloc, &need) {
        Ok(layout) => Ok(layout),
        Err(_fault) => Err(Fail::new("a layout")),
    }
}

/// A new board without products.
pub(crate) fn board(alloc: Global) -> Result<Board, Fail>
    ensures new { IfOk result (λ b. b.history ≡ []) }
    ensures products { IfOk result (λ b. b.job.products ≡ []) }
{
    let layout = layout(alloc)?;
    let products = Vec::new(alloc);
    let order = order_of(alloc, &products)?;
    let pool = pool_of(alloc, &layout, &[])?;
    Ok(Board::new(alloc, layout, order, products, pool)?)
}
