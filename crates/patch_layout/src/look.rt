//! What a planner sees of a board.

ghost use Rattle.std.specs.Prelude.{◌≡◌, ◌≤◌, length, IfOk, false, replicate};
ghost use Rattle.patch_layout.specs.Look.{identity};

use crate::layout::Layout;
use patch_base::{Listed, Memory};
use pauli_product::Product;
use std::alloc::Global;

/// The product that holds each cell, cell by cell.
pub type HeldList = Listed<Option<u32>>;

/// What a planner sees of a board: the product that is to be claimed, and what is held and ready.
#[derive(Drop)]
pub struct Look {
    /// The number of the product.
    pub product: u32,
    /// The length of the history.
    pub length: u32,
    /// Whether the product is a rotation.
    pub rotation: bool,
    /// The place of the product's claim.
    pub taken: Option<u32>,
    /// The least earlier product that the product waits on.
    pub waits: Option<u32>,
    /// The static axis conjugated by the corrections so far, the first one first.
    pub axis: Product,
    /// The product that holds each cell.
    pub held: HeldList,
    /// The ready states of each factory number.
    pub ready: [u32; 16],
}

impl Look {
    /// A look at product 0 of an empty history: no cell is held, nothing is taken or ready, and the axis is the identity. The fields are the caller's to fill.
    pub fn new(alloc: Global, layout: &Layout, qubits: u32) -> Result<Look, Memory>
        requires { qubits ≤ 1024 }
        ensures unheld { IfOk result (λ l. l.held ≡ replicate (length layout.now.sites) None) }
        ensures untaken { IfOk result (λ l. (l.taken ≡ None) × (l.waits ≡ None)) }
        ensures identity { IfOk result (λ l. l.axis ≡ identity qubits) }
        ensures first { IfOk result (λ l. (l.product ≡ 0) × (l.length ≡ 0) × (l.rotation ≡ false)) }
        ensures unready { IfOk result (λ l. l.ready ≡ replicate 16 0) }
    {
        let held = vec![in alloc; None; layout.size() as usize]?;
        Ok(Look {
            product: 0,
            length: 0,
            rotation: false,
            taken: None,
            waits: None,
            axis: Product::identity(alloc, qubits)?,
            held: HeldList::of(held),
            ready: [0; 16],
        })
    }
}
