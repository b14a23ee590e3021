//! The board: a legal history of claims, deliveries, releases, factory steps and settlings.
//!
//! Products are carried out in any order that keeps those that don't commute in source order. The scheme is that of
//! Litinski, "A Game of Surface Codes" (Quantum 3, 128, 2019), section 1.
#![tactic(auto)]

mod bits;
mod board;
mod cells;
mod desk;
mod differ;
mod frames;
mod holders;
mod judging;
mod law;
mod ledger;
mod makers;
mod waiting;

pub use board::{
    BoardStepRefused, BoardStepWhy, ClaimRefused, ClaimWhy, Claimed, DeliverRefused, DeliverWhy,
    Differ, NoProduct, ReleaseRefused, ReleaseWhy, Standing,
};
pub use desk::Board;
pub use law::{
    law_apart, law_axis_known, law_claims, law_frame, law_headline, law_looks, law_next, law_order,
    law_past, law_plans, law_short, law_source, law_states, law_third,
};
pub use makers::pool_of;
use patch_layout::CellList;
use pauli_product::Product;
use source_model::Given;
pub use waiting::order_of;

/// One event of a board. Products, factories, states and cells are numbered from 0.
#[derive(Drop)]
pub enum Entry {
    /// A product takes a region of ancilla cells, its patches and its port. A rotation takes a magic state through a port,
    /// and a measurement has neither. The axis is the one about which the product is carried out.
    Claim {
        product: u32,
        axis: Product,
        port: Option<u32>,
        state: Option<u32>,
        cells: CellList,
    },
    /// The outcome of a claimed product.
    Deliver {
        product: u32,
        given: Given,
    },
    /// A delivered product gives its cells back.
    Release {
        product: u32,
    },
    /// One step of a factory; a run is eleven.
    Step {
        factory: u32,
    },
    /// A product that takes no region is settled: it flips where the bits that it reads spell its value.
    Settle {
        product: u32,
        flip: bool,
    },
}

/// An entry, with the number of the worker that made it.
#[derive(Drop)]
pub struct Noted {
    pub by: u32,
    pub entry: Entry,
}
