//! Whole jobs read from a shelf: a circuit, a layout that is open for it, and its outcomes. Their boards, and the lines of
//! those that can't be read.
#![tactic(auto)]

mod circuit;
mod fault;
mod layout;
mod limited;
mod lists;
mod made;
mod outcomes;
mod read;
mod saying;
mod start;

pub use circuit::load_circuit;
pub use fault::JobFault;
pub use layout::load_layout;
pub use lists::Products;
pub use made::make_job;
use outcome_table::Outcomes;
pub use outcomes::load_outcomes;
use patch_layout::Layout;
pub use read::read_job;
pub use saying::say_job;
use source_model::Circuit;
pub use start::{Started, start_job};

/// A job: what its three texts stand for.
///
/// What each job that was read keeps is `IsJob` of `specs/Kept.antt`.
#[derive(Drop)]
pub struct Job {
    /// The circuit.
    pub circuit: Circuit,
    /// The circuit's static products.
    pub products: Products,
    /// The layout, which is open for the circuit.
    pub layout: Layout,
    /// The outcomes of the products, and the failing runs of the layout's factories.
    pub outcomes: Outcomes,
}
