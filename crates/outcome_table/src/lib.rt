//! Outcome texts: the measurement outcomes of a circuit's products, and the factory runs that fail.
#![tactic(auto)]

mod draft;
mod fault;
mod law;
mod line;
mod read;

pub use fault::OutcomeFault;
pub use law::{law_answer, law_one_fault, law_one_table, law_table_or_fault};
use magic_pool::Fail;
use patch_base::Listed;
pub use read::read_outcomes;
use source_model::Given;

/// The outcomes by product.
pub type GivenList = Listed<Given>;

/// Failing runs.
pub type FailList = Listed<Fail>;

/// What an outcome text stands for.
#[derive(Drop)]
pub struct Outcomes {
    /// One outcome for each product, of its kind; a settled product has `Given::Settled`.
    pub given: GivenList,
    /// The failing runs, in the order of their lines.
    pub fails: FailList,
}
