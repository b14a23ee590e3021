//! Product lists: texts of circuits as Pauli products, read and printed.
#![tactic(auto)]

mod draft;
mod law;
mod line;
mod list;
mod print;

pub use law::{law_answer, law_declared, law_listable, law_read_back};
pub use list::read_list;
pub use print::print_products;
