//! Circuits as texts: programs and product lists read, and the jobs that are made from a number.
#![tactic(auto)]

mod gates;
mod items;
mod jobs;
mod law;
mod reading;

pub use jobs::{Big, Text, generate};
pub use law::{law_answer, law_one_circuit, law_printed};
pub use product_list::{print_products, read_list};
pub use reading::read_circuit;
pub use static_products::{need, statics};
