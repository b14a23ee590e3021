//! Layouts of patches, their regions, and plans.
#![tactic(auto)]

mod certifier;
mod checker;
mod fault;
mod law;
mod layout;
mod line;
mod look;
mod openness;
mod plan;
mod reader;
mod row;
mod tables;
mod touch;
mod walk;

pub use certifier::certify;
pub use checker::check;
pub use fault::LayoutFault;
pub use law::{
    law_answer, law_certificate, law_certified_ascends, law_certified_fits, law_neighbours,
    law_not_both, law_one_fault, law_one_grid, law_row_patches, law_sides,
};
pub use layout::{Edge, Layout, Side, Site, Tile};
pub use look::{HeldList, Look};
pub use plan::{CellList, Fault, Parent, ParentList, Plan, TouchList};
pub use row::{law_whole_fits, whole_region};
pub use touch::wanted;
pub use walk::Reached;
