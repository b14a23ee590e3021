//! A board whose products are all done, written as a schedule or as its bits alone.
#![tactic(auto)]

mod fault;
mod law;
mod write;

pub use fault::WriteFault;
pub use law::law_complete_boards;
pub use write::{write_board, write_board_bits};
