//! What all crates of the runtime share: shelves of texts and sinks of bytes, each with a count of
//! its faults; a pen before a sink; lines, words, decimals and names of texts; and the limits.
#![tactic(auto)]

mod calls;
mod limits;
mod list;
mod memory_shelf;
mod memory_sink;
mod name;
mod need;
mod outside;
mod pen;
#[cfg(test)]
mod tests;
mod text;
mod transfer;

pub use limits::{
    BITS, CELLS, DEFINITIONS, DEPTH, FACTORIES, FAILS, FORMALS, OPERATIONS, PRODUCTS, QUBITS,
    REGISTERS, ROUTERS, SCHEDULE_BYTES, STORE, TEXT_BYTES,
};
pub use list::Listed;
pub use memory_shelf::{MemoryShelf, NeverFails};
pub use memory_sink::MemorySink;
pub use name::is_name;
pub use need::{Need, Used};
pub use outside::{Failed, Memory, ReadFault, Shelf, Sink};
pub use pen::Pen;
pub use text::{Line, Words, bit, decimal, is_skipped, next_line, put_decimal};
pub use transfer::{read_text, write_all};
