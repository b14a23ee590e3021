use std::collections::LinkedList;

/// What a seat at the word has done. No value of it is made.
pub struct View {
    /// The numbers that are shared are those below this.
    pub numbers: u64,
    /// How many hands it stands for.
    pub part: u64,
    /// The numbers that it drew, in order.
    pub drawn: LinkedList<u32>,
    /// The numbers that it read and that aren't shared, in order.
    pub past: LinkedList<u64>,
}
