//! What a pass knows. It is a matter of proofs alone.

use board_core::{Board, Noted};
use std::collections::LinkedList;

/// What a pass knows. No value of it is made.
pub struct View {
    pub number: u64,
    /// The board that the grid was opened with.
    pub opened: Board,
    /// A beginning of the history that was seen.
    pub seen: LinkedList<Noted>,
    /// The entries that it made.
    pub mine: LinkedList<Noted>,
    /// How often it found the turn held by another.
    pub met: u64,
    /// How often it loaded the length.
    pub loads: u64,
    /// How often it did so while it held the turn.
    pub turns: u64,
    /// The greatest length that it was told.
    pub read: u64,
    pub holding: bool,
    /// How many passes were split off, at pass 0.
    pub made: u64,
    pub ended: bool,
    /// The passes that ended, at pass 0.
    pub kept: LinkedList<Gone>,
}

/// What is kept of a pass that ended.
pub struct Gone {
    pub number: u64,
    pub seen: LinkedList<Noted>,
    pub mine: LinkedList<Noted>,
    pub read: u64,
}
