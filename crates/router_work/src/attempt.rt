//! What an attempt answers.

use board_core::ClaimWhy;

/// What came of one try of a router to carry out a product.
#[derive(Clone, Copy, Debug, PartialEq, Eq)]
pub enum Attempt {
    /// The product was claimed at this place of the history, delivered and released.
    Claimed { place: u32 },
    /// The product was settled at this place.
    Settled { place: u32 },
    /// The product has a claim, or is settled, at this place.
    Taken { place: u32 },
    /// It waits on this one, the least earlier product that doesn't commute with it and isn't done.
    NotReady { on: u32 },
    /// It is a rotation, and no factory has a ready state.
    NoReady,
    /// A patch of its axis is held, or no region fits in the free cells.
    Blocked,
    /// The board had changed since the look, and refused the plan.
    Refused { why: ClaimWhy },
    /// The gate said Stop.
    Stopped,
    /// The turn was held 1,048,576 times in a row.
    Busy,
    /// Out of memory.
    Memory,
}

/// What an attempt answers, and whether the product is begun by then: it is claimed or done in what the pass has seen.
#[derive(Clone, Copy, Debug)]
pub(crate) struct Tried {
    pub(crate) answer: Attempt,
    pub(crate) begun: bool,
}
