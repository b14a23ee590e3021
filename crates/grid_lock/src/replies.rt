//! What the calls that try the board answer where they don't succeed.

use board_core::{BoardStepRefused, ClaimRefused, DeliverRefused, Noted, ReleaseRefused};
use node_log::Node;
use patch_layout::Plan;

/// Why there is no look.
#[derive(Clone, Copy, Debug, PartialEq, Eq, Drop)]
pub enum TryLook {
    /// Another pass held the turn.
    Busy,
    /// There is no such product.
    NoProduct,
}

/// What a product waits on.
#[derive(Clone, Copy, Debug, PartialEq, Eq, Drop)]
pub enum TryWaits {
    /// Another pass held the turn.
    Busy,
    /// There is no such product.
    NoProduct,
    /// It waits on this one, the least earlier product that doesn't commute with it and isn't done.
    Waits { on: u32 },
    /// It waits on none.
    Ready,
}

/// Why there is no claim, with the plan and the node handed back.
#[derive(Drop)]
pub enum TryClaim {
    /// Another pass held the turn.
    Busy { plan: Plan, node: Node<Noted> },
    Refused(ClaimRefused),
}

/// Why there is no delivery, with the node handed back.
#[derive(Drop)]
pub enum TryDeliver {
    /// Another pass held the turn.
    Busy { node: Node<Noted> },
    Refused(DeliverRefused),
}

/// Why there is no release, with the node handed back.
#[derive(Drop)]
pub enum TryRelease {
    /// Another pass held the turn.
    Busy { node: Node<Noted> },
    Refused(ReleaseRefused),
}

/// Why there is no step, with the node handed back.
#[derive(Drop)]
pub enum TryStep {
    /// Another pass held the turn.
    Busy { node: Node<Noted> },
    Refused(BoardStepRefused),
}
