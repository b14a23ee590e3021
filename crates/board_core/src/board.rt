//! The board's calls, and what they answer.

ghost use Rattle.std.specs.Prelude.{◌≡◌, None};

use crate::Noted;
use node_log::Node;
use patch_layout::{Fault, Plan};

/// Where a claim's axis first differs from the product's own, in this order.
#[derive(Clone, Copy, Debug, PartialEq, Eq)]
pub enum Differ {
    /// The number of qubits.
    Length,
    /// The sign.
    Sign,
    /// The least qubit with another letter.
    Qubit { q: u32 },
}

/// Why a claim is refused. The causes are tried in this order.
#[derive(Clone, Copy, Debug, PartialEq, Eq)]
pub enum ClaimWhy {
    /// The plan's number is no product's.
    NoProduct,
    /// A settled product takes no region.
    NoRegion,
    /// The product has a claim, at this place of the history.
    Taken { place: u32 },
    /// The least earlier product that doesn't commute with it and isn't done.
    Waits { on: u32 },
    /// The plan's axis isn't the one about which the product is carried out.
    AxisDiffers { at: Differ },
    /// The plan's certificate is wrong.
    Unfit { fault: Fault },
    /// The least cell of the claim that a product holds, and that product.
    Held { cell: u32, by: u32 },
    /// The port's factory has no ready state.
    NoState { port: u32 },
}

/// Why an outcome is refused. The causes are tried in this order.
#[derive(Clone, Copy, Debug, PartialEq, Eq)]
pub enum DeliverWhy {
    /// There is no such product.
    NoProduct,
    /// The product takes a region and has no claim.
    Unclaimed,
    /// The product is done, at this place of the history.
    Twice { place: u32 },
    /// The outcome is of another kind.
    WrongKind,
    /// A settled product waits on this one, the least earlier product that doesn't commute with it and isn't done.
    Waits { on: u32 },
}

/// Why a release is refused. The causes are tried in this order.
#[derive(Clone, Copy, Debug, PartialEq, Eq)]
pub enum ReleaseWhy {
    /// There is no such product.
    NoProduct,
    /// The product has no delivery.
    Undelivered,
    /// The product is released, at this place of the history.
    Twice { place: u32 },
}

/// Why a factory's step is refused. The causes are tried in this order.
#[derive(Clone, Copy, Debug, PartialEq, Eq)]
pub enum BoardStepWhy {
    /// There is no such factory.
    NoFactory,
    /// A run would begin with a full store: as many states are ready as it holds.
    Stocked { ready: u32 },
}

/// An accepted claim: its place in the history, and the magic state that a rotation takes.
#[derive(Clone, Copy, Debug, PartialEq, Eq)]
pub struct Claimed {
    pub place: u32,
    pub state: Option<u32>,
}

/// A refused claim, with the plan and the node handed back.
#[derive(Drop)]
pub struct ClaimRefused {
    pub why: ClaimWhy,
    pub plan: Plan,
    pub node: Node<Noted>,
}

/// A refused outcome, with the node handed back.
#[derive(Drop)]
pub struct DeliverRefused {
    pub why: DeliverWhy,
    pub node: Node<Noted>,
}

/// A refused release, with the node handed back.
#[derive(Drop)]
pub struct ReleaseRefused {
    pub why: ReleaseWhy,
    pub node: Node<Noted>,
}

/// A refused step, with the node handed back.
#[derive(Drop)]
pub struct BoardStepRefused {
    pub why: BoardStepWhy,
    pub node: Node<Noted>,
}

/// The places of a product's entries in the history. A settled product is done where it is settled.
#[derive(Clone, Copy, Debug, PartialEq, Eq)]
pub struct Standing {
    pub claim: Option<u32>,
    pub deliver: Option<u32>,
    pub release: Option<u32>,
}

impl Standing {
    /// A product without entries.
    pub(crate) fn empty() -> Standing
        ensures { result ≡ record { claim = None; deliver = None; release = None } }
    {
        Standing {
            claim: None,
            deliver: None,
            release: None,
        }
    }
}

/// There is no such product.
#[derive(Clone, Copy, Debug, PartialEq, Eq, Drop)]
pub struct NoProduct;
