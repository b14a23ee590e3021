//! Which cause comes first.

ghost use Rattle.std.specs.Prelude.{◌≡◌, ◌↔◌, IsTrue};
ghost use Rattle.board_core.specs.inside.Judging.{if_undone, why_not_delivered, why_not_released};
ghost use Rattle.board_core.specs.Books.{TakesRegion};
ghost use Rattle.board_core.specs.Causes.{is_rotation};

use crate::board::{DeliverWhy, ReleaseWhy, Standing};
use source_model::{Given, Kind};

/// Why a product of this kind with these places isn't released.
pub fn why_not_released(kind: Kind, standing: Standing) -> Option<ReleaseWhy>
    ensures { result ≡ why_not_released kind standing }
{
    match kind {
        Kind::Settle { .. } => Some(ReleaseWhy::Undelivered),
        Kind::Rotation | Kind::Measure { .. } => match (standing.deliver, standing.release) {
            (None, _) => Some(ReleaseWhy::Undelivered),
            (Some(_), None) => None,
            (Some(_), Some(place)) => Some(ReleaseWhy::Twice { place }),
        },
    }
}

/// Why an outcome isn't delivered, apart from what the product waits on.
pub fn why_not_delivered(kind: Kind, standing: Standing, given: Given) -> Option<DeliverWhy>
    ensures { result ≡ why_not_delivered kind standing given }
{
    match kind {
        Kind::Settle { .. } => why_not_done(kind, standing, given),
        Kind::Rotation | Kind::Measure { .. } => match standing.claim {
            None => Some(DeliverWhy::Unclaimed),
            Some(_) => why_not_done(kind, standing, given),
        },
    }
}

/// The same of a product that is claimed, or takes no region.
fn why_not_done(kind: Kind, standing: Standing, given: Given) -> Option<DeliverWhy>
    ensures { result ≡ if_undone standing.deliver kind given }
{
    if let Some(place) = standing.deliver {
        return Some(DeliverWhy::Twice { place });
    }
    match (kind, given) {
        (Kind::Rotation, Given::Rotation { .. }) => None,
        (Kind::Measure { .. }, Given::Measure { .. }) => None,
        (Kind::Settle { .. }, Given::Settled) => None,
        (_, _) => Some(DeliverWhy::WrongKind),
    }
}

/// Whether a product takes a region of cells.
pub fn takes_region(kind: Kind) -> bool
    ensures { IsTrue result ↔ TakesRegion kind }
{
    !matches!(kind, Kind::Settle { .. })
}

/// Whether a product is a rotation.
pub fn is_rotation(kind: Kind) -> bool
    ensures { result ≡ is_rotation kind }
{
    matches!(kind, Kind::Rotation)
}
