//! Products placed by their slices, and the latest of them that doesn't commute with another.

ghost use Rattle.std.specs.Prelude.{◌≡◌, ◌<◌, ℕ, length, max, OnOk};
ghost use Rattle.std.specs.List.Sorted.{IsNonDecreasingBy};
ghost use Rattle.source_model.specs.Statics.{commuting, reads_from as reads_from_kind};
ghost use Rattle.board_core.specs.Laws.{ProductsOfLength};
ghost use Rattle.slice_write.specs.inside.Clashes.{greatest_clash, PlacedAre, Inserts};

use crate::placed::Placed;
use patch_base::Memory;
use source_model::{Kind, Static};

// Whether one product reads a bit that the other writes.
fn reads_from(reader: Kind, writer: Kind) -> bool
    ensures { result ≡ reads_from_kind reader writer }
{
    match (reader, writer) {
        (Kind::Settle { first, size, .. }, Kind::Measure { bit }) => {
            first <= bit && bit - first < size
        }
        _ => false,
    }
}

fn commute(product: &Static, other: &Static) -> bool
    requires { length other.now.axis.letters ≡ length product.now.axis.letters }
    ensures { result ≡ commuting product.now other.now }
{
    product.axis.commutes(&other.axis)
        && !reads_from(product.kind, other.kind)
        && !reads_from(other.kind, product.kind)
}

/// The greatest slice among the placed products that don't commute with this one, or `floor` where that is greater.
/// The products are placed by ascending slices, and the search goes down from the last one: it ends at the first that
/// doesn't commute, and where no greater slice than `floor` is left.
pub(crate) fn latest_clash(products: &[Static], placed: &[Placed], product: u32, floor: u32) -> u32
    requires product { product < length products.now }
    requires placed { PlacedAre products.now placed.now }
    requires qubits { (n : ℕ) × ProductsOfLength n products.now }
    ensures { result ≡ max floor (greatest_clash products.now placed.now product) }
{
    let this = &products[product as usize];
    for k in (0..placed.len()).rev() {
        let Placed { slice, product } = placed[k];
        if slice <= floor {
            return floor;
        }
        if !commute(&products[product as usize], this) {
            return slice;
        }
    }
    floor
}

/// Places one more product, after those of its slice.
pub(crate) fn place(placed: &mut Vec<Placed>, more: Placed) -> Result<(), Memory>
    requires { IsNonDecreasingBy (λ x. x.slice) placed.old.items }
    ensures inserted { OnOk result (Inserts placed.old.items placed.new.items more) }
    ensures sorted { OnOk result (IsNonDecreasingBy (λ x. x.slice) placed.new.items) }
{
    let mut at = placed.len();
    while at > 0 && placed[at - 1].slice > more.slice {
        at -= 1;
    }
    placed.insert(at, more)?;
    Ok(())
}
