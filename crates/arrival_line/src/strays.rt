//! Which arrivals are strays.
ghost use Rattle.std.specs.Prelude.{◌≡◌, ◌^◌, ◌<◌, length, IfOk};
ghost use Rattle.arrival_line.specs.Strays.{is_of, fits, strays_of};
ghost use Rattle.arrival_line.specs.inside.Inboxes.{sifted};

use crate::arrival::Arrival;
use source_model::{Given, Kind};
use std::alloc::{AllocError, Global};

fn is_of(kind: Kind, given: Given) -> bool
    ensures { result ≡ is_of kind given }
{
    match (kind, given) {
        (Kind::Rotation, Given::Rotation { .. }) => true,
        (Kind::Measure { .. }, Given::Measure { .. }) => true,
        _ => false,
    }
}

/// Whether an arrival serves its product, which is then wanted no more.
pub fn sift(wanted: &mut Vec<Option<Kind>>, arrival: Arrival) -> bool
    ensures answer { result ≡ fits wanted.old.items arrival }
    ensures wanted { wanted.new.items ≡ sifted wanted.old.items arrival }
{
    let at = arrival.product as usize;
    let Some(Some(kind)) = wanted.get(at).copied() else {
        return false;
    };
    if !is_of(kind, arrival.given) {
        return false;
    }
    wanted[at] = None;
    true
}

/// The indices of the strays.
pub fn strays(
    alloc: Global,
    mut wanted: Vec<Option<Kind>>,
    taken: &[Arrival],
) -> Result<Vec<u32>, AllocError>
    requires { length taken.now < 2 ^ 32 }
    ensures { IfOk result (λ v. v.items ≡ strays_of wanted.items taken.now) }
{
    let mut found = Vec::new(alloc);
    for (i, arrival) in taken.iter().enumerate() {
        if !sift(&mut wanted, *arrival) {
            found.push(i as u32)?;
        }
    }
    Ok(found)
}
