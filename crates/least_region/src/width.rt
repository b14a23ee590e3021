//! How many sides a look asks for.

ghost use Rattle.std.specs.Prelude.{◌≡◌, ℕ, ◌≤◌, length};
ghost use Rattle.patch_layout.specs.Region.{sides_of, sides_from};
ghost use Rattle.least_region.specs.Least.{width};

use patch_layout::Look;
use pauli_product::{Letter, Product};

// How many sides a letter asks for.
fn sides_of_letter(letter: Letter) -> u32
    ensures value { (q : ℕ) → result ≡ length (sides_of q letter) }
    ensures few { result ≤ 2 }
{
    match letter {
        Letter::I => 0,
        Letter::X => 1,
        Letter::Z => 1,
        Letter::Y => 2,
    }
}

// How many sides an axis asks for.
fn sides_of_axis(axis: &Product) -> u32
    ensures value { result ≡ length (sides_from 0 axis.now.letters) }
    ensures few { result ≤ 2048 }
{
    let mut count = 0;
    for qubit in 0..axis.len() {
        count += sides_of_letter(axis.letter(qubit));
    }
    count
}

/// How many sides a region for the look must touch.
pub(crate) fn sides_in(look: &Look) -> u32
    ensures { result ≡ width look.now }
{
    let count = sides_of_axis(&look.axis);
    if look.rotation { count + 1 } else { count }
}
