//! Where two axes first differ.

ghost use Rattle.std.specs.Prelude.{◌≡◌, length, MatchOption};
ghost use Rattle.board_core.specs.Causes.{DiffersAt, FirstOther};

use crate::board::Differ;
use pauli_product::Product;

/// The least qubit at which the letters differ.
fn other_letter(axis: &Product, other: &Product) -> Option<u32>
    requires { length axis.now.letters ≡ length other.now.letters }
    ensures { MatchOption result (axis.now.letters ≡ other.now.letters)
        (FirstOther axis.now.letters other.now.letters) }
{
    for q in 0..axis.len() {
        if axis.letter(q) != other.letter(q) {
            return Some(q);
        }
    }
    None
}

/// The first difference, in the order length, sign, least qubit.
pub fn first_difference(axis: &Product, other: &Product) -> Option<Differ>
    ensures { MatchOption result (axis.now ≡ other.now) (DiffersAt axis.now other.now) }
{
    if axis.len() != other.len() {
        return Some(Differ::Length);
    }
    if axis.sign() != other.sign() {
        return Some(Differ::Sign);
    }
    match other_letter(axis, other) {
        Some(q) => Some(Differ::Qubit { q }),
        None => None,
    }
}
