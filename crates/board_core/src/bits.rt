//! The bits that done measurements have written.

ghost use Rattle.std.specs.Prelude.{◌≡◌, ◌+◌, ◌<◌, ◌≤◌, ◌==◌, length, slice_get, slice_set, Some, None, false};
ghost use Rattle.pauli_product.specs.Bits.{number_of};
ghost use Rattle.board_core.specs.inside.Bits.{after_write, value_in};
ghost use Rattle.board_core.specs.inside.Books.{BitsReach, NamesBelow};
ghost use Rattle.board_core.specs.declared.bits.Written.{Written as WrittenBit};

use source_model::{Kind, Static};

/// A bit: the last done measurement into it, in source order, and its effective outcome.
#[derive(Clone, Copy, Debug, PartialEq, Eq)]
pub struct Written {
    pub by: Option<u32>,
    pub value: bool,
}

impl Written {
    /// A bit that nothing has written is 0.
    pub fn none() -> Written
        ensures { result ≡ record { by = None; value = false } }
    {
        Written {
            by: None,
            value: false,
        }
    }
}

/// What a measurement leaves of a bit: its outcome, unless a later measurement has written it.
fn after_write(bit: Written, by: u32, value: bool) -> Written
    ensures { result ≡ after_write bit by value }
{
    match bit.by {
        Some(last) => {
            if by < last {
                bit
            } else {
                Written {
                    by: Some(by),
                    value,
                }
            }
        }
        None => Written {
            by: Some(by),
            value,
        },
    }
}

/// Notes the outcome of a measurement into a bit.
pub fn write_bit(bits: &mut [Written], bit: u32, by: u32, value: bool)
    requires { bit < length bits.old }
    ensures sizes { length bits.new ≡ length bits.old }
    ensures written { (w : WrittenBit) → slice_get bits.old bit ≡ Some w
        → bits.new ≡ slice_set bits.old bit (after_write w by value) }
{
    bits[bit as usize] = after_write(bits[bit as usize], by, value);
}

/// Whether bits spell a value, the first one with weight 1.
pub fn spells(bits: &[Written], first: u32, size: u32, value: u32) -> bool
    requires { first + size ≤ length bits.now }
    ensures { result ≡ (number_of (value_in bits.now) first size == value) }
{
    let mut rest = value;
    let first = first as usize;
    for at in first..first + size as usize {
        if bits[at].value != (rest % 2 == 1) {
            return false;
        }
        rest /= 2;
    }
    rest == 0
}

/// One more than the greatest bit that a product names.
fn bits_end(kind: Kind) -> usize
    ensures { NamesBelow result kind }
{
    match kind {
        Kind::Rotation => 0,
        Kind::Measure { bit } => bit as usize + 1,
        Kind::Settle { first, size, .. } => first as usize + size as usize,
    }
}

/// So many bits that the products name none past them.
pub fn bit_count(products: &[Static]) -> usize
    ensures { BitsReach products.now result }
{
    let mut count = 0;
    for product in products {
        count = count.max(bits_end(product.kind));
    }
    count
}
