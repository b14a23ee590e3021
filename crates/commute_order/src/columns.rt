//! For each qubit, which products so far have a letter there that clashes with X, and which with Z.
//!
//! A letter clashes with Y where it clashes with exactly one of X and Z. So the products that clash
//! with a given one on an odd number of qubits are the exclusive or of the columns of its letters.

ghost use Rattle.std.specs.Prelude.{◌≡◌, ℕ, ◌+◌, ◌<◌, ◌≤◌, Bool, true, false, not, List, [], length, slice_index_or, slice_set, replicate, if◌then◌else◌, IfOk};
ghost use Rattle.pauli_product.specs.declared.Letter.{Letter};
ghost use Rattle.pauli_product.specs.declared.Letter.TheVariants.{I, X, Z};
ghost use Rattle.pauli_product.specs.Letters.{letters_clash};
ghost use Rattle.pauli_product.specs.Signed.{Signed, plus, commute};
ghost use Rattle.pauli_product.specs.Corrections.{xor};
ghost use Rattle.commute_order.specs.inside.Columns.{IsColumns, clash_bit};

use crate::bits::Bits;
use patch_base::Memory;
use pauli_product::{Letter, Product};
use std::alloc::Global;

fn clashes(a: Letter, b: Letter) -> bool
    ensures { result ≡ letters_clash a b }
{
    a != Letter::I && b != Letter::I && a != b
}

// `qubits` columns of `len` bits, all clear.
pub fn clear_columns(alloc: Global, qubits: u32, len: u32) -> Result<Vec<Bits>, Memory>
    ensures { IfOk result (λ columns. (against : Letter) (ps : List Signed) →
        IsColumns against ps 0 qubits len columns.items) }
{
    let mut columns = Vec::with_capacity(alloc, qubits as usize)?;
    for _q in 0..qubits {
        columns.push_reserved(Bits::new(alloc, len)?);
    }
    Ok(columns)
}

// Sets bit p of each column where the product's letter clashes with `against`.
pub fn add_product(columns: &mut Vec<Bits>, against: Letter, product: &Product, p: u32)
    requires size { length columns.old.items ≡ length product.now.letters }
    requires long { (q : ℕ) → q < length columns.old.items →
        p < length (slice_index_or columns.old.items q []) }
    ensures size { length columns.new.items ≡ length columns.old.items }
    ensures set { (q : ℕ) → q < length columns.old.items →
        slice_index_or columns.new.items q [] ≡
        (if letters_clash against (slice_index_or product.now.letters q I) then slice_set
        (slice_index_or columns.old.items q []) p true else slice_index_or columns.old.items q []) }
{
    for q in 0..product.len() {
        if clashes(against, product.letter(q)) {
            let column = &mut columns[q as usize];
            column.set(p);
        }
    }
}

// Flips in a row each product whose letter at a qubit clashes with this one.
fn flip_letter(row: &mut Bits, letter: Letter, x: &Bits, z: &Bits)
    requires x { length row.old ≤ length x.now }
    requires z { length row.old ≤ length z.now }
    ensures size { length row.new ≡ length row.old }
    ensures bits { (j : ℕ) → j < length row.old →
        slice_index_or row.new j false ≡
        xor (slice_index_or row.old j false) (clash_bit letter (slice_index_or x.now j false)
        (slice_index_or z.now j false)) }
{
    match letter {
        Letter::I => {}
        Letter::X => row.flip_by(x),
        Letter::Z => row.flip_by(z),
        Letter::Y => {
            row.flip_by(x);
            row.flip_by(z);
        }
    }
}

// Marks in a row without marks the products that don't commute with product p, the last one added.
pub fn mark_clashes(x: &[Bits], z: &[Bits], product: &Product, p: u32, len: u32, row: &mut Bits)
    requires row { row.old ≡ replicate (p + 1) false }
    requires within { p < len }
    requires x_size { length x.now ≡ length product.now.letters }
    requires z_size { length z.now ≡ length product.now.letters }
    requires x_long { (q : ℕ) → q < length x.now → length (slice_index_or x.now q []) ≡ len }
    requires z_long { (q : ℕ) → q < length z.now → length (slice_index_or z.now q []) ≡ len }
    ensures size { length row.new ≡ p + 1 }
    ensures marks { (ps : List Signed) (j : ℕ) →
        IsColumns X ps (p + 1) (length product.now.letters) len x.now →
        IsColumns Z ps (p + 1) (length product.now.letters) len z.now →
        length (slice_index_or ps j (plus [])).letters ≡ length product.now.letters → j ≤ p →
        slice_index_or row.new j false ≡ not (commute (slice_index_or ps j (plus [])) product.now) }
{
    for q in 0..product.len() {
        flip_letter(row, product.letter(q), &x[q as usize], &z[q as usize]);
    }
}
