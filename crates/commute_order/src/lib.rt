//! Which products commute, and what a product waits on.
#![tactic(auto)]

mod bits;
mod columns;
mod sharing;

ghost use Rattle.std.specs.Prelude.{◌≡◌, ◌≢◌, ℕ, ◌+◌, ◌<◌, ◌≤◌, true, false, not, List, length, replicate, slice_get, slice_set, slice_index_or, Some, IfOk, OnOk, All, []};
ghost use Rattle.pauli_product.specs.declared.Letter.TheVariants.{X, Z};
ghost use Rattle.pauli_product.specs.Signed.{Signed, plus, OfLength, commute};
ghost use Rattle.commute_order.specs.inside.Columns.{IsColumns};
ghost use Rattle.commute_order.specs.Sharing.{mark};
ghost use Rattle.commute_order.specs.inside.Sharing.{IsTriangle};
ghost use Rattle.commute_order.specs.Commuting.{commuting_at, IsOrder, OneLength, LeastWait};

use bits::Bits;
use columns::{add_product, clear_columns, mark_clashes};
use patch_base::Memory;
use pauli_product::{Letter, Product};
use sharing::mark_sharing;
use std::alloc::Global;
use std::marker::Model;

/// The classical bits that a product reads and writes: `read_size` bits from number `read_first`
/// on, and `write`.
#[derive(Clone, Copy, Debug, PartialEq, Eq)]
pub struct Uses {
    pub read_first: u32,
    pub read_size: u32,
    pub write: Option<u32>,
}

/// For each product, which ones up to itself it doesn't commute with.
///
/// Two products commute where their axes do and neither reads a bit that the other writes.
#[derive(Drop)]
pub struct Order {
    rows: Vec<Bits>,
}

impl Model for Order {
    ghost use Rattle.std.specs.Prelude.{List, Bool};

    ghost Value = { List (List Bool) };

    ghost view = { λ o. o.rows.items };

    ghost use Rattle.std.specs.Prelude.{◌≡◌, ℕ, ◌+◌, ◌<◌, [], length, slice_index_or};

    ghost invariant = { λ o. (p : ℕ) → p < length o.rows.items →
        length (slice_index_or o.rows.items p []) ≡ p + 1 };
}

impl Order {
    /// The order of at most 16,384 products on equally many qubits, and what each of them uses.
    ///
    /// Takes a step for each letter and 64 earlier products, and one for each pair that shares a
    /// bit; of memory, a bit for each pair of products and two for each product and qubit.
    pub fn build(alloc: Global, products: &[Product], uses: &[Uses]) -> Result<Order, Memory>
        requires uses { length uses.now ≡ length products.now }
        requires few { length products.now ≤ 16384 }
        requires qubits { OneLength products.now }
        ensures { IfOk result (IsOrder products.now uses.now) }
    {
        let mut rows = clash_rows(alloc, products)?;
        mark_sharing(alloc, &mut rows, uses)?;
        Ok(Order { rows })
    }

    /// Whether two products commute.
    pub fn commute(&self, i: u32, j: u32) -> bool
        requires i { i < length self.now }
        requires j { j < length self.now }
        ensures { (ps : List Signed) (us : List Uses) → IsOrder ps us self.now →
            result ≡ commuting_at ps us i j }
    {
        if i < j {
            !self.rows[j as usize].has(i)
        } else {
            !self.rows[i as usize].has(j)
        }
    }

    /// The least product before `p` that doesn't commute with it and isn't done.
    pub fn waits_on(&self, p: u32, done: &DoneSet) -> Option<u32>
        requires p { p < length self.now }
        requires done { length done.now ≡ length self.now }
        ensures { (ps : List Signed) (us : List Uses) → IsOrder ps us self.now →
            LeastWait ps us done.now p result }
    {
        self.rows[p as usize].first_open(&done.bits, done.first, p)
    }
}

/// Which products are done: a truth value for each.
#[derive(Drop)]
pub struct DoneSet {
    bits: Bits,
    // The products before this one are done.
    first: u32,
}

impl Model for DoneSet {
    ghost use Rattle.std.specs.Prelude.{List, Bool};

    ghost Value = { List Bool };

    ghost use Rattle.commute_order.specs.inside.Words.{IsSetTo};

    ghost view = { λ d. d.bits };

    ghost invariant = { λ d. IsSetTo d.first d.bits };
}

impl DoneSet {
    /// The set of `n` products of which none is done.
    pub fn new(alloc: Global, n: u32) -> Result<DoneSet, Memory>
        ensures { IfOk result (λ d. d ≡ replicate n false) }
    {
        Ok(DoneSet {
            bits: Bits::new(alloc, n)?,
            first: 0,
        })
    }

    /// Marks a product as done.
    pub fn mark(&mut self, p: u32)
        requires { p < length self.old }
        ensures { self.new ≡ slice_set self.old p true }
    {
        self.bits.set(p);
        self.first = self.bits.first_unset(self.first);
    }

    /// Whether a product is done.
    pub fn has(&self, p: u32) -> bool
        requires { p < length self.now }
        ensures { slice_get self.now p ≡ Some result }
    {
        self.bits.has(p)
    }
}

// The number of qubits of products on equally many.
fn qubit_count(products: &[Product]) -> u32
    requires { OneLength products.now }
    ensures { All (OfLength result) products.now }
{
    if products.is_empty() {
        0
    } else {
        products[0].len()
    }
}

// Adds product p to the columns, and marks in its row those up to itself whose axes don't commute
// with its own.
fn clash_row(
    alloc: Global,
    x: &mut Vec<Bits>,
    z: &mut Vec<Bits>,
    products: &[Product],
    p: u32,
) -> Result<Bits, Memory>
    requires within { p < length products.now }
    requires few { length products.now ≤ 16384 }
    requires qubits { All (OfLength (length x.old.items)) products.now }
    requires x { IsColumns X products.now p (length x.old.items) (length products.now) x.old.items }
    requires z { IsColumns Z products.now p (length x.old.items) (length products.now) z.old.items }
    ensures x { OnOk result (IsColumns X products.now (p + 1) (length x.old.items)
        (length products.now) x.new.items) }
    ensures z { OnOk result (IsColumns Z products.now (p + 1) (length x.old.items)
        (length products.now) z.new.items) }
    ensures size { IfOk result (λ row. length row ≡ p + 1) }
    ensures marks { IfOk result (λ row. (j : ℕ) → j ≤ p →
        slice_index_or row j false ≡
        not (commute (slice_index_or products.now j (plus []))
        (slice_index_or products.now p (plus [])))) }
{
    let product = &products[p as usize];
    add_product(x, Letter::X, product, p);
    add_product(z, Letter::Z, product, p);
    let mut row = Bits::new(alloc, p + 1)?;
    mark_clashes(x, z, product, p, products.len() as u32, &mut row);
    Ok(row)
}

// For each product a row that marks those up to itself whose axes don't commute with its own.
fn clash_rows(alloc: Global, products: &[Product]) -> Result<Vec<Bits>, Memory>
    requires few { length products.now ≤ 16384 }
    requires qubits { OneLength products.now }
    ensures size { IfOk result (λ rows. length rows.items ≡ length products.now) }
    ensures long { IfOk result (λ rows. IsTriangle rows.items) }
    ensures marks { IfOk result (λ rows. (p j : ℕ) → p < length products.now → j ≤ p →
        mark rows.items p j ≡
        not (commute (slice_index_or products.now j (plus []))
        (slice_index_or products.now p (plus [])))) }
{
    let count = products.len() as u32;
    let qubits = qubit_count(products);
    let mut x = clear_columns(alloc, qubits, count)?;
    let mut z = clear_columns(alloc, qubits, count)?;
    let mut rows = Vec::with_capacity(alloc, products.len())?;
    for p in 0..count {
        rows.push_reserved(clash_row(alloc, &mut x, &mut z, products, p)?);
    }
    Ok(rows)
}

#[cfg(test)]
mod tests {
    use super::*;
    use std::test::Fail;

    const NOTHING: Uses = Uses {
        read_first: 0,
        read_size: 0,
        write: None,
    };

    // Products on one qubit.
    fn products(alloc: Global, letters: &[Letter]) -> Result<Vec<Product>, Memory>
        ensures one { IfOk result (λ v. All (OfLength 1) v.items) }
        ensures size { IfOk result (λ v. length v.items ≡ length letters.now) }
    {
        let mut products = Vec::new(alloc);
        for letter in letters {
            products.push(Product::new(alloc, false, &[*letter])?)?;
        }
        Ok(products)
    }

    fn order(alloc: Global, letters: &[Letter], uses: &[Uses]) -> Result<Order, Memory>
        requires same { length uses.now ≡ length letters.now }
        requires few { length letters.now ≤ 16384 }
        ensures { IfOk result (λ o. length o ≡ length letters.now) }
    {
        let products = products(alloc, letters)?;
        Order::build(alloc, &products, uses)
    }

    #[test]
    fn waits_on_the_least(rt: HostRuntime) -> Result<(), Fail> {
        let order = order(
            rt.alloc(),
            &[Letter::Z, Letter::X, Letter::Z],
            &[NOTHING; 3],
        )?;
        let mut done = DoneSet::new(rt.alloc(), 3)?;
        assert!(rt; order.commute(0, 2) && !order.commute(0, 1) && !order.commute(2, 1));
        assert_eq!(rt; order.waits_on(0, &done), None);
        assert_eq!(rt; order.waits_on(1, &done), Some(0));
        assert_eq!(rt; order.waits_on(2, &done), Some(1));
        done.mark(1);
        assert!(rt; done.has(1) && !done.has(0) && !done.has(2));
        assert_eq!(rt; order.waits_on(2, &done), None);
        Ok(())
    }

    // 130 products of which the last clashes with numbers 0, 70 and 71.
    fn across_words(alloc: Global) -> Result<Order, Memory>
        ensures { IfOk result (λ o. length o ≡ 130) }
    {
        let mut letters = [Letter::X; 130];
        letters[0] = Letter::Z;
        letters[70] = Letter::Y;
        letters[71] = Letter::Z;
        order(alloc, &letters, &[NOTHING; 130])
    }

    #[test]
    fn passes_words(rt: HostRuntime) -> Result<(), Fail> {
        let order = across_words(rt.alloc())?;
        let mut done = DoneSet::new(rt.alloc(), 130)?;
        assert_eq!(rt; order.waits_on(129, &done), Some(0));
        done.mark(0);
        assert_eq!(rt; order.waits_on(129, &done), Some(70));
        done.mark(70);
        assert_eq!(rt; order.waits_on(129, &done), Some(71));
        done.mark(71);
        assert_eq!(rt; order.waits_on(129, &done), None);
        Ok(())
    }

    #[test]
    fn keeps_writers_before_readers(rt: HostRuntime) -> Result<(), Fail> {
        let write = Uses {
            write: Some(2),
            ..NOTHING
        };
        let read = Uses {
            read_first: 1,
            read_size: 2,
            ..NOTHING
        };
        let other = Uses {
            read_first: 3,
            read_size: 2,
            ..NOTHING
        };
        let order = order(rt.alloc(), &[Letter::Z; 4], &[read, write, read, other])?;
        let mut done = DoneSet::new(rt.alloc(), 4)?;
        assert_eq!(rt; order.waits_on(1, &done), Some(0));
        assert_eq!(rt; order.waits_on(2, &done), Some(1));
        assert_eq!(rt; order.waits_on(3, &done), None);
        done.mark(1);
        assert_eq!(rt; order.waits_on(2, &done), None);
        Ok(())
    }
}
