//! Which products share a bit: one reads it, and the other writes it.
//!
//! The products that write stand by their bit, so the bits that a product reads are written by one
//! run of them. So only those pairs are looked at that share a bit.

ghost use Rattle.std.specs.Prelude.{◌≡◌, ℕ, ◌+◌, ◌<◌, ◌≤◌, ◌||◌, Bool, true, false, List, [], length, slice_index_or, slice_set, max, min, Some, IfOk, OnOk, Contains, All};
ghost use Rattle.std.specs.List.Sorted.{IsNonDecreasingBy};
ghost use Rattle.commute_order.specs.declared.Uses.{Uses};
ghost use Rattle.commute_order.specs.declared.sharing.Writer.{Writer};
ghost use Rattle.commute_order.specs.Commuting.{reads_from};
ghost use Rattle.commute_order.specs.inside.Commuting.{reads_bit};
ghost use Rattle.commute_order.specs.Sharing.{mark};
ghost use Rattle.commute_order.specs.inside.Sharing.{ListsWriters, IsTriangle, pair_with, shares_bit};

use crate::Uses;
use crate::bits::Bits;
use patch_base::Memory;
use std::alloc::Global;

// A product that writes a bit.
#[derive(Clone, Copy)]
struct Writer {
    bit: u32,
    product: u32,
}

// The products that write bits.
fn list_writers(alloc: Global, uses: &[Uses]) -> Result<Vec<Writer>, Memory>
    requires { length uses.now ≤ 16384 }
    ensures { IfOk result (λ v. ListsWriters uses.now (length uses.now) v.items) }
{
    let mut writers = Vec::new(alloc);
    for (p, own) in uses.iter().enumerate() {
        if let Some(bit) = own.write {
            writers.push(Writer {
                bit,
                product: p as u32,
            })?;
        }
    }
    Ok(writers)
}

// The products that write bits, by bit.
fn writers_by_bit(alloc: Global, uses: &[Uses]) -> Result<Vec<Writer>, Memory>
    requires { length uses.now ≤ 16384 }
    ensures listed { IfOk result (λ v. ListsWriters uses.now (length uses.now) v.items) }
    ensures rising { IfOk result (λ v. IsNonDecreasingBy (λ w. w.bit) v.items) }
{
    let mut writers = list_writers(alloc, uses)?;
    writers.sort_unstable_by_key(|w| w.bit);
    Ok(writers)
}

// Those of the writers whose bit is read.
fn writers_read<'a>(writers: &'a [Writer], own: &Uses) -> &'a [Writer]
    requires { IsNonDecreasingBy (λ w. w.bit) writers.now }
    ensures read { All (λ w. Contains writers.now w × (reads_bit own.now (Some w.bit) ≡
        true)) result.now }
    ensures each { (w : Writer) → Contains writers.now w → reads_bit own.now (Some w.bit) ≡ true →
        Contains result.now w }
{
    let first = u64::from(own.read_first);
    let end = first + u64::from(own.read_size);
    let from = writers.partition_point(|w| u64::from(w.bit) < first);
    let rest = &writers[from..];
    let count = rest.partition_point(|w| u64::from(w.bit) < end);
    &rest[..count]
}

// Marks the earlier of two products in the row of the later one.
fn mark_pair(rows: &mut [Bits], a: u32, b: u32)
    requires a { a < length rows.old }
    requires b { b < length rows.old }
    requires long { IsTriangle rows.old }
    ensures { rows.new ≡
        slice_set rows.old (max a b) (slice_set (slice_index_or rows.old (max a b) [])
        (min a b) true) }
{
    let row = &mut rows[a.max(b) as usize];
    row.set(a.min(b));
}

// Marks product r with each of the writers.
fn mark_pairs(rows: &mut [Bits], writers: &[Writer], r: u32)
    requires within { r < length rows.old }
    requires writers { All (λ w. w.product < length rows.old) writers.now }
    requires long { IsTriangle rows.old }
    ensures size { length rows.new ≡ length rows.old }
    ensures long { IsTriangle rows.new }
    ensures marked { (w : Writer) → Contains writers.now w →
        mark rows.new (max r w.product) (min r w.product) ≡ true }
    ensures others { (test : ℕ → Bool) (p j : ℕ) → All (λ w. test w.product ≡ true) writers.now →
        (mark rows.new p j || pair_with test r p j) ≡ (mark rows.old p j || pair_with test r p j) }
{
    for w in writers {
        mark_pair(rows, r, w.product);
    }
}

// Marks product r with those that write a bit that it reads.
fn mark_reader(rows: &mut [Bits], writers: &[Writer], uses: &[Uses], r: u32)
    requires within { r < length uses.now }
    requires rows { length rows.old ≡ length uses.now }
    requires long { IsTriangle rows.old }
    requires listed { ListsWriters uses.now (length uses.now) writers.now }
    requires rising { IsNonDecreasingBy (λ w. w.bit) writers.now }
    ensures size { length rows.new ≡ length rows.old }
    ensures long { IsTriangle rows.new }
    ensures marks { (p j : ℕ) (d : Uses) → j ≤ p → p < length uses.now →
        mark rows.new p j ≡ (mark rows.old p j ||
        pair_with (λ k. reads_from (slice_index_or uses.now r d) (slice_index_or uses.now k d)) r p
        j) }
{
    let read = writers_read(writers, &uses[r as usize]);
    mark_pairs(rows, read, r);
}

// Marks each reader in turn.
fn mark_readers(rows: &mut [Bits], writers: &[Writer], uses: &[Uses])
    requires few { length uses.now ≤ 16384 }
    requires rows { length rows.old ≡ length uses.now }
    requires long { IsTriangle rows.old }
    requires listed { ListsWriters uses.now (length uses.now) writers.now }
    requires rising { IsNonDecreasingBy (λ w. w.bit) writers.now }
    ensures size { length rows.new ≡ length rows.old }
    ensures long { IsTriangle rows.new }
    ensures marks { (p j : ℕ) (d : Uses) → j ≤ p → p < length uses.now →
        mark rows.new p j ≡ (mark rows.old p j ||
        shares_bit (slice_index_or uses.now j d) (slice_index_or uses.now p d)) }
{
    for r in 0..uses.len() as u32 {
        mark_reader(rows, writers, uses, r);
    }
}

// Marks in the row of each product those up to itself that share a bit with it.
pub fn mark_sharing(alloc: Global, rows: &mut [Bits], uses: &[Uses]) -> Result<(), Memory>
    requires few { length uses.now ≤ 16384 }
    requires rows { length rows.old ≡ length uses.now }
    requires long { IsTriangle rows.old }
    ensures long { OnOk result (IsTriangle rows.new) }
    ensures marks { OnOk result ((p j : ℕ) (d : Uses) → j ≤ p → p < length uses.now →
        mark rows.new p j ≡ (mark rows.old p j ||
        shares_bit (slice_index_or uses.now j d) (slice_index_or uses.now p d))) }
{
    let writers = writers_by_bit(alloc, uses)?;
    mark_readers(rows, &writers, uses);
    Ok(())
}
