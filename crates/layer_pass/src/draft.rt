//! Products placed one after the other, each as low as can be, and the chain traced back from the
//! last layer.
//!
//! Where a product goes is asked of sets of the products of lower layers, 64 products a step. Only
//! rows with many products have such a set of those below; the few products of the rows between are
//! compared one by one.

ghost use Rattle.std.specs.Prelude.{◌≡◌, ℕ, ◌+◌, ◌-◌, ◌<◌, ◌≤◌, ◌^◌, ◌++◌, ◌∷◌, [], List, length, slice_index, slice_index_or, slice_set, max, None, Some, IfOk, IfSome, OnOk, All};
ghost use Rattle.pauli_product.specs.Signed.{Signed};
ghost use Rattle.commute_order.specs.declared.Uses.{Uses};
ghost use Rattle.commute_order.specs.Commuting.{IsOrder, LeastWait};
ghost use Rattle.layer_pass.specs.declared.draft.Low.{Low};
ghost use Rattle.layer_pass.specs.inside.Drafts.{first_clash_of, IsPlace, IsFilled, IsDraft, IsWalk};
ghost use Rattle.layer_pass.specs.inside.Lows.{IsLow, IsReach, marked};

use crate::NumberList;
use commute_order::{DoneSet, Order};
use patch_base::Memory;
use std::alloc::Global;

// A row of so many products has a set of those below it.
const MANY: usize = 16;

// Products in their layers.
#[derive(Drop)]
pub struct Draft {
    // By product, its layer, from 1 on.
    pub layer: Vec<u32>,
    // By product above the first layer, the product of the layer below that holds it there.
    pub before: Vec<u32>,
    // By layer, its products, ascending.
    pub rows: Vec<NumberList>,
}

// Where a product goes: above so many layers, held there by a product of the last of them.
#[derive(Clone, Copy)]
struct Place {
    below: u32,
    blocker: u32,
}

// How far the place of a product is known: from the sets before `from` and from `to` on, of which
// each before `from` has lower rows than the place, and no row from `end` on holds the product.
#[derive(Clone, Copy)]
struct Reach {
    place: Place,
    end: u32,
    from: usize,
    to: usize,
}

// The set of the products in the rows below one.
#[derive(Drop)]
struct Low {
    row: u32,
    set: DoneSet,
}

// The first of some products that doesn't commute with p.
fn first_clash(order: &Order, row: &[u32], p: u32) -> Option<u32>
    requires p { p < length order.now }
    requires row { All (λ j. j < p) row.now }
    ensures earlier { IfSome result (λ j. j < p) }
    ensures first { (ps : List Signed) (us : List Uses) → IsOrder ps us order.now →
        result ≡ first_clash_of ps us p row.now }
{
    for j in row {
        if !order.commute(*j, p) {
            return Some(*j);
        }
    }
    None
}

// The first product in the rows from a set's own on that doesn't commute with p.
fn first_above(order: &Order, low: &Low, p: u32) -> Option<u32>
    requires p { p < length order.now }
    requires size { length low.now.set ≡ length order.now }
    ensures earlier { IfSome result (λ j. j < p) }
    ensures first { (ps : List Signed) (us : List Uses) → IsOrder ps us order.now →
        LeastWait ps us low.now.set p result }
{
    let first = order.waits_on(p, &low.set)?;
    if first < p { Some(first) } else { None }
}

// Compares a product with the rows below `end`, from the top down to the place that is known.
fn place_between(order: &Order, rows: &[NumberList], place: Place, end: u32, p: u32) -> Place
    requires p { p < length order.now }
    requires rows { All (All (λ j. j < p)) rows.now }
    requires end { end ≤ length rows.now }
    ensures low { (place.below ≤ result.below) × (result.below ≤ max place.below end) }
    ensures earlier { place.blocker ≤ p → result.blocker ≤ p }
    ensures kept { result.below ≡ place.below → result.blocker ≡ place.blocker }
    ensures silent { (ps : List Signed) (us : List Uses) → IsOrder ps us order.now →
        (k : ℕ) → result.below ≤ k → k < end →
        first_clash_of ps us p (slice_index_or rows.now k []) ≡ None }
    ensures found { (ps : List Signed) (us : List Uses) → IsOrder ps us order.now →
        place.below < result.below →
        first_clash_of ps us p (slice_index_or rows.now (result.below - 1) []) ≡
        Some result.blocker }
{
    let mut k = end;
    while place.below < k {
        k -= 1;
        if let Some(blocker) = first_clash(order, rows[k as usize].as_slice(), p) {
            return Place {
                below: k + 1,
                blocker,
            };
        }
    }
    place
}

// Tries one of the sets that aren't tried yet.
fn narrow(order: &Order, lows: &[Low], reach: Reach, at: usize, p: u32) -> Reach
    requires p { p < length order.now }
    requires sizes { All (λ low. length low.set ≡ length order.now) lows.now }
    requires few { All (λ low. low.row + 1 < 2 ^ 32) lows.now }
    requires some { (reach.from ≤ at) × (at < reach.to) × (reach.to ≤ length lows.now) }
    ensures fewer { (result.from ≤ result.to) × (result.to - result.from < reach.to - reach.from) }
    ensures to { result.to ≤ length lows.now }
    ensures earlier { reach.place.blocker ≤ p → result.place.blocker ≤ p }
    ensures below { (count : ℕ) → All (λ low. low.row < count) lows.now →
        reach.place.below ≤ count → result.place.below ≤ count }
    ensures end { (count : ℕ) → All (λ low. low.row < count) lows.now →
        reach.end ≤ count → result.end ≤ count }
    ensures reach { (ps : List Signed) (us : List Uses) (layer : List ℕ) (rows : List (List ℕ)) →
        IsOrder ps us order.now → length layer ≡ p → IsFilled layer rows →
        All (IsLow layer (length order.now)) lows.now →
        IsReach ps us layer rows p reach.place.below reach.place.blocker reach.end →
        IsReach ps us layer rows p result.place.below result.place.blocker result.end }
{
    let low = &lows[at];
    match first_above(order, low, p) {
        Some(blocker) => Reach {
            place: Place {
                below: low.row + 1,
                blocker,
            },
            end: reach.end,
            from: at + 1,
            to: reach.to,
        },
        None => Reach {
            place: reach.place,
            end: low.row,
            from: reach.from,
            to: at,
        },
    }
}

// The row above that of the last set.
fn top_row(lows: &[Low]) -> u32
    requires few { All (λ low. low.row + 1 < 2 ^ 32) lows.now }
    ensures { (count : ℕ) → All (λ low. low.row < count) lows.now → result ≤ count }
{
    match lows.last() {
        Some(low) => low.row + 1,
        None => 0,
    }
}

// The place of a product over those before it, which stand in these layers.
fn place_of(order: &Order, layer: &[u32], rows: &[NumberList], lows: &[Low], p: u32) -> Place
    requires p { p < length order.now }
    requires layer { length layer.now ≡ p }
    requires few { length rows.now < 2 ^ 32 }
    requires filled { IsFilled layer.now rows.now }
    requires within { All (λ low. low.row < length rows.now) lows.now }
    requires lows { All (IsLow layer.now (length order.now)) lows.now }
    ensures low { result.below ≤ length rows.now }
    ensures earlier { result.blocker ≤ p }
    ensures place { (ps : List Signed) (us : List Uses) → IsOrder ps us order.now →
        IsPlace ps us rows.now p result.below result.blocker }
{
    let top = top_row(lows);
    let none = Place {
        below: top,
        blocker: 0,
    };
    let place = place_between(order, rows, none, rows.len() as u32, p);
    if top < place.below {
        return place;
    }
    search(order, layer, rows, lows, top, p)
}

// The same where no row from `top` on holds the product. Most products go high, so the last set is
// tried first.
fn search(
    order: &Order,
    layer: &[u32],
    rows: &[NumberList],
    lows: &[Low],
    top: u32,
    p: u32,
) -> Place
    requires p { p < length order.now }
    requires layer { length layer.now ≡ p }
    requires few { length rows.now < 2 ^ 32 }
    requires filled { IsFilled layer.now rows.now }
    requires within { All (λ low. low.row < length rows.now) lows.now }
    requires lows { All (IsLow layer.now (length order.now)) lows.now }
    requires top { top ≤ length rows.now }
    ensures low { result.below ≤ length rows.now }
    ensures earlier { result.blocker ≤ p }
    ensures place { (ps : List Signed) (us : List Uses) → IsOrder ps us order.now →
        ((k : ℕ) → top ≤ k → k < length rows.now →
        first_clash_of ps us p (slice_index_or rows.now k []) ≡ None) →
        IsPlace ps us rows.now p result.below result.blocker }
{
    let mut reach = Reach {
        place: Place {
            below: 0,
            blocker: 0,
        },
        end: top,
        from: 0,
        to: lows.len(),
    };
    let mut at = lows.len().saturating_sub(1);
    while reach.from < reach.to {
        reach = narrow(order, lows, reach, at, p);
        at = reach.from + (reach.to - reach.from) / 2;
    }
    place_between(order, rows, reach.place, reach.end, p)
}

// Puts product p after the others of a row, or into a new row above all.
fn put(alloc: Global, rows: &mut Vec<NumberList>, k: u32, p: u32) -> Result<(), Memory>
    requires { k ≤ length rows.old.items }
    ensures old { OnOk result (k < length rows.old.items →
        rows.new.items ≡ slice_set rows.old.items k
        (slice_index_or rows.old.items k [] ++ p ∷ [])) }
    ensures new { OnOk result (k ≡ length rows.old.items →
        rows.new.items ≡ rows.old.items ++ (p ∷ []) ∷ []) }
{
    if (k as usize) < rows.len() {
        let row = &mut rows[k as usize];
        return row.push(p);
    }
    let mut row = NumberList::new(alloc);
    row.push(p)?;
    rows.push(row)?;
    Ok(())
}

// Puts product p into a set, if it went into a row below the set's.
fn mark_low(low: &mut Low, below: u32, p: u32)
    requires { p < length low.old.set }
    ensures { low.new ≡ marked below p low.old }
{
    if below < low.row {
        low.set.mark(p);
    }
}

// Puts product p, which went above so many layers, into each set of a row above its own.
fn mark_lows(lows: &mut [Low], below: u32, p: u32)
    requires { All (λ low. p < length low.set) lows.old }
    ensures size { length lows.new ≡ length lows.old }
    ensures each { (k : ℕ) (d : Low) → k < length lows.old →
        slice_index_or lows.new k d ≡ marked below p (slice_index_or lows.old k d) }
{
    for low in lows.iter_mut() {
        mark_low(low, below, p);
    }
}

// The set for a row, of the products so far.
fn low_of(alloc: Global, layer: &[u32], row: u32, n: u32) -> Result<Low, Memory>
    requires { length layer.now ≤ n }
    ensures row { IfOk result (λ low. low.row ≡ row) }
    ensures low { IfOk result (IsLow layer.now n) }
{
    let mut set = DoneSet::new(alloc, n)?;
    for (j, number) in layer.iter().enumerate() {
        if *number <= row {
            set.mark(j as u32);
        }
    }
    Ok(Low { row, set })
}

// Adds the set for a row, if the row has just become long.
fn add_low(
    alloc: Global,
    lows: &mut Vec<Low>,
    layer: &[u32],
    row: &NumberList,
    k: u32,
    n: u32,
) -> Result<(), Memory>
    requires { length layer.now ≤ n }
    ensures within { OnOk result ((count : ℕ) → k < count →
        All (λ low. low.row < count) lows.old.items → All (λ low. low.row < count) lows.new.items) }
    ensures lows { OnOk result (All (IsLow layer.now n) lows.old.items →
        All (IsLow layer.now n) lows.new.items) }
{
    if row.as_slice().len() != MANY {
        return Ok(());
    }
    let low = low_of(alloc, layer, k, n)?;
    let at = lows.partition_point(|other| other.row < k);
    lows.insert(at, low)?;
    Ok(())
}

// Places the products of an order one after the other.
pub fn place_all(alloc: Global, order: &Order, n: u32) -> Result<Draft, Memory>
    requires { n ≡ length order.now }
    ensures sizes { IfOk result (λ d. (length d.layer.items ≡ n) × (length d.before.items ≡ n) ×
        (length d.rows.items ≤ n)) }
    ensures before { IfOk result (λ d. All (λ j. j < n) d.before.items) }
    ensures filled { IfOk result (λ d. IsFilled d.layer.items d.rows.items) }
    ensures draft { IfOk result (λ d. (ps : List Signed) (us : List Uses) →
        IsOrder ps us order.now → IsDraft ps us d.layer.items d.before.items) }
{
    let mut layer = Vec::with_capacity(alloc, n as usize)?;
    let mut before = Vec::with_capacity(alloc, n as usize)?;
    let mut rows = Vec::new(alloc);
    let mut lows = Vec::new(alloc);
    for p in 0..n {
        let place = place_of(order, &layer, &rows, &lows, p);
        put(alloc, &mut rows, place.below, p)?;
        layer.push(place.below + 1)?;
        before.push(place.blocker)?;
        mark_lows(&mut lows, place.below, p);
        let row = &rows[place.below as usize];
        add_low(alloc, &mut lows, &layer, row, place.below, n)?;
    }
    Ok(Draft {
        layer,
        before,
        rows,
    })
}

// Writes a product to the end of the chain, and to each place before it the product that holds the
// next one in its layer.
fn walk_back(chain: &mut [u32], before: &[u32], last: u32)
    requires last { last < length before.now }
    requires before { All (λ j. j < length before.now) before.now }
    ensures last { (i : ℕ) → i + 1 ≡ length chain.new → slice_index chain.new i ≡ last }
    ensures before { (i : ℕ) → i + 1 < length chain.new →
        slice_index chain.new i ≡ slice_index before.now (slice_index chain.new (i + 1)) }
{
    let mut p = last;
    for k in (0..chain.len()).rev() {
        chain[k] = p;
        p = before[p as usize];
    }
}

// The chain that ends in the first product of the last row.
pub fn trace_chain(alloc: Global, rows: &[NumberList], before: &[u32]) -> Result<Vec<u32>, Memory>
    requires rows { All (λ row. (0 < length row) × All (λ j. j < length before.now) row) rows.now }
    requires before { All (λ j. j < length before.now) before.now }
    ensures { IfOk result (λ chain. IsWalk rows.now before.now chain.items) }
{
    let mut chain = vec![in alloc; 0u32; rows.len()]?;
    if let Some(row) = rows.last() {
        walk_back(&mut chain, before, row.as_slice()[0]);
    }
    Ok(chain)
}
