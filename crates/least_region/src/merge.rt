//! Union at a common cell.

ghost use Rattle.std.specs.Prelude.{◌≡◌, ℕ, ◌+◌, ◌<◌, ◌≤◌, ◌↔◌, length, IsTrue, bit_and};
ghost use Rattle.least_region.specs.inside.Growth.{IsSome, HasRows, Merged, MergedTo};

use crate::table::Row;

// How many cells the union of two sets has at most that share a cell, where these sizes and that
// aren't above the limit; else a number above it.
fn union_size(one: u32, other: u32, limit: u32) -> u32
    requires one { 0 < one }
    requires other { 0 < other }
    requires limit { limit ≤ 4096 }
    ensures some { 0 < result }
    ensures least { (k : ℕ) → one + other ≡ k + 1 → k ≤ limit → result ≤ k }
    ensures made { result ≤ limit → (one + other ≡ result + 1) × (one ≤ limit) }
{
    if one > limit || other > limit {
        limit + 1
    } else {
        one + other - 1
    }
}

// Lowers each size to that of a union of two sets which share the cell.
fn merge(one: &[u32], other: &[u32], limit: u32, row: &mut [u32])
    requires limit { limit ≤ 4096 }
    requires one { length one.now ≡ length row.old }
    requires other { length other.now ≡ length row.old }
    requires one_some { IsSome one.now }
    requires other_some { IsSome other.now }
    ensures { Merged one.now other.now limit row.old row.new (length row.old) }
{
    for cell in 0..row.len() {
        let size = union_size(one[cell], other[cell], limit);
        if size < row[cell] {
            row[cell] = size;
        }
    }
}

// Whether the two subsets have no side in common, and the first one has the lesser number.
fn is_split(one: u32, other: u32) -> bool
    ensures { IsTrue result ↔ ((one ≤ other) × (bit_and one other ≡ 0)) }
{
    one <= other && one & other == 0
}

/// Lowers each size to the least of a union of two sets for two parts of the subset.
pub(crate) fn merge_parts(rows: &[Row], subset: u32, limit: u32, row: &mut [u32])
    requires limit { limit ≤ 4096 }
    requires subset { subset ≤ length rows.now }
    requires some { 0 < subset }
    requires rows { HasRows rows.now (length row.old) }
    ensures { MergedTo rows.now subset limit row.old row.new subset }
{
    for one in 1..subset {
        let other = subset - one;
        if is_split(one, other) {
            let first = rows[one as usize].sizes();
            let second = rows[other as usize].sizes();
            merge(first, second, limit, row);
        }
    }
}
