//! Who holds each cell.

ghost use Rattle.std.specs.Prelude.{◌≡◌, ℕ, ◌<◌, ◌≤◌, length, replicate, slice_get, slice_set, Some, None, IfOk};
ghost use Rattle.board_core.specs.inside.Cells.{FreedAt, HoldsBetween, LiesIn, without};

use patch_base::Memory;
use std::alloc::Global;
use std::marker::Model;

/// The cells from the first one to the last one.
#[derive(Clone, Copy, Debug, PartialEq, Eq)]
pub struct Span {
    pub first: u32,
    pub last: u32,
}

impl Span {
    /// No cell.
    fn empty() -> Span {
        Span {
            first: u32::MAX,
            last: 0,
        }
    }

    /// A span that has this cell too.
    fn with(self, cell: u32) -> Span
        ensures cell { LiesIn result cell }
        ensures others { (c : ℕ) → LiesIn self c → LiesIn result c }
    {
        Span {
            first: self.first.min(cell),
            last: self.last.max(cell),
        }
    }
}

/// The holder of each cell, where there is one.
#[derive(Drop)]
pub struct Holders {
    cells: Vec<Option<u32>>,
    // The cells of a product lie in its span, so that a release goes through few others.
    spans: Vec<Span>,
}

impl Model for Holders {
    ghost use Rattle.std.specs.Prelude.{ℕ, List, Option};

    ghost Value = { List (Option ℕ) };

    ghost use Rattle.board_core.specs.inside.Cells.{Spanned};

    ghost view = { λ h. h.cells.items };

    ghost invariant = { λ h. Spanned h.cells.items h.spans.items };
}

impl Holders {
    /// Cells that no product holds, for so many products.
    pub fn new(alloc: Global, cells: usize, products: usize) -> Result<Holders, Memory>
        ensures { IfOk result (λ h. h ≡ replicate cells None) }
    {
        Ok(Holders {
            cells: vec![in alloc; None; cells]?,
            spans: vec![in alloc; Span::empty(); products]?,
        })
    }

    pub fn as_slice(&self) -> &[Option<u32>]
        ensures { result.now ≡ self.now }
    {
        self.cells.as_slice()
    }

    /// Gives a cell to a product.
    pub fn give(&mut self, cell: u32, by: u32)
        requires { cell < length self.old }
        ensures { self.new ≡ slice_set self.old cell (Some by) }
    {
        self.cells[cell as usize] = Some(by);
        let p = by as usize;
        if p < self.spans.len() {
            self.spans[p] = self.spans[p].with(cell);
        }
    }

    /// Two numbers: the cells of a product lie from the first one on, and below the second one.
    fn reach(&self, by: u32) -> (usize, usize)
        ensures end { result.1 ≤ length self.now }
        ensures lie { HoldsBetween result.0 result.1 by self.now }
    {
        let all = self.cells.len();
        match self.spans.get(by as usize) {
            Some(span) => (span.first as usize, all.min(span.last as usize + 1)),
            None => (0, all),
        }
    }

    /// Takes back all cells that a product holds.
    pub fn free(&mut self, by: u32)
        ensures size { length self.new ≡ length self.old }
        ensures freed { (c : ℕ) → FreedAt by self.old self.new c }
    {
        let (first, end) = self.reach(by);
        free_between(by, first, end, &mut self.cells);
    }
}

/// None where this product holds the cell.
fn without(by: u32, holder: Option<u32>) -> Option<u32>
    ensures { result ≡ without by holder }
{
    match holder {
        Some(other) => { if other == by { None } else { Some(other) } }
        None => None,
    }
}

/// Takes back what a product holds of the cells from `first` on, up to `end`.
fn free_between(by: u32, first: usize, end: usize, holders: &mut [Option<u32>])
    requires { end ≤ length holders.old }
    ensures size { length holders.new ≡ length holders.old }
    ensures freed { (c : ℕ) → first ≤ c → c < end → FreedAt by holders.old holders.new c }
    ensures before { (c : ℕ) → c < first → slice_get holders.new c ≡ slice_get holders.old c }
    ensures after { (c : ℕ) → end ≤ c → slice_get holders.new c ≡ slice_get holders.old c }
{
    for cell in first..end {
        holders[cell] = without(by, holders[cell]);
    }
}
