//! Marks of cells.

ghost use Rattle.std.specs.Prelude.{◌≡◌, ◌<◌, ◌≤◌, ◌↔◌, All, false, true, length, replicate, slice_set, IfOk, IsTrue};
ghost use Rattle.patch_layout.specs.Spread.{Marked};

use patch_base::Memory;
use std::alloc::Global;
use std::marker::Model;

/// A mark for each cell, which contracts see as a list. A cell is marked where it has the number of the latest clearing, so that all marks are cleared at once.
#[derive(Drop)]
pub(crate) struct Marks {
    numbers: Vec<u32>,
    latest: u32,
}

impl Model for Marks {
    ghost use Rattle.std.specs.Prelude.{List, Bool, All, map, ◌≤◌, ◌==◌};

    ghost Value = { List Bool };

    ghost view = { λ s. map (λ n. n == s.latest) s.numbers.items };

    ghost invariant = { λ s. All (λ n. n ≤ s.latest) s.numbers.items };
}

impl Marks {
    /// The marks of so many cells.
    pub(crate) fn new(alloc: Global, size: u32) -> Result<Marks, Memory>
        ensures { IfOk result (λ marks. length marks ≡ size) }
    {
        let numbers = vec![in alloc; 0u32; size as usize]?;
        Ok(Marks { numbers, latest: 0 })
    }

    /// Clears all marks.
    pub(crate) fn clear(&mut self)
        ensures { self.new ≡ replicate (length self.old) false }
    {
        self.latest = next_number(&mut self.numbers, self.latest);
    }

    /// Whether the cell is marked.
    pub(crate) fn has(&self, cell: u32) -> bool
        ensures { IsTrue result ↔ Marked self.now cell }
    {
        match self.numbers.get(cell as usize) {
            Some(number) => *number == self.latest,
            None => false,
        }
    }

    /// Marks a cell.
    pub(crate) fn mark(&mut self, cell: u32)
        requires { cell < length self.old }
        ensures { self.new ≡ slice_set self.old cell true }
    {
        self.numbers[cell as usize] = self.latest;
    }
}

// A number above all in the list, which starts anew where there is no greater one.
fn next_number(numbers: &mut Vec<u32>, latest: u32) -> u32
    requires { All (λ n. n ≤ latest) numbers.old.items }
    ensures above { All (λ n. n < result) numbers.new.items }
    ensures sizes { length numbers.new.items ≡ length numbers.old.items }
{
    if latest == u32::MAX {
        numbers.fill(0);
        return 1;
    }
    latest + 1
}
