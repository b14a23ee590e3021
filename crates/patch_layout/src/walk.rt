//! Walks through free cells, breadth first.

ghost use Rattle.std.specs.Prelude.{◌≡◌, ℕ, ◌+◌, ◌<◌, ◌≤◌, ◌++◌, ◌∷◌, [], length, map, true, slice_set, Some, IfOk, All, AllPairs, ◌≢◌, Contains, if◌then◌else◌};
ghost use Rattle.patch_layout.specs.Grid.{neighbours, Sound};
ghost use Rattle.patch_layout.specs.Spread.{Marked, starting};
ghost use Rattle.patch_layout.specs.inside.Spread.{is_new, Ended};

use crate::layout::Layout;
use patch_base::Memory;

/// A cell that a walk reached: the place in the queue that it was reached from, and its steps from the first cells.
#[derive(Clone, Copy, Debug, PartialEq, Eq)]
pub struct Reached {
    pub cell: u32,
    pub from: u32,
    pub steps: u32,
}

// Puts a free cell into the queue that isn't seen yet.
fn reach(
    free: &[bool],
    seen: &mut [bool],
    queue: &mut Vec<Reached>,
    next: Reached,
) -> Result<(), Memory>
    requires free { next.cell < length free.now }
    requires seen { next.cell < length seen.old }
    ensures queue { IfOk result (λ _. queue.new.items
        ≡ (if is_new free.now seen.old next.cell then queue.old.items
        ++ next ∷ [] else queue.old.items)) }
    ensures seen { IfOk result (λ _. seen.new
        ≡ (if is_new free.now seen.old next.cell then slice_set seen.old next.cell true else
        seen.old)) }
{
    let cell = next.cell as usize;
    if free[cell] && !seen[cell] {
        seen[cell] = true;
        queue.push(next)?;
    }
    Ok(())
}

// Starts a walk at these cells.
fn begin(cells: &[u32], seen: &mut [bool], queue: &mut Vec<Reached>) -> Result<(), Memory>
    requires { All (λ c. c < length seen.old) cells.now }
    ensures queue { IfOk result (λ _. queue.new.items ≡ map starting cells.now) }
    ensures seen { IfOk result (λ _. (c : ℕ) → Marked seen.new c → Contains cells.now c) }
    ensures starts { IfOk result (λ _. (c : ℕ) → Contains cells.now c → Marked seen.new c) }
{
    queue.clear();
    seen.fill(false);
    for cell in cells {
        seen[*cell as usize] = true;
        queue.push(Reached {
            cell: *cell,
            from: 0,
            steps: 0,
        })?;
    }
    Ok(())
}

// Reaches all free cells that walks lead to from these cells.
pub fn spread(
    layout: &Layout,
    free: &[bool],
    cells: &[u32],
    seen: &mut [bool],
    queue: &mut Vec<Reached>,
) -> Result<(), Memory>
    requires free { length free.now ≡ length layout.now.sites }
    requires seen { length seen.old ≡ length layout.now.sites }
    requires cells { All (λ c. c < length layout.now.sites) cells.now }
    requires distinct { AllPairs (λ a b. a ≢ b) cells.now }
    requires few { length cells.now ≤ 4096 }
    requires sound { Sound layout.now }
    ensures { IfOk result (λ _. Ended layout.now free.now cells.now queue.new.items seen.new) }
{
    begin(cells, seen, queue)?;
    let mut head = 0;
    while head < queue.len() {
        let at = queue[head];
        for next in layout.neighbours(at.cell) {
            if let Some(cell) = next {
                reach(
                    free,
                    seen,
                    queue,
                    Reached {
                        cell,
                        from: head as u32,
                        steps: at.steps + 1,
                    },
                )?;
            }
        }
        head += 1;
    }
    Ok(())
}
