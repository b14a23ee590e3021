//! Growth by one cell.

ghost use Rattle.std.specs.Prelude.{◌≡◌, ◌<◌, ◌≤◌, length, Some, IfOk};
ghost use Rattle.least_region.specs.inside.Growth.{Under, Keeps, Lowered, Queued, Spreads};

use patch_base::Memory;
use patch_layout::Layout;

/// Lowers the size at a free cell, and puts the cell into the queue, where this size is less.
pub(crate) fn lower(
    free: &[bool],
    row: &mut [u32],
    queue: &mut Vec<u32>,
    cell: u32,
    size: u32,
) -> Result<(), Memory>
    requires cell { cell < length free.now }
    requires sizes { length row.old ≡ length free.now }
    ensures { IfOk result (λ _.
        Lowered free.now cell size row.old queue.old.items row.new queue.new.items) }
{
    let at = cell as usize;
    if free[at] && size < row[at] {
        row[at] = size;
        queue.push(cell)?;
    }
    Ok(())
}

// Puts each cell whose size is below the limit into the queue, in the order of the cells.
fn gather(row: &[u32], limit: u32, queue: &mut Vec<u32>) -> Result<(), Memory>
    requires { length row.now ≤ 4096 }
    ensures { IfOk result (λ _. Queued row.now limit queue.new.items) }
{
    queue.clear();
    for cell in 0..row.len() {
        if row[cell] < limit {
            queue.push(cell as u32)?;
        }
    }
    Ok(())
}

// The size at a cell, and 0 where there is no such cell.
fn size_at(row: &[u32], cell: u32) -> u32 {
    match row.get(cell as usize) {
        Some(size) => *size,
        None => 0,
    }
}

/// Puts each cell whose size is below the limit into the queue, those of lesser sizes first, so that
/// few sizes are lowered more than once.
pub(crate) fn enqueue(row: &[u32], limit: u32, queue: &mut Vec<u32>) -> Result<(), Memory>
    requires { length row.now ≤ 4096 }
    ensures { IfOk result (λ _. Queued row.now limit queue.new.items) }
{
    gather(row, limit, queue)?;
    queue.sort_unstable_by_key(|cell| size_at(row, *cell));
    Ok(())
}

/// Lowers sizes until no free cell has more than one more than a neighbour has.
pub(crate) fn grow(
    layout: &Layout,
    free: &[bool],
    limit: u32,
    row: &mut [u32],
    queue: &mut Vec<u32>,
) -> Result<(), Memory>
    requires limit { limit ≤ 4096 }
    requires sizes { length row.old ≡ length layout.now.sites }
    requires free { length free.now ≡ length layout.now.sites }
    requires queued { Queued row.old limit queue.old.items }
    ensures keeps { IfOk result (λ _. Keeps layout.now free.now limit row.old row.new) }
    ensures under { IfOk result (λ _. Under row.old row.new) }
    ensures spread { IfOk result (λ _. Spreads layout.now free.now limit row.new) }
{
    let _ = layout.size();
    let mut head = 0;
    while head < queue.len() {
        let cell = queue[head];
        let size = row[cell as usize];
        if size < limit {
            for neighbour in layout.neighbours(cell) {
                if let Some(next) = neighbour {
                    lower(free, row, queue, next, size + 1)?;
                }
            }
        }
        head += 1;
    }
    Ok(())
}
