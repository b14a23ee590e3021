//! A picture that is drawn once, and of which then claimed cells alone are written anew.

ghost use Rattle.std.specs.Prelude.{◌≡◌, ◌+◌, ◌++◌, ◌<◌, ◌≤◌, ℕ, Option, All, take, drop, length, decimal, IfOk};
ghost use Rattle.patch_layout.specs.Grid.{Grid};
ghost use Rattle.slice_write.specs.Pictures.{aligned, picture, nobody};
ghost use Rattle.slice_write.specs.inside.Marks.{mark_at, with_mark, IsNarrow};

use crate::marks::Mark;
use crate::picture::put_piece;
use itoa::Buffer;
use patch_base::{Memory, Pen};
use patch_layout::Layout;
use std::alloc::Global;

#[derive(Drop)]
pub(crate) struct Drawing {
    pub(crate) bytes: Vec<u8>,
    /// The picture without claims.
    pub(crate) blank: Vec<u8>,
    /// By cell: where its text begins.
    pub(crate) starts: Vec<usize>,
}

// A number at the right of six columns.
fn six_columns(n: u32) -> [u8; 6]
    requires { n < 1000000 }
    ensures { result ≡ aligned (decimal n) }
{
    let mut six = [b' '; 6];
    let mut buffer = Buffer::new();
    let digits = buffer.format(n).as_bytes();
    six[6 - digits.len()..].copy_from_slice(digits);
    six
}

// Writes six bytes from a place on.
fn write_at(bytes: &mut [u8], start: usize, six: &[u8; 6])
    requires { start + 6 ≤ length bytes.old }
    ensures { bytes.new ≡ take start bytes.old ++ (six.now ++ drop (start + 6) bytes.old) }
{
    bytes[start..start + 6].copy_from_slice(six);
}

impl Drawing {
    ghost use Rattle.slice_write.specs.inside.Pages.{Draws};

    pub(crate) fn new(alloc: Global, layout: &Layout) -> Result<Drawing, Memory>
        ensures { IfOk result (Draws layout.now nobody) }
    {
        let mut blank = Vec::new(alloc);
        let mut starts = Vec::new(alloc);
        let mut pen = Pen::new();
        for cell in 0..layout.size() {
            pen.clear();
            put_piece(&mut pen, layout, cell);
            starts.push(blank.len())?;
            blank.extend_from_slice(pen.held())?;
        }
        let bytes = Vec::from_slice(alloc, &blank)?;
        Ok(Drawing {
            bytes,
            blank,
            starts,
        })
    }

    /// Shows these marks alone.
    pub(crate) fn show(&mut self, marks: &[Mark])
        requires { (g : Grid) × (shown : ℕ → Option ℕ) × Draws g shown self.old
            × All (IsNarrow g) marks.now }
        ensures { (g : Grid) (shown : ℕ → Option ℕ) → Draws g shown self.old
            → All (IsNarrow g) marks.now → Draws g (mark_at marks.now) self.new }
    {
        self.bytes.copy_from_slice(&self.blank);
        for mark in marks {
            self.put(*mark);
        }
    }

    fn put(&mut self, mark: Mark)
        requires { (g : Grid) × (shown : ℕ → Option ℕ) × Draws g shown self.old × IsNarrow g mark }
        ensures { (g : Grid) (shown : ℕ → Option ℕ) → Draws g shown self.old → IsNarrow g mark
            → Draws g (with_mark shown mark) self.new }
    {
        let start = self.starts[mark.cell as usize];
        let six = six_columns(mark.product);
        write_at(&mut self.bytes, start, &six);
    }
}
