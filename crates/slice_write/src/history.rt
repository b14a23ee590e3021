//! Slices over the parts of a board: its products, its layout, its failing runs and its history.

ghost use Rattle.std.specs.Prelude.{◌≡◌, ◌≤◌, IfOk, OnOk};
ghost use Rattle.patch_base.specs.Outside.{Rose, Grew, AppendsPrefix};
ghost use Rattle.board_core.specs.History.{entries};
ghost use Rattle.board_core.specs.Legal.{Legal};
ghost use Rattle.board_core.specs.Limits.{WithinLimits, AreFactories};
ghost use Rattle.slice_write.specs.Slices.{sliced, slices_of};
ghost use Rattle.slice_write.specs.Pictures.{slices_text};

use crate::drawing::Drawing;
use crate::fault::SliceFault;
use crate::ledger::Ledger;
use crate::text::{greatest, pages, write_pages};
use board_core::Noted;
use magic_pool::Fail;
use node_log::Log;
use patch_base::{Memory, Sink};
use patch_layout::Layout;
use source_model::Static;
use std::alloc::Global;

/// The slice of each entry of a legal history.
pub fn slice_history(
    alloc: Global,
    products: &[Static],
    layout: &Layout,
    fails: &[Fail],
    history: &Log<Noted>,
) -> Result<Vec<u32>, Memory>
    requires limits { WithinLimits
        (record { products = products.now; grid = layout.now; fails = fails.now }) }
    requires factories { AreFactories layout.now }
    requires legal { Legal
        (record { products = products.now; grid = layout.now; fails = fails.now })
        (entries history.now) }
    ensures { IfOk result (λ v. v.items ≡ slices_of
        (record { products = products.now; grid = layout.now; fails = fails.now })
        (entries history.now)) }
{
    let mut ledger = Ledger::new(alloc, products, layout, fails)?;
    let mut slices = Vec::with_capacity(alloc, history.length() as usize)?;
    for noted in history.walk() {
        slices.push(ledger.slice(products, layout, &noted.entry)?)?;
    }
    Ok(slices)
}

/// Writes the slices of a legal history, which are those that `slice_history` answers.
pub fn write_history_slices<O: Sink>(
    alloc: Global,
    products: &[Static],
    layout: &Layout,
    fails: &[Fail],
    history: &Log<Noted>,
    slices: &[u32],
    out: &mut O,
) -> Result<(), SliceFault>
    requires limits { WithinLimits
        (record { products = products.now; grid = layout.now; fails = fails.now }) }
    requires factories { AreFactories layout.now }
    requires legal { Legal
        (record { products = products.now; grid = layout.now; fails = fails.now })
        (entries history.now) }
    requires slices { slices.now
        ≡ slices_of (record { products = products.now; grid = layout.now; fails = fails.now })
        (entries history.now) }
    ensures counts { O.faults out.old ≤ O.faults out.new }
    ensures all { OnOk result (Grew (O.taken out.old) (O.taken out.new)
        (slices_text layout.now
        (sliced (record { products = products.now; grid = layout.now; fails = fails.now })
        (entries history.now)))) }
    ensures prefix { result ≡ Err SliceFault.Failed
        → AppendsPrefix (O.taken out.old) (O.taken out.new)
        (slices_text layout.now
        (sliced (record { products = products.now; grid = layout.now; fails = fails.now })
        (entries history.now))) }
    ensures failed { result ≡ Err SliceFault.Failed → Rose (O.faults out.old) (O.faults out.new) }
    ensures memory { result ≡ Err SliceFault.Memory → O.taken out.new ≡ O.taken out.old }
{
    let last = greatest(slices);
    let pages = pages(alloc, layout, history, slices, last)?;
    let mut drawing = Drawing::new(alloc, layout)?;
    write_pages(layout, &pages, last, &mut drawing, out)?;
    Ok(())
}
