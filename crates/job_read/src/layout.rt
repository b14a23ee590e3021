//! A layout read from a shelf.

ghost use Rattle.std.specs.Prelude.{◌≡◌, ◌⊎◌, ℕ, ◌≤◌, List, IfOk, IfErr, MatchResult};
ghost use Rattle.source_model.specs.Circuits.{WellFormed};
ghost use Rattle.source_model.specs.Statics.{statics};
ghost use Rattle.patch_layout.specs.Grid.{Grid, Sound};
ghost use Rattle.patch_layout.specs.declared.fault.LayoutFault.{LayoutFault as LayoutFault_of};
ghost use Rattle.job_read.specs.Reading.{seen, IsNamed, IsTold};
ghost use Rattle.job_read.specs.Stages.{LayoutStands, LayoutRefused};
ghost use Rattle.job_read.specs.Jobs.{LayoutStops, IsOutside};

use crate::JobFault;
use crate::limited::read_limited;
use patch_base::Shelf;
use patch_layout::Layout;
use rotation_list::need;
use source_model::{Circuit, Static};
use std::alloc::Global;

/// The layout of a word, where it is open for a circuit. The word `-` is the built-in row layout of
/// the circuit's qubits, and nothing is read for it. Every other word names a text, which is read to
/// its end, or one byte past its limit of 4 MiB. The products are the circuit's static products.
///
/// # Errors
///
/// `Read { which: 1 }` where the shelf failed, `Layout` with the fault of a layout that is refused
/// for this circuit, and `Memory` where memory is wanting.
pub fn load_layout<S: Shelf>(
    alloc: Global,
    shelf: &mut S,
    word: &str,
    circuit: &Circuit,
    products: &[Static],
) -> Result<Layout, JobFault>
    requires well_formed { WellFormed circuit.now }
    requires products { products.now ≡ statics circuit.now.items }
    ensures told { (n : List ℕ) → S.tells shelf.new n ≡ S.tells shelf.old n }
    ensures counts { (n : List ℕ) → S.faults shelf.old n ≤ S.faults shelf.new n }
    ensures accepted { let s = seen (S.tells shelf.old) (S.faults shelf.old)
        (S.faults shelf.new) word.now in
        IfOk result (LayoutStands word.now s circuit.now) }
    ensures sound { IfOk result Sound }
    ensures stops { let s = seen (S.tells shelf.old) (S.faults shelf.old)
        (S.faults shelf.new) word.now in
        IfErr result (LayoutStops word.now s circuit.now) }

    // A layout that is told is accepted or refused for what it is, unless the outside keeps it from being read.
    ensures exact { let s = seen (S.tells shelf.old) (S.faults shelf.old)
        (S.faults shelf.new) word.now in
        (g : Grid) → (IsNamed word.now → IsTold s) → LayoutStands word.now s circuit.now g
        → MatchResult result (λ l. l ≡ g) IsOutside }
    ensures faults { let s = seen (S.tells shelf.old) (S.faults shelf.old)
        (S.faults shelf.new) word.now in
        (f : LayoutFault_of) → (IsNamed word.now → IsTold s)
        → LayoutRefused word.now s circuit.now f
        → MatchResult result (λ l. ⊥) (λ e. (e ≡ JobFault.Layout f) ⊎ IsOutside e) }
{
    let need = need(alloc, circuit, products)?;
    if word == "-" {
        let row = Layout::row(alloc, &need)?;
        return Ok(row);
    }
    let text = read_limited(alloc, shelf, word, 1)?;
    let layout = Layout::read(alloc, &text, &need)?;
    Ok(layout)
}
