//! Tables of outcomes joined into one.

ghost use Rattle.std.specs.Prelude.{◌≡◌, flat_map, slice_get, IfOk, Some};
ghost use Rattle.source_model.specs.Circuits.{RightKinds};
ghost use Rattle.outcome_table.specs.declared.Outcomes.{Outcomes as Outcomes_of};
ghost use Rattle.side_by_side.specs.Programs.{AreTablesOf};

use crate::joining::Joined;
use crate::law::law_joined;
use outcome_table::{GivenList, Outcomes};
use patch_base::Memory;
use std::alloc::Global;

/// The outcomes of joined programs, one program after another, and the failing runs of the first table. There is one table
/// for each program, for its products.
///
/// # Errors
///
/// `Memory` out of memory.
pub fn join_outcomes(
    alloc: Global,
    joined: &Joined,
    tables: Vec<Outcomes>,
) -> Result<Outcomes, Memory>
    requires { AreTablesOf joined.now tables.items }
    ensures given { IfOk result (λ o. o.given ≡ flat_map (λ t. t.given) tables.items) }
    ensures fails { IfOk result (λ o. (first : Outcomes_of) →
        slice_get tables.items 0 ≡ Some first → o.fails ≡ first.fails) }
    ensures kinds { IfOk result (λ o. RightKinds joined.now.circuit.items o.given) }
{
    law_joined();
    let _ = joined;
    let mut given = Vec::new(alloc);
    for table in &tables {
        given.extend_from_slice(table.given.as_slice())?;
    }
    let Some(first) = tables.into_iter().next() else {
        unreachable!()
    };
    Ok(Outcomes {
        given: GivenList::of(given),
        fails: first.fails,
    })
}
