//! Plans through what a region may take.

ghost use Rattle.std.specs.Prelude.{◌≡◌, ℕ, length, true, None, IfOk};
ghost use Rattle.pauli_product.specs.Signed.{HasLetter};
ghost use Rattle.region_plan.specs.inside.Finish.{Through, Found};

use crate::certificate::finish;
use crate::growth::region_on;
use crate::kept::Walks;
use crate::ports::best_way;
use patch_base::Memory;
use patch_layout::{Layout, Look, Plan, wanted};
use std::alloc::Global;

// The plan for a measurement, where there is one.
fn for_measurement(
    alloc: Global,
    layout: &Layout,
    look: &Look,
    walks: &mut Walks,
) -> Result<Option<Plan>, Memory>
    requires held { length look.now.held ≡ length layout.now.sites }
    requires letter { (q : ℕ) × HasLetter look.now.axis q }
    ensures { IfOk result (Through layout.now look.now None) }
{
    let sides = wanted(alloc, &look.axis, None)?;
    walks.prepare(alloc, layout, look.held.as_slice(), &sides)?;
    match region_on(alloc, layout, look.held.as_slice(), walks, sides[0], &sides)? {
        Some(region) => {
            let plan = finish(alloc, layout, look, None, region)?;
            Ok(Some(plan))
        }
        None => Ok(None),
    }
}

// The plan for a rotation, where there is one.
fn for_rotation(
    alloc: Global,
    layout: &Layout,
    look: &Look,
    walks: &mut Walks,
) -> Result<Option<Plan>, Memory>
    requires held { length look.now.held ≡ length layout.now.sites }
    requires rotation { look.now.rotation ≡ true }
    requires letter { (q : ℕ) × HasLetter look.now.axis q }
    ensures { IfOk result (Found layout.now look.now) }
{
    let sides = wanted(alloc, &look.axis, None)?;
    walks.prepare(alloc, layout, look.held.as_slice(), &sides)?;
    match best_way(alloc, layout, look, walks, sides[0], &sides)? {
        Some(way) => {
            let plan = finish(alloc, layout, look, Some(way.factory), way.region)?;
            Ok(Some(plan))
        }
        None => Ok(None),
    }
}

/// The plan through what the look's product may take.
pub(crate) fn way(
    alloc: Global,
    layout: &Layout,
    look: &Look,
    walks: &mut Walks,
) -> Result<Option<Plan>, Memory>
    requires held { length look.now.held ≡ length layout.now.sites }
    requires letter { (q : ℕ) × HasLetter look.now.axis q }
    ensures { IfOk result (Found layout.now look.now) }
{
    if look.rotation {
        for_rotation(alloc, layout, look, walks)
    } else {
        for_measurement(alloc, layout, look, walks)
    }
}
