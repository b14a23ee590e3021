//! A new look, and its list of holders.

use crate::layouts::row_two;
use patch_base::Memory;
use patch_layout::{HeldList, LayoutFault, Look};
use std::alloc::Global;
use std::test::Fail;

// Whether no cell is held in a new look at the row layout for two qubits, nothing is taken or waited
// on, and nothing is ready.
fn is_new(alloc: Global) -> Result<bool, LayoutFault> {
    let layout = row_two(alloc)?;
    let look = Look::new(alloc, &layout, 2)?;
    let unheld = look.held.as_slice() == [None; 12].as_slice();
    let untaken = look.taken.is_none() && look.waits.is_none();
    Ok(unheld && untaken && look.ready == [0; 16])
}

// The number of qubits of its axis, and the first one with a letter.
fn axis_of_new(alloc: Global) -> Result<(u32, Option<u32>), LayoutFault> {
    let layout = row_two(alloc)?;
    let look = Look::new(alloc, &layout, 2)?;
    Ok((look.axis.len(), look.axis.support_from(0)))
}

#[test]
fn new_looks(rt: HostRuntime) -> Result<(), Fail> {
    let is = is_new(rt.alloc())?;
    assert!(rt; is);
    let axis = axis_of_new(rt.alloc())?;
    assert_eq!(rt; axis, (2, None));
    Ok(())
}

// Whether these are the holders of two cells after the first one is set to 7.
fn is_set(alloc: Global, holders: &[Option<u32>]) -> Result<bool, Memory> {
    let mut list = HeldList::of(vec![in alloc; Some(1); 2]?);
    list.set(0, Some(7));
    Ok(list.as_slice() == holders)
}

// Whether these are the holders of two cells after they are copied from them.
fn is_copied(alloc: Global, holders: &[Option<u32>; 2]) -> Result<bool, Memory> {
    let mut list = HeldList::of(vec![in alloc; None; 2]?);
    list.copy_from(holders);
    let given = list.into_vec();
    Ok(given.as_slice() == holders.as_slice())
}

#[test]
fn lists_of_holders(rt: HostRuntime) -> Result<(), Fail> {
    let set = is_set(rt.alloc(), &[Some(7), Some(1)])?;
    assert!(rt; set);
    let copied = is_copied(rt.alloc(), &[Some(3), None])?;
    assert!(rt; copied);
    Ok(())
}
