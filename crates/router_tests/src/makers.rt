//! Makers alone.

use crate::jobs::seven;
use crate::site::{filled, site_for};
use router_work::MakerEnd;
use std::test::Fail;

// A factory with room for two states is full after twice eleven steps, and then there is nothing to do.
#[test]
fn a_maker_fills_its_factory(rt: HostRuntime) -> Result<(), Fail> {
    let alloc = rt.alloc();
    let (site, mut first, _) = site_for(alloc, &seven())?;
    let one = site.grid.split(&mut first)?;
    let two = site.grid.split(&mut first)?;
    let three = site.grid.split(&mut first)?;
    assert_eq!(rt; filled(alloc, &site, one, 1)?, (MakerEnd::Stocked, 22));
    assert_eq!(rt; filled(alloc, &site, two, 0)?, (MakerEnd::Stocked, 44));
    assert_eq!(rt; filled(alloc, &site, three, 1)?, (MakerEnd::Stocked, 44));
    Ok(())
}
