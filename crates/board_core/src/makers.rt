//! The pool of a layout's factories.

ghost use Rattle.std.specs.Prelude.{◌≡◌, ℕ, ◌≤◌, [], All, length, IfOk};
ghost use Rattle.magic_pool.specs.Makers.{AreDistinct, IsMaker};
ghost use Rattle.magic_pool.specs.Pooled.{Recounts};
ghost use Rattle.board_core.specs.Books.{HasMakersOf};

use magic_pool::{Fail, Maker, Pool};
use patch_base::Memory;
use patch_layout::Layout;
use std::alloc::Global;

/// A new pool with the layout's factories and their stores, as a new board takes it. There are at most 4,096 failing runs.
pub fn pool_of(alloc: Global, layout: &Layout, fails: &[Fail]) -> Result<Pool, Memory>
    requires few { length fails.now ≤ 4096 }
    ensures new { IfOk result (λ pool. Recounts pool [] []) }
    ensures makers { IfOk result (λ pool. HasMakersOf layout.now pool.makers) }
    ensures fails { IfOk result (λ pool. pool.fails ≡ fails.now) }
{
    let makers = makers_of(alloc, layout)?;
    Pool::new(alloc, &makers, fails)
}

/// The layout's factories with their stores, by number.
fn makers_of(alloc: Global, layout: &Layout) -> Result<Vec<Maker>, Memory>
    ensures makers { IfOk result (λ makers. HasMakersOf layout.now makers.items) }
    ensures distinct { IfOk result (λ makers. AreDistinct makers.items) }
    ensures each { IfOk result (λ makers. All IsMaker makers.items) }
{
    let mut makers = Vec::new(alloc);
    for factory in 0..16 {
        if let Some(store) = layout.store(factory) {
            makers.push(Maker { factory, store })?;
        }
    }
    Ok(makers)
}
