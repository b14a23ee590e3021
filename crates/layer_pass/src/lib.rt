//! Layers of commuting products, as few as can be, with a chain that shows why there can't be fewer.
#![tactic(auto)]

mod draft;

ghost use Rattle.std.specs.Prelude.{◌≡◌, List, length, IfOk};
ghost use Rattle.pauli_product.specs.Signed.{Signed};
ghost use Rattle.commute_order.specs.declared.Uses.{Uses};
ghost use Rattle.commute_order.specs.Commuting.{IsOrder};
ghost use Rattle.layer_pass.specs.Layering.{IsLayering, IsLowest, IsFewest, IsChain, IsTraced, ChainsBoundLayerings};

use commute_order::Order;
use draft::{place_all, trace_chain};
use patch_base::{Listed, Memory};
use std::alloc::Global;

/// Numbers of layers or of products.
pub type NumberList = Listed<u32>;

/// Layers of commuting products, and a chain of as many products as there are layers.
#[derive(Drop)]
pub struct Layers {
    /// By product, the number of its layer, from 1 to `count`.
    pub layer: NumberList,
    /// The number of layers.
    pub count: u32,
    /// Products in ascending order, each not commuting with the next.
    pub chain: NumberList,
}

/// Cuts the products of an order into as few layers as can be.
///
/// In each layer all products commute, and of two products that don't commute the earlier stands in
/// the lower layer. Each product stands as low as in any such layering. The products of the chain
/// stand in different layers of every layering, so that none has fewer layers than the chain has
/// products.
///
/// A layer with many products has a set of the products below it. So a product asks the order a few
/// times for all earlier ones, 64 at a step, and is compared one by one only with the products of
/// short layers.
pub fn least_layers(alloc: Global, order: &Order, n: u32) -> Result<Layers, Memory>
    requires { n ≡ length order.now }
    ensures layering { IfOk result (λ l. (ps : List Signed) (us : List Uses) →
        IsOrder ps us order.now → IsLayering ps us l.layer l.count) }
    ensures lowest { IfOk result (λ l. (ps : List Signed) (us : List Uses) →
        IsOrder ps us order.now → IsLowest ps us l.layer) }
    ensures fewest { IfOk result (λ l. (ps : List Signed) (us : List Uses) →
        IsOrder ps us order.now → IsFewest ps us l.count) }
    ensures chain { IfOk result (λ l. (ps : List Signed) (us : List Uses) →
        IsOrder ps us order.now → IsChain ps us l.chain) }
    ensures as_long { IfOk result (λ l. length l.chain ≡ l.count) }
    ensures traced { IfOk result (λ l. (ps : List Signed) (us : List Uses) →
        IsOrder ps us order.now → IsTraced ps us l.layer l.chain) }
{
    let draft = place_all(alloc, order, n)?;
    let chain = trace_chain(alloc, &draft.rows, &draft.before)?;
    Ok(Layers {
        count: draft.rows.len() as u32,
        layer: NumberList::of(draft.layer),
        chain: NumberList::of(chain),
    })
}

/// A chain of products, each not commuting with the next, has no more products than any layering
/// has layers.
pub fn law_chains_bound_layerings()
    ensures { ChainsBoundLayerings }
{}
