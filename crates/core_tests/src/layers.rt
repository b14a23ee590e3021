//! Layers of commuting products, by worked examples.

ghost use Rattle.std.specs.Prelude.{◌≤◌, length};

use commute_order::{Order, Uses};
use layer_pass::{Layers, least_layers};
use patch_base::Memory;
use pauli_product::{Letter, Product};
use std::alloc::Global;
use std::test::Fail;

const I: Letter = Letter::I;

const X: Letter = Letter::X;

const Z: Letter = Letter::Z;

const NOTHING: Uses = Uses {
    read_first: 0,
    read_size: 0,
    write: None,
};

// The layers of products on three qubits that use no bits.
fn cut(alloc: Global, axes: &[[Letter; 3]]) -> Result<Layers, Memory>
    requires { length axes.now ≤ 16384 }
{
    let mut products = Vec::new(alloc);
    for axis in axes {
        products.push(Product::new(alloc, false, axis)?)?;
    }
    let uses = vec![in alloc; NOTHING; axes.len()]?;
    let order = Order::build(alloc, &products, &uses)?;
    least_layers(alloc, &order, axes.len() as u32)
}

#[test]
fn cuts_into_layers(rt: HostRuntime) -> Result<(), Fail> {
    let rows: [(&[[Letter; 3]], &[u32], &[u32]); 4] = [
        (&[], &[], &[]),
        (&[[Z, I, I], [X, I, I], [Z, I, I]], &[1, 2, 3], &[0, 1, 2]),
        (
            &[
                [I, Z, X],
                [Z, Z, X],
                [Z, I, X],
                [I, Z, I],
                [I, I, X],
                [Z, I, I],
                [Z, Z, I],
            ],
            &[1, 1, 1, 1, 1, 1, 1],
            &[0],
        ),
        (
            &[
                [Z, I, I],
                [Z, I, I],
                [I, X, I],
                [X, I, I],
                [Z, Z, I],
                [I, I, Z],
            ],
            &[1, 1, 1, 2, 3, 1],
            &[0, 3, 4],
        ),
    ];
    for (axes, layer, chain) in rows {
        assert!(rt; axes.len() < 10);
        let layers = cut(rt.alloc(), axes)?;
        assert_eq!(rt; layers.layer.as_slice(), layer);
        assert_eq!(rt; layers.count as usize, chain.len());
        assert_eq!(rt; layers.chain.into_vec().as_slice(), chain);
    }
    Ok(())
}

// Three layers of twenty products, one product beside the first of them, and one above the last.
fn long_layers() -> ([[Letter; 3]; 62], [u32; 62]) {
    let mut axes = [[X, I, I]; 62];
    let mut layer = [1; 62];
    for p in 20..40usize {
        axes[p] = [Z, I, I];
        layer[p] = 2;
        layer[p + 20] = 3;
    }
    axes[60] = [I, X, I];
    axes[61] = [Z, I, I];
    layer[61] = 4;
    (axes, layer)
}

#[test]
fn cuts_into_long_layers(rt: HostRuntime) -> Result<(), Fail> {
    let (axes, layer) = long_layers();
    let layers = cut(rt.alloc(), &axes)?;
    assert_eq!(rt; layers.layer.as_slice(), layer.as_slice());
    assert_eq!(rt; layers.chain.as_slice(), [0, 20, 40, 61].as_slice());
    Ok(())
}
