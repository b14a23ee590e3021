//! What a circuit asks of a layout.

ghost use Rattle.std.specs.Prelude.{◌≡◌, ℕ, ◌<◌, ◌&&◌, All, Some, length, slice_get, vec_len, IfOk};
ghost use Rattle.std.specs.List.{list_any};
ghost use Rattle.pauli_product.specs.Signed.{OfLength};
ghost use Rattle.source_model.specs.Circuits.{WellFormed};
ghost use Rattle.source_model.specs.Statics.{statics};
ghost use Rattle.source_model.specs.Used.{acts_at, is_used, takes_region};
ghost use Rattle.static_products.specs.Needs.{IsNeedOf, is_rotation};

use patch_base::{Memory, Need, Used};
use pauli_product::{Letter, Product};
use source_model::{Circuit, Kind, Static};
use std::alloc::Global;

/// What a circuit asks of a layout: its qubits, which of them the static axes of rotations and
/// measurements use, and whether it has rotations. The products are the circuit's static products.
///
/// # Errors
///
/// `Memory` where memory runs out.
pub fn need(alloc: Global, circuit: &Circuit, products: &[Static]) -> Result<Need, Memory>
    requires well_formed { WellFormed circuit.now }
    requires products { products.now ≡ statics circuit.now.items }
    ensures { IfOk result (IsNeedOf circuit.now.qubits products.now) }
{
    let used = used_qubits(alloc, products, circuit.qubits)?;
    Ok(Need {
        qubits: circuit.qubits,
        used: Used::of(used),
        rotations: has_rotation(products),
    })
}

// Whether the products use each of the qubits.
fn used_qubits(alloc: Global, products: &[Static], qubits: u32) -> Result<Vec<bool>, Memory>
    requires { All (λ s. OfLength qubits s.axis) products.now }
    ensures one_each { IfOk result (λ used. vec_len used ≡ qubits) }
    ensures used { IfOk result (λ used. (q : ℕ) → q < qubits
        → slice_get used.items q ≡ Some (is_used products.now q)) }
{
    let mut used = Vec::with_capacity(alloc, qubits as usize)?;
    for q in 0..qubits {
        used.push(is_used(products, q))?;
    }
    Ok(used)
}

// Whether some rotation or measurement acts on a qubit.
fn is_used(products: &[Static], q: u32) -> bool
    requires { All (λ s. q < length s.axis.letters) products.now }
    ensures { result ≡ list_any (λ s. takes_region s.kind && acts_at s.axis q) products.now }
{
    products.iter().any(|product| takes_region(product.kind) && acts_at(&product.axis, q))
}

fn has_rotation(products: &[Static]) -> bool
    ensures { result ≡ list_any is_rotation products.now }
{
    products.iter().any(is_rotation)
}

fn is_rotation(product: &Static) -> bool
    ensures { result ≡ is_rotation product.now }
{
    matches!(product.kind, Kind::Rotation)
}

// Whether a product of this kind takes a region of the grid.
fn takes_region(kind: Kind) -> bool
    ensures { result ≡ takes_region kind }
{
    match kind {
        Kind::Rotation | Kind::Measure { .. } => true,
        Kind::Settle { .. } => false,
    }
}

// Whether a product has a letter other than I at a qubit.
fn acts_at(product: &Product, q: u32) -> bool
    requires { q < length product.now.letters }
    ensures { result ≡ acts_at product.now q }
{
    product.letter(q) != Letter::I
}
