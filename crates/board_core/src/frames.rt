//! Corrections of the frame.

ghost use Rattle.std.specs.Prelude.{◌≡◌, ℕ, ◌++◌, List};
ghost use Rattle.pauli_product.specs.Signed.{OfLength};
ghost use Rattle.pauli_product.specs.Pulls.{Turn, carry, quarter, half};
ghost use Rattle.pauli_product.specs.Corrections.{effective as effective_of, turn_if};
ghost use Rattle.frame_table.specs.Images.{After, qubits};

use frame_table::Frame;
use pauli_product::Product;

/// The effective outcome of a product about the axis that it has now, which is left in `room`.
pub fn effective_now(frame: &Frame, own: &Product, room: &mut Product, raw: bool) -> bool
    requires own { OfLength (qubits frame.now) own.now }
    requires room { OfLength (qubits frame.now) room.old }
    ensures room { (n : ℕ) (turns : List Turn) → After n turns frame.now
        → room.new ≡ carry turns own.now }
    ensures value { result ≡ effective_of room.new raw }
    ensures size { OfLength (qubits frame.now) room.new }
{
    frame.image(own, room);
    raw != room.sign()
}

/// Corrects after a rotation about the axis that it has now.
pub fn correct_rotation(frame: &mut Frame, own: &Product, effective: bool, x: bool)
    requires { OfLength (qubits frame.old) own.now }
    ensures { (n : ℕ) (turns : List Turn) → After n turns frame.old
        → After n (turns ++ (turn_if effective (carry turns own.now) quarter
        ++ turn_if x (carry turns own.now) half)) frame.new }
{
    frame.advance(own, effective, x);
}

/// Corrects after a settled product, which may flip.
pub fn correct_settled(frame: &mut Frame, own: &Product, flip: bool)
    requires { OfLength (qubits frame.old) own.now }
    ensures { (n : ℕ) (turns : List Turn) → After n turns frame.old
        → After n (turns ++ turn_if flip (carry turns own.now) half) frame.new }
{
    frame.advance(own, false, flip);
}
