// What a layout must serve.

use crate::list::Listed;

/// One truth value per qubit.
pub type Used = Listed<bool>;

/// What a layout must serve: how many qubits a circuit has, which of them it uses, and whether it
/// has rotations. A qubit is used where the static axis of some rotation or measurement has a letter other than I.
#[derive(Debug, Drop)]
pub struct Need {
    /// The number of qubits.
    pub qubits: u32,
    /// One truth value per qubit.
    pub used: Used,
    /// Whether some product is a rotation.
    pub rotations: bool,
}
