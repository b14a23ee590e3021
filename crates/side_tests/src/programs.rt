//! The texts of programs, and the circuits for which they stand.

ghost use Rattle.std.specs.Prelude.{◌≡◌, ◌≤◌, All, IfOk, length};
ghost use Rattle.job_read.specs.Kept.{IsCircuit};
ghost use Rattle.source_model.specs.Circuits.{WellFormed};

use job_read::load_circuit;
use patch_base::{Memory, NeverFails};
use side_by_side::{JoinFault, Joined, join};
use source_model::Circuit;
use std::alloc::Global;

/// The texts of a program.
#[derive(Clone, Copy)]
pub(crate) struct Texts {
    pub circuit: &'static [u8],
    pub outcomes: &'static [u8],
}

/// Two rotations and a measurement of one qubit, with raw outcomes 1, 0 and 0.
pub(crate) const SIGNS: Texts = Texts {
    circuit: b"products 1 1\nc c 1\nr +Z\nr +X\nm +X c 0\n",
    outcomes: b"outcomes 1\nr 0 1 0\nr 1 0 0\nm 2 0\n",
};

/// The same circuit with raw outcomes 0 alone.
pub(crate) const ZEROS: Texts = Texts {
    circuit: b"products 1 1\nc c 1\nr +Z\nr +X\nm +X c 0\n",
    outcomes: b"outcomes 1\nr 0 0 0\nr 1 0 0\nm 2 0\n",
};

/// A measurement of one qubit, with outcome 1.
pub(crate) const ONE: Texts = Texts {
    circuit: b"products 1 1\nc c 1\nm +Z c 0\n",
    outcomes: b"outcomes 1\nm 0 1\n",
};

/// The circuit of a text. A text that is refused stands for no memory.
pub(crate) fn circuit(alloc: Global, text: &[u8]) -> Result<Circuit, Memory>
    ensures { IfOk result IsCircuit }
{
    let mut shelf = NeverFails { bytes: text };
    match load_circuit(alloc, &mut shelf, "circuit") {
        Ok(circuit) => Ok(circuit),
        Err(_) => Err(Memory),
    }
}

/// What the circuits of texts are joined to.
pub(crate) fn join_texts(
    alloc: Global,
    texts: &[&[u8]],
) -> Result<Result<Joined, JoinFault>, Memory>
    requires some { 1 ≤ length texts.now }
    requires few { length texts.now ≤ 8 }
{
    let circuits = circuits(alloc, texts)?;
    Ok(join(alloc, &circuits))
}

fn circuits(alloc: Global, texts: &[&[u8]]) -> Result<Vec<Circuit>, Memory>
    ensures each { IfOk result (λ list. All WellFormed list.items) }
    ensures count { IfOk result (λ list. length list.items ≡ length texts.now) }
{
    let mut list = Vec::new(alloc);
    for at in 0..texts.len() {
        list.push(circuit(alloc, texts[at])?)?;
    }
    Ok(list)
}
