//! The gates that the include makes known.

ghost use Rattle.std.specs.Prelude.{◌≡◌};
ghost use Rattle.qasm_parse.specs.Gates.{built, one, two, cx, built_in, larger_built_in, may_be_own, is_barred, pauli_of};

use crate::known::Called;
use crate::tree::{Callee, Gate1, Gate2};
use crate::words::is_taken;

fn one(gate: Gate1) -> Option<Called>
    ensures { result ≡ one gate }
{
    Some(Called {
        gate: Callee::One { gate },
        arity: 1,
        depth: 0,
    })
}

fn two(gate: Gate2) -> Option<Called>
    ensures { result ≡ two gate }
{
    Some(Called {
        gate: Callee::Two { gate },
        arity: 2,
        depth: 0,
    })
}

/// The gate of `CX`, which is always known.
pub fn cx() -> Called
    ensures { result ≡ cx }
{
    Called {
        gate: Callee::Two { gate: Gate2::Cx },
        arity: 2,
        depth: 0,
    }
}

/// The gate that the include makes known by a name.
#[tactic(auto, unfolding(crate::specs::Gates::built_in))]
pub fn built_in(name: &[u8]) -> Option<Called>
    ensures { result ≡ built_in name.now }
{
    if name == b"id".as_slice() {
        return one(Gate1::Id);
    }
    if name == b"x".as_slice() {
        return one(Gate1::X);
    }
    if name == b"y".as_slice() {
        return one(Gate1::Y);
    }
    if name == b"z".as_slice() {
        return one(Gate1::Z);
    }
    if name == b"h".as_slice() {
        return one(Gate1::H);
    }
    if name == b"s".as_slice() {
        return one(Gate1::S);
    }
    if name == b"sdg".as_slice() {
        return one(Gate1::Sdg);
    }
    if name == b"t".as_slice() {
        return one(Gate1::T);
    }
    if name == b"tdg".as_slice() {
        return one(Gate1::Tdg);
    }
    larger_built_in(name)
}

#[tactic(auto, unfolding(crate::specs::Gates::larger_built_in))]
fn larger_built_in(name: &[u8]) -> Option<Called>
    ensures { result ≡ larger_built_in name.now }
{
    if name == b"cx".as_slice() {
        return two(Gate2::Cx);
    }
    if name == b"cz".as_slice() {
        return two(Gate2::Cz);
    }
    if name == b"cy".as_slice() {
        return two(Gate2::Cy);
    }
    if name == b"ccx".as_slice() {
        return Some(Called {
            gate: Callee::Ccx,
            arity: 3,
            depth: 0,
        });
    }
    if name == b"swap".as_slice() {
        return Some(Called {
            gate: Callee::Swap,
            arity: 2,
            depth: 0,
        });
    }
    if name == b"sx".as_slice() {
        return one(Gate1::Sx);
    }
    if name == b"sxdg".as_slice() {
        return one(Gate1::Sxdg);
    }
    None
}

// Whether a text may declare a name itself, though the include makes it known.
#[tactic(auto, unfolding(crate::specs::Gates::may_be_own))]
fn may_be_own(name: &[u8]) -> bool
    ensures { result ≡ may_be_own name.now }
{
    name == b"swap".as_slice() || name == b"sx".as_slice() || name == b"sxdg".as_slice()
}

/// Whether a name is one that a text with the include doesn't declare.
#[tactic(auto, unfolding(crate::specs::Gates::is_barred))]
pub fn is_barred(name: &[u8]) -> bool
    ensures { result ≡ is_barred name.now }
{
    is_taken(name) || (built_in(name).is_some() && !may_be_own(name))
}

/// The gate of one of the names that may stand under a condition.
#[tactic(auto, unfolding(crate::specs::Gates::pauli_of))]
pub fn pauli_of(name: &[u8]) -> Gate1
    ensures { result ≡ pauli_of name.now }
{
    if name == b"x".as_slice() {
        return Gate1::X;
    }
    if name == b"y".as_slice() {
        return Gate1::Y;
    }
    if name == b"z".as_slice() {
        return Gate1::Z;
    }
    Gate1::Id
}
