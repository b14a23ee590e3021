//! The flat operations of a circuit: each call is replaced by the body of what it calls.
//!
//! What a call of each definition counts is found first, once for each definition, and with it the statement by which a limit is
//! passed. So a text whose definitions double one another is refused without expanding it, and what is expanded is within the limits.
#![tactic(auto)]

ghost use Rattle.std.specs.Prelude.{◌≡◌, ◌≤◌, length, None, IfOk, IfErr, OnOk};
ghost use Rattle.qasm_expand.specs.Flats.{flats_of};
ghost use Rattle.qasm_expand.specs.Limits.{passing, IsRefused};
ghost use Rattle.qasm_expand.specs.Sound.{IsSound};

mod cost;
mod flat;
mod laws;
mod push;

use cost::{costs, passing};
pub use flat::Flat;
pub use laws::{law_placed, law_sound};
use push::push_statement;
use qasm_lex::{CircuitFault, FaultKind};
use qasm_parse::Tree;
use std::alloc::Global;

/// The flat operations of the tree of a circuit text, in order (OpenQASM 2.0, section 4).
///
/// A call with whole registers is applied for each index in ascending order, and a call of a definition is replaced by its body. The
/// tree is refused as `TooMany` at the line of the first statement by which the flat count passes 262,144, or the number of products
/// 16,384.
pub fn expand(alloc: Global, tree: &Tree) -> Result<Vec<Flat>, CircuitFault>
    requires { IsSound tree.now }
    ensures expanded { IfOk result (λ flats. flats.items ≡ flats_of tree.now) }
    ensures within { OnOk result (passing tree.now ≡ None) }
    ensures bounded { IfOk result (λ flats. length flats.items ≤ 262144) }
    ensures too_many { IfErr result (IsRefused (passing tree.now)) }
{
    let known = costs(alloc, tree.gates.as_slice())?;
    if let Some(line) = passing(&known, tree.statements.as_slice()) {
        return Err(CircuitFault::At {
            line,
            kind: FaultKind::TooMany,
        });
    }
    let mut flats = Vec::new(alloc);
    let mut qubits = Vec::new(alloc);
    for statement in tree.statements.as_slice() {
        push_statement(alloc, &mut flats, &mut qubits, tree, statement)?;
    }
    Ok(flats)
}
