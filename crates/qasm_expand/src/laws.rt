//! What the trees of circuit texts have, and what their flat operations act on.

ghost use Rattle.std.specs.Prelude.{List, ℕ, All};
ghost use Rattle.qasm_lex.specs.declared.Token.{Token};
ghost use Rattle.qasm_parse.specs.declared.tree.Tree.{Tree};
ghost use Rattle.qasm_parse.specs.Pass.{HasTree};
ghost use Rattle.qasm_expand.specs.Flats.{flats_of};
ghost use Rattle.qasm_expand.specs.Placed.{IsPlaced};
ghost use Rattle.qasm_expand.specs.Sound.{IsSound};

/// The tree of a text has numbers in range, and its calls fit what they call.
pub fn law_sound()
    ensures { (text : List ℕ) (tokens : List Token) (tree : Tree) → HasTree text tokens tree
        → IsSound tree }
{}

/// The flat operations of a sound tree act on its qubits and its bits. Those on two qubits act on two, and a condition reads a register.
pub fn law_placed()
    ensures { (tree : Tree) → IsSound tree → All (IsPlaced tree) (flats_of tree) }
{}
