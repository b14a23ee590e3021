//! Laws of circuit texts, over definitions alone.
//!
//! The functions do nothing: each carries laws in its contract.

ghost use Rattle.rotation_list.specs.Laws.{CircuitOrFault, NotBoth, OneCircuit, OneFault, PrintedAgain, PrintedStands};

use qasm_expand::{law_placed, law_sound};
use qasm_parse::{law_one_fault, law_one_tree, law_tree_or_fault};
use source_model::law_kinds;

/// A text stands for one circuit at most; where it stands for one it isn't refused, and else it has
/// one fault at most.
pub fn law_one_circuit()
    ensures one { OneCircuit }
    ensures apart { NotBoth }
    ensures one_fault { OneFault }
{
    law_one_tree();
    law_tree_or_fault();
    law_one_fault();
}

/// Each text stands for a circuit or is refused.
pub fn law_answer()
    ensures { CircuitOrFault }
{
    qasm_parse::law_answer();
}

/// The product list that is printed of a circuit is read as its static circuit, where it isn't too
/// long to be read. The static circuit is printed as the same list.
pub fn law_printed()
    ensures stands { PrintedStands }
    ensures again { PrintedAgain }
{
    qasm_lex::law_placed();
    law_sound();
    law_placed();
    law_kinds();
}
