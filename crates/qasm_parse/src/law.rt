//! That a text is read in one way alone.

ghost use Rattle.std.specs.Prelude.{◌≡◌, List, ℕ};
ghost use Rattle.qasm_parse.specs.declared.tree.Tree.{Tree};
ghost use Rattle.qasm_parse.specs.Laws.{TreeOrFault};
ghost use Rattle.qasm_parse.specs.Pass.{HasTree, HasFault};
ghost use Rattle.qasm_parse.specs.Rows.{NameRows};
ghost use Rattle.qasm_lex.specs.declared.Token.{Token};
ghost use Rattle.qasm_lex.specs.declared.fault.FaultKind.{FaultKind};

/// A text has one tree at most.
pub fn law_one_tree()
    ensures { (text : List ℕ) (tokens : List Token) (t u : Tree)
        → HasTree text tokens t → HasTree text tokens u → t ≡ u }
{}

/// A text that has a tree has no fault.
pub fn law_tree_or_fault()
    ensures { (text : List ℕ) (tokens : List Token) (tree : Tree) (line : ℕ) (kind : FaultKind)
        → HasTree text tokens tree → HasFault text tokens line kind → ⊥ }
{}

/// A text has one fault at most.
pub fn law_one_fault()
    ensures { (text : List ℕ) (tokens : List Token) (line other : ℕ) (kind another : FaultKind)
        → HasFault text tokens line kind → HasFault text tokens other another
        → (line ≡ other) × (kind ≡ another) }
{}

/// Each text with its tokens has a tree or a fault.
pub fn law_answer()
    ensures { TreeOrFault }
{}

/// The worked examples of the rules of names hold.
pub fn law_name_rows()
    ensures { NameRows }
{}
