//! The words in a line for a circuit's kind of fault and for an edge.

ghost use Rattle.std.specs.Prelude.{◌≡◌, ◌∷◌};
ghost use Rattle.fault_lines.specs.Lines.{kind_word, edge_word};

use patch_layout::Edge;
use qasm_lex::FaultKind;

/// The kind of a circuit's fault, after a space.
pub fn kind_text(kind: FaultKind) -> &'static [u8]
    ensures { result.now ≡ 32 ∷ kind_word kind }
{
    match kind {
        FaultKind::TooLong => b" TooLong",
        FaultKind::Token => b" Token",
        FaultKind::Syntax => b" Syntax",
        FaultKind::Version => b" Version",
        FaultKind::Unknown => b" Unknown",
        FaultKind::Parameters => b" Parameters",
        FaultKind::Declared => b" Declared",
        FaultKind::Undeclared => b" Undeclared",
        FaultKind::Index => b" Index",
        FaultKind::Arity => b" Arity",
        FaultKind::Sizes => b" Sizes",
        FaultKind::SameQubit => b" SameQubit",
        FaultKind::Unsupported => b" Unsupported",
        FaultKind::TooMany => b" TooMany",
    }
}

/// An edge, after a space.
pub fn edge_text(edge: Edge) -> &'static [u8]
    ensures { result.now ≡ 32 ∷ edge_word edge }
{
    match edge {
        Edge::X => b" X",
        Edge::Z => b" Z",
    }
}
