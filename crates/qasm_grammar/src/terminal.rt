//! What the grammar sees of a token.

ghost use Rattle.std.specs.Prelude.{◌≡◌};
ghost use Rattle.qasm_grammar.specs.Forms.{fits, is_other_word};

/// What the grammar sees of a token.
#[derive(Clone, Copy, Debug, PartialEq, Eq)]
pub enum Terminal {
    /// `OPENQASM`.
    Openqasm,
    /// The real `2.0`.
    Two,
    Include,
    Qreg,
    Creg,
    Gate,
    Measure,
    Barrier,
    Reset,
    If,
    Cx,
    Name,
    /// A name that the include takes, where it was read.
    Taken,
    /// `x`, `y`, `z` or `id`.
    Pauli,
    Whole,
    /// `"qelib1.inc"`.
    Qelib,
    /// Another quoted text.
    Quoted,
    Semicolon,
    Comma,
    Open,
    Close,
    OpenBrace,
    CloseBrace,
    OpenBracket,
    CloseBracket,
    Arrow,
    Equals,
    /// `opaque` or `U`.
    Opaque,
    OtherWord,
    Other,
    /// In the grammar alone: any name that isn't taken.
    Callee,
    /// In the grammar alone: any word but `x`, `y`, `z` and `id`.
    Word,
}

// Whether a token is a word, and none of the gates that may stand under a condition.
fn is_other_word(token: Terminal) -> bool
    ensures { result ≡ is_other_word token }
{
    token == Terminal::Openqasm
        || token == Terminal::Include
        || token == Terminal::Qreg
        || token == Terminal::Creg
        || token == Terminal::Gate
        || token == Terminal::Measure
        || token == Terminal::Barrier
        || token == Terminal::Reset
        || token == Terminal::If
        || token == Terminal::Cx
        || token == Terminal::Opaque
        || token == Terminal::Name
        || token == Terminal::Taken
        || token == Terminal::OtherWord
}

/// Whether a token of a text is one that the grammar means.
pub fn fits(token: Terminal, wanted: Terminal) -> bool
    ensures { result ≡ fits token wanted }
{
    (wanted == Terminal::Name && (token == Terminal::Taken || token == Terminal::Pauli))
        || (wanted == Terminal::Callee && (token == Terminal::Name || token == Terminal::Pauli))
        || (wanted == Terminal::Word && is_other_word(token))
        || token == wanted
}
