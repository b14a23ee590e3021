//! Laws of tokens, over definitions alone.
//!
//! The functions do nothing: each carries laws in its contract.

ghost use Rattle.std.specs.Prelude.{◌≡◌, ◌≤◌, ℕ, List, length, slice_get, Some, Ok};
ghost use Rattle.qasm_lex.specs.declared.Token.{Token};
ghost use Rattle.qasm_lex.specs.Laws.{FormsOfKinds, GapsAndTokens, TokensOrFault};
ghost use Rattle.qasm_lex.specs.Tokens.{IsPlaced, tokens_of};

/// A text that has tokens is gaps and these tokens in turn: at each token's place no longer prefix
/// is a token, and its bytes have the form of its kind (OpenQASM 2.0, section 4).
pub fn law_tokens()
    ensures turns { GapsAndTokens }
    ensures forms { FormsOfKinds }
{}

/// Each text has tokens, or a fault at a line.
pub fn law_answer()
    ensures { TokensOrFault }
{}

/// Each token of a text has a byte at least, and its bytes stand in the text.
pub fn law_placed()
    ensures { (text : List ℕ) (ts : List Token) → tokens_of text ≡ Ok ts
        → (k : ℕ) (t : Token) → slice_get ts k ≡ Some t → IsPlaced text t }
{}

/// A text that has tokens isn't too long.
pub fn law_short()
    ensures { (text : List ℕ) (ts : List Token) → tokens_of text ≡ Ok ts → length text ≤ 4194304 }
{}
