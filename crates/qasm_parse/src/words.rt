//! What the grammar sees of a token.

ghost use Rattle.std.specs.Prelude.{◌≡◌, slice_index};
ghost use Rattle.qasm_lex.specs.Tokens.{IsPlaced};
ghost use Rattle.qasm_parse.specs.Words.{is_pauli, is_taken, is_reserved, starts_name, statement_word, word_terminal, symbol_terminal, real_terminal, quoted_terminal, kind_terminal, terminal_of};

use qasm_grammar::Terminal;
use qasm_lex::{Token, TokenKind};

#[tactic(auto, unfolding(crate::specs::Words::is_reserved))]
fn is_reserved(word: &[u8]) -> bool
    ensures { result ≡ is_reserved word.now }
{
    if word == b"pi".as_slice() {
        return true;
    }
    if word == b"sin".as_slice() {
        return true;
    }
    if word == b"cos".as_slice() {
        return true;
    }
    if word == b"tan".as_slice() {
        return true;
    }
    if word == b"exp".as_slice() {
        return true;
    }
    if word == b"ln".as_slice() {
        return true;
    }
    if word == b"sqrt".as_slice() {
        return true;
    }
    false
}

#[tactic(auto, unfolding(crate::specs::Words::starts_name))]
fn starts_name(b: u8) -> bool
    ensures { result ≡ starts_name b }
{
    (b'a' <= b && b <= b'z') || b == b'_'
}

#[tactic(auto, unfolding(crate::specs::Words::is_pauli))]
fn is_pauli(word: &[u8]) -> bool
    ensures { result ≡ is_pauli word.now }
{
    word == b"x".as_slice()
        || word == b"y".as_slice()
        || word == b"z".as_slice()
        || word == b"id".as_slice()
}

/// Whether the include takes a name.
#[tactic(auto, unfolding(crate::specs::Words::is_taken))]
pub fn is_taken(word: &[u8]) -> bool
    ensures { result ≡ is_taken word.now }
{
    if word == b"u1".as_slice() {
        return true;
    }
    if word == b"u2".as_slice() {
        return true;
    }
    if word == b"u3".as_slice() {
        return true;
    }
    if word == b"rx".as_slice() {
        return true;
    }
    if word == b"ry".as_slice() {
        return true;
    }
    if word == b"rz".as_slice() {
        return true;
    }
    if word == b"cu1".as_slice() {
        return true;
    }
    if word == b"cu3".as_slice() {
        return true;
    }
    if word == b"crz".as_slice() {
        return true;
    }
    if word == b"ch".as_slice() {
        return true;
    }
    false
}

// The first byte, or 0.
fn first_byte(word: &[u8]) -> u8
    ensures { result ≡ slice_index word.now 0 }
{
    if word.is_empty() { 0 } else { word[0] }
}

#[tactic(auto, unfolding(crate::specs::Words::statement_word))]
fn statement_word(word: &[u8], included: bool) -> Terminal
    ensures { result ≡ statement_word included word.now }
{
    if word == b"include".as_slice() {
        return Terminal::Include;
    }
    if word == b"qreg".as_slice() {
        return Terminal::Qreg;
    }
    if word == b"creg".as_slice() {
        return Terminal::Creg;
    }
    if word == b"gate".as_slice() {
        return Terminal::Gate;
    }
    if word == b"measure".as_slice() {
        return Terminal::Measure;
    }
    if word == b"barrier".as_slice() {
        return Terminal::Barrier;
    }
    if word == b"reset".as_slice() {
        return Terminal::Reset;
    }
    if word == b"if".as_slice() {
        return Terminal::If;
    }
    if is_pauli(word) {
        return Terminal::Pauli;
    }
    if included && is_taken(word) {
        return Terminal::Taken;
    }
    Terminal::Name
}

#[tactic(auto, unfolding(crate::specs::Words::word_terminal))]
fn word_terminal(word: &[u8], included: bool) -> Terminal
    ensures { result ≡ word_terminal included word.now }
{
    if word == b"CX".as_slice() {
        return Terminal::Cx;
    }
    if word == b"OPENQASM".as_slice() {
        return Terminal::Openqasm;
    }
    if word == b"opaque".as_slice() || word == b"U".as_slice() {
        return Terminal::Opaque;
    }
    if is_reserved(word) {
        return Terminal::OtherWord;
    }
    if starts_name(first_byte(word)) {
        return statement_word(word, included);
    }
    Terminal::OtherWord
}

#[tactic(auto, unfolding(crate::specs::Words::symbol_terminal))]
fn symbol_terminal(symbol: &[u8]) -> Terminal
    ensures { result ≡ symbol_terminal symbol.now }
{
    if symbol == b";".as_slice() {
        return Terminal::Semicolon;
    }
    if symbol == b",".as_slice() {
        return Terminal::Comma;
    }
    if symbol == b"(".as_slice() {
        return Terminal::Open;
    }
    if symbol == b")".as_slice() {
        return Terminal::Close;
    }
    if symbol == b"[".as_slice() {
        return Terminal::OpenBracket;
    }
    if symbol == b"]".as_slice() {
        return Terminal::CloseBracket;
    }
    if symbol == b"{".as_slice() {
        return Terminal::OpenBrace;
    }
    if symbol == b"}".as_slice() {
        return Terminal::CloseBrace;
    }
    if symbol == b"->".as_slice() {
        return Terminal::Arrow;
    }
    if symbol == b"==".as_slice() {
        return Terminal::Equals;
    }
    Terminal::Other
}

fn real_terminal(real: &[u8]) -> Terminal
    ensures { result ≡ real_terminal real.now }
{
    if real == b"2.0".as_slice() {
        Terminal::Two
    } else {
        Terminal::Other
    }
}

fn quoted_terminal(quoted: &[u8]) -> Terminal
    ensures { result ≡ quoted_terminal quoted.now }
{
    if quoted == b"\"qelib1.inc\"".as_slice() {
        Terminal::Qelib
    } else {
        Terminal::Quoted
    }
}

/// What the grammar sees of a token, before the include or after it.
#[tactic(auto, unfolding(crate::specs::Words::terminal_of, crate::specs::Words::kind_terminal))]
pub fn make_terminal(text: &[u8], token: &Token, included: bool) -> Terminal
    requires { IsPlaced text.now token.now }
    ensures { result ≡ terminal_of included text.now token.now }
{
    let bytes = &text[token.start as usize..token.end as usize];
    match token.kind {
        TokenKind::Word => word_terminal(bytes, included),
        TokenKind::Whole => Terminal::Whole,
        TokenKind::Real => real_terminal(bytes),
        TokenKind::Quoted => quoted_terminal(bytes),
        TokenKind::Symbol => symbol_terminal(bytes),
    }
}
