//! The tokens of a circuit text in OpenQASM 2.0, and why a circuit text is refused.
#![tactic(auto)]

ghost use Rattle.std.specs.Prelude.{◌≡◌, ◌<◌, ◌≤◌, length, take, drop, slice_index, true, not, ◌==◌, ◌||◌};
ghost use Rattle.std.specs.List.{prefix_len};
ghost use Rattle.qasm_lex.specs.Tokens.{Gives, tokens_of, head_of, number_head, quoted_head, symbol_head, exponent_len, fraction_len, sign_len, digits, is_whole, is_digit, is_symbol, is_blank, starts_word, is_word_byte};
ghost use Rattle.qasm_lex.specs.inside.Tokens.{IsWithin};

mod fault;
mod law;

pub use fault::{CircuitFault, FaultKind};
pub use law::{law_answer, law_placed, law_short, law_tokens};
use patch_base::{TEXT_BYTES, decimal};
use std::alloc::Global;

/// The kinds of tokens (OpenQASM 2.0, section 4). A `//` comment and blanks make no token.
#[derive(Clone, Copy, Debug, PartialEq, Eq)]
pub enum TokenKind {
    /// A letter or an underscore, then letters, digits and underscores, all of ASCII.
    Word,
    /// `0`, or digits without a leading zero, below 2^32.
    Whole,
    /// Digits, a point and digits, then an exponent or none.
    Real,
    /// From a quote to the next one on the same line, both included.
    Quoted,
    /// One of `;` `,` `(` `)` `{` `}` `[` `]` `->` `==` `+` `-` `*` `/` `^`.
    Symbol,
}

/// A token of a text.
#[derive(Clone, Copy, Debug, PartialEq, Eq)]
pub struct Token {
    pub kind: TokenKind,
    /// The place of its first byte in the text.
    pub start: u32,
    /// The place after its last byte.
    pub end: u32,
    /// Its line, counted from 1.
    pub line: u32,
}

/// The greatest length of a text in bytes.
const BYTES: usize = TEXT_BYTES as usize;

/// What stands at the head of a text, with its length in bytes.
#[derive(Clone, Copy, Debug, PartialEq, Eq)]
enum Head {
    /// A line feed.
    Feed,
    /// Bytes that separate tokens.
    Blank { len: usize },
    Token { kind: TokenKind, len: usize },
    /// A byte that begins no token.
    Bad,
}

#[tactic(auto, unfolding(crate::specs::Tokens::is_digit))]
fn is_digit(b: u8) -> bool
    ensures { result ≡ is_digit b }
{
    b.is_ascii_digit()
}

/// A letter of ASCII or an underscore.
#[tactic(auto, unfolding(crate::specs::Tokens::starts_word))]
fn starts_word(b: u8) -> bool
    ensures { result ≡ starts_word b }
{
    b.is_ascii_alphabetic() || b == b'_'
}

#[tactic(auto, unfolding(crate::specs::Tokens::is_word_byte))]
fn is_word_byte(b: u8) -> bool
    ensures { result ≡ is_word_byte b }
{
    starts_word(b) || is_digit(b)
}

/// A line feed isn't among them: it is a head of its own, so that lines are counted in one place.
#[tactic(auto, unfolding(crate::specs::Tokens::is_blank))]
fn is_blank(b: u8) -> bool
    ensures { result ≡ is_blank b }
{
    b == b' ' || b == b'\t' || b == b'\r'
}

/// A symbol of one byte.
#[tactic(auto, unfolding(crate::specs::Tokens::is_symbol))]
fn is_symbol(b: u8) -> bool
    ensures { result ≡ is_symbol b }
{
    matches!(
        b,
        b';' | b',' | b'(' | b')' | b'{' | b'}' | b'[' | b']' | b'+' | b'-' | b'*' | b'/' | b'^'
    )
}

/// How many digits stand at the front.
fn digits(rest: &[u8]) -> usize
    ensures value { result ≡ digits rest.now }
    ensures within { result ≤ length rest.now }
{
    rest.iter().take_while(|b| is_digit(**b)).count()
}

/// How many bytes that words may have stand at the front.
fn word_len(rest: &[u8]) -> usize
    ensures value { result ≡ prefix_len is_word_byte rest.now }
    ensures within { result ≤ length rest.now }
{
    rest.iter().take_while(|b| is_word_byte(**b)).count()
}

/// How many bytes stand before the line feed.
fn line_len(rest: &[u8]) -> usize
    ensures value { result ≡ prefix_len (λ c. not (c == 10)) rest.now }
    ensures within { result ≤ length rest.now }
{
    rest.iter().take_while(|b| **b != b'\n').count()
}

/// How many bytes stand before the next quote on the line.
fn inner_len(rest: &[u8]) -> usize
    ensures value { result ≡ prefix_len (λ b. not (b == 34 || b == 10)) rest.now }
    ensures within { result ≤ length rest.now }
{
    rest.iter()
        .take_while(|b| !(**b == b'"' || **b == b'\n'))
        .count()
}

/// The length of a sign, 0 where there is none.
#[tactic(auto, unfolding(crate::specs::Tokens::sign_len))]
fn sign_len(rest: &[u8]) -> usize
    ensures value { result ≡ sign_len rest.now }
    ensures within { result ≤ length rest.now }
{
    if !rest.is_empty() && (rest[0] == b'+' || rest[0] == b'-') {
        1
    } else {
        0
    }
}

/// The length of a point with its digits, 0 where there are none.
#[tactic(auto, unfolding(crate::specs::Tokens::fraction_len))]
fn fraction_len(rest: &[u8]) -> usize
    ensures value { result ≡ fraction_len rest.now }
    ensures within { result ≤ length rest.now }
{
    if rest.is_empty() || rest[0] != b'.' {
        return 0;
    }
    let places = digits(&rest[1..]);
    if places == 0 { 0 } else { 1 + places }
}

/// The length of an exponent, 0 where there is none.
#[tactic(auto, unfolding(crate::specs::Tokens::exponent_len))]
fn exponent_len(rest: &[u8]) -> usize
    ensures value { result ≡ exponent_len rest.now }
    ensures within { result ≤ length rest.now }
{
    if rest.is_empty() || (rest[0] != b'e' && rest[0] != b'E') {
        return 0;
    }
    let before = 1 + sign_len(&rest[1..]);
    let power = digits(&rest[before..]);
    if power == 0 { 0 } else { before + power }
}

/// Whether digits are a whole number.
fn is_whole(run: &[u8]) -> bool
    ensures { result ≡ is_whole run.now }
{
    decimal(run).is_some()
}

/// The head where a digit stands: a point with digits after the run makes it a real.
#[tactic(auto, unfolding(crate::specs::Tokens::number_head))]
fn number_head(rest: &[u8]) -> Head
    requires some { 0 < length rest.now }
    requires digit { is_digit (slice_index rest.now 0) ≡ true }
    ensures value { result ≡ number_head rest.now }
    ensures within { IsWithin result (length rest.now) }
{
    let front = digits(rest);
    let fraction = fraction_len(&rest[front..]);
    if fraction == 0 {
        if is_whole(&rest[..front]) {
            return Head::Token {
                kind: TokenKind::Whole,
                len: front,
            };
        }
        return Head::Bad;
    }
    let exponent = exponent_len(&rest[front + fraction..]);
    Head::Token {
        kind: TokenKind::Real,
        len: front + fraction + exponent,
    }
}

/// The head where a quote stands.
#[tactic(auto, unfolding(crate::specs::Tokens::quoted_head))]
fn quoted_head(rest: &[u8]) -> Head
    requires { 0 < length rest.now }
    ensures value { result ≡ quoted_head rest.now }
    ensures within { IsWithin result (length rest.now) }
{
    let tail = &rest[1..];
    let inner = inner_len(tail);
    if inner < tail.len() && tail[inner] == b'"' {
        Head::Token {
            kind: TokenKind::Quoted,
            len: inner + 2,
        }
    } else {
        Head::Bad
    }
}

/// The head where nothing but a symbol may stand.
#[tactic(auto, unfolding(crate::specs::Tokens::symbol_head))]
fn symbol_head(rest: &[u8]) -> Head
    requires { 0 < length rest.now }
    ensures value { result ≡ symbol_head rest.now }
    ensures within { IsWithin result (length rest.now) }
{
    let first = rest[0];
    let second = if rest.len() > 1 { rest[1] } else { 0 };
    if (first == b'-' && second == b'>') || (first == b'=' && second == b'=') {
        Head::Token {
            kind: TokenKind::Symbol,
            len: 2,
        }
    } else if is_symbol(first) {
        Head::Token {
            kind: TokenKind::Symbol,
            len: 1,
        }
    } else {
        Head::Bad
    }
}

/// What stands at the head of a text that isn't empty. A comment leaves its line feed.
#[tactic(auto, unfolding(crate::specs::Tokens::head_of))]
fn next_head(rest: &[u8]) -> Head
    requires { 0 < length rest.now }
    ensures value { result ≡ head_of rest.now }
    ensures within { IsWithin result (length rest.now) }
{
    let first = rest[0];
    let second = if rest.len() > 1 { rest[1] } else { 0 };
    if first == b'\n' {
        Head::Feed
    } else if is_blank(first) {
        Head::Blank { len: 1 }
    } else if first == b'/' && second == b'/' {
        Head::Blank {
            len: line_len(rest),
        }
    } else if starts_word(first) {
        Head::Token {
            kind: TokenKind::Word,
            len: word_len(rest),
        }
    } else if is_digit(first) {
        number_head(rest)
    } else if first == b'"' {
        quoted_head(rest)
    } else {
        symbol_head(rest)
    }
}

/// The tokens of a text in its order, the longest one at each place.
///
/// A text past 4 MiB is `TooLong` at line 0. Else the first byte that begins no token is `Token` at
/// its line: a byte that no token has there, a run of digits that is neither a whole number nor the
/// front of a real, or a quote that isn't closed on its line.
pub fn tokens(alloc: Global, text: &[u8]) -> Result<Vec<Token>, CircuitFault>
    ensures { Gives (λ v. v.items) result (tokens_of text.now) }
{
    if text.len() > BYTES {
        return Err(CircuitFault::At {
            line: 0,
            kind: FaultKind::TooLong,
        });
    }
    let mut found = Vec::new(alloc);
    let mut at = 0;
    let mut line = 1;
    while at < text.len() {
        match next_head(&text[at..]) {
            Head::Feed => {
                at += 1;
                line += 1;
            }
            Head::Blank { len } => at += len,
            Head::Token { kind, len } => {
                found.push(Token {
                    kind,
                    start: at as u32,
                    end: (at + len) as u32,
                    line,
                })?;
                at += len;
            }
            Head::Bad => {
                return Err(CircuitFault::At {
                    line,
                    kind: FaultKind::Token,
                });
            }
        }
    }
    Ok(found)
}
