//! A text with its tokens.

ghost use Rattle.std.specs.Prelude.{◌≡◌, map, IfOk};
ghost use Rattle.qasm_parse.specs.Words.{terminal_of};
ghost use Rattle.qasm_parse.specs.Lexed.{word_at, number_at, line_of, start_of, end_of};
ghost use Rattle.qasm_parse.specs.inside.Lexed.{AllPlaced};
ghost use Rattle.qasm_parse.specs.Pass.{terminals};

use crate::words::make_terminal;
use patch_base::{Memory, decimal};
use qasm_grammar::Terminal;
use qasm_lex::Token;
use std::alloc::Global;
use std::marker::Model;

/// A text with its tokens, which have places from 0 on.
#[derive(Drop)]
pub struct Source<'t> {
    text: &'t [u8],
    tokens: &'t [Token],
}

impl<'t> Model for Source<'t> {
    ghost use Rattle.qasm_parse.specs.Lexed.{Lexed};
    ghost use Rattle.qasm_parse.specs.inside.Lexed.{AllPlaced};

    ghost Value = { Lexed };

    ghost view = { λ s. record { text = s.text.now; tokens = s.tokens.now } };

    ghost invariant = { λ s. AllPlaced s.text.now s.tokens.now };
}

impl<'t> Source<'t> {
    /// A text with its tokens.
    pub fn new(text: &'t [u8], tokens: &'t [Token]) -> Source<'t>
        requires { AllPlaced text.now tokens.now }
        ensures { result ≡ record { text = text.now; tokens = tokens.now } }
    {
        Source { text, tokens }
    }

    /// What the grammar sees of the tokens, before the include or after it.
    pub fn terminals(&self, alloc: Global, included: bool) -> Result<Vec<Terminal>, Memory>
        ensures { IfOk result (λ v. v.items ≡ terminals self.now included) }
    {
        terminals(alloc, self.text, self.tokens, included)
    }

    /// The bytes of a token.
    pub fn word(&self, at: usize) -> &[u8]
        ensures { result.now ≡ word_at self.now at }
    {
        match self.tokens.get(at) {
            Some(token) => &self.text[token.start as usize..token.end as usize],
            None => &self.text[..0],
        }
    }

    /// The value of a whole number.
    pub fn number(&self, at: usize) -> u32
        ensures { result ≡ number_at self.now at }
    {
        decimal(self.word(at)).unwrap_or(0)
    }

    /// The line of a token, or of the end of the text.
    #[tactic(auto, unfolding(crate::specs::Words::line_at))]
    pub fn line(&self, at: usize) -> u32
        ensures { result ≡ line_of self.now at }
    {
        match self.tokens.get(at) {
            Some(token) => token.line,
            None => 1 + self.text.iter().filter(|b| **b == b'\n').count() as u32,
        }
    }

    /// Where a token begins in the text.
    pub fn start(&self, at: usize) -> u32
        ensures { result ≡ start_of self.now at }
    {
        match self.tokens.get(at) {
            Some(token) => token.start,
            None => 0,
        }
    }

    /// Where a token ends in the text.
    pub fn end(&self, at: usize) -> u32
        ensures { result ≡ end_of self.now at }
    {
        match self.tokens.get(at) {
            Some(token) => token.end,
            None => 0,
        }
    }
}

fn terminals(
    alloc: Global,
    text: &[u8],
    tokens: &[Token],
    included: bool,
) -> Result<Vec<Terminal>, Memory>
    requires { AllPlaced text.now tokens.now }
    ensures { IfOk result (λ v. v.items ≡ map (terminal_of included text.now) tokens.now) }
{
    let mut found = Vec::new(alloc);
    for token in tokens {
        found.push(make_terminal(text, token, included))?;
    }
    Ok(found)
}
