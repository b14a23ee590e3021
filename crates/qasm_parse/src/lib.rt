//! The statements of a circuit text in OpenQASM 2.0, with their names resolved.
//!
//! A text that has tokens is read statement by statement: first the tokens of a statement are followed through the grammar, and then
//! its names are tried against what the statements before it declare. The first token by which a statement doesn't go on, or the
//! first rule that its names break, is the fault of the text.
#![tactic(auto)]

ghost use Rattle.std.specs.Prelude.{◌≡◌, Ok, IfOk};
ghost use Rattle.qasm_lex.specs.Tokens.{tokens_of};
ghost use Rattle.qasm_parse.specs.Pass.{Parses, terminals};
ghost use Rattle.qasm_parse.specs.inside.Pass.{ReadsAll};

mod definitions;
mod gates;
mod known;
mod law;
mod names;
mod operands;
mod source;
mod stop;
mod tree;
mod trying;
mod words;

use known::{Known, nothing_known};
pub use law::{law_answer, law_name_rows, law_one_fault, law_one_tree, law_tree_or_fault};
pub use patch_base::Listed;
use patch_base::Memory;
pub use qasm_grammar::{
    Terminal, law_grammar, law_grammar_rows, law_one_sentence, law_read, law_stop,
};
use qasm_grammar::{next_statement, version};
use qasm_lex::{CircuitFault, Token};
use source::Source;
use std::alloc::Global;
use stop::Fault;
pub use stop::Stop;
pub use tree::{Arg, BodyOp, Callee, Declared, Gate1, Gate2, GateDef, Statement, Tree};
use trying::try_sentence;

// What the grammar sees of a text, where an include may have been read since it was last asked.
fn refreshed(
    alloc: Global,
    source: &Source<'_>,
    found: Vec<Terminal>,
    before: bool,
    included: bool,
) -> Result<Vec<Terminal>, Memory>
    requires { found.items ≡ terminals source.now before }
    ensures { IfOk result (λ v. v.items ≡ terminals source.now included) }
{
    if before == included {
        return Ok(found);
    }
    source.terminals(alloc, included)
}

// Reads a text from its tokens, and gives all that its statements make known.
fn read(alloc: Global, source: &Source<'_>) -> Result<Known, Fault>
    ensures { ReadsAll source.now result }
{
    let mut found = source.terminals(alloc, false)?;
    let mut at = version(&found)?;
    let mut known = nothing_known(alloc);
    'reading: while at < found.as_slice().len() {
        let (sentence, end) = next_statement(alloc, &found, at)?;
        let before = known.included;
        known = try_sentence(alloc, source, known, at, sentence)?;
        found = refreshed(alloc, source, found, before, known.included)?;
        at = end;
    }
    Ok(known)
}

/// The tree of a text, from its tokens.
///
/// A text without a tree is refused at the line of its first fault: of the version, of a token that the grammar doesn't allow at its
/// place, or of a name. The rules of names are tried for each statement in the order of `FaultKind`'s last kinds, each at its first
/// token that breaks it; for the number and the sizes of arguments, a qubit twice, and limits that are passed, that is the first
/// token of the statement, or in a body that of the body statement.
pub fn parse(alloc: Global, text: &[u8], tokens: &[Token]) -> Result<Tree, CircuitFault>
    requires { tokens_of text.now ≡ Ok tokens.now }
    ensures { Parses text.now tokens.now result }
{
    qasm_lex::law_placed();
    qasm_lex::law_short();
    let source = Source::new(text, tokens);
    match read(alloc, &source) {
        Ok(known) => Ok(known.tree),
        Err(Fault::Memory) => Err(CircuitFault::Memory),
        Err(Fault::Stopping(stop)) => Err(CircuitFault::At {
            line: source.line(stop.at),
            kind: stop.kind,
        }),
    }
}
