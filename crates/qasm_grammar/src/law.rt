//! What following a form means, and that tokens spell one statement at most.

ghost use Rattle.qasm_grammar.specs.Grammar as grammar;
ghost use Rattle.qasm_grammar.specs.Laws.{Read, Stopping, SomeSentence, OneSentence};
ghost use Rattle.qasm_grammar.specs.Meaning.{Live};
ghost use Rattle.qasm_grammar.specs.Rows.{GrammarRows};

/// Following a form answers what the form allows: where tokens are read, they are a list that it allows.
pub fn law_read()
    ensures { Read }
{}

/// Where tokens are refused, they begin such a list up to there, and none goes on with the token there.
pub fn law_stop()
    ensures { Stopping }
{}

/// Each part of the grammar can be spelled, but for the words that are refused on purpose.
pub fn law_grammar()
    ensures { Live grammar.statement }
{}

/// The worked examples of the grammar hold.
pub fn law_grammar_rows()
    ensures { GrammarRows }
{}

/// Tokens that are read as a statement spell one, and are at least one.
pub fn law_some_sentence()
    ensures { SomeSentence }
{}

/// Tokens spell one statement at most, and it ends at one place.
pub fn law_one_sentence()
    ensures { OneSentence }
{}
