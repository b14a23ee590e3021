//! The grammar of OpenQASM 2.0's subset, over what it sees of tokens.
//!
//! A statement is read by following its tokens through the grammar. The first token by which it doesn't go on is where it is refused.
//! What it is spelled with are places of tokens; the crate above gives them their bytes, and so their names and numbers.
#![tactic(auto)]

mod follow;
mod law;
mod productions;
mod spoken;
mod terminal;

pub use follow::{Halt, Refusal, Unread, version};
pub use law::{
    law_grammar, law_grammar_rows, law_one_sentence, law_read, law_some_sentence, law_stop,
};
pub use productions::next_statement;
pub use spoken::{Argument, BodyStatement, GateCall, Sentence};
pub use terminal::Terminal;
