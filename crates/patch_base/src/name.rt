// Names of registers and gates.
ghost use Rattle.std.specs.Prelude.{◌≡◌, codes};
ghost use Rattle.std.specs.List.{list_all, list_any};
ghost use Rattle.std.specs.Str.{bytes_eq};
ghost use Rattle.patch_base.specs.Names.{is_word_byte, is_lower, is_keyword as is_keyword_text, statement_words, expression_words, begins_as_name as begins_as_name_text, is_name as is_name_text};

/// Whether a word is a name of a register or a gate: a lower-case letter or an underscore, followed
/// by letters, digits and underscores, and none of the words that OpenQASM 2.0 reserves.
#[tactic(auto, unfolding(crate::specs::Names::is_name))]
pub fn is_name(word: &[u8]) -> bool
    ensures { result ≡ is_name_text word.now }
{
    begins_as_name(word) && has_word_bytes(word) && !is_keyword(word)
}

fn begins_as_name(word: &[u8]) -> bool
    ensures { result ≡ begins_as_name_text word.now }
{
    match word {
        [] => false,
        [first, ..] => first.is_ascii_lowercase() || *first == b'_',
    }
}

fn has_word_bytes(word: &[u8]) -> bool
    ensures { result ≡ list_all is_word_byte word.now }
{
    word.iter().all(|byte| is_word_byte(*byte))
}

fn is_word_byte(byte: u8) -> bool
    ensures { result ≡ is_word_byte byte }
{
    byte.is_ascii_alphanumeric() || byte == b'_'
}

fn is_keyword(word: &[u8]) -> bool
    ensures { result ≡ is_keyword_text word.now }
{
    is_statement_word(word) || is_expression_word(word)
}

// The words that begin statements.
fn is_statement_word(word: &[u8]) -> bool
    ensures { result ≡ list_any (bytes_eq word.now) statement_words }
{
    word == b"include".as_slice()
        || word == b"qreg".as_slice()
        || word == b"creg".as_slice()
        || word == b"gate".as_slice()
        || word == b"opaque".as_slice()
        || word == b"measure".as_slice()
        || word == b"reset".as_slice()
        || word == b"barrier".as_slice()
        || word == b"if".as_slice()
}

// The words of expressions.
fn is_expression_word(word: &[u8]) -> bool
    ensures { result ≡ list_any (bytes_eq word.now) expression_words }
{
    word == b"pi".as_slice()
        || word == b"sin".as_slice()
        || word == b"cos".as_slice()
        || word == b"tan".as_slice()
        || word == b"exp".as_slice()
        || word == b"ln".as_slice()
        || word == b"sqrt".as_slice()
}
