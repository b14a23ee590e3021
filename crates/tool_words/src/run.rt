//! The commands of `patchrun`.

ghost use Rattle.std.specs.Prelude.{◌≡◌, ◌≢◌, ℕ, ◌≤◌, List, [], ◌∷◌, map, codes, IfSome, IfNone, IsSomeAnd, string_bytes, decimal as decimal_text};
ghost use Rattle.tool_words.specs.Commands.{Run, AreRouters, ArePairs, IsRun, run_of, run_words};

use patch_base::{ROUTERS, decimal};

/// The greatest size of a job that `big` makes.
const MOST_BIG: u32 = 4_000;

/// The greatest number of programs side by side.
const MOST_PROGRAMS: usize = 8;

/// A command of `patchrun`, with the names of the texts that it reads.
///
/// `k` is the number of routers, 1 to 16. The layout `-` is the built-in one.
#[derive(Clone, Copy, Debug, PartialEq, Eq)]
pub enum RunCommand<'a> {
    /// `run CIRCUIT LAYOUT OUTCOMES K`: the circuit is carried out by K routers.
    Run {
        circuit: &'a str,
        layout: &'a str,
        outcomes: &'a str,
        k: u32,
    },
    /// `bits CIRCUIT LAYOUT OUTCOMES K`: the same, and only the bits are written.
    Bits {
        circuit: &'a str,
        layout: &'a str,
        outcomes: &'a str,
        k: u32,
    },
    /// `big N K`: a job that is made from N, 1 to 4,000.
    Big {
        n: u32,
        k: u32,
    },
    /// `side LAYOUT K`, followed by 1 to 8 pairs `CIRCUIT OUTCOMES`: several programs on one grid.
    ///
    /// `pairs` has the words behind K.
    Side {
        layout: &'a str,
        k: u32,
        pairs: &'a [String],
    },
}

/// The command that the words give; None for words that are no command of `patchrun`.
///
/// The words are those after the program's name. K and N are decimals without a leading zero.
pub fn run_command(words: &[String]) -> Option<RunCommand<'_>>
    ensures listed { IfSome result (λ c. (map string_bytes words.now ≡ run_words (run_of c))
        × IsRun (run_of c)) }
    ensures exact { (r : Run) → map string_bytes words.now ≡ run_words r → IsRun r
        → IsSomeAnd result (λ c. run_of c ≡ r) }
{
    if let [name, layout, k, pairs @ ..] = words
        && name.as_str() == "side"
    {
        return with_pairs(layout.as_str(), k.as_str(), pairs);
    }
    match words {
        [word, size, routers] if word.as_str() == "big" => {
            with_size(size.as_str(), routers.as_str())
        }
        [name, circuit, layout, outcomes, k] => with_texts(
            name.as_str(),
            circuit.as_str(),
            layout.as_str(),
            outcomes.as_str(),
            k.as_str(),
        ),
        _ => None,
    }
}

// The command behind the word `side`.
fn with_pairs<'a>(layout: &'a str, k: &'a str, pairs: &'a [String]) -> Option<RunCommand<'a>>
    ensures listed { IfSome result
        (λ c. (codes "side" ∷ layout.now ∷ k.now ∷ map string_bytes pairs.now
        ≡ run_words (run_of c)) × IsRun (run_of c)) }
    ensures exact { (r : Run) → codes "side" ∷ layout.now ∷ k.now ∷ map string_bytes pairs.now
        ≡ run_words r → IsRun r → IsSomeAnd result (λ c. run_of c ≡ r) }
{
    let k = number_to(k, ROUTERS)?;
    if pairs.is_empty() || pairs.len() % 2 != 0 || pairs.len() / 2 > MOST_PROGRAMS {
        return None;
    }
    Some(RunCommand::Side { layout, k, pairs })
}

// The command behind the word `big`.
fn with_size<'a>(n: &str, k: &str) -> Option<RunCommand<'a>>
    ensures listed { IfSome result (λ c. (codes "big" ∷ n.now ∷ k.now ∷ [] ≡ run_words (run_of c))
        × IsRun (run_of c)) }
    ensures exact { (r : Run) → codes "big" ∷ n.now ∷ k.now ∷ [] ≡ run_words r → IsRun r
        → IsSomeAnd result (λ c. run_of c ≡ r) }
{
    Some(RunCommand::Big {
        n: number_to(n, MOST_BIG)?,
        k: number_to(k, ROUTERS)?,
    })
}

fn with_texts<'a>(
    name: &str,
    circuit: &'a str,
    layout: &'a str,
    outcomes: &'a str,
    k: &str,
) -> Option<RunCommand<'a>>
    requires { name.now ≢ codes "side" }
    ensures listed { IfSome result
        (λ c. (name.now ∷ circuit.now ∷ layout.now ∷ outcomes.now ∷ k.now ∷ []
        ≡ run_words (run_of c)) × IsRun (run_of c)) }
    ensures exact { (r : Run) → name.now ∷ circuit.now ∷ layout.now ∷ outcomes.now ∷ k.now ∷ []
        ≡ run_words r → IsRun r → IsSomeAnd result (λ c. run_of c ≡ r) }
{
    let k = number_to(k, ROUTERS)?;
    match name {
        "run" => Some(RunCommand::Run {
            circuit,
            layout,
            outcomes,
            k,
        }),
        "bits" => Some(RunCommand::Bits {
            circuit,
            layout,
            outcomes,
            k,
        }),
        _ => None,
    }
}

// The number from 1 to a greatest one whose decimal the word is.
fn number_to(word: &str, most: u32) -> Option<u32>
    ensures some { IfSome result (λ n. (1 ≤ n) × (n ≤ most) × (word.now ≡ decimal_text n)) }
    ensures none { IfNone result ((n : ℕ) → 1 ≤ n → n ≤ most → word.now ≢ decimal_text n) }
{
    let number = decimal(word.as_bytes())?;
    if 1 <= number && number <= most {
        Some(number)
    } else {
        None
    }
}
