//! The words of a live run.

ghost use Rattle.std.specs.Prelude.{◌≡◌, ◌≢◌, ℕ, ◌≤◌, List, [], ◌∷◌, map, codes, IfSome, IfNone, IsSomeAnd, string_bytes, decimal as decimal_text};
ghost use Rattle.live_readout.specs.Commands.{Command, IsCommand, live_words};
ghost use Rattle.live_readout.specs.inside.Commands.{command_of};

use patch_base::{ROUTERS, decimal};

/// The names of a job's texts, and the number of routers, 1 to 16. The layout `-` is the built-in one.
#[derive(Clone, Copy, Debug, PartialEq, Eq)]
pub struct LiveCommand<'a> {
    pub circuit: &'a str,
    pub layout: &'a str,
    pub outcomes: &'a str,
    pub k: u32,
}

/// The command that the words give; None for other words than `live CIRCUIT LAYOUT OUTCOMES K`. K is a decimal without a
/// leading zero.
pub(crate) fn live_command(words: &[String]) -> Option<LiveCommand<'_>>
    ensures listed { IfSome result (λ c. (map string_bytes words.now ≡ live_words (command_of c))
        × IsCommand (command_of c)) }
    ensures exact { (t : Command) → map string_bytes words.now ≡ live_words t → IsCommand t
        → IsSomeAnd result (λ c. command_of c ≡ t) }
{
    match words {
        [name, circuit, layout, outcomes, k] => with_texts(
            name.as_str(),
            circuit.as_str(),
            layout.as_str(),
            outcomes.as_str(),
            k.as_str(),
        ),
        _ => None,
    }
}

fn with_texts<'a>(
    name: &str,
    circuit: &'a str,
    layout: &'a str,
    outcomes: &'a str,
    k: &str,
) -> Option<LiveCommand<'a>>
    ensures listed { IfSome result
        (λ c. (name.now ∷ circuit.now ∷ layout.now ∷ outcomes.now ∷ k.now ∷ []
        ≡ live_words (command_of c)) × IsCommand (command_of c)) }
    ensures exact { (t : Command) → name.now ∷ circuit.now ∷ layout.now ∷ outcomes.now ∷ k.now ∷ []
        ≡ live_words t → IsCommand t → IsSomeAnd result (λ c. command_of c ≡ t) }
{
    if name != "live" {
        return None;
    }
    let k = routers(k)?;
    Some(LiveCommand {
        circuit,
        layout,
        outcomes,
        k,
    })
}

// The number of routers whose decimal the word is.
fn routers(word: &str) -> Option<u32>
    ensures some { IfSome result (λ n. (1 ≤ n) × (n ≤ ROUTERS) × (word.now ≡ decimal_text n)) }
    ensures none { IfNone result ((n : ℕ) → 1 ≤ n → n ≤ ROUTERS → word.now ≢ decimal_text n) }
{
    let number = decimal(word.as_bytes())?;
    if 1 <= number && number <= ROUTERS {
        Some(number)
    } else {
        None
    }
}
