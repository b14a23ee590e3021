//! The lines of an outcome text.

ghost use Rattle.std.specs.Prelude.{◌≡◌, ◌≢◌, ℕ, ◌<◌, ◌^◌, Bool, List, [], ◌∷◌, codes, IfSome, IfNone, decimal as decimal_text};
ghost use Rattle.patch_base.specs.Texts.{digit};
ghost use Rattle.outcome_table.specs.inside.Drafts.{said};
ghost use Rattle.outcome_table.specs.OutcomeText.{Line as Line_of, Spells, SpellsWords};

use magic_pool::Fail;
use patch_base::{Words, bit, decimal};
use source_model::Given;

/// What a line says.
#[derive(Clone, Copy, Debug, PartialEq, Eq)]
pub(crate) enum Line {
    /// The outcomes of a product.
    Outcome { product: u32, given: Given },
    /// A run fails.
    Failing(Fail),
}

/// What a line says; None where it has none of the forms.
///
/// The forms are `r PRODUCT RAW X`, `m PRODUCT RAW` and `f FACTORY RUN`.
pub(crate) fn line_of(text: &[u8]) -> Option<Line>
    ensures some { IfSome result (λ line. Spells text.now (said line)) }
    ensures none { IfNone result ((line : Line_of) → Spells text.now line → ⊥) }
{
    let mut words = Words::of(text);
    match words.next_word()? {
        b"r" => read_rotation(&mut words),
        b"m" => read_measurement(&mut words),
        b"f" => read_failing(&mut words),
        _ => None,
    }
}

// The words after an `r`.
fn read_rotation(words: &mut Words) -> Option<Line>
    ensures some { IfSome result (λ line. SpellsWords (codes "r" ∷ words.old) (said line)) }
    ensures none { IfNone result ((line : Line_of) → SpellsWords (codes "r" ∷ words.old) line → ⊥) }
{
    let product = next_number(words)?;
    let raw = next_bit(words)?;
    let x = next_bit(words)?;
    no_more(words)?;
    Some(Line::Outcome {
        product,
        given: Given::Rotation { raw, x },
    })
}

// The words after an `m`.
fn read_measurement(words: &mut Words) -> Option<Line>
    ensures some { IfSome result (λ line. SpellsWords (codes "m" ∷ words.old) (said line)) }
    ensures none { IfNone result ((line : Line_of) → SpellsWords (codes "m" ∷ words.old) line → ⊥) }
{
    let product = next_number(words)?;
    let raw = next_bit(words)?;
    no_more(words)?;
    Some(Line::Outcome {
        product,
        given: Given::Measure { raw },
    })
}

// The words after an `f`.
fn read_failing(words: &mut Words) -> Option<Line>
    ensures some { IfSome result (λ line. SpellsWords (codes "f" ∷ words.old) (said line)) }
    ensures none { IfNone result ((line : Line_of) → SpellsWords (codes "f" ∷ words.old) line → ⊥) }
{
    let factory = next_number(words)?;
    let run = next_number(words)?;
    no_more(words)?;
    Some(Line::Failing(Fail { factory, run }))
}

// Takes a word off that is a decimal.
fn next_number(words: &mut Words) -> Option<u32>
    ensures some { IfSome result (λ n. (n < 2 ^ 32) × (words.old ≡ decimal_text n ∷ words.new)) }
    ensures none { IfNone result ((n : ℕ) (rest : List (List ℕ)) → n < 2 ^ 32
        → words.old ≢ decimal_text n ∷ rest) }
{
    decimal(words.next_word()?)
}

// Takes a word off that is `0` or `1`.
fn next_bit(words: &mut Words) -> Option<bool>
    ensures some { IfSome result (λ b. words.old ≡ digit b ∷ words.new) }
    ensures none { IfNone result ((b : Bool) (rest : List (List ℕ)) → words.old ≢ digit b ∷ rest) }
{
    bit(words.next_word()?)
}

// Some where no word is left.
fn no_more(words: &mut Words) -> Option<()>
    ensures some { IfSome result (λ done. words.old ≡ []) }
    ensures none { IfNone result (words.old ≢ []) }
{
    match words.next_word() {
        Some(_) => None,
        None => Some(()),
    }
}
