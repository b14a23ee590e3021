//! Entries read from lines, word by word. Each reader tells which value the words that it took are those of.

ghost use Rattle.std.specs.Prelude.{◌≡◌, ◌≢◌, ◌↔◌, ℕ, Bool, List, [], ◌∷◌, Option, codes, decimal, IfOk, IfSome, IfNone, IsTrue};
ghost use Rattle.patch_base.specs.Texts.{digit};
ghost use Rattle.pauli_product.specs.Signed.{Signed};
ghost use Rattle.pauli_product.specs.Spelling.{product_text};
ghost use Rattle.source_model.specs.declared.Given.{Given};
ghost use Rattle.board_core.specs.declared.Entry.{Entry};
ghost use Rattle.schedule_text.specs.Text.{optional, outcome_words, two, IsNumber};
ghost use Rattle.schedule_text.specs.Lines.{IsDelivered, IsAxis, version_of};
ghost use Rattle.schedule_text.specs.inside.Lines.{IsCells, IsWorded, IsEntryOf, IsNoEntry, Starts};

use board_core::Entry;
use patch_base::{Memory, Words, bit, decimal};
use patch_layout::CellList;
use pauli_product::Product;
use source_model::Given;
use std::alloc::Global;

fn is_end(words: &mut Words<'_>) -> bool
    ensures { IsTrue result ↔ (words.old ≡ []) }
{
    words.next_word().is_none()
}

fn next_number(words: &mut Words<'_>) -> Option<u32>
    ensures found { IfSome result (λ n. IsNumber n × (words.old ≡ decimal n ∷ words.new)) }
    ensures other { IfNone result ((n : ℕ) (rest : List (List ℕ)) → IsNumber n
        → words.old ≢ decimal n ∷ rest) }
{
    decimal(words.next_word()?)
}

fn last_number(words: &mut Words<'_>) -> Option<u32>
    ensures found { IfSome result (λ n. IsNumber n × (words.old ≡ decimal n ∷ [])) }
    ensures other { IfNone result ((n : ℕ) → IsNumber n → words.old ≢ decimal n ∷ []) }
{
    let n = next_number(words)?;
    if is_end(words) { Some(n) } else { None }
}

fn next_bit(words: &mut Words<'_>) -> Option<bool>
    ensures found { IfSome result (λ b. words.old ≡ digit b ∷ words.new) }
    ensures other { IfNone result ((b : Bool) (rest : List (List ℕ)) → words.old ≢ digit b ∷ rest) }
{
    bit(words.next_word()?)
}

fn last_bit(words: &mut Words<'_>) -> Option<bool>
    ensures found { IfSome result (λ b. words.old ≡ digit b ∷ []) }
    ensures other { IfNone result ((b : Bool) → words.old ≢ digit b ∷ []) }
{
    let b = next_bit(words)?;
    if is_end(words) { Some(b) } else { None }
}

fn next_optional(words: &mut Words<'_>) -> Option<Option<u32>>
    ensures found { IfSome result (λ o. IfSome o IsNumber × (words.old ≡ optional o ∷ words.new)) }
    ensures other { IfNone result ((o : Option ℕ) (rest : List (List ℕ)) → IfSome o IsNumber
        → words.old ≢ optional o ∷ rest) }
{
    match words.next_word()? {
        b"-" => Some(None),
        word => match decimal(word) {
            Some(n) => Some(Some(n)),
            None => None,
        },
    }
}

fn given(words: &mut Words<'_>) -> Option<Given>
    ensures found { IfSome result (λ g. IsDelivered g × (words.old ≡ outcome_words g)) }
    ensures other { IfNone result ((g : Given) → IsDelivered g → words.old ≢ outcome_words g) }
{
    let raw = next_bit(words)?;
    match words.next_word() {
        None => Some(Given::Measure { raw }),
        Some(word) => {
            let x = bit(word)?;
            if is_end(words) {
                Some(Given::Rotation { raw, x })
            } else {
                None
            }
        }
    }
}

fn next_axis(alloc: Global, words: &mut Words<'_>) -> Result<Option<Product>, Memory>
    ensures found { IfOk result (λ f. IfSome f (λ p. IsAxis p
        × (words.old ≡ product_text p ∷ words.new))) }
    ensures other { IfOk result (λ f. IfNone f ((p : Signed) (rest : List (List ℕ)) → IsAxis p
        → words.old ≢ product_text p ∷ rest)) }
{
    match words.next_word() {
        Some(word) => Product::parse(alloc, word),
        None => Ok(None),
    }
}

fn cells(alloc: Global, words: &mut Words<'_>) -> Result<Option<CellList>, Memory>
    ensures found { IfOk result (λ f. IfSome f (IsCells words.old)) }
    ensures other { IfOk result (λ f. IfNone f ((cells : List ℕ) → IsCells words.old cells → ⊥)) }
{
    let mut cells = CellList::new(alloc);
    let mut least = 0u64;
    while let Some(word) = words.next_word() {
        let Some(cell) = decimal(word) else {
            return Ok(None);
        };
        if (cell as u64) < least {
            return Ok(None);
        }
        cells.push(cell)?;
        least = cell as u64 + 1;
    }
    if least == 0 {
        return Ok(None);
    }
    Ok(Some(cells))
}

fn claim(alloc: Global, words: &mut Words<'_>) -> Result<Option<Entry>, Memory>
    ensures found { IfOk result (λ f. IfSome f (IsEntryOf (codes "C" ∷ words.old))) }
    ensures other { IfOk result (λ f. IfNone f (IsNoEntry (codes "C" ∷ words.old))) }
{
    let Some(product) = next_number(words) else {
        return Ok(None);
    };
    let Some(axis) = next_axis(alloc, words)? else {
        return Ok(None);
    };
    let Some(port) = next_optional(words) else {
        return Ok(None);
    };
    let Some(state) = next_optional(words) else {
        return Ok(None);
    };
    if port.is_some() != state.is_some() {
        return Ok(None);
    }
    let Some(cells) = cells(alloc, words)? else {
        return Ok(None);
    };
    Ok(Some(Entry::Claim {
        product,
        axis,
        port,
        state,
        cells,
    }))
}

fn delivery(words: &mut Words<'_>) -> Option<Entry>
    ensures found { IfSome result (IsEntryOf (codes "D" ∷ words.old)) }
    ensures other { IfNone result (IsNoEntry (codes "D" ∷ words.old)) }
{
    let product = next_number(words)?;
    let given = given(words)?;
    Some(Entry::Deliver { product, given })
}

fn release(words: &mut Words<'_>) -> Option<Entry>
    ensures found { IfSome result (IsEntryOf (codes "R" ∷ words.old)) }
    ensures other { IfNone result (IsNoEntry (codes "R" ∷ words.old)) }
{
    let product = last_number(words)?;
    Some(Entry::Release { product })
}

fn step(words: &mut Words<'_>) -> Option<Entry>
    ensures found { IfSome result (IsEntryOf (codes "S" ∷ words.old)) }
    ensures other { IfNone result (IsNoEntry (codes "S" ∷ words.old)) }
{
    let factory = last_number(words)?;
    Some(Entry::Step { factory })
}

fn settling(words: &mut Words<'_>) -> Option<Entry>
    ensures found { IfSome result (IsWorded two (codes "T" ∷ words.old)) }
    ensures other { IfNone result ((e : Entry) → IsWorded two (codes "T" ∷ words.old) e → ⊥) }
{
    let product = next_number(words)?;
    let flip = last_bit(words)?;
    Some(Entry::Settle { product, flip })
}

fn next_letter(words: &mut Words<'_>) -> Option<u8>
    ensures found { IfSome result (λ b. words.old ≡ (b ∷ []) ∷ words.new) }
    ensures other { IfNone result ((b : ℕ) (rest : List (List ℕ)) → words.old ≢ (b ∷ []) ∷ rest) }
{
    match words.next_word()? {
        [letter] => Some(*letter),
        _ => None,
    }
}

/// The entry that the words of a line name, after the number of its worker.
pub(crate) fn entry(
    alloc: Global,
    words: &mut Words<'_>,
    version: u32,
) -> Result<Option<Entry>, Memory>
    ensures found { IfOk result (λ f. IfSome f (IsWorded (version_of version) words.old)) }
    ensures other { IfOk result (λ f. IfNone f ((e : Entry)
        → IsWorded (version_of version) words.old e → ⊥)) }
{
    let Some(letter) = next_letter(words) else {
        return Ok(None);
    };
    match letter {
        b'C' => claim(alloc, words),
        b'D' => Ok(delivery(words)),
        b'R' => Ok(release(words)),
        b'S' => Ok(step(words)),
        b'T' if version != 1 => Ok(settling(words)),
        _ => Ok(None),
    }
}

/// The number of the entry's worker: 0 in version 1, and the first word in version 2.
pub(crate) fn worker(words: &mut Words<'_>, version: u32) -> Option<u32>
    ensures found { IfSome result (λ by. Starts (version_of version) words.old by words.new) }
    ensures other { IfNone result ((by : ℕ) (rest : List (List ℕ))
        → Starts (version_of version) words.old by rest → ⊥) }
{
    if version == 1 {
        return Some(0);
    }
    let by = next_number(words)?;
    if by <= 63 { Some(by) } else { None }
}
