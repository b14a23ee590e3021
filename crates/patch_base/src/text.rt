// Texts as lists of bytes: lines, words, decimals.
ghost use Rattle.std.specs.Prelude.{◌≡◌, ◌≢◌, ◌↔◌, ◌==◌, ℕ, Bool, ◌<◌, ◌≤◌, ◌^◌, [], ◌∷◌, ◌++◌, length, drop, slice_range, decimal as decimal_text, IfSome, IfNone, IsNone, OnOk, OnErr, IsTrue};
ghost use Rattle.std.specs.List.{position_or_len};
ghost use Rattle.patch_base.specs.Texts.{lines, words, digit, IsSkipped};
ghost use Rattle.patch_base.specs.Lines.{IsLineAt, IsWithin};

use crate::outside::Memory;
use itoa::Buffer;
use std::marker::Model;

/// Where a line of a text lies, in bytes from the text's start.
#[derive(Clone, Copy, Debug, PartialEq, Eq)]
pub struct Line {
    /// Where the line begins.
    pub start: usize,
    /// The place of its line feed, or the text's length.
    pub end: usize,
    /// Where the next line begins, or the text's length.
    pub next: usize,
    /// Whether a line feed ends the line.
    pub whole: bool,
}

/// The line that begins at a place. None at the end of the text and past it.
pub fn next_line(text: &[u8], at: usize) -> Option<Line>
    ensures end { IsNone result ↔ (length text.now ≤ at) }
    ensures line { IfSome result (IsLineAt text.now at) }
    ensures within { IfSome result (IsWithin text.now) }
    ensures lines { IfSome result (λ l. lines (drop at text.now)
        ≡ slice_range text.now l.start l.end ∷ lines (drop l.next text.now)) }
{
    if text.len() <= at {
        return None;
    }
    let end = at + place_of(&text[at..], b'\n');
    let whole = end < text.len();
    Some(Line {
        start: at,
        end,
        next: if whole { end + 1 } else { end },
        whole,
    })
}

/// The place of the first such byte, or the length.
fn place_of(bytes: &[u8], sought: u8) -> usize
    ensures place { result ≡ position_or_len (λ b. b == sought) bytes.now }
    ensures within { result ≤ length bytes.now }
{
    for (place, byte) in bytes.iter().enumerate() {
        if *byte == sought {
            return place;
        }
    }
    bytes.len()
}

/// Whether product lists, layouts and outcome texts pass over a line: it is empty, or begins with `#`.
pub fn is_skipped(line: &[u8]) -> bool
    ensures { IsTrue result ↔ IsSkipped line.now }
{
    match line {
        [] => true,
        [first, ..] => *first == b'#',
    }
}

/// The words of a line that are left: the pieces between its spaces, one more than it has spaces.
/// A line is well spaced where none of them is empty.
#[derive(Debug, Drop)]
pub struct Words<'a> {
    rest: Option<&'a [u8]>,
}

impl<'a> Model for Words<'a> {
    ghost use Rattle.std.specs.Prelude.{List, ℕ};
    ghost use Rattle.std.specs.Option.{option_copied};
    ghost use Rattle.std.specs.List.{position_or_len};
    ghost use Rattle.patch_base.specs.inside.Texts.{words_left};

    ghost Value = { List (List ℕ) };

    ghost view = { λ w. words_left (option_copied w.rest) };
}

impl<'a> Words<'a> {
    /// All words of a line.
    pub fn of(line: &'a [u8]) -> Words<'a>
        ensures { result ≡ words line.now }
    {
        Words { rest: Some(line) }
    }

    /// The next word. None where no word is left.
    pub fn next_word(&mut self) -> Option<&'a [u8]>
        ensures word { IfSome result (λ word. self.old ≡ word.now ∷ self.new) }
        ensures end { IfNone result ((self.old ≡ []) × (self.new ≡ [])) }
    {
        let line = self.rest?;
        let space = place_of(line, b' ');
        if space == line.len() {
            self.rest = None;
            return Some(line);
        }
        self.rest = Some(&line[space + 1..]);
        Some(&line[..space])
    }
}

/// The value of a decimal: `0`, or digits without a leading zero, below 2^32. None for other words.
pub fn decimal(word: &[u8]) -> Option<u32>
    ensures value { IfSome result (λ v. (v < 2 ^ 32) × (word.now ≡ decimal_text v)) }
    ensures other { IfNone result ((v : ℕ) → v < 2 ^ 32 → word.now ≢ decimal_text v) }
{
    if word.is_empty() || (word.len() > 1 && word[0] == b'0') {
        return None;
    }
    let mut value = 0u32;
    for byte in word {
        if !byte.is_ascii_digit() {
            return None;
        }
        value = value.checked_mul(10)?.checked_add((*byte - b'0') as u32)?;
    }
    Some(value)
}

/// Appends the digits of a number. Out of memory, nothing changes.
pub fn put_decimal(n: u64, into: &mut Vec<u8>) -> Result<(), Memory>
    ensures digits { OnOk result (into.new.items ≡ into.old.items ++ decimal_text n) }
    ensures refused { OnErr result (into.new.items ≡ into.old.items) }
{
    let mut buffer = Buffer::new();
    into.extend_from_slice(buffer.format(n).as_bytes())?;
    Ok(())
}

/// The truth value of a word: `1` or `0`. None for other words.
pub fn bit(word: &[u8]) -> Option<bool>
    ensures value { IfSome result (λ value. word.now ≡ digit value) }
    ensures other { IfNone result ((value : Bool) → word.now ≢ digit value) }
{
    match word {
        b"0" => Some(false),
        b"1" => Some(true),
        _ => None,
    }
}
