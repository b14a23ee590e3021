//! Lines of a schedule: its header, lines that a line feed ends, and lines of bits.

ghost use Rattle.std.specs.Prelude.{◌≡◌, ◌↔◌, ℕ, ◌+◌, ◌≤◌, List, [], ◌∷◌, ◌++◌, length, drop, codes, MatchOption, IfSome, IfNone, IsTrue};
ghost use Rattle.patch_base.specs.Texts.{digit};
ghost use Rattle.schedule_text.specs.Text.{Version, header_line, bits_line, bit_in, digits};
ghost use Rattle.history_replay.specs.inside.Lines.{IsEnded, IsHeader};

use patch_base::next_line;
use source_model::Register;

/// A line that a line feed ends, and where the next one begins.
#[derive(Drop)]
pub(crate) struct Ended<'a> {
    pub(crate) line: &'a [u8],
    pub(crate) next: usize,
}

/// The version that a text's first line names, and where the second line begins.
#[derive(Drop)]
pub(crate) struct Header {
    pub(crate) version: u32,
    pub(crate) next: usize,
}

// Whether two lines are the same.
fn is_same(line: &[u8], other: &[u8]) -> bool
    ensures { IsTrue result ↔ (line.now ≡ other.now) }
{
    line == other
}

/// The line from a place on, where a line feed ends it.
pub(crate) fn ended_line(text: &[u8], at: usize) -> Option<Ended<'_>>
    ensures found { IfSome result (λ e. IsEnded text.now at e.line.now e.next) }
    ensures other { IfNone result ((line rest : List ℕ) → drop at text.now ≡ line ++ 10 ∷ rest
        → ⊥) }
{
    let Some(line) = next_line(text, at) else {
        return None;
    };
    if line.whole {
        return Some(Ended {
            line: &text[line.start..line.end],
            next: line.next,
        });
    }
    None
}

/// The header of a text.
pub(crate) fn read_header(text: &[u8]) -> Option<Header>
    ensures found { IfSome result (λ h. IsHeader text.now h.version h.next) }
    ensures other { IfNone result ((v : Version) (rest : List ℕ)
        → text.now ≡ header_line v ++ 10 ∷ rest → ⊥) }
{
    let Some(first) = ended_line(text, 0) else {
        return None;
    };
    let next = first.next;
    if is_same(first.line, b"schedule 1") {
        return Some(Header { version: 1, next });
    }
    if is_same(first.line, b"schedule 2") {
        return Some(Header { version: 2, next });
    }
    None
}

// Whether a byte is a bit's digit.
fn is_digit(byte: u8, bit: bool) -> bool
    ensures { IsTrue result ↔ (byte ∷ [] ≡ digit bit) }
{
    byte == if bit { b'1' } else { b'0' }
}

// Whether a word spells bits from the first on, the highest index first.
fn spells(word: &[u8], bits: &[bool], first: usize, size: usize) -> bool
    requires { first + size ≤ length bits.now }
    ensures { IsTrue result ↔ (word.now ≡ digits (bit_in bits.now) first size) }
{
    if word.len() != size {
        return false;
    }
    for at in 0..size {
        if !is_digit(word[size - 1 - at], bits[first + at]) {
            return false;
        }
    }
    true
}

// What comes after the beginning of a line.
fn behind<'a>(line: &'a [u8], prefix: &[u8]) -> Option<&'a [u8]>
    ensures { MatchOption result ((rest : List ℕ) → line.now ≡ prefix.now ++ rest
        → ⊥) (λ rest. line.now ≡ prefix.now ++ rest.now) }
{
    line.strip_prefix(prefix)
}

// The digits of a line of bits, after the register's name.
fn behind_name<'a>(line: &'a [u8], name: &[u8]) -> Option<&'a [u8]>
    ensures { MatchOption result ((word : List ℕ)
        → line.now ≡ (codes "bits " ++ name.now ++ codes " ") ++ word
        → ⊥) (λ word. line.now ≡ (codes "bits " ++ name.now ++ codes " ") ++ word.now) }
{
    let Some(named) = behind(line, b"bits ") else {
        return None;
    };
    let Some(spaced) = behind(named, name) else {
        return None;
    };
    let Some(word) = behind(spaced, b" ") else {
        return None;
    };
    Some(word)
}

/// Whether a line is the register's line of bits.
pub(crate) fn is_bits_line(line: &[u8], register: &Register, bits: &[bool]) -> bool
    requires { register.now.first + register.now.size ≤ length bits.now }
    ensures { IsTrue result ↔ (line.now ≡ bits_line (bit_in bits.now) register.now) }
{
    let Some(word) = behind_name(line, register.name.bytes()) else {
        return false;
    };
    spells(word, bits, register.first as usize, register.size as usize)
}
