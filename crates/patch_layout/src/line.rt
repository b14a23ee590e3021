//! Lines of a layout text.

ghost use Rattle.std.specs.Prelude.{◌≡◌, ◌<◌, ◌^◌, ℕ, Bool, ◌∷◌, [], IsTrue, IsFalse, List, ◌↔◌, IfSome, IfNone, decimal as decimal_text};
ghost use Rattle.patch_base.specs.Texts.{words};
ghost use Rattle.patch_layout.specs.LayoutText.{side_word, Spells, Header, cell_of, site_of};
ghost use Rattle.patch_layout.specs.inside.Reading.{PatchAfter, PortAfter, WallAfter};
ghost use Rattle.patch_layout.specs.declared.line.Line.{Line};

use crate::layout::Site;
use patch_base::{Words, decimal};

/// A line of a layout text that isn't passed over.
#[derive(Clone, Copy)]
pub enum Line {
    Patch {
        qubit: u32,
        cell: u32,
        level: bool,
    },
    Port {
        factory: u32,
        cell: u32,
        level: bool,
        store: u32,
    },
    Wall {
        cell: u32,
    },
}

impl Line {
    /// The cell that the line names.
    pub fn cell(&self) -> u32
        ensures { result ≡ cell_of self.now }
    {
        match *self {
            Line::Patch { cell, .. } => cell,
            Line::Port { cell, .. } => cell,
            Line::Wall { cell } => cell,
        }
    }

    /// What the line makes of its cell.
    pub fn site(&self) -> Site
        ensures { result ≡ site_of self.now }
    {
        match *self {
            Line::Patch { qubit, level, .. } => Site::Patch { qubit, level },
            Line::Port {
                factory,
                level,
                store,
                ..
            } => Site::Port {
                factory,
                level,
                store,
            },
            Line::Wall { .. } => Site::Wall,
        }
    }
}

// Takes a decimal off the words.
fn number(words: &mut Words) -> Option<u32>
    ensures value { IfSome result (λ v. (v < 2 ^ 32) × (words.old ≡ decimal_text v ∷ words.new)) }
    ensures other { IfNone result ((v : ℕ) (rest : List (List ℕ)) → v < 2 ^ 32
        → words.old ≡ decimal_text v ∷ rest → ⊥) }
{
    let word = words.next_word()?;
    decimal(word)
}

// Takes the name of a side off the words: `h` where the X sides lie left and right, `v` where they lie above and below.
fn side(words: &mut Words) -> Option<bool>
    ensures value { IfSome result (λ level. words.old ≡ side_word level ∷ words.new) }
    ensures other { IfNone result ((level : Bool) (rest : List (List ℕ))
        → words.old ≡ side_word level ∷ rest → ⊥) }
{
    let word = words.next_word()?;
    match word {
        b"h" => Some(true),
        b"v" => Some(false),
        _ => None,
    }
}

// Whether a word is this one.
fn is_word(word: &[u8], wanted: &[u8]) -> bool
    ensures { IsTrue result ↔ (word.now ≡ wanted.now) }
{
    word == wanted
}

// Whether the next word is this one, which is taken off.
fn is_next(words: &mut Words, wanted: &[u8]) -> bool
    ensures yes { IsTrue result → words.old ≡ wanted.now ∷ words.new }
    ensures no { IsFalse result → (rest : List (List ℕ)) → words.old ≡ wanted.now ∷ rest → ⊥ }
{
    match words.next_word() {
        Some(word) => is_word(word, wanted),
        None => false,
    }
}

// Whether no word is left.
fn is_end(words: &mut Words) -> bool
    ensures { IsTrue result ↔ (words.old ≡ []) }
{
    words.next_word().is_none()
}

// What follows `patch`: a qubit below 1,024, a cell and a side.
fn patch(words: &mut Words) -> Option<Line>
    ensures value { IfSome result (PatchAfter words.old) }
    ensures other { IfNone result ((l : Line) → PatchAfter words.old l → ⊥) }
{
    let qubit = number(words)?;
    let cell = number(words)?;
    let level = side(words)?;
    if qubit >= 1024 {
        return None;
    }
    if !is_end(words) {
        return None;
    }
    Some(Line::Patch { qubit, cell, level })
}

// What follows `port`: a factory below 16, a cell, a side, and a store of 1 to 16.
fn port(words: &mut Words) -> Option<Line>
    ensures value { IfSome result (PortAfter words.old) }
    ensures other { IfNone result ((l : Line) → PortAfter words.old l → ⊥) }
{
    let factory = number(words)?;
    let cell = number(words)?;
    let level = side(words)?;
    let store = number(words)?;
    if factory >= 16 {
        return None;
    }
    if store == 0 {
        return None;
    }
    if store > 16 {
        return None;
    }
    if !is_end(words) {
        return None;
    }
    Some(Line::Port {
        factory,
        cell,
        level,
        store,
    })
}

// What follows `wall`: a cell.
fn wall(words: &mut Words) -> Option<Line>
    ensures value { IfSome result (WallAfter words.old) }
    ensures other { IfNone result ((l : Line) → WallAfter words.old l → ⊥) }
{
    let cell = number(words)?;
    if !is_end(words) {
        return None;
    }
    Some(Line::Wall { cell })
}

/// The line that a text line spells.
pub fn read_line(text: &[u8]) -> Option<Line>
    ensures value { IfSome result (Spells text.now) }
    ensures other { IfNone result ((l : Line) → Spells text.now l → ⊥) }
{
    let mut words = Words::of(text);
    let word = words.next_word()?;
    if is_word(word, b"patch") {
        return patch(&mut words);
    }
    if is_word(word, b"port") {
        return port(&mut words);
    }
    if is_word(word, b"wall") {
        return wall(&mut words);
    }
    None
}

/// The rows and columns that a text line gives as a header: `layout 1 ROWS COLUMNS`.
pub fn read_header(text: &[u8]) -> Option<(u32, u32)>
    ensures value { IfSome result (λ h. Header h.0 h.1 text.now) }
    ensures other { IfNone result ((rows columns : ℕ) → Header rows columns text.now → ⊥) }
{
    let mut words = Words::of(text);
    if !is_next(&mut words, b"layout") {
        return None;
    }
    if !is_next(&mut words, b"1") {
        return None;
    }
    let rows = number(&mut words)?;
    let columns = number(&mut words)?;
    if !is_end(&mut words) {
        return None;
    }
    Some((rows, columns))
}
