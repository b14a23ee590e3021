//! A shelf with texts by name.

ghost use Rattle.std.specs.Prelude.{◌≡◌, ◌≤◌, ◌<◌, ◌^◌, None};

use crate::shelf::copy_from;
use patch_base::{Failed, Shelf};

/// A name and its text.
pub(crate) type Text<'a> = (&'a str, &'a [u8]);

/// Texts by name, 7 bytes a call.
#[derive(Drop)]
pub(crate) struct TextShelf<'a> {
    pub texts: &'a [Text<'a>],
    faults: u64,
}

impl<'a> TextShelf<'a> {
    pub fn of(texts: &'a [Text<'a>]) -> TextShelf<'a> {
        TextShelf { texts, faults: 0 }
    }

    // The first text of a name.
    fn text(&self, name: &str) -> Option<&'a [u8]> {
        for at in 0..self.texts.len() {
            let (other, bytes) = self.texts[at];
            if other == name {
                return Some(bytes);
            }
        }
        None
    }
}

impl Shelf for TextShelf<'_> {
    ghost tells = { λ shelf name. None };

    ghost faults = { λ shelf name. shelf.faults };

    fn read_at(&mut self, name: &str, at: u64, into: &mut [u8]) -> Result<usize, Failed> {
        if let Some(text) = self.text(name) {
            return Ok(copy_from(text, at, into));
        }
        self.faults = self.faults.saturating_add(1);
        Err(Failed)
    }
}
