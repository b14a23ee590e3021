//! Lists of items, of registers and of a name's bytes, which contracts see as lists.

ghost use Rattle.std.specs.Prelude.{◌≡◌, IfOk};

use crate::{Item, Register};
use patch_base::{Listed, Memory};
use std::alloc::Global;
use std::marker::Model;

/// Items in source order.
pub type Items = Listed<Item>;

/// Registers in order of declaration.
pub type Registers = Listed<Register>;

/// A register's name, seen as its bytes.
#[derive(Drop)]
pub struct Name {
    bytes: Vec<u8>,
}

impl Model for Name {
    ghost use Rattle.std.specs.Prelude.{List, ℕ};

    ghost Value = { List ℕ };

    ghost view = { λ s. s.bytes.items };
}

impl Name {
    /// A name with these bytes.
    ///
    /// # Errors
    ///
    /// `Memory` when out of memory.
    pub fn new(alloc: Global, bytes: &[u8]) -> Result<Name, Memory>
        ensures { IfOk result (λ name. name ≡ bytes.now) }
    {
        Ok(Name {
            bytes: bytes.to_vec(alloc)?,
        })
    }

    /// The name's bytes.
    pub fn bytes(&self) -> &[u8]
        ensures { result.now ≡ self.now }
    {
        self.bytes.as_slice()
    }
}
