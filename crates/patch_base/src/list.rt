//! A list that contracts see as one.

ghost use Rattle.std.specs.Prelude.{◌≡◌, ◌<◌, ◌++◌, ◌∷◌, [], length, OnOk, OnErr, slice_set};

use crate::outside::Memory;
use std::alloc::Global;
use std::marker::Model;

/// A list, which contracts see as one. Public structs have it in place of a `Vec`, whose capacity they would show.
#[derive(Debug, Drop)]
pub struct Listed<T> {
    items: Vec<T>,
}

impl<T> Model for Listed<T> {
    ghost use Rattle.std.specs.Prelude.{List};

    ghost Value = { List T };

    ghost view = { λ s. s.items.items };
}

impl<T> Listed<T> {
    /// A list without items.
    pub fn new(alloc: Global) -> Listed<T>
        ensures { result ≡ [] }
    {
        Listed {
            items: Vec::new(alloc),
        }
    }

    /// The list of these items; no memory is taken.
    pub fn of(items: Vec<T>) -> Listed<T>
        ensures { result ≡ items.items }
    {
        Listed { items }
    }

    /// The items, given back; no memory is taken.
    pub fn into_vec(self) -> Vec<T>
        ensures { result.items ≡ self }
    {
        self.items
    }

    /// The items, in the list's order.
    pub fn as_slice(&self) -> &[T]
        ensures { result.now ≡ self.now }
    {
        self.items.as_slice()
    }

    /// Appends an item. Out of memory, the list is as it was.
    pub fn push(&mut self, item: T) -> Result<(), Memory>
    where
        T: Drop,
        ensures ok { OnOk result (self.new ≡ self.old ++ item ∷ []) }
        ensures err { OnErr result (self.new ≡ self.old) }
    {
        self.items.push(item)?;
        Ok(())
    }
}

impl<T: Copy> Listed<T> {
    /// Puts an item in the place of another.
    pub fn set(&mut self, at: u32, item: T)
        requires { at < length self.old }
        ensures { self.new ≡ slice_set self.old at item }
    {
        self.items[at as usize] = item;
    }

    /// Takes over all items of a list that is as long.
    pub fn copy_from(&mut self, items: &[T])
        requires { length items.now ≡ length self.old }
        ensures { self.new ≡ items.now }
    {
        self.items.copy_from_slice(items);
    }
}
