//! Names in the order of their declaration.

ghost use Rattle.std.specs.Prelude.{◌≡◌, ◌++◌, ◌∷◌, [], ◌<◌, length, None, OnOk, IfSome};
ghost use Rattle.std.specs.List.{list_any};
ghost use Rattle.qasm_parse.specs.Gates.{is_barred};
ghost use Rattle.qasm_parse.specs.Known.{place_of};

use crate::gates::is_barred;
use indexmap::IndexSet;
use patch_base::Memory;
use std::alloc::Global;
use std::marker::Model;

/// Names without repetition, which contracts see as a list in the order of their declaration.
#[derive(Drop)]
pub struct NameList {
    set: IndexSet<Vec<u8>>,
}

impl Model for NameList {
    ghost use Rattle.std.specs.Prelude.{List, ℕ, map};

    ghost Value = { List (List ℕ) };

    ghost view = { λ s. map (λ k. k.items) s.set.keys };
}

impl NameList {
    /// No names.
    pub fn new(alloc: Global) -> NameList
        ensures { result ≡ [] }
    {
        NameList {
            set: IndexSet::new(alloc),
        }
    }

    /// The place of a name.
    pub fn find(&self, name: &[u8]) -> Option<usize>
        ensures value { result ≡ place_of self.now name.now }
        ensures within { IfSome result (λ i. i < length self.now) }
    {
        self.set.get_index_of(name)
    }

    /// Appends a name that isn't there.
    pub fn push(&mut self, alloc: Global, name: &[u8]) -> Result<(), Memory>
        requires { place_of self.old name.now ≡ None }
        ensures { OnOk result (self.new ≡ self.old ++ name.now ∷ []) }
    {
        let owned = Vec::from_slice(alloc, name)?;
        self.set.insert(owned)?;
        Ok(())
    }

    /// Whether a name is among them that the include makes known or takes.
    pub fn any_barred(&self) -> bool
        ensures { result ≡ list_any is_barred self.now }
    {
        any_barred(&self.set)
    }
}

fn any_barred(set: &IndexSet<Vec<u8>>) -> bool
    ensures { result ≡ list_any (λ k. is_barred k.items) set.now.keys }
{
    set.iter().any(|name| is_barred(name.as_slice()))
}
