//! A program's place among others.

ghost use Rattle.std.specs.Prelude.{◌≡◌, ◌+◌, ◌^◌, ◌<◌, ◌≤◌, ◌⊎◌, ◌++◌, All, length, IfOk, OnOk};
ghost use Rattle.side_by_side.specs.Places.{bit_in, item_in, items_in, pad, range_in};
ghost use Rattle.side_by_side.specs.inside.Drafts.{HasRoom};

use patch_base::Memory;
use pauli_product::Product;
use source_model::{Item, Items};
use std::alloc::Global;

/// Where a program stands among others.
#[derive(Clone, Copy)]
pub(crate) struct Place {
    /// The number of qubits before its own,
    pub(crate) before: u32,
    /// and of those after them.
    pub(crate) after: u32,
    /// The number of bits of its registers,
    pub(crate) bits: u32,
    /// the first of them among the joined ones,
    pub(crate) bit: u32,
    /// and its first hidden bit.
    pub(crate) hidden: u32,
}

impl Place {
    // A bit among the joined ones.
    fn bit_in(self, bit: u32) -> u32
        requires { bit_in self bit < 2 ^ 32 }
        ensures { result ≡ bit_in self bit }
    {
        if bit < self.bits {
            self.bit + bit
        } else {
            self.hidden + (bit - self.bits)
        }
    }

    // The first of so many bits among the joined ones.
    fn range_in(self, first: u32, size: u32) -> u32
        requires own { first + size < 2 ^ 32 }
        requires reads { (first + size ≤ self.bits) ⊎ (self.bits ≤ first) }
        requires joined { range_in self first size < 2 ^ 32 }
        ensures { result ≡ range_in self first size }
    {
        if first + size <= self.bits {
            self.bit + first
        } else {
            self.hidden + (first - self.bits)
        }
    }

    // A product on the joined qubits.
    fn pad(self, alloc: Global, axis: &Product) -> Result<Product, Memory>
        requires { self.before + (length axis.now.letters + self.after) ≤ 1024 }
        ensures { IfOk result (λ p. p ≡ pad self axis.now) }
    {
        let mut padded = Product::identity(alloc, self.before + axis.len() + self.after)?;
        let mut from = 0;
        while let Some(q) = axis.support_from(from) {
            padded.set_letter(self.before + q, axis.letter(q));
            from = q + 1;
        }
        if axis.sign() {
            padded.negate();
        }
        Ok(padded)
    }

    // An item among the joined ones.
    fn item_in(self, alloc: Global, item: &Item) -> Result<Item, Memory>
        requires { HasRoom self item.now }
        ensures { IfOk result (λ i. i ≡ item_in self item.now) }
    {
        match item {
            Item::Turn { axis, angle } => Ok(Item::Turn {
                axis: self.pad(alloc, axis)?,
                angle: *angle,
            }),
            Item::Measure { axis, bit } => Ok(Item::Measure {
                axis: self.pad(alloc, axis)?,
                bit: self.bit_in(*bit),
            }),
            Item::If {
                axis,
                first,
                size,
                value,
            } => Ok(Item::If {
                axis: self.pad(alloc, axis)?,
                first: self.range_in(*first, *size),
                size: *size,
                value: *value,
            }),
        }
    }

    /// Appends a program's items.
    pub(crate) fn push_items(
        self,
        alloc: Global,
        items: &[Item],
        into: &mut Items,
    ) -> Result<(), Memory>
        requires { All (HasRoom self) items.now }
        ensures { OnOk result (into.new ≡ into.old ++ items_in self items.now) }
    {
        for item in items {
            into.push(self.item_in(alloc, item)?)?;
        }
        Ok(())
    }
}
