//! The bits that the outcomes of a history leave.

ghost use Rattle.std.specs.Prelude.{◌≡◌, ℕ, ◌*◌, ◌^◌, ◌<◌, ◌≤◌, ◌==◌, if◌then◌else◌, false, length, slice_get, slice_index_or, IfOk};
ghost use Rattle.source_model.specs.Bits.{bit_after_products};
ghost use Rattle.source_model.specs.Circuits.{bits_in};
ghost use Rattle.source_model.specs.Outcomes.{raw_of};
ghost use Rattle.source_model.specs.Statics.{kinds_of};
ghost use Rattle.board_core.specs.History.{entries, delivered, delivery_in};
ghost use Rattle.board_core.specs.View.{claimed_axis, claimed_in};
ghost use Rattle.schedule_text.specs.inside.Bits.{Hears, Tells, claimed_sign, raw_outcome, turned_round};

use board_core::{Entry, Noted};
use node_log::Log;
use patch_base::Memory;
use source_model::{Given, Kind, Register, Static};
use std::alloc::Global;

/// The number of bits of the registers.
pub(crate) fn count(registers: &[Register]) -> usize
    requires { length registers.now ≤ 64 }
    ensures value { result ≡ bits_in registers.now }
    ensures small { result ≤ 64 * 2 ^ 32 }
{
    let mut bits = 0;
    for register in registers {
        bits += register.size as usize;
    }
    bits
}

fn raw(given: Given) -> bool
    ensures { result ≡ raw_of given }
{
    match given {
        Given::Rotation { raw, .. } | Given::Measure { raw } => raw,
        Given::Settled => false,
    }
}

fn note(said: &mut [Option<bool>], product: u32, value: bool)
    ensures { Hears (λ p. if product == p then Some value else None) said.old said.new }
{
    let p = product as usize;
    if p < said.len() {
        said[p] = said[p].or(Some(value));
    }
}

/// The sign and the raw outcome of each product, as far as a history has them.
#[derive(Drop)]
pub(crate) struct Said {
    signs: Vec<Option<bool>>,
    raws: Vec<Option<bool>>,
}

impl Said {
    fn new(alloc: Global, products: usize) -> Result<Said, Memory>
        ensures signs { IfOk result (λ s. Tells products (λ p. None) s.signs.items) }
        ensures raws { IfOk result (λ s. Tells products (λ p. None) s.raws.items) }
    {
        Ok(Said {
            signs: vec![in alloc; None; products]?,
            raws: vec![in alloc; None; products]?,
        })
    }

    fn hear(&mut self, entry: &Entry)
        ensures signs { Hears (λ p. claimed_sign (claimed_in p entry.now)) self.old.signs.items
            self.new.signs.items }
        ensures raws { Hears (λ p. raw_outcome (delivery_in p entry.now)) self.old.raws.items
            self.new.raws.items }
    {
        match entry {
            Entry::Claim { product, axis, .. } => note(&mut self.signs, *product, axis.sign()),
            Entry::Deliver { product, given } => note(&mut self.raws, *product, raw(*given)),
            _ => {}
        }
    }

    /// What a history says of so many products.
    pub(crate) fn of(alloc: Global, products: usize, history: &Log<Noted>) -> Result<Said, Memory>
        ensures signs { IfOk result (λ s. Tells products
            (λ p. claimed_sign (claimed_axis (entries history.now) p)) s.signs.items) }
        ensures raws { IfOk result (λ s. Tells products
            (λ p. raw_outcome (delivered (entries history.now) p)) s.raws.items) }
    {
        let mut said = Said::new(alloc, products)?;
        for noted in history.walk() {
            said.hear(&noted.entry);
        }
        Ok(said)
    }

    // Whether the effective outcome of a product is -1.
    fn outcome(&self, p: usize) -> bool
        requires signs { p < length self.now.signs.items }
        requires raws { p < length self.now.raws.items }
        ensures { slice_get (turned_round self.now.signs.items self.now.raws.items) p
            ≡ Some result }
    {
        let raw = self.raws[p].unwrap_or(false);
        let sign = self.signs[p].unwrap_or(false);
        raw != sign
    }

    /// Writes the effective outcome of each measurement to its bit, in source order; bits past the table are passed over.
    pub(crate) fn write(&self, products: &[Static], bits: &mut [bool])
        requires signs { length self.now.signs.items ≡ length products.now }
        requires raws { length self.now.raws.items ≡ length products.now }
        ensures count { length bits.new ≡ length bits.old }
        ensures each { (b : ℕ) → b < length bits.old
            → slice_index_or bits.new b false
            ≡ bit_after_products (slice_index_or bits.old b false) b (kinds_of products.now)
            (turned_round self.now.signs.items self.now.raws.items) }
    {
        for (p, product) in products.iter().enumerate() {
            if let Kind::Measure { bit } = product.kind {
                let bit = bit as usize;
                if bit < bits.len() {
                    bits[bit] = self.outcome(p);
                }
            }
        }
    }
}
