//! Lists of truth values, 64 to a word.

ghost use Rattle.std.specs.Prelude.{◌≡◌, ℕ, ◌<◌, ◌≤◌, true, false, length, replicate, slice_set, slice_index, slice_index_or, bit_xor, IfOk, MatchOption};
ghost use Rattle.pauli_product.specs.Corrections.{xor};
ghost use Rattle.commute_order.specs.inside.Words.{IsOpen, IsSetTo};

use patch_base::Memory;
use std::alloc::Global;
use std::marker::Model;

#[derive(Drop)]
pub struct Bits {
    words: Vec<u64>,
    len: u32,
}

impl Model for Bits {
    ghost use Rattle.std.specs.Prelude.{List, Bool};

    ghost Value = { List Bool };

    ghost use Rattle.commute_order.specs.inside.Words.{bits_from, Holds};

    ghost view = { λ b. bits_from b.words.items 0 b.len };

    ghost invariant = { λ b. Holds b.len b.words.items };
}

impl Bits {
    pub fn new(alloc: Global, len: u32) -> Result<Bits, Memory>
        ensures { IfOk result (λ b. b ≡ replicate len false) }
    {
        Ok(Bits {
            words: zero_words(alloc, len.div_ceil(64) as usize)?,
            len,
        })
    }

    pub fn has(&self, i: u32) -> bool
        requires { i < length self.now }
        ensures { result ≡ slice_index_or self.now i false }
    {
        let word = self.words[(i / 64) as usize];
        (word >> (i % 64)) & 1 == 1
    }

    pub fn set(&mut self, i: u32)
        requires { i < length self.old }
        ensures { self.new ≡ slice_set self.old i true }
    {
        self.words[(i / 64) as usize] |= 1 << (i % 64);
    }

    // Turns round what is set in the other list.
    pub fn flip_by(&mut self, other: &Bits)
        requires { length self.old ≤ length other.now }
        ensures size { length self.new ≡ length self.old }
        ensures bits { (j : ℕ) → j < length self.old →
            slice_index_or self.new j false ≡
            xor (slice_index_or self.old j false) (slice_index_or other.now j false) }
    {
        flip_words(&mut self.words, &other.words);
    }

    // The first number from one on that isn't set, or the length. Those before it are set.
    pub fn first_unset(&self, from: u32) -> u32
        requires { IsSetTo from self.now }
        ensures { IsSetTo result self.now }
    {
        for at in from..self.len {
            if !self.has(at) {
                return at;
            }
        }
        self.len
    }

    // The least number below `below` that is set here and not there, where all before `from` are set there.
    pub fn first_open(&self, done: &Bits, from: u32, below: u32) -> Option<u32>
        requires here { below ≤ length self.now }
        requires there { length self.now ≤ length done.now }
        requires from { IsSetTo from done.now }
        ensures { MatchOption result ((j : ℕ) → j < below → IsOpen self.now done.now j →
            ⊥) (λ j. (j < below) × IsOpen self.now done.now j × ((k : ℕ) → k < j →
            IsOpen self.now done.now k → ⊥)) }
    {
        for k in from / 64..self.len.div_ceil(64) {
            let open = self.words[k as usize] & !done.words[k as usize];
            if open != 0 {
                let j = 64 * u64::from(k) + u64::from(open.trailing_zeros());
                return if j < u64::from(below) {
                    Some(j as u32)
                } else {
                    None
                };
            }
        }
        None
    }
}

fn flip_words(words: &mut [u64], other: &[u64])
    requires { length words.old ≤ length other.now }
    ensures size { length words.new ≡ length words.old }
    ensures flipped { (k : ℕ) → k < length words.old →
        slice_index words.new k ≡ bit_xor (slice_index words.old k) (slice_index other.now k) }
{
    for (k, word) in words.iter_mut().enumerate() {
        *word ^= other[k];
    }
}

fn zero_words(alloc: Global, n: usize) -> Result<Vec<u64>, Memory>
    ensures { IfOk result (λ v. v.items ≡ replicate n 0) }
{
    Ok(vec![in alloc; 0u64; n]?)
}
