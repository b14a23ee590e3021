//! The letters of 64 qubits as two masks.

ghost use Rattle.std.specs.Prelude.{◌≡◌, ◌≢◌, ℕ, Bool, ◌==◌, ◌+◌, ◌<◌, ◌≤◌, replicate, slice_get, slice_set, slice_index_or, Some, IfSome, IfNone};
ghost use Rattle.std.specs.Int.{bit_at};
ghost use Rattle.pauli_product.specs.declared.Letter.TheVariants.{I};
ghost use Rattle.pauli_product.specs.Signed.{letters_product, letters_phase, clashes};
ghost use Rattle.pauli_product.specs.inside.Words.{letter_of, word_letters};

use crate::Letter;

/// The letters of 64 qubits in two masks: bit i of `x` is set where the letter of qubit i is X or
/// Y, and bit i of `z` where it is Z or Y.
#[derive(Clone, Copy, Default)]
pub(crate) struct Word {
    x: u64,
    z: u64,
}

impl Word {
    /// I on all 64 qubits.
    pub(crate) fn identity() -> Word
        ensures { word_letters result ≡ replicate 64 I }
    {
        Word { x: 0, z: 0 }
    }

    /// The letter of qubit `i`.
    pub(crate) fn letter(self, i: u32) -> Letter
        requires { i < 64 }
        ensures { slice_get (word_letters self) i ≡ Some result }
    {
        match (has_bit(self.x, i), has_bit(self.z, i)) {
            (false, false) => Letter::I,
            (true, false) => Letter::X,
            (true, true) => Letter::Y,
            (false, true) => Letter::Z,
        }
    }

    /// This word with another letter at qubit `i`.
    pub(crate) fn with_letter(self, i: u32, letter: Letter) -> Word
        requires { i < 64 }
        ensures { word_letters result ≡ slice_set (word_letters self) i letter }
    {
        let (x, z) = bits_of(letter);
        Word {
            x: with_bit(self.x, i, x),
            z: with_bit(self.z, i, z),
        }
    }

    /// On how many qubits the letters clash.
    pub(crate) fn clashes(self, other: Word) -> u32
        ensures value { result ≡ clashes (word_letters self) (word_letters other) }
        ensures few { result ≤ 64 }
    {
        ((self.x & other.z) ^ (self.z & other.x)).count_ones()
    }

    /// Multiplies letter by letter, and adds the powers of i.
    pub(crate) fn times(&mut self, other: Word) -> u32
        ensures letters { word_letters self.new ≡
            letters_product (word_letters self.old) (word_letters other) }
        ensures power { result ≡ letters_phase (word_letters self.old) (word_letters other) }
        ensures few { result ≤ 192 }
    {
        let forward = self.x & other.z;
        let clash = forward ^ (self.z & other.x);
        self.x ^= other.x;
        self.z ^= other.z;
        // Y X, Z Y and X Z have the power 3, and the other clashes the power 1.
        let minus = clash & (self.x ^ self.z ^ forward);
        clash.count_ones() + 2 * minus.count_ones()
    }

    /// The first qubit from `from` on whose letter is other than I.
    pub(crate) fn support_from(self, from: u32) -> Option<u32>
        requires { from ≤ 64 }
        ensures within { IfSome result (λ i. i < 64) }
        ensures found { IfSome result (λ i. slice_index_or (word_letters self) i I ≢ I) }
        ensures after { IfSome result (λ i. from ≤ i) }
        ensures first { IfSome result (λ i. (k : ℕ) → from ≤ k → k < i →
            slice_index_or (word_letters self) k I ≡ I) }
        ensures none { IfNone result ((k : ℕ) → from ≤ k → k < 64 →
            slice_index_or (word_letters self) k I ≡ I) }
    {
        if from == 64 {
            return None;
        }
        let above = (self.x | self.z) >> from;
        if above == 0 {
            return None;
        }
        Some(from + above.trailing_zeros())
    }
}

// The bits of a letter in the two masks.
fn bits_of(letter: Letter) -> (bool, bool)
    ensures { letter_of result.0 result.1 ≡ letter }
{
    match letter {
        Letter::I => (false, false),
        Letter::X => (true, false),
        Letter::Y => (true, true),
        Letter::Z => (false, true),
    }
}

fn has_bit(mask: u64, i: u32) -> bool
    requires { i < 64 }
    ensures { result ≡ (bit_at mask i == 1) }
{
    (mask >> i) & 1 == 1
}

// The mask with bit `i` set or clear.
fn with_bit(mask: u64, i: u32, set: bool) -> u64
    requires { i < 64 }
    ensures there { (bit_at result i == 1) ≡ set }
    ensures elsewhere { (k : ℕ) → k < 64 → k ≢ i → bit_at result k ≡ bit_at mask k }
{
    if set {
        mask | (1 << i)
    } else {
        mask & !(1 << i)
    }
}
