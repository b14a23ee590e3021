//! Signed Pauli products.
#![tactic(auto)]

ghost use Rattle.std.specs.Prelude.{◌≡◌, ℕ, Bool, ◌+◌, ◌*◌, ◌<◌, ◌≤◌, List, [], ◌∷◌, ◌++◌, length, replicate, slice_get, slice_set, Some, IfOk, IfSome, IfNone, IsSomeAnd, OnOk, OnErr, flat_map, ◌-◌, ◌≢◌, take, vec_len, vec_capacity, slice_index_or};
ghost use Rattle.pauli_product.specs.declared.Letter.TheVariants.{I};
ghost use Rattle.pauli_product.specs.Signed.{Signed, plus, IsInSupport, IsOutside, letters_product, letters_phase, clashes, commute, phase};
ghost use Rattle.pauli_product.specs.Pulls.{quarter, half, negated, conj};
ghost use Rattle.pauli_product.specs.Spelling.{sign_text, letter_text, product_text, Spells};
ghost use Rattle.pauli_product.specs.inside.Words.{word_letters};
ghost use Rattle.pauli_product.specs.inside.Masks.{all_letters, first_letters, IsClearFrom, HoldsQubits};

mod law;
mod word;
mod words;

use crate::word::Word;
use crate::words::Words;
pub use law::{law_alike, law_carry, law_commuting, law_conjugation, law_products, law_pull};
use patch_base::Memory;
use smallvec::SmallVec;
use std::alloc::Global;
use std::marker::Model;

// The length of the longest text: a sign and 1,024 letters.
const MOST_BYTES: usize = 1025;

/// A letter of a Pauli product.
#[derive(Clone, Copy, Debug, PartialEq, Eq)]
pub enum Letter {
    I,
    X,
    Y,
    Z,
}

impl Letter {
    // The letter that a byte spells.
    fn of_byte(byte: u8) -> Option<Letter>
        ensures some { IfSome result (λ l. letter_text l ≡ byte ∷ []) }
        ensures exact { (l : Letter) → letter_text l ≡ byte ∷ [] → result ≡ Some l }
    {
        match byte {
            b'I' => Some(Letter::I),
            b'X' => Some(Letter::X),
            b'Y' => Some(Letter::Y),
            b'Z' => Some(Letter::Z),
            _ => None,
        }
    }

    fn byte(self) -> u8
        ensures { letter_text self ≡ result ∷ [] }
    {
        match self {
            Letter::I => b'I',
            Letter::X => b'X',
            Letter::Y => b'Y',
            Letter::Z => b'Z',
        }
    }
}

/// A signed Pauli product: a sign and a letter for each of up to 1,024 qubits.
///
/// A sign that is `true` stands for a minus. A circuit without qubits has products without letters.
#[derive(Drop)]
pub struct Product {
    sign: bool,
    qubits: u32,
    // 64 qubits a word, and I past the last qubit.
    words: Words,
}

impl Model for Product {
    ghost use Rattle.pauli_product.specs.Signed.{Signed};
    ghost use Rattle.pauli_product.specs.inside.Masks.{first_letters, HoldsQubits};

    ghost Value = { Signed };

    ghost view = { λ p. record { sign = p.sign; letters = first_letters p.qubits p.words.kept.items } };

    ghost invariant = { λ p. HoldsQubits p.qubits p.words.kept.items };
}

impl Product {
    /// The product with this sign and these letters, the letter of qubit 0 first.
    pub fn new(alloc: Global, sign: bool, letters: &[Letter]) -> Result<Product, Memory>
        requires { length letters.now ≤ 1024 }
        ensures { IfOk result (λ p. p ≡ record { sign = sign; letters = letters.now }) }
    {
        let qubits = letters.len() as u32;
        let mut words = words_of_i(alloc, qubits)?;
        fill(words.kept.as_mut_slice(), letters);
        Ok(Product {
            sign,
            qubits,
            words,
        })
    }

    /// I on each of up to 1,024 qubits, with sign +.
    pub fn identity(alloc: Global, qubits: u32) -> Result<Product, Memory>
        requires { qubits ≤ 1024 }
        ensures { IfOk result (λ p. p ≡ plus (replicate qubits I)) }
    {
        Ok(Product {
            sign: false,
            qubits,
            words: words_of_i(alloc, qubits)?,
        })
    }

    /// The product that a text spells: `+` or `-`, and then a letter for each of 1 to 1,024 qubits.
    pub fn parse(alloc: Global, text: &[u8]) -> Result<Option<Product>, Memory>
        ensures spelled { IfOk result (λ found. IfSome found (Spells text.now)) }
        ensures exact { IfOk result (λ found. (p : Signed) → Spells text.now p → found ≡ Some p) }
    {
        if text.len() < 2 || text.len() > MOST_BYTES {
            return Ok(None);
        }
        let Some(sign) = sign_of_byte(text[0]) else {
            return Ok(None);
        };
        let Some(letters) = read_letters(alloc, &text[1..])? else {
            return Ok(None);
        };
        Ok(Some(Product::new(alloc, sign, &letters)?))
    }

    /// Appends the text of the product. An error leaves `into` as it was.
    pub fn print(&self, into: &mut Vec<u8>) -> Result<(), Memory>
        ensures ok { OnOk result (into.new.items ≡ into.old.items ++ product_text self.now) }
        ensures err { OnErr result (into.new.items ≡ into.old.items) }
    {
        into.reserve(1 + self.qubits as usize)?;
        into.push_reserved(if self.sign { b'-' } else { b'+' });
        print_words(self.words.kept.as_slice(), self.qubits, into);
        Ok(())
    }

    /// An equal product.
    pub fn copy(&self, alloc: Global) -> Result<Product, Memory>
        ensures { IfOk result (λ p. p ≡ self.now) }
    {
        Ok(Product {
            sign: self.sign,
            qubits: self.qubits,
            words: Words {
                kept: SmallVec::from_slice(alloc, self.words.kept.as_slice())?,
            },
        })
    }

    /// Makes `into`, a product on as many qubits, equal to this one.
    pub fn copy_to(&self, into: &mut Product)
        requires { length into.old.letters ≡ length self.now.letters }
        ensures { into.new ≡ self.now }
    {
        into.sign = self.sign;
        into.words
            .kept
            .as_mut_slice()
            .copy_from_slice(self.words.kept.as_slice());
    }

    /// Whether the sign is a minus.
    pub fn sign(&self) -> bool
        ensures { result ≡ self.now.sign }
    {
        self.sign
    }

    /// The number of qubits.
    pub fn len(&self) -> u32
        ensures value { result ≡ length self.now.letters }
        ensures few { result ≤ 1024 }
    {
        self.qubits
    }

    /// The letter of a qubit.
    pub fn letter(&self, q: u32) -> Letter
        requires { q < length self.now.letters }
        ensures { slice_get self.now.letters q ≡ Some result }
    {
        self.words.kept.as_slice()[(q / 64) as usize].letter(q % 64)
    }

    /// Puts a letter at a qubit.
    pub fn set_letter(&mut self, q: u32, letter: Letter)
        requires { q < length self.old.letters }
        ensures sign { self.new.sign ≡ self.old.sign }
        ensures letters { self.new.letters ≡ slice_set self.old.letters q letter }
    {
        put(self.words.kept.as_mut_slice(), q, letter);
    }

    /// The first qubit of the support from `from` on: the first whose letter is other than I.
    pub fn support_from(&self, from: u32) -> Option<u32>
        ensures found { IfSome result (λ q. IsInSupport self.now q) }
        ensures after { IfSome result (λ q. from ≤ q) }
        ensures first { IfSome result (λ q. (k : ℕ) → from ≤ k → k < q → IsOutside self.now k) }
        ensures none { IfNone result ((k : ℕ) → from ≤ k → IsOutside self.now k) }
    {
        first_support(self.words.kept.as_slice(), from)
    }

    /// Whether the products commute: they do where they clash on an even number of qubits.
    #[tactic(auto, unfolding(crate::specs::Signed::commute))]
    pub fn commutes(&self, other: &Product) -> bool
        requires { length other.now.letters ≡ length self.now.letters }
        ensures { result ≡ commute self.now other.now }
    {
        clash_count(self.words.kept.as_slice(), other.words.kept.as_slice()) % 2 == 0
    }

    /// Multiplies the letters, and leaves the sign +.
    ///
    /// With the answer k, the product of the two signed values is i^k times the new value.
    pub fn times(&mut self, other: &Product) -> u8
        requires { length other.now.letters ≡ length self.old.letters }
        ensures product { self.new ≡ plus (letters_product self.old.letters other.now.letters) }
        ensures power { result ≡ phase self.old other.now }
        ensures qubits { length self.new.letters ≡ length self.old.letters }
    {
        let power = multiply(self.words.kept.as_mut_slice(), other.words.kept.as_slice());
        let signs = 2 * u32::from(self.sign) + 2 * u32::from(other.sign);
        self.sign = false;
        ((power + signs) % 4) as u8
    }

    /// Conjugates by a rotation of pi/4 about `q`: a product P that doesn't commute with `q`
    /// becomes i Q P (Litinski 2019, section 1).
    pub fn conj_quarter(&mut self, q: &Product)
        requires { length q.now.letters ≡ length self.old.letters }
        ensures value { self.new ≡ conj q.now quarter self.old }
        ensures qubits { length self.new.letters ≡ length self.old.letters }
    {
        if !self.commutes(q) {
            // i Q P is -i P Q, which is - where P Q has the power 3.
            let power = self.times(q);
            self.sign = power == 3;
        }
    }

    /// Conjugates by a rotation of pi/2 about `q`: a product that doesn't commute with `q` changes
    /// its sign (Litinski 2019, section 1).
    pub fn conj_half(&mut self, q: &Product)
        requires { length q.now.letters ≡ length self.old.letters }
        ensures value { self.new ≡ conj q.now half self.old }
        ensures qubits { length self.new.letters ≡ length self.old.letters }
    {
        if !self.commutes(q) {
            self.sign = !self.sign;
        }
    }

    /// Changes the sign.
    pub fn negate(&mut self)
        ensures { self.new ≡ negated self.old }
    {
        self.sign = !self.sign;
    }
}

// The sign that a byte spells.
fn sign_of_byte(byte: u8) -> Option<bool>
    ensures some { IfSome result (λ s. sign_text s ≡ byte ∷ []) }
    ensures exact { (s : Bool) → sign_text s ≡ byte ∷ [] → result ≡ Some s }
{
    match byte {
        b'+' => Some(false),
        b'-' => Some(true),
        _ => None,
    }
}

// The letters that a text spells, one a byte.
fn read_letters(alloc: Global, text: &[u8]) -> Result<Option<Vec<Letter>>, Memory>
    ensures some { IfOk result (λ found. IfSome found (λ v. text.now ≡
        flat_map letter_text v.items)) }
    ensures exact { IfOk result (λ found. (ls : List Letter) → text.now ≡ flat_map letter_text ls →
        IsSomeAnd found (λ v. v.items ≡ ls)) }
{
    let mut letters = Vec::with_capacity(alloc, text.len())?;
    for byte in text {
        match Letter::of_byte(*byte) {
            Some(letter) => letters.push_reserved(letter),
            None => return Ok(None),
        }
    }
    Ok(Some(letters))
}

// As many words as so many qubits take, with I at each qubit.
fn words_of_i(alloc: Global, qubits: u32) -> Result<Words, Memory>
    requires { qubits ≤ 1024 }
    ensures holds { IfOk result (λ words. HoldsQubits qubits words.kept.items) }
    ensures letters { IfOk result (λ words. first_letters qubits words.kept.items ≡
        replicate qubits I) }
{
    let count = qubits.div_ceil(64) as usize;
    Ok(Words {
        kept: SmallVec::from_elem(alloc, Word::identity(), count)?,
    })
}

// Puts the letters into words that are as many as they take.
fn fill(words: &mut [Word], letters: &[Letter])
    requires { HoldsQubits (length letters.now) words.old }
    ensures holds { HoldsQubits (length letters.now) words.new }
    ensures letters { first_letters (length letters.now) words.new ≡ letters.now }
{
    for (i, word) in words.iter_mut().enumerate() {
        let start = 64 * i;
        let end = letters.len().min(start + 64);
        *word = pack(&letters[start..end]);
    }
}

// The word of up to 64 letters, with I at the qubits that are left.
fn pack(letters: &[Letter]) -> Word
    requires { length letters.now ≤ 64 }
    ensures { word_letters result ≡ letters.now ++ replicate (64 - length letters.now) I }
{
    let mut word = Word::identity();
    for (i, letter) in letters.iter().enumerate() {
        word = word.with_letter(i as u32, *letter);
    }
    word
}

// Appends the text of the first letters of the words.
fn print_words(words: &[Word], qubits: u32, into: &mut Vec<u8>)
    requires { vec_len into.old + qubits ≤ vec_capacity into.old }
    ensures { into.new.items ≡
        into.old.items ++ flat_map letter_text (first_letters qubits words.now) }
{
    let mut left = qubits;
    for word in words {
        let count = left.min(64);
        print_letters(*word, count, into);
        left -= count;
    }
}

// Appends the text of the first letters of a word.
fn print_letters(word: Word, count: u32, into: &mut Vec<u8>)
    requires few { count ≤ 64 }
    requires room { vec_len into.old + count ≤ vec_capacity into.old }
    ensures text { into.new.items ≡
        into.old.items ++ flat_map letter_text (take count (word_letters word)) }
    ensures len { vec_len into.new ≡ vec_len into.old + count }
    ensures capacity { vec_capacity into.new ≡ vec_capacity into.old }
{
    for i in 0..count {
        into.push_reserved(word.letter(i).byte());
    }
}

// Puts a letter at a qubit.
fn put(words: &mut [Word], q: u32, letter: Letter)
    requires { q < 64 * length words.old }
    ensures { all_letters words.new ≡ slice_set (all_letters words.old) q letter }
{
    let i = (q / 64) as usize;
    words[i] = words[i].with_letter(q % 64, letter);
}

// The first qubit from `from` on whose letter is other than I.
fn first_support(words: &[Word], from: u32) -> Option<u32>
    requires { length words.now ≤ 16 }
    ensures found { IfSome result (λ q. slice_index_or (all_letters words.now) q I ≢ I) }
    ensures after { IfSome result (λ q. from ≤ q) }
    ensures first { IfSome result (λ q. (k : ℕ) → from ≤ k → k < q →
        slice_index_or (all_letters words.now) k I ≡ I) }
    ensures none { IfNone result (IsClearFrom from (all_letters words.now)) }
{
    for i in (from / 64) as usize..words.len() {
        let start = 64 * i as u32;
        if let Some(q) = words[i].support_from(from.saturating_sub(start)) {
            return Some(start + q);
        }
    }
    None
}

// On how many qubits the letters clash.
fn clash_count(left: &[Word], right: &[Word]) -> u32
    requires equal { length right.now ≡ length left.now }
    requires few { length left.now ≤ 16 }
    ensures { result ≡ clashes (all_letters left.now) (all_letters right.now) }
{
    let mut count = 0;
    for (i, word) in left.iter().enumerate() {
        count += word.clashes(right[i]);
    }
    count
}

// Multiplies letter by letter, and adds the powers of i.
fn multiply(left: &mut [Word], right: &[Word]) -> u32
    requires equal { length right.now ≡ length left.old }
    requires few { length left.old ≤ 16 }
    ensures letters { all_letters left.new ≡
        letters_product (all_letters left.old) (all_letters right.now) }
    ensures power { result ≡ letters_phase (all_letters left.old) (all_letters right.now) }
    ensures small { result ≤ 192 * 16 }
{
    let mut sum = 0;
    for (i, word) in left.iter_mut().enumerate() {
        sum += word.times(right[i]);
    }
    sum
}

#[cfg(test)]
mod tests {
    use super::*;
    use std::process::Abort;
    use std::test::Fail;

    // The product that a text spells.
    fn read(rt: &impl Abort, alloc: Global, text: &[u8]) -> Result<Product, Memory> {
        let found = Product::parse(alloc, text)?;
        Ok(found.expect(rt, "a product"))
    }

    fn assert_spells(
        rt: &impl Abort,
        alloc: Global,
        product: &Product,
        want: &[u8],
    ) -> Result<(), Memory> {
        let mut text = Vec::new(alloc);
        product.print(&mut text)?;
        assert_eq!(rt; text.as_slice(), want);
        Ok(())
    }

    #[test]
    fn multiplies(rt: HostRuntime) -> Result<(), Fail> {
        let rows: [(&str, &str, &str, u8); 9] = [
            ("+X", "+Y", "+Z", 1),
            ("+Y", "+X", "+Z", 3),
            ("+Y", "+Z", "+X", 1),
            ("+Z", "+X", "+Y", 1),
            ("-X", "+Z", "+Y", 1),
            ("-X", "-X", "+I", 0),
            ("+I", "-Y", "+Y", 2),
            ("+XY", "+YX", "+ZZ", 0),
            ("+ZIX", "+XYX", "+YYI", 1),
        ];
        for (left, right, want, power) in rows {
            let mut product = read(&rt, rt.alloc(), left.as_bytes())?;
            let other = read(&rt, rt.alloc(), right.as_bytes())?;
            assert_eq!(rt; product.len(), other.len());
            assert_eq!(rt; product.times(&other), power, "at {left} {right}");
            assert_spells(&rt, rt.alloc(), &product, want.as_bytes())?;
        }
        Ok(())
    }

    #[test]
    fn conjugates(rt: HostRuntime) -> Result<(), Fail> {
        let rows: [(&str, &str, bool, &str, &str); 6] = [
            ("+Z", "+X", false, "-Y", "-X"),
            ("+Z", "+Y", false, "+X", "-Y"),
            ("-Z", "+X", false, "+Y", "-X"),
            ("+X", "+Z", false, "+Y", "-Z"),
            ("-XX", "-YI", false, "-ZX", "+YI"),
            ("+XZ", "-ZX", true, "-ZX", "-ZX"),
        ];
        for (axis, text, commute, quarter, half) in rows {
            let q = read(&rt, rt.alloc(), axis.as_bytes())?;
            let mut product = read(&rt, rt.alloc(), text.as_bytes())?;
            assert_eq!(rt; product.len(), q.len());
            assert_eq!(rt; product.commutes(&q), commute, "at {axis} {text}");
            let mut other = product.copy(rt.alloc())?;
            assert_eq!(rt; other.len(), q.len());
            product.conj_quarter(&q);
            assert_spells(&rt, rt.alloc(), &product, quarter.as_bytes())?;
            other.conj_half(&q);
            assert_spells(&rt, rt.alloc(), &other, half.as_bytes())?;
        }
        Ok(())
    }

    #[test]
    fn refuses_other_texts(rt: HostRuntime) -> Result<(), Fail> {
        for text in [
            "", "+", "X", "+A", "+x", "++X", " +X", "+X ", "X+", "-XYZ\n",
        ] {
            let found = Product::parse(rt.alloc(), text.as_bytes())?;
            assert!(rt; found.is_none(), "at {text:?}");
        }
        let mut long = Vec::new(rt.alloc());
        long.push(b'-')?;
        for _ in 0..1024 {
            long.push(b'Y')?;
        }
        let most = read(&rt, rt.alloc(), &long)?;
        assert_eq!(rt; most.len(), 1024);
        assert!(rt; most.sign());
        assert!(rt; most.letter(1023) == Letter::Y);
        long.push(b'I')?;
        assert!(rt; Product::parse(rt.alloc(), &long)?.is_none());
        Ok(())
    }

    // A product whose support and whose product with another go over the end of the first word.
    fn assert_crosses(rt: &impl Abort, alloc: Global, qubits: u32) -> Result<(), Memory>
        requires within { qubits ≤ 128 }
        requires across { 64 < qubits }
    {
        let last = qubits - 1;
        let mut product = Product::identity(alloc, qubits)?;
        product.set_letter(63, Letter::X);
        product.set_letter(last, Letter::Y);
        let mut other = Product::identity(alloc, qubits)?;
        other.set_letter(63, Letter::Z);
        other.set_letter(last, Letter::Z);
        assert!(rt; product.support_from(0) == Some(63));
        assert!(rt; product.support_from(64) == Some(last));
        assert!(rt; product.support_from(qubits).is_none());
        // X Z = -i Y, and Y Z = i X.
        assert!(rt; product.commutes(&other));
        assert_eq!(rt; product.times(&other), 0);
        assert!(rt; product.letter(63) == Letter::Y);
        assert!(rt; product.letter(last) == Letter::X);
        Ok(())
    }

    #[test]
    fn crosses_words(rt: HostRuntime) -> Result<(), Fail> {
        assert_crosses(&rt, rt.alloc(), 65)?;
        assert_crosses(&rt, rt.alloc(), 128)?;
        Ok(())
    }

    #[test]
    fn copies_and_appends(rt: HostRuntime) -> Result<(), Fail> {
        let letters = [Letter::I, Letter::X, Letter::Y, Letter::Z];
        let mut product = Product::new(rt.alloc(), true, &letters)?;
        let mut copy = Product::new(rt.alloc(), false, &[Letter::Z; 4])?;
        product.copy_to(&mut copy);
        product.negate();
        let mut text = Vec::new(rt.alloc());
        copy.print(&mut text)?;
        product.print(&mut text)?;
        assert_eq!(rt; text.as_slice(), b"-IXYZ+IXYZ".as_slice());
        Ok(())
    }
}
