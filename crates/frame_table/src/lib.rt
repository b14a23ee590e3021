//! The images of the letters of each qubit under the corrections so far.
#![tactic(auto)]

ghost use Rattle.std.specs.Prelude.{◌≡◌, ◌≢◌, ℕ, ◌<◌, ◌≤◌, List, [], ◌++◌, length, replicate, slice_index_or, IfOk};
ghost use Rattle.pauli_product.specs.declared.Letter.TheVariants.{I};
ghost use Rattle.pauli_product.specs.Signed.{Signed, plus, OfLength};
ghost use Rattle.pauli_product.specs.Pulls.{Turn, carry};
ghost use Rattle.frame_table.specs.Images.{Images, qubits, CarriesEach, After, turns_about};
ghost use Rattle.frame_table.specs.inside.Steps.{IsSquare, times_letter};

#[cfg(test)]
mod plain;

use patch_base::Memory;
use pauli_product::{Letter, Product};
use std::alloc::Global;
use std::marker::Model;

/// What becomes of a product when it is conjugated by all corrections so far, the first one first.
///
/// A frame of n qubits holds the images of X and of Z of each qubit, 2 n products on n qubits.
#[derive(Drop)]
pub struct Frame {
    x: Vec<Product>,
    z: Vec<Product>,
    // All letters I, with sign +.
    identity: Product,
    // Room for one axis.
    scratch: Product,
}

impl Model for Frame {
    ghost use Rattle.frame_table.specs.Images.{Images};

    ghost Value = { Images };

    ghost view = { λ f. record { x = f.x.items; z = f.z.items } };

    ghost use Rattle.std.specs.Prelude.{◌≡◌, length, replicate};
    ghost use Rattle.pauli_product.specs.declared.Letter.TheVariants.{I};
    ghost use Rattle.pauli_product.specs.Signed.{plus, OfLength};
    ghost use Rattle.frame_table.specs.inside.Steps.{IsSquare};

    ghost invariant = { λ f. record {
      x : IsSquare (length f.x.items) f.x.items;
      z : IsSquare (length f.x.items) f.z.items;
      identity : f.identity ≡ plus (replicate (length f.x.items) I);
      scratch : OfLength (length f.x.items) f.scratch;
    } };
}

impl Frame {
    /// The frame without corrections, for at most 1,024 qubits.
    pub fn new(alloc: Global, qubits: u32) -> Result<Frame, Memory>
        requires { qubits ≤ 1024 }
        ensures { IfOk result (After qubits []) }
    {
        Ok(Frame {
            x: letters_alone(alloc, qubits, Letter::X)?,
            z: letters_alone(alloc, qubits, Letter::Z)?,
            identity: Product::identity(alloc, qubits)?,
            scratch: Product::identity(alloc, qubits)?,
        })
    }

    /// Leaves in `into` the product, conjugated by all corrections, the first one first.
    pub fn image(&self, p: &Product, into: &mut Product)
        requires product { OfLength (qubits self.now) p.now }
        requires room { OfLength (qubits self.now) into.old }
        ensures image { (n : ℕ) (turns : List Turn) → After n turns self.now →
            into.new ≡ carry turns p.now }
        ensures room { OfLength (qubits self.now) into.new }
    {
        self.identity.copy_to(into);
        multiply_images(&self.x, &self.z, p, into);
    }

    /// Adds a correction about an executed axis: by a rotation of pi/4 where `quarter`, and then by
    /// one of pi/2 where `half`.
    pub fn correct(&mut self, axis: &Product, quarter: bool, half: bool)
        requires { OfLength (qubits self.old) axis.now }
        ensures corrected { (n : ℕ) (turns : List Turn) → After n turns self.old →
            After n (turns ++ turns_about axis.now quarter half) self.new }
        ensures size { qubits self.new ≡ qubits self.old }
    {
        turn_all(&mut self.x, axis, quarter, half);
        turn_all(&mut self.z, axis, quarter, half);
    }

    /// Corrects about the image of `own`.
    ///
    /// Conjugation keeps commutation, so only the images of letters that clash with `own` change:
    /// this looks at the images at the letters of `own` alone, where `correct` looks at all.
    pub fn advance(&mut self, own: &Product, quarter: bool, half: bool)
        requires { OfLength (qubits self.old) own.now }
        ensures corrected { (n : ℕ) (turns : List Turn) → After n turns self.old →
            After n (turns ++ turns_about (carry turns own.now) quarter half) self.new }
        ensures size { qubits self.new ≡ qubits self.old }
    {
        if !quarter && !half {
            return;
        }
        self.identity.copy_to(&mut self.scratch);
        multiply_images(&self.x, &self.z, own, &mut self.scratch);
        turn_at(&mut self.x, own, &self.scratch, quarter, half);
        turn_at(&mut self.z, own, &self.scratch, quarter, half);
    }
}

// For each qubit the product with the letter there and I elsewhere.
fn letters_alone(alloc: Global, qubits: u32, letter: Letter) -> Result<Vec<Product>, Memory>
    requires { qubits ≤ 1024 }
    ensures images { IfOk result (λ v. CarriesEach qubits letter [] v.items) }
    ensures square { IfOk result (λ v. IsSquare qubits v.items) }
{
    let mut products = Vec::with_capacity(alloc, qubits as usize)?;
    for q in 0..qubits {
        let mut product = Product::identity(alloc, qubits)?;
        product.set_letter(q, letter);
        products.push_reserved(product);
    }
    Ok(products)
}

// Multiplies by the image of a letter, from the images of X and of Z of its qubit.
fn multiply_letter(product: &mut Product, letter: Letter, x: &Product, z: &Product)
    requires x { length x.now.letters ≡ length product.old.letters }
    requires z { length z.now.letters ≡ length product.old.letters }
    ensures value { product.new ≡ times_letter letter x.now z.now product.old }
    ensures qubits { length product.new.letters ≡ length product.old.letters }
{
    let power = match letter {
        Letter::I => return,
        Letter::X => product.times(x),
        Letter::Z => product.times(z),
        Letter::Y => 1 + product.times(x) + product.times(z),
    };
    if power % 4 == 2 {
        product.negate();
    }
}

// Makes of the product + I .. I the image of `p`.
fn multiply_images(x: &[Product], z: &[Product], p: &Product, into: &mut Product)
    requires x { IsSquare (length x.now) x.now }
    requires z { IsSquare (length x.now) z.now }
    requires product { OfLength (length x.now) p.now }
    requires identity { into.old ≡ plus (replicate (length x.now) I) }
    ensures image { (n : ℕ) (turns : List Turn) → After n turns (record { x = x.now; z = z.now }) →
        into.new ≡ carry turns p.now }
    ensures long { OfLength (length x.now) into.new }
{
    let mut from = 0;
    while from < p.len() {
        let Some(q) = p.support_from(from) else {
            break;
        };
        multiply_letter(into, p.letter(q), &x[q as usize], &z[q as usize]);
        from = q + 1;
    }
    if p.sign() {
        into.negate();
    }
}

// Conjugates by a quarter, and then by a half.
fn turn(image: &mut Product, axis: &Product, quarter: bool, half: bool)
    requires { length axis.now.letters ≡ length image.old.letters }
    ensures turned { image.new ≡ carry (turns_about axis.now quarter half) image.old }
    ensures qubits { length image.new.letters ≡ length image.old.letters }
{
    if quarter {
        image.conj_quarter(axis);
    }
    if half {
        image.conj_half(axis);
    }
}

// Conjugates each image.
fn turn_all(images: &mut [Product], axis: &Product, quarter: bool, half: bool)
    requires square { IsSquare (length images.old) images.old }
    requires axis { OfLength (length images.old) axis.now }
    ensures square { IsSquare (length images.old) images.new }
    ensures turned { (q : ℕ) (d : Signed) → q < length images.old →
        slice_index_or images.new q d ≡
        carry (turns_about axis.now quarter half) (slice_index_or images.old q d) }
{
    for image in images.iter_mut() {
        turn(image, axis, quarter, half);
    }
}

// Conjugates the images at the qubits where `own` has a letter other than I.
fn turn_at(images: &mut [Product], own: &Product, axis: &Product, quarter: bool, half: bool)
    requires square { IsSquare (length images.old) images.old }
    requires own { OfLength (length images.old) own.now }
    requires axis { OfLength (length images.old) axis.now }
    ensures square { IsSquare (length images.old) images.new }
    ensures turned { (q : ℕ) (d : Signed) → q < length images.old →
        slice_index_or own.now.letters q I ≢ I →
        slice_index_or images.new q d ≡
        carry (turns_about axis.now quarter half) (slice_index_or images.old q d) }
    ensures kept { (q : ℕ) (d : Signed) → q < length images.old →
        slice_index_or own.now.letters q I ≡ I →
        slice_index_or images.new q d ≡ slice_index_or images.old q d }
{
    let mut from = 0;
    while from < own.len() {
        let Some(q) = own.support_from(from) else {
            break;
        };
        turn(&mut images[q as usize], axis, quarter, half);
        from = q + 1;
    }
}

#[cfg(test)]
mod tests {
    use super::plain::PlainFrame;
    use super::*;
    use std::process::Abort;
    use std::test::Fail;

    fn on_two(alloc: Global, sign: bool, letters: [Letter; 2]) -> Result<Product, Memory>
        ensures { IfOk result (OfLength 2) }
    {
        Product::new(alloc, sign, &letters)
    }

    // A frame on two qubits, corrected by +ZI as a quarter.
    fn after_a_quarter(alloc: Global) -> Result<Frame, Memory>
        ensures { IfOk result (λ f. qubits f ≡ 2) }
    {
        let mut frame = Frame::new(alloc, 2)?;
        frame.correct(&on_two(alloc, false, [Letter::Z, Letter::I])?, true, false);
        Ok(frame)
    }

    // The sign and the letters of the image of a product.
    fn image(
        alloc: Global,
        frame: &Frame,
        sign: bool,
        letters: [Letter; 2],
    ) -> Result<(bool, [Letter; 2]), Memory>
        requires { qubits frame.now ≡ 2 }
    {
        let p = on_two(alloc, sign, letters)?;
        let mut into = on_two(alloc, false, letters)?;
        frame.image(&p, &mut into);
        Ok((into.sign(), [into.letter(0), into.letter(1)]))
    }

    #[test]
    fn follows_a_quarter(rt: HostRuntime) -> Result<(), Fail> {
        let frame = after_a_quarter(rt.alloc())?;
        let x = image(rt.alloc(), &frame, false, [Letter::X, Letter::I])?;
        assert!(rt; x == (true, [Letter::Y, Letter::I]));
        let z = image(rt.alloc(), &frame, false, [Letter::I, Letter::Z])?;
        assert!(rt; z == (false, [Letter::I, Letter::Z]));
        Ok(())
    }

    #[test]
    fn follows_a_half(rt: HostRuntime) -> Result<(), Fail> {
        let mut frame = after_a_quarter(rt.alloc())?;
        frame.correct(
            &on_two(rt.alloc(), true, [Letter::X, Letter::X])?,
            false,
            true,
        );
        let x = image(rt.alloc(), &frame, false, [Letter::X, Letter::I])?;
        assert!(rt; x == (false, [Letter::Y, Letter::I]));
        let z = image(rt.alloc(), &frame, false, [Letter::I, Letter::Z])?;
        assert!(rt; z == (true, [Letter::I, Letter::Z]));
        Ok(())
    }

    // The image of +XX is -YX, which clashes with IZ and commutes with -XZ, the image of -YZ.
    #[test]
    fn advances(rt: HostRuntime) -> Result<(), Fail> {
        let mut frame = after_a_quarter(rt.alloc())?;
        frame.advance(
            &on_two(rt.alloc(), false, [Letter::X, Letter::X])?,
            false,
            true,
        );
        let z = image(rt.alloc(), &frame, false, [Letter::I, Letter::Z])?;
        assert!(rt; z == (true, [Letter::I, Letter::Z]));
        let x = image(rt.alloc(), &frame, true, [Letter::Y, Letter::Z])?;
        assert!(rt; x == (true, [Letter::X, Letter::Z]));
        Ok(())
    }

    // The next of a row of numbers.
    fn next(seed: &mut u64) -> u64 {
        *seed = seed
            .wrapping_mul(6364136223846793005)
            .wrapping_add(1442695040888963407);
        *seed >> 33
    }

    fn some_letter(seed: &mut u64) -> Letter {
        match next(seed) % 4 {
            0 => Letter::I,
            1 => Letter::X,
            2 => Letter::Y,
            _ => Letter::Z,
        }
    }

    fn some_product(alloc: Global, seed: &mut u64) -> Result<Product, Memory>
        ensures { IfOk result (OfLength 2) }
    {
        let sign = next(seed) % 2 == 1;
        on_two(alloc, sign, [some_letter(seed), some_letter(seed)])
    }

    // Corrects both frames alike, this one by `correct` or by `advance`.
    fn correct_both(
        alloc: Global,
        frame: &mut Frame,
        plain: &mut PlainFrame,
        seed: &mut u64,
    ) -> Result<(), Memory>
        requires { qubits frame.old ≡ 2 }
        ensures { qubits frame.new ≡ 2 }
    {
        let own = some_product(alloc, seed)?;
        let mut axis = some_product(alloc, seed)?;
        let (quarter, half) = (next(seed) % 2 == 1, next(seed) % 2 == 1);
        if next(seed) % 2 == 1 {
            frame.correct(&axis, quarter, half);
        } else {
            frame.image(&own, &mut axis);
            frame.advance(&own, quarter, half);
        }
        plain.correct(axis, quarter, half)
    }

    // The texts of the images of some product.
    fn both_images(
        rt: &impl Abort,
        alloc: Global,
        frame: &Frame,
        plain: &PlainFrame,
        seed: &mut u64,
    ) -> Result<(Vec<u8>, Vec<u8>), Memory>
        requires { qubits frame.now ≡ 2 }
    {
        let p = some_product(alloc, seed)?;
        let mut into = some_product(alloc, seed)?;
        frame.image(&p, &mut into);
        let mut text = Vec::new(alloc);
        into.print(&mut text)?;
        Ok((text, plain.image_text(rt, alloc, &p)?))
    }

    #[test]
    fn agrees_with_the_plain_frame(rt: HostRuntime) -> Result<(), Fail> {
        let mut frame = after_a_quarter(rt.alloc())?;
        let mut plain = PlainFrame::new(rt.alloc());
        let first = on_two(rt.alloc(), false, [Letter::Z, Letter::I])?;
        plain.correct(first, true, false)?;
        let mut seed = 7;
        for _ in 0..60 {
            correct_both(rt.alloc(), &mut frame, &mut plain, &mut seed)?;
            let (image, want) = both_images(&rt, rt.alloc(), &frame, &plain, &mut seed)?;
            assert_eq!(rt; image.as_slice(), want.as_slice());
        }
        Ok(())
    }

    #[test]
    fn serves_1024_qubits(rt: HostRuntime) -> Result<(), Fail> {
        let frame = Frame::new(rt.alloc(), 1024)?;
        let p = Product::new(rt.alloc(), true, &[Letter::Y; 1024])?;
        let mut image = p.copy(rt.alloc())?;
        image.negate();
        frame.image(&p, &mut image);
        assert!(rt; image.sign());
        Ok(())
    }
}
