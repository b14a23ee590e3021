// Shelves whose texts lie in memory.
ghost use Rattle.std.specs.Prelude.{◌≡◌, ℕ, List, ◌↔◌, ◌≤◌, ◌<◌, ◌-◌, ◌^◌, [], ◌∷◌, ◌++◌, length, take, drop, min, position, Some, None, IfOk, IfSome, OnOk, OnErr, IsErr, IsTrue, IsOkAnd};
ghost use Rattle.std.specs.Prelude.{map};
ghost use Rattle.std.specs.Option.{option_copied};
ghost use Rattle.std.specs.Str.{bytes_eq};
ghost use Rattle.patch_base.specs.inside.Books.{book_of};
ghost use Rattle.std.specs.String.{string_bytes};
ghost use Rattle.patch_base.specs.Outside.{Rose, Gives};
ghost use Rattle.patch_base.specs.MemoryShelf.{text_of, faults_of, fails_for, after_call, given_of, raised};

use crate::calls::{call_after, is_listed, one_more};
use crate::outside::{Failed, Memory, Shelf};
use std::alloc::Global;
use std::marker::Model;

/// A shelf of texts in memory, with a list of calls that are to fail. It tells the bytes of each
/// name that it holds. A call fails where it is listed, and where it asks for a name that isn't held.
/// Each held name has a count of faults of its own, and all other names share one.
/// Calls are numbered from 0 in the order made; past the last number of 64 bits none is listed.
#[derive(Drop)]
pub struct MemoryShelf {
    alloc: Global,
    books: Vec<Book>,
    absent_faults: u64,
    next_call: Option<u64>,
    failing: Vec<u64>,
    most: usize,
}

#[derive(Drop)]
struct Book {
    name: String,
    bytes: Vec<u8>,
    faults: u64,
}

impl Model for MemoryShelf {
    ghost use Rattle.patch_base.specs.MemoryShelf.{Shelved};

    ghost Value = { Shelved };

    ghost use Rattle.std.specs.Prelude.{◌≤◌, map};
    ghost use Rattle.patch_base.specs.inside.Books.{book_of};

    ghost view = { λ s. record {
      books = map book_of s.books.items;
      absent_faults = s.absent_faults;
      next_call = s.next_call;
      failing = s.failing.items;
      most = s.most;
    } };

    ghost invariant = { λ s. 1 ≤ s.most };
}

impl MemoryShelf {
    /// A shelf without texts, and without a limit on the bytes that one call gives.
    pub fn new(alloc: Global) -> MemoryShelf
        ensures { result ≡ record {
          books = [];
          absent_faults = 0;
          next_call = Some 0;
          failing = [];
          most = 2 ^ 64 - 1;
        } }
    {
        MemoryShelf {
            alloc,
            books: Vec::new(alloc),
            absent_faults: 0,
            next_call: Some(0),
            failing: Vec::new(alloc),
            most: usize::MAX,
        }
    }

    /// Puts a text onto the shelf, under a name that it doesn't hold yet. The name keeps the count
    /// of faults that it had. Out of memory, nothing changes.
    pub fn add(&mut self, name: &str, bytes: &[u8]) -> Result<(), Memory>
        requires { text_of self.old.books name.now ≡ None }
        ensures added { OnOk result (self.new ≡ record self.old {
          books = self.old.books ++ record {
            name = name.now;
            bytes = bytes.now;
            faults = self.old.absent_faults;
          } ∷ [];
        }) }
        ensures refused { OnErr result (self.new ≡ self.old) }
    {
        let book = Book {
            name: String::from_str(self.alloc, name)?,
            bytes: Vec::from_slice(self.alloc, bytes)?,
            faults: self.absent_faults,
        };
        self.books.push(book)?;
        Ok(())
    }

    /// Lists a call that is to fail. Out of memory, nothing changes.
    pub fn fail_at(&mut self, call: u64) -> Result<(), Memory>
        ensures listed { OnOk result
            (self.new ≡ record self.old { failing = self.old.failing ++ call ∷ [] }) }
        ensures refused { OnErr result (self.new ≡ self.old) }
    {
        self.failing.push(call)?;
        Ok(())
    }

    /// Sets the greatest number of bytes that one call gives, at least 1.
    pub fn most(&mut self, most: usize)
        requires { 1 ≤ most }
        ensures { self.new ≡ record self.old { most = most } }
    {
        self.most = most;
    }

    // Counts a call that asks for a name, and says whether it fails.
    fn count_call(&mut self, name: &str) -> bool
        ensures fails { result ≡ fails_for self.old name.now }
        ensures after { self.new ≡ after_call self.old name.now }
    {
        let is_listed = is_listed(&self.failing, self.next_call);
        let is_absent = text_in(&self.books, name).is_none();
        self.next_call = call_after(self.next_call);
        if is_absent {
            self.absent_faults = one_more(self.absent_faults);
        }
        if is_listed {
            raise(&mut self.books, name);
            return true;
        }
        is_absent
    }
}

impl Shelf for MemoryShelf {
    ghost use Rattle.std.specs.Prelude.{Some};

    ghost tells = { λ s name. text_of s.books name };

    ghost faults = { faults_of };

    fn read_at(&mut self, name: &str, at: u64, into: &mut [u8]) -> Result<usize, Failed>
        requires { at < 2 ^ 32 }
        ensures told { (n : List ℕ) → text_of self.new.books n ≡ text_of self.old.books n }
        ensures counts { (n : List ℕ) → faults_of self.old n ≤ faults_of self.new n }
        ensures given { IfOk result (λ n. Gives (text_of self.old.books name.now) at n into.new) }
        ensures failed { OnErr result
            (Rose (faults_of self.old name.now) (faults_of self.new name.now)) }

        ensures fails { IsErr result ↔ IsTrue (fails_for self.old name.now) }
        ensures gives { IfOk result (λ n. IfSome (text_of self.old.books name.now)
            (λ text. n ≡ given_of self.old text at (length into.old))) }
        ensures behind { IfOk result (λ n. drop n into.new ≡ drop n into.old) }
        ensures after { self.new ≡ after_call self.old name.now }
    {
        let fails = self.count_call(name);
        match text_in(&self.books, name) {
            Some(text) if !fails => Ok(copy_from(text, at, self.most, into)),
            _ => Err(Failed),
        }
    }
}

/// The place of the first book of a name.
fn place_of(books: &[Book], name: &str) -> Option<usize>
    ensures { result ≡ position (λ b. bytes_eq (string_bytes b.name) name.now) books.now }
{
    books.iter().position(|book| book.name.as_str() == name)
}

/// The text of a name, if there is one.
fn text_in<'a>(books: &'a [Book], name: &str) -> Option<&'a [u8]>
    ensures { option_copied result ≡ text_of (map book_of books.now) name.now }
{
    let place = place_of(books, name)?;
    Some(&books[place].bytes)
}

/// Raises the count of a name, if it is there.
fn raise(books: &mut [Book], name: &str)
    ensures { map book_of books.new ≡ raised (map book_of books.old) name.now }
{
    if let Some(place) = place_of(books, name) {
        let book = &mut books[place];
        book.faults = one_more(book.faults);
    }
}

/// Copies bytes of a text from a place on, at most so many.
fn copy_from(text: &[u8], at: u64, most: usize, into: &mut [u8]) -> usize
    requires { at < 2 ^ 32 }
    ensures count { result ≡ min (min (length into.old) most) (length text.now - at) }
    ensures bytes { take result into.new ≡ take result (drop at text.now) }
    ensures behind { drop result into.new ≡ drop result into.old }
{
    let at = text.len().min(at as usize);
    let given = into.len().min(most).min(text.len() - at);
    into[..given].copy_from_slice(&text[at..at + given]);
    given
}

/// A shelf that gives and tells the same bytes for every name, and never fails.
#[derive(Drop)]
pub struct NeverFails<'a> {
    /// The bytes of every name.
    pub bytes: &'a [u8],
}

impl<'a> Shelf for NeverFails<'a> {
    ghost use Rattle.std.specs.Prelude.{Some};

    ghost tells = { λ s name. Some s.bytes.now };

    ghost faults = { λ s name. 0 };

    fn read_at(&mut self, _name: &str, at: u64, into: &mut [u8]) -> Result<usize, Failed> {
        Ok(copy_from(self.bytes, at, usize::MAX, into))
    }
}
