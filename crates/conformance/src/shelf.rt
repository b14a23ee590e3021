//! The texts of a case as a shelf.

ghost use Rattle.std.specs.Prelude.{◌≡◌, ◌≤◌, ◌<◌, ◌^◌, None, length};

use crate::case::{Case, Text};
use patch_base::{Failed, Shelf};

/// The texts of a case, and those that all cases of its file have. A call fails where it is
/// listed, and where it asks for a name that none of them has. Calls are counted from 0.
#[derive(Drop)]
pub struct CaseShelf<'a> {
    case: &'a Case,
    common: &'a Case,
    // One more call that is to fail.
    failing: Option<u64>,
    next_call: u64,
    faults: u64,
}

impl<'a> CaseShelf<'a> {
    pub fn new(case: &'a Case, common: &'a Case, failing: Option<u64>) -> CaseShelf<'a> {
        CaseShelf {
            case,
            common,
            failing,
            next_call: 0,
            faults: 0,
        }
    }

    // Counts a call, and says whether it is to fail.
    fn count_call(&mut self) -> bool
        ensures { self.new.faults ≡ self.old.faults }
    {
        let call = self.next_call;
        self.next_call = call.saturating_add(1);
        self.failing == Some(call) || self.case.shelf.fails.contains(&call)
    }

    // The text of a name; a case's own stands before that of all cases.
    fn text(&self, name: &str) -> Option<&'a Text> {
        text_in(&self.case.files, name).or(text_in(&self.common.files, name))
    }
}

impl Shelf for CaseShelf<'_> {
    ghost tells = { λ shelf name. None };

    ghost faults = { λ shelf name. shelf.faults };

    fn read_at(&mut self, name: &str, at: u64, into: &mut [u8]) -> Result<usize, Failed> {
        let fails = self.count_call();
        match self.text(name) {
            Some(text) if !fails => Ok(copy_from(&text.bytes, at, self.case.shelf.most, into)),
            _ => {
                self.faults = self.faults.saturating_add(1);
                Err(Failed)
            }
        }
    }
}

fn text_in<'a>(texts: &'a [Text], name: &str) -> Option<&'a Text> {
    texts.iter().find(|text| text.name.as_str() == name)
}

// Copies bytes of a text from a place on, at most so many, and says how many.
fn copy_from(text: &[u8], at: u64, most: usize, into: &mut [u8]) -> usize
    requires { at < 2 ^ 32 }
    ensures { result ≤ length into.new }
{
    let at = text.len().min(at as usize);
    let given = into.len().min(most).min(text.len() - at);
    into[..given].copy_from_slice(&text[at..at + given]);
    given
}
