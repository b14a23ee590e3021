//! A shelf with the texts of a job and a schedule, which gives a few bytes a call, and of which one call may fail.

ghost use Rattle.std.specs.Prelude.{◌≡◌, ◌≤◌, ◌<◌, ◌^◌, None, length};

use crate::job::Job;
use patch_base::{Failed, Shelf};

/// The circuit `c`, the layout `l`, the outcomes `o` and a schedule `s`, 7 bytes a call.
#[derive(Drop)]
pub(crate) struct JobShelf<'a> {
    pub job: Job<'a>,
    pub schedule: &'a [u8],
    /// The number of the call that fails, counted from 0.
    pub failing: Option<u64>,
    /// How many calls were made.
    pub calls: u64,
    /// The fault line for the name that the last call asked for.
    pub asked: &'a [u8],
    faults: u64,
}

impl<'a> JobShelf<'a> {
    /// A shelf without a schedule, of which no call fails.
    pub fn of(job: Job<'a>) -> JobShelf<'a> {
        JobShelf::with_schedule(job, b"")
    }

    /// A shelf of which no call fails.
    pub fn with_schedule(job: Job<'a>, schedule: &'a [u8]) -> JobShelf<'a> {
        JobShelf {
            job,
            schedule,
            failing: None,
            calls: 0,
            asked: b"",
            faults: 0,
        }
    }

    // The text of a name, and the line for a failed read of it.
    fn text(&self, name: &str) -> Option<(&'a [u8], &'a [u8])> {
        match name {
            "c" => Some((self.job.circuit, b"read c\n")),
            "l" => Some((self.job.layout, b"read l\n")),
            "o" => Some((self.job.outcomes, b"read o\n")),
            "s" => Some((self.schedule, b"read s\n")),
            _ => None,
        }
    }

    // Counts a call, and says whether it is to fail.
    fn count_call(&mut self) -> bool
        ensures { self.new.faults ≡ self.old.faults }
    {
        let call = self.calls;
        self.calls = call.saturating_add(1);
        self.failing == Some(call)
    }

    // Keeps the line for the name that is asked for.
    fn keep_asked(&mut self, line: &'a [u8])
        ensures { self.new.faults ≡ self.old.faults }
    {
        self.asked = line;
    }
}

impl Shelf for JobShelf<'_> {
    ghost tells = { λ shelf name. None };

    ghost faults = { λ shelf name. shelf.faults };

    fn read_at(&mut self, name: &str, at: u64, into: &mut [u8]) -> Result<usize, Failed> {
        let fails = self.count_call();
        if let Some((text, line)) = self.text(name) {
            self.keep_asked(line);
            if !fails {
                return Ok(copy_from(text, at, into));
            }
        }
        self.faults = self.faults.saturating_add(1);
        Err(Failed)
    }
}

/// Copies up to 7 bytes of a text from a place on, and says how many.
pub(crate) fn copy_from(text: &[u8], at: u64, into: &mut [u8]) -> usize
    requires { at < 2 ^ 32 }
    ensures { result ≤ length into.new }
{
    let at = text.len().min(at as usize);
    let given = into.len().min(7).min(text.len() - at);
    into[..given].copy_from_slice(&text[at..at + given]);
    given
}
