//! Carries a case out, and compares how it ends.

ghost use Rattle.std.specs.Prelude.{◌≡◌, ◌≤◌, IsTrue, true, false};
ghost use Rattle.conformance.specs.inside.Ends.{EndsIn};

use crate::case::Case;
use crate::shelf::CaseShelf;
use anyhow::{Result, bail};
use patch_base::MemorySink;
use std::alloc::Global;
use tool_top::tool_main;

/// Which call fails, besides those that the case lists.
#[derive(Clone, Copy)]
pub enum Failing {
    None,
    Read(u64),
    /// The output is taken byte by byte.
    Write(u64),
}

/// How a command ends.
#[derive(Clone, Copy)]
pub struct End<'a> {
    pub status: u8,
    pub output: &'a [u8],
    /// Whether this is only the end of the output.
    pub is_end: bool,
    pub error: &'a [u8],
}

/// Carries a case out with one more failing call, and says whether it ends as wanted. If not,
/// says so.
pub fn ends_as(
    rt: &HostRuntime,
    case: &Case,
    common: &Case,
    failing: Failing,
    wanted: End<'_>,
) -> Result<bool> {
    let alloc = rt.alloc();
    let read = match failing {
        Failing::Read(call) => Some(call),
        _ => None,
    };
    let mut shelf = CaseShelf::new(case, common, read);
    let mut out = out_of(alloc, case, failing)?;
    let most = case.err.most.max(1);
    let mut err = sink(alloc, case.err.room, most, &case.err.fails)?;
    let status = tool_main(alloc, &case.words, &mut shelf, &mut out, &mut err);
    let came = End {
        status,
        output: out.bytes(),
        is_end: false,
        error: err.bytes(),
    };
    if is_same(wanted, came) {
        return Ok(true);
    }
    tell(rt, case, failing, wanted, came)?;
    Ok(false)
}

// The case's output sink.
fn out_of(alloc: Global, case: &Case, failing: Failing) -> Result<MemorySink> {
    let mut fails = Vec::new(alloc);
    for call in &case.out.fails {
        fails.push(*call)?;
    }
    let mut most = case.out.most.max(1);
    if let Failing::Write(call) = failing {
        fails.push(call)?;
        most = 1;
    }
    sink(alloc, case.out.room, most, &fails)
}

// A sink with failing calls.
fn sink(alloc: Global, room: usize, most: usize, fails: &[u64]) -> Result<MemorySink>
    requires { 1 ≤ most }
{
    let made = MemorySink::new(alloc, room, most);
    let Ok(mut sink) = made else {
        bail!("out of memory");
    };
    for call in fails {
        if sink.fail_at(*call).is_err() {
            bail!("out of memory");
        }
    }
    Ok(sink)
}

// Whether the last bytes of a text are these.
fn ends_in(text: &[u8], end: &[u8]) -> bool
    ensures { IsTrue result → EndsIn text.now end.now }
{
    if text.len() < end.len() {
        return false;
    }
    let last = &text[text.len() - end.len()..];
    last == end
}

// Whether a command ended as wanted.
fn is_same(wanted: End<'_>, came: End<'_>) -> bool
    ensures status { IsTrue result → came.entry.status ≡ wanted.entry.status }
    ensures error { IsTrue result → came.entry.error.now ≡ wanted.entry.error.now }
    ensures output { IsTrue result → wanted.entry.is_end ≡ false →
        came.entry.output.now ≡ wanted.entry.output.now }
    ensures end { IsTrue result → wanted.entry.is_end ≡ true →
        EndsIn came.entry.output.now wanted.entry.output.now }
{
    let output = if wanted.is_end {
        ends_in(came.output, wanted.output)
    } else {
        came.output == wanted.output
    };
    output && wanted.status == came.status && wanted.error == came.error
}

// Prints a case that differs.
fn tell(
    rt: &HostRuntime,
    case: &Case,
    failing: Failing,
    wanted: End<'_>,
    came: End<'_>,
) -> Result<()> {
    println!(rt; "case {}", case.name)?;
    match failing {
        Failing::None => {}
        Failing::Read(call) => println!(rt; "where call {call} of the shelf fails")?,
        Failing::Write(call) => println!(rt; "where call {call} of the output fails")?,
    }
    println!(rt; "wanted:")?;
    tell_end(rt, wanted)?;
    println!(rt; "came:")?;
    tell_end(rt, came)
}

// Prints how a command ends.
fn tell_end(rt: &HostRuntime, end: End<'_>) -> Result<()> {
    let alloc = rt.alloc();
    println!(rt; "status {}", end.status)?;
    println!(rt; "{}", String::from_utf8_lossy(alloc, end.output)?)?;
    println!(rt; "{}", String::from_utf8_lossy(alloc, end.error)?)?;
    Ok(())
}
