//! The runs that a case asks for.

use crate::carry::{End, Failing, ends_as};
use crate::case::{Case, Reads};
use anyhow::Result;

/// Carries a case out, with each failing call that it asks for, and says whether each run ends
/// as wanted.
pub fn agrees(rt: &HostRuntime, case: &Case, common: &Case) -> Result<bool> {
    let mut call = 0u64;
    let mut agrees = true;
    for reads in &case.reads {
        agrees &= fails_in(rt, case, common, reads, call)?;
        call = call.saturating_add(reads.calls);
    }
    if case.writes {
        agrees &= fails_writing(rt, case, common)?;
    }
    let failing = if case.writes {
        Failing::Write(case.output.len() as u64)
    } else if case.reads.is_empty() {
        Failing::None
    } else {
        Failing::Read(call)
    };
    agrees &= ends_as(rt, case, common, failing, wanted(case))?;
    Ok(agrees)
}

// How a case ends where none of the calls in question fails.
fn wanted(case: &Case) -> End<'_> {
    End {
        status: case.status,
        output: &case.output,
        is_end: case.is_end,
        error: &case.error,
    }
}

// Lets each call that reads a text fail in turn: the status is 7, and the line names the text.
fn fails_in(
    rt: &HostRuntime,
    case: &Case,
    common: &Case,
    reads: &Reads,
    first: u64,
) -> Result<bool> {
    let line = format!(in rt.alloc(); "read {}\n", reads.name)?;
    let wanted = End {
        status: 7,
        output: b"",
        is_end: false,
        error: line.as_bytes(),
    };
    let mut agrees = true;
    for call in 0..reads.calls {
        let failing = Failing::Read(first.saturating_add(call));
        agrees &= ends_as(rt, case, common, failing, wanted)?;
    }
    Ok(agrees)
}

// Lets each call that writes a byte fail in turn: the status is 8, after the bytes before it.
fn fails_writing(rt: &HostRuntime, case: &Case, common: &Case) -> Result<bool> {
    let mut agrees = true;
    for call in 0..case.output.len() {
        let wanted = End {
            status: 8,
            output: &case.output[..call],
            is_end: false,
            error: b"write\n",
        };
        agrees &= ends_as(rt, case, common, Failing::Write(call as u64), wanted)?;
    }
    Ok(agrees)
}
