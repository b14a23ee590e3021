//! Shelves and sinks that fail.

use crate::call::{end_of, sink, words_of};
use crate::job::{Job, exported};
use crate::shelf::JobShelf;
use patch_base::MemorySink;
use run_top::run_main;
use std::alloc::Global;
use std::process::Abort;
use std::test::Fail;
use std::thread::Threads;

// Whether the command `run` ends for a failing call of its shelf: nothing is written, and the line is of the text that was
// being read.
fn fails_at<T: Threads + Sync + Abort>(rt: &T, alloc: Global, call: u64) -> Result<bool, Fail> {
    let mut shelf = JobShelf::of(exported());
    shelf.failing = Some(call);
    let end = end_of(rt, alloc, "run c l o 2", &mut shelf)?;
    if end.status == 0 {
        return Ok(false);
    }
    assert_eq!(rt; end.status, 7);
    assert_eq!(rt; end.output.bytes(), b"".as_slice());
    assert_eq!(rt; end.error.bytes(), shelf.asked);
    Ok(true)
}

#[test]
fn each_failing_read_names_its_text(rt: HostRuntime) -> Result<(), Fail> {
    let mut failed = 0u64;
    for call in 0..200 {
        if !fails_at(&rt, rt.alloc(), call)? {
            break;
        }
        failed = failed.saturating_add(1);
    }
    assert!(rt; 3 <= failed && failed < 200);
    Ok(())
}

// Asserts how a command that is given the exporter's job ends with an output that fails, and what the output then holds.
fn leaves<T: Threads + Sync + Abort>(
    rt: &T,
    alloc: Global,
    line: &str,
    out: &mut MemorySink,
    held: &[u8],
) -> Result<(), Fail> {
    let words = words_of(alloc, line)?;
    let mut shelf = JobShelf::of(exported());
    let mut err = sink(alloc, 100)?;
    let status = run_main(rt, alloc, &words, &mut shelf, out, &mut err);
    assert_eq!(rt; status, 8);
    assert_eq!(rt; out.bytes(), held);
    assert_eq!(rt; err.bytes(), b"write\n".as_slice());
    Ok(())
}

#[test]
fn each_failing_write_leaves_the_bytes_before_it(rt: HostRuntime) -> Result<(), Fail> {
    let whole = b"bits c 10010\n";
    for call in 0..whole.len() {
        let mut out = MemorySink::new(rt.alloc(), 100, 1)?;
        out.fail_at(call as u64)?;
        leaves(&rt, rt.alloc(), "bits c l o 4", &mut out, &whole[..call])?;
    }
    Ok(())
}

#[test]
fn a_full_output_holds_what_it_has_room_for(rt: HostRuntime) -> Result<(), Fail> {
    let alloc = rt.alloc();
    leaves(&rt, alloc, "bits c l o 4", &mut sink(alloc, 3)?, b"bit")?;
    leaves(&rt, alloc, "run c l o 4", &mut sink(alloc, 3)?, b"sch")?;
    leaves(&rt, alloc, "big 2 4", &mut sink(alloc, 7)?, b"big 2\np")
}

// The status of a command on the texts of a job, where standard error takes nothing.
fn unsaid<T: Threads + Sync>(rt: &T, alloc: Global, line: &str, job: Job<'_>) -> Result<u8, Fail> {
    let words = words_of(alloc, line)?;
    let mut shelf = JobShelf::of(job);
    let mut out = sink(alloc, 0)?;
    let mut err = sink(alloc, 0)?;
    Ok(run_main(rt, alloc, &words, &mut shelf, &mut out, &mut err))
}

#[test]
fn a_failing_error_changes_no_status(rt: HostRuntime) -> Result<(), Fail> {
    let alloc = rt.alloc();
    assert_eq!(rt; unsaid(&rt, alloc, "run c l o", exported())?, 2);
    assert_eq!(rt; unsaid(&rt, alloc, "run o l o 4", exported())?, 3);
    assert_eq!(rt; unsaid(&rt, alloc, "run c c o 4", exported())?, 4);
    assert_eq!(rt; unsaid(&rt, alloc, "run c l l 4", exported())?, 5);
    assert_eq!(rt; unsaid(&rt, alloc, "run c l x 4", exported())?, 7);
    assert_eq!(rt; unsaid(&rt, alloc, "run c l o 4", exported())?, 8);
    Ok(())
}
