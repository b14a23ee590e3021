//! Commands, and how they end.

use crate::job::Job;
use crate::shelf::JobShelf;
use patch_base::MemorySink;
use run_top::run_main;
use std::alloc::Global;
use std::process::Abort;
use std::test::Fail;
use std::thread::Threads;
use tool_top::tool_main;

/// How a command ended.
#[derive(Drop)]
pub(crate) struct End {
    pub status: u8,
    pub output: MemorySink,
    pub error: MemorySink,
}

/// A sink with room for so many bytes.
pub(crate) fn sink(alloc: Global, room: usize) -> Result<MemorySink, Fail> {
    Ok(MemorySink::new(alloc, room, 4_096)?)
}

/// The words of a line, one space apart.
pub(crate) fn words_of(alloc: Global, line: &str) -> Result<Vec<String>, Fail> {
    let mut words = Vec::new(alloc);
    for word in line.split(' ') {
        words.push(String::from_str(alloc, word)?)?;
    }
    Ok(words)
}

/// Has a command of `patchrun` carried out, with ample room.
pub(crate) fn end_of<T: Threads + Sync>(
    rt: &T,
    alloc: Global,
    line: &str,
    shelf: &mut JobShelf<'_>,
) -> Result<End, Fail> {
    let words = words_of(alloc, line)?;
    let mut output = sink(alloc, 100_000)?;
    let mut error = sink(alloc, 100)?;
    let status = run_main(rt, alloc, &words, shelf, &mut output, &mut error);
    Ok(End {
        status,
        output,
        error,
    })
}

/// Asserts how a command ends on the texts of a job, and what it writes.
pub(crate) fn ends<T: Threads + Sync + Abort>(
    rt: &T,
    alloc: Global,
    line: &str,
    job: Job<'_>,
    status: u8,
    output: &[u8],
    error: &[u8],
) -> Result<(), Fail> {
    let end = end_of(rt, alloc, line, &mut JobShelf::of(job))?;
    assert_eq!(rt; end.status, status, "{line}");
    assert_eq!(rt; end.output.bytes(), output, "{line}");
    assert_eq!(rt; end.error.bytes(), error, "{line}");
    Ok(())
}

/// Asserts that `patchtool` judges a schedule legal.
pub(crate) fn is_legal(
    rt: &impl Abort,
    alloc: Global,
    job: Job<'_>,
    schedule: &[u8],
) -> Result<(), Fail> {
    let words = words_of(alloc, "verify c l o s")?;
    let judged = Job {
        circuit: job.circuit,
        layout: job.layout,
        outcomes: job.outcomes,
    };
    let mut shelf = JobShelf::with_schedule(judged, schedule);
    let mut output = sink(alloc, 100)?;
    let mut error = sink(alloc, 100)?;
    let status = tool_main(alloc, &words, &mut shelf, &mut output, &mut error);
    assert_eq!(rt; status, 0);
    assert_eq!(rt; output.bytes(), b"legal\n".as_slice());
    Ok(())
}
