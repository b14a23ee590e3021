//! The command on a circuit as an exporter writes it.

ghost use Rattle.std.specs.Prelude.{IfOk};
ghost use Rattle.job_read.specs.Kept.{IsJob};

use crate::job::exported;
use crate::lines::count_lines;
use history_replay::{Verdict, verify};
use job_read::{Job, Started, read_job, start_job};
use live_readout::live_main;
use patch_base::{Memory, MemorySink};
use std::alloc::Global;
use std::sync::Wait;
use std::test::Fail;
use std::thread::Threads;

// What the command writes.
fn schedule<T: Threads + Wait + Sync>(rt: &T, alloc: Global) -> Result<(u8, MemorySink), Fail> {
    let mut words = Vec::new(alloc);
    for word in ["live", "c", "l", "o", "4"] {
        words.push(String::from_str(alloc, word)?)?;
    }
    let mut out = MemorySink::new(alloc, 100_000, 4_096)?;
    let mut err = MemorySink::new(alloc, 100, 4_096)?;
    let status = live_main(rt, alloc, &words, &mut exported(), &mut out, &mut err);
    Ok((status, out))
}

// The job of the same texts.
fn exported_job(alloc: Global) -> Result<Job, Memory>
    ensures { IfOk result IsJob }
{
    match read_job(alloc, &mut exported(), "c", "l", "o") {
        Ok(job) => Ok(job),
        Err(_) => Err(Memory),
    }
}

#[test]
fn the_schedule_is_legal(rt: HostRuntime) -> Result<(), Fail> {
    let alloc = rt.alloc();
    let (status, out) = schedule(&rt, alloc)?;
    assert_eq!(rt; status, 0);
    assert!(rt; out.bytes().ends_with(b"\nbits c 10010\n"));
    let job = exported_job(alloc)?;
    let started = start_job(alloc, job)?;
    let Started {
        circuit,
        board,
        outcomes,
    } = started;
    let verdict = verify(alloc, board, &circuit, &outcomes, out.bytes())?;
    assert!(rt; matches!(verdict, Verdict::Legal(_)));
    Ok(())
}

#[test]
fn routers_claim_and_the_deliverer_delivers(rt: HostRuntime) -> Result<(), Fail> {
    let (status, out) = schedule(&rt, rt.alloc())?;
    assert_eq!(rt; status, 0);
    assert!(rt; count_lines(out.bytes(), b'C', 1, 4) >= 1);
    assert_eq!(rt; count_lines(out.bytes(), b'D', 1, 6), 0);
    Ok(())
}
