//! Jobs that are carried out.

use crate::call::{End, end_of, ends, is_legal};
use crate::job::{Job, empty, exported, teleportation, three};
use crate::shelf::JobShelf;
use std::alloc::Global;
use std::process::Abort;
use std::test::Fail;
use std::thread::Threads;

// Whether a line of a schedule is a claim by one of the routers 1 to 4.
fn is_claim_of_router(line: &str) -> bool {
    line.starts_with("1 C ")
        || line.starts_with("2 C ")
        || line.starts_with("3 C ")
        || line.starts_with("4 C ")
}

// Asserts that the command `run` ends well, with a legal schedule.
fn runs<T: Threads + Sync + Abort>(
    rt: &T,
    alloc: Global,
    line: &str,
    job: Job<'_>,
) -> Result<End, Fail> {
    let end = end_of(rt, alloc, line, &mut JobShelf::of(job))?;
    assert_eq!(rt; end.status, 0, "{line}");
    assert_eq!(rt; end.error.bytes(), b"".as_slice());
    is_legal(rt, alloc, job, end.output.bytes())?;
    Ok(end)
}

#[test]
fn routers_claim_and_the_schedule_is_legal(rt: HostRuntime) -> Result<(), Fail> {
    let end = runs(&rt, rt.alloc(), "run c l o 4", exported())?;
    let text = String::from_utf8_lossy(rt.alloc(), end.output.bytes())?;
    assert!(rt; text.as_str().lines().any(is_claim_of_router));
    assert!(rt; text.as_str().ends_with("bits c 10010\n"));
    Ok(())
}

#[test]
fn any_number_of_routers_will_do(rt: HostRuntime) -> Result<(), Fail> {
    for line in ["run c l o 1", "run c l o 2", "run c l o 16"] {
        let _ = runs(&rt, rt.alloc(), line, exported())?;
    }
    Ok(())
}

#[test]
fn routers_settle_conditional_gates(rt: HostRuntime) -> Result<(), Fail> {
    let _ = runs(&rt, rt.alloc(), "run c l o 3", teleportation())?;
    Ok(())
}

#[test]
fn a_run_of_a_factory_fails(rt: HostRuntime) -> Result<(), Fail> {
    let end = runs(&rt, rt.alloc(), "run c l o 2", three())?;
    let text = String::from_utf8_lossy(rt.alloc(), end.output.bytes())?;
    assert!(rt; text.as_str().ends_with("bits c 1\n"));
    Ok(())
}

#[test]
fn nothing_is_to_be_done(rt: HostRuntime) -> Result<(), Fail> {
    let text = b"schedule 2\nbits c 00\n";
    ends(&rt, rt.alloc(), "run c l o 4", empty(), 0, text, b"")
}

#[test]
fn bits_stand_alone(rt: HostRuntime) -> Result<(), Fail> {
    for line in ["bits c l o 1", "bits c l o 4", "bits c l o 16"] {
        let text = b"bits c 10010\n";
        ends(&rt, rt.alloc(), line, exported(), 0, text, b"")?;
    }
    ends(
        &rt,
        rt.alloc(),
        "bits c - o 2",
        three(),
        0,
        b"bits c 1\n",
        b"",
    )
}

#[test]
fn a_made_job_has_one_summary(rt: HostRuntime) -> Result<(), Fail> {
    for line in ["big 1 1", "big 1 16"] {
        let text = b"big 1\nproducts 8\nrotations 0\nbits c 00111010\n";
        ends(&rt, rt.alloc(), line, empty(), 0, text, b"")?;
    }
    Ok(())
}

#[test]
fn the_number_of_routers_changes_no_summary(rt: HostRuntime) -> Result<(), Fail> {
    let mut shelf = JobShelf::of(empty());
    let one = end_of(&rt, rt.alloc(), "big 4000 1", &mut shelf)?;
    let many = end_of(&rt, rt.alloc(), "big 4000 16", &mut shelf)?;
    assert_eq!(rt; one.status, 0);
    assert_eq!(rt; many.status, 0);
    assert_eq!(rt; one.output.bytes(), many.output.bytes());
    assert_eq!(rt; shelf.calls, 0);
    Ok(())
}
