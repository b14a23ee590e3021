//! Words that are no command, and texts that are refused. Nothing is written but the line on standard error.

use crate::call::{end_of, ends};
use crate::job::{Job, empty, exported, three};
use crate::shelf::JobShelf;
use std::alloc::Global;
use std::process::Abort;
use std::test::Fail;
use std::thread::Threads;

// Asserts that words are no command, and that no text is asked for.
fn is_no_command<T: Threads + Sync + Abort>(rt: &T, alloc: Global, line: &str) -> Result<(), Fail> {
    let mut shelf = JobShelf::of(exported());
    let end = end_of(rt, alloc, line, &mut shelf)?;
    assert_eq!(rt; end.status, 2, "{line}");
    assert_eq!(rt; end.output.bytes(), b"".as_slice());
    assert_eq!(rt; end.error.bytes(), b"words\n".as_slice());
    assert_eq!(rt; shelf.calls, 0);
    Ok(())
}

#[test]
fn words_that_are_no_command(rt: HostRuntime) -> Result<(), Fail> {
    let lines = [
        "",
        "run",
        "--help",
        "run c l o",
        "run c l o 4 4",
        "run  c l o 4",
        "Run c l o 4",
        "bits c l o",
        "serial c l o",
        "verify c l o s",
    ];
    for line in lines {
        is_no_command(&rt, rt.alloc(), line)?;
    }
    Ok(())
}

#[test]
fn numbers_out_of_range(rt: HostRuntime) -> Result<(), Fail> {
    let lines = [
        "run c l o 0",
        "run c l o 17",
        "run c l o 04",
        "bits c l o +4",
        "bits c l o 4294967297",
        "big 0 1",
        "big 4001 1",
        "big 1 0",
        "big 1 17",
        "big 1",
    ];
    for line in lines {
        is_no_command(&rt, rt.alloc(), line)?;
    }
    Ok(())
}

// Asserts that `run` and `bits` refuse a job.
fn is_refused<T: Threads + Sync + Abort>(
    rt: &T,
    alloc: Global,
    job: Job<'_>,
    status: u8,
    line: &[u8],
) -> Result<(), Fail> {
    ends(rt, alloc, "run c l o 4", job, status, b"", line)?;
    ends(rt, alloc, "bits c l o 1", job, status, b"", line)
}

// Asserts that a circuit's text is refused.
fn refuses_circuit<T: Threads + Sync + Abort>(
    rt: &T,
    alloc: Global,
    circuit: &[u8],
    line: &[u8],
) -> Result<(), Fail> {
    let job = Job {
        circuit,
        layout: b"",
        outcomes: b"",
    };
    is_refused(rt, alloc, job, 3, line)
}

#[test]
fn tokens_and_versions(rt: HostRuntime) -> Result<(), Fail> {
    let alloc = rt.alloc();
    refuses_circuit(&rt, alloc, b"", b"circuit 1 Version\n")?;
    refuses_circuit(&rt, alloc, b"OPENQASM 2.0", b"circuit 1 Version\n")?;
    refuses_circuit(&rt, alloc, b"OPENQASM 2.0;\n\"abc", b"circuit 2 Token\n")?;
    refuses_circuit(&rt, alloc, b"products 1 2\nr +II", b"circuit 2 Syntax\n")
}

// Asserts that a text of OpenQASM after its first two lines is refused.
fn refuses_statements<T: Threads + Sync + Abort>(
    rt: &T,
    alloc: Global,
    statements: &[u8],
    line: &[u8],
) -> Result<(), Fail> {
    let mut text = Vec::from_slice(alloc, b"OPENQASM 2.0;\ninclude \"qelib1.inc\";\n")?;
    text.extend_from_slice(statements)?;
    refuses_circuit(rt, alloc, &text, line)
}

#[test]
fn statements(rt: HostRuntime) -> Result<(), Fail> {
    let alloc = rt.alloc();
    refuses_statements(
        &rt,
        alloc,
        b"qreg q[2];\nqreg r[3];\ncx q,r;\n",
        b"circuit 5 Sizes\n",
    )?;
    refuses_statements(
        &rt,
        alloc,
        b"qreg q[2];\ncx q[0],q[0];\n",
        b"circuit 4 SameQubit\n",
    )?;
    refuses_statements(&rt, alloc, b"qreg q[2];\nh q[", b"circuit 4 Syntax\n")?;
    refuses_statements(
        &rt,
        alloc,
        b"qreg q[2];\nrz(pi/4) q[0];\n",
        b"circuit 4 Unsupported\n",
    )
}

// Asserts that a layout's text is refused for a circuit.
fn refuses_layout<T: Threads + Sync + Abort>(
    rt: &T,
    alloc: Global,
    circuit: &[u8],
    layout: &[u8],
    line: &[u8],
) -> Result<(), Fail> {
    let job = Job {
        circuit,
        layout,
        outcomes: b"",
    };
    is_refused(rt, alloc, job, 4, line)
}

#[test]
fn forms_of_layouts(rt: HostRuntime) -> Result<(), Fail> {
    let alloc = rt.alloc();
    let circuit = b"products 1 0\n";
    refuses_layout(&rt, alloc, circuit, b"", b"layout Form 1\n")?;
    refuses_layout(&rt, alloc, circuit, b"layout 1 0 3\n", b"layout Size\n")?;
    refuses_layout(
        &rt,
        alloc,
        circuit,
        b"layout 1 65536 65536\n",
        b"layout Size\n",
    )?;
    refuses_layout(
        &rt,
        alloc,
        circuit,
        b"layout 1 1 5\npatch 0 0 h\npatch 0 2 h\n",
        b"layout Form 3\n",
    )
}

#[test]
fn layouts_that_are_not_open(rt: HostRuntime) -> Result<(), Fail> {
    let alloc = rt.alloc();
    refuses_layout(
        &rt,
        alloc,
        b"products 1 0\n",
        b"layout 1 1 5\npatch 0 2 h\n",
        b"layout Split 3\n",
    )?;
    refuses_layout(
        &rt,
        alloc,
        b"products 1 1\nc c 1\nm +Z c 0\n",
        b"layout 1 1 3\npatch 0 0 h\n",
        b"layout Shut 0 Z\n",
    )?;
    refuses_layout(
        &rt,
        alloc,
        b"products 1 2\nr +ZI\n",
        b"layout 1 3 5\npatch 0 6 v\npatch 1 8 v\n",
        b"layout NoPort\n",
    )
}

// Asserts that an outcomes' text is refused for three products of one qubit.
fn refuses_outcomes<T: Threads + Sync + Abort>(
    rt: &T,
    alloc: Global,
    outcomes: &[u8],
    line: &[u8],
) -> Result<(), Fail> {
    let mut job = three();
    job.outcomes = outcomes;
    is_refused(rt, alloc, job, 5, line)
}

#[test]
fn outcomes(rt: HostRuntime) -> Result<(), Fail> {
    let alloc = rt.alloc();
    refuses_outcomes(&rt, alloc, b"", b"outcomes 1 Form\n")?;
    refuses_outcomes(
        &rt,
        alloc,
        b"outcomes 1\nm 4294967296 0",
        b"outcomes 2 Form\n",
    )?;
    refuses_outcomes(
        &rt,
        alloc,
        b"outcomes 1\nr 0 1 0\nr 1 0 0\nr 1 0 0\nm 2 0\n",
        b"outcomes 4 Repeated\n",
    )?;
    refuses_outcomes(
        &rt,
        alloc,
        b"outcomes 1\nr 0 1 0\nr 1 0 0\nr 2 0 0\n",
        b"outcomes 4 Kind\n",
    )
}

#[test]
fn outcomes_of_products_and_factories(rt: HostRuntime) -> Result<(), Fail> {
    let alloc = rt.alloc();
    refuses_outcomes(
        &rt,
        alloc,
        b"outcomes 1\nr 0 1 0\nm 2 0\n",
        b"outcomes Missing 1\n",
    )?;
    refuses_outcomes(
        &rt,
        alloc,
        b"outcomes 1\nr 0 1 0\nr 1 0 0\nm 2 0\nf 5 0\n",
        b"outcomes 5 Factory\n",
    )
}

#[test]
fn texts_past_four_mebibytes(rt: HostRuntime) -> Result<(), Fail> {
    let alloc = rt.alloc();
    let long = vec![in alloc; b' '; 4_194_305]?;
    let mut job = empty();
    job.circuit = &long;
    is_refused(&rt, alloc, job, 3, b"circuit 0 TooLong\n")?;
    let mut job = empty();
    job.layout = &long;
    is_refused(&rt, alloc, job, 4, b"layout TooLong\n")?;
    let mut job = empty();
    job.outcomes = &long;
    is_refused(&rt, alloc, job, 5, b"outcomes TooLong\n")
}
