use crate::{RunCommand, ToolCommand, run_command, tool_command};
use std::alloc::Global;
use std::process::Abort;
use std::test::Fail;

// The pieces of a line between its spaces.
fn words_of(alloc: Global, line: &str) -> Result<Vec<String>, Fail> {
    let mut words = Vec::new(alloc);
    for word in line.split(' ') {
        words.push(String::from_str(alloc, word)?)?;
    }
    Ok(words)
}

// Asserts what the words of a line are to `patchtool`.
fn tool(
    rt: &impl Abort,
    alloc: Global,
    line: &str,
    command: Option<ToolCommand>,
) -> Result<(), Fail> {
    let words = words_of(alloc, line)?;
    assert_eq!(rt; tool_command(&words), command, "{line}");
    Ok(())
}

// Asserts what the words of a line are to `patchrun`.
fn run(
    rt: &impl Abort,
    alloc: Global,
    line: &str,
    command: Option<RunCommand>,
) -> Result<(), Fail> {
    let words = words_of(alloc, line)?;
    assert_eq!(rt; run_command(&words), command, "{line}");
    Ok(())
}

#[test]
fn commands_of_patchtool(rt: HostRuntime) -> Result<(), Fail> {
    let alloc = rt.alloc();
    let serial = ToolCommand::Serial {
        circuit: "a",
        layout: "-",
        outcomes: "b",
    };
    tool(&rt, alloc, "serial a - b", Some(serial))?;
    tool(
        &rt,
        alloc,
        "lower lower",
        Some(ToolCommand::Lower { circuit: "lower" }),
    )?;
    let migrate = ToolCommand::Migrate {
        circuit: "a",
        layout: "b",
        outcomes: "c",
        schedule: "d",
    };
    tool(&rt, alloc, "migrate a b c d", Some(migrate))?;
    tool(&rt, alloc, "serial a -", None)?;
    tool(&rt, alloc, "Layers a", None)?;
    tool(&rt, alloc, "--help", None)?;
    tool(&rt, alloc, "run a b c 1", None)
}

#[test]
fn commands_of_patchrun(rt: HostRuntime) -> Result<(), Fail> {
    let alloc = rt.alloc();
    let sixteen = RunCommand::Run {
        circuit: "a",
        layout: "-",
        outcomes: "b",
        k: 16,
    };
    run(&rt, alloc, "run a - b 16", Some(sixteen))?;
    run(&rt, alloc, "run a - b 17", None)?;
    run(&rt, alloc, "run a - b 0", None)?;
    run(&rt, alloc, "bits a - b 01", None)?;
    run(
        &rt,
        alloc,
        "big 4000 1",
        Some(RunCommand::Big { n: 4_000, k: 1 }),
    )?;
    run(&rt, alloc, "big 4001 1", None)?;
    run(&rt, alloc, "serial a - b", None)
}

#[test]
fn programs_side_by_side(rt: HostRuntime) -> Result<(), Fail> {
    let alloc = rt.alloc();
    let pairs = words_of(alloc, "a b c d")?;
    let side = RunCommand::Side {
        layout: "-",
        k: 2,
        pairs: &pairs,
    };
    run(&rt, alloc, "side - 2 a b c d", Some(side))?;
    run(&rt, alloc, "side - 2", None)?;
    run(&rt, alloc, "side - 2 a b c", None)?;
    run(
        &rt,
        alloc,
        "side - 2 1 2 3 4 5 6 7 8 9 10 11 12 13 14 15 16 17 18",
        None,
    )
}
