//! Carries out cases that lie as text in files, and prints each that ends otherwise than it says.
#![tactic(auto)]

mod carry;
mod case;
mod runs;
mod shelf;
mod suite;

use anyhow::{Context, Result};
use std::env;
use std::process::ExitCode;
use suite::{Count, carry_out};

fn run(rt: &HostRuntime) -> Result<Count> {
    let mut count = Count {
        cases: 0,
        differ: 0,
    };
    for name in env::args(rt)?.skip(1) {
        carry_out(rt, name.as_str(), &mut count).context(format_args!("in {name}"))?;
    }
    println!(rt; "{} cases, {} differ", count.cases, count.differ)?;
    Ok(count)
}

fn main(rt: HostRuntime) -> Result<ExitCode> {
    let count = run(&rt)?;
    Ok(if count.differ == 0 {
        ExitCode::SUCCESS
    } else {
        ExitCode::FAILURE
    })
}
