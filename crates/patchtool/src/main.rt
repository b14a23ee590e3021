//! Plans lattice surgery: carries a list of Pauli products out on surface-code patches, and writes the schedule.
#![tactic(auto)]

use patch_base::{Sink, write_all};
use real_edge::{ErrSink, FileShelf, OutSink};
use std::process::ExitCode;
use std::{env, io};
use tool_top::tool_main;

/// Says why there are no words, and gives the status.
fn refuse(error: &io::Error, err: &mut impl Sink) -> u8 {
    let (line, status) = if error.kind() == io::ErrorKind::OutOfMemory {
        ("memory\n", 9)
    } else {
        ("words\n", 2)
    };
    let _ = write_all(err, line.as_bytes());
    status
}

fn run(rt: &HostRuntime) -> u8 {
    let mut err = ErrSink::new(rt);
    let args = match env::args(rt) {
        Ok(args) => args,
        Err(error) => return refuse(&error, &mut err),
    };
    match args.skip(1).collect::<Vec<String>>(rt.alloc()) {
        Ok(words) => tool_main(
            rt.alloc(),
            &words,
            &mut FileShelf::new(rt),
            &mut OutSink::new(rt),
            &mut err,
        ),
        Err(error) => refuse(&io::Error::from(error), &mut err),
    }
}

fn main(rt: HostRuntime) -> ExitCode {
    ExitCode::from(run(&rt))
}
