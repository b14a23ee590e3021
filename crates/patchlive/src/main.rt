//! Carries a circuit out on surface-code patches while its outcomes arrive, and writes the schedule.
#![tactic(auto)]

use live_readout::live_main;
use patch_base::{Sink, write_all};
use real_edge::{ErrSink, FileShelf, OutSink};
use std::process::ExitCode;
use std::{env, io};

/// Says why there are no words, and gives the status.
fn refuse(error: &io::Error, err: &mut impl Sink) -> u8 {
    let (line, status) = if error.kind() == io::ErrorKind::OutOfMemory {
        ("memory\n", 9)
    } else {
        ("words\n", 2)
    };
    let _ = write_all(err, line.as_bytes());
    status
}

/// The words after the program's name.
fn words(rt: &HostRuntime) -> io::Result<Vec<String>> {
    let args = env::args(rt)?;
    let words = args.skip(1).collect::<Vec<String>>(rt.alloc())?;
    Ok(words)
}

fn main(rt: HostRuntime) -> ExitCode {
    let mut err = ErrSink::new(&rt);
    let status = match words(&rt) {
        Ok(words) => live_main(
            &rt,
            rt.alloc(),
            &words,
            &mut FileShelf::new(&rt),
            &mut OutSink::new(&rt),
            &mut err,
        ),
        Err(error) => refuse(&error, &mut err),
    };
    ExitCode::from(status)
}
