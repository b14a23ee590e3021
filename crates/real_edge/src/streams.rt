//! Standard output and standard error.

ghost use Rattle.std.specs.Prelude.{None};

use patch_base::{Failed, Sink};
use std::io::{Stderr, Stdout, Write};

/// A stream of the system, with its count of faults.
#[derive(Drop)]
struct Counted<W: Write> {
    stream: W,
    faults: u64,
}

impl<W: Write> Sink for Counted<W> {
    ghost taken = { λ sink. None };

    ghost faults = { λ sink. sink.faults };

    fn write(&mut self, bytes: &[u8]) -> Result<usize, Failed> {
        match self.stream.write(bytes) {
            Ok(n) if n > 0 || bytes.is_empty() => Ok(n),
            answer => {
                self.faults = self.faults.saturating_add(1);
                answer.map_err(|_| Failed)
            }
        }
    }
}

/// Standard output.
#[derive(Drop)]
pub struct OutSink {
    sink: Counted<Stdout>,
}

impl OutSink {
    pub fn new(rt: &HostRuntime) -> OutSink {
        OutSink {
            sink: Counted {
                stream: rt.stdout(),
                faults: 0,
            },
        }
    }
}

impl Sink for OutSink {
    ghost taken = { λ sink. None };

    ghost faults = { λ out. out.sink.faults };

    fn write(&mut self, bytes: &[u8]) -> Result<usize, Failed> {
        self.sink.write(bytes)
    }
}

/// Standard error.
#[derive(Drop)]
pub struct ErrSink {
    sink: Counted<Stderr>,
}

impl ErrSink {
    pub fn new(rt: &HostRuntime) -> ErrSink {
        ErrSink {
            sink: Counted {
                stream: rt.stderr(),
                faults: 0,
            },
        }
    }
}

impl Sink for ErrSink {
    ghost taken = { λ sink. None };

    ghost faults = { λ err. err.sink.faults };

    fn write(&mut self, bytes: &[u8]) -> Result<usize, Failed> {
        self.sink.write(bytes)
    }
}
