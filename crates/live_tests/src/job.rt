//! What the tests are about: the texts of jobs, and a shelf with them.

ghost use Rattle.std.specs.Prelude.{◌≡◌, ◌≤◌, ◌<◌, ◌^◌, None, length};

use patch_base::{Failed, Shelf};

/// The texts of a job: the circuit `c`, the layout `l` and the outcomes `o`.
#[derive(Drop)]
pub(crate) struct JobShelf<'a> {
    circuit: &'a [u8],
    layout: &'a [u8],
    outcomes: &'a [u8],
    faults: u64,
}

/// A circuit as an exporter writes it, on five patches with two factories.
pub(crate) fn exported<'a>() -> JobShelf<'a> {
    JobShelf {
        circuit: b"OPENQASM 2.0;\ninclude \"qelib1.inc\";\nqreg q[5];\ncreg c[5];\n\
            h q[0];\ncx q[0],q[1];\nt q[1];\nswap q[1],q[2];\ntdg q[2];\n\
            barrier q[0],q[1],q[2],q[3],q[4];\nh q[2];\nmeasure q -> c;\n",
        layout: b"layout 1 3 11\npatch 0 12 h\npatch 1 14 h\npatch 2 16 h\npatch 3 18 h\npatch 4 20 h\nport 0 0 h 2\nport 1 32 h 2\n",
        outcomes: b"outcomes 1\nr 0 1 0\nr 1 1 0\nm 2 0\nm 3 1\nm 4 1\nm 5 0\nm 6 1\n",
        faults: 0,
    }
}

/// Two measurements on patches side by side. Cells 5 and 7 are the Z sides of patch 0, and 7 and 9 those of patch 1.
pub(crate) fn pair<'a>() -> JobShelf<'a> {
    JobShelf {
        circuit: b"products 1 2\nc c 2\nm +ZI c 0\nm +IZ c 1\n",
        layout: b"layout 1 3 5\npatch 0 6 v\npatch 1 8 v\n",
        outcomes: b"outcomes 1\nm 0 0\nm 1 0\n",
        faults: 0,
    }
}

impl<'a> JobShelf<'a> {
    fn text(&self, name: &str) -> Option<&'a [u8]> {
        match name {
            "c" => Some(self.circuit),
            "l" => Some(self.layout),
            "o" => Some(self.outcomes),
            _ => None,
        }
    }
}

impl Shelf for JobShelf<'_> {
    ghost tells = { λ shelf name. None };

    ghost faults = { λ shelf name. shelf.faults };

    fn read_at(&mut self, name: &str, at: u64, into: &mut [u8]) -> Result<usize, Failed> {
        if let Some(text) = self.text(name) {
            return Ok(copy_from(text, at, into));
        }
        self.faults = self.faults.saturating_add(1);
        Err(Failed)
    }
}

// Copies what there is of a text from a place on, and says how many bytes.
fn copy_from(text: &[u8], at: u64, into: &mut [u8]) -> usize
    requires { at < 2 ^ 32 }
    ensures { result ≤ length into.new }
{
    let at = text.len().min(at as usize);
    let given = into.len().min(text.len() - at);
    into[..given].copy_from_slice(&text[at..at + given]);
    given
}
