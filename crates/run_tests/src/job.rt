//! What the tests are about: the texts of jobs.

/// The texts of a job. With the layout `-` on the command line, that of the layout isn't read.
#[derive(Clone, Copy)]
pub(crate) struct Job<'a> {
    pub circuit: &'a [u8],
    pub layout: &'a [u8],
    pub outcomes: &'a [u8],
}

const EXPORTED: &[u8] = b"OPENQASM 2.0;\ninclude \"qelib1.inc\";\nqreg q[5];\ncreg c[5];\n\
    h q[0];\ncx q[0],q[1];\nt q[1];\nswap q[1],q[2];\ntdg q[2];\n\
    barrier q[0],q[1],q[2],q[3],q[4];\nh q[2];\nmeasure q -> c;\n";

const EXPORTED_LAYOUT: &[u8] =
    b"layout 1 3 11\npatch 0 12 h\npatch 1 14 h\npatch 2 16 h\npatch 3 18 h\npatch 4 20 h\nport 0 0 h 2\nport 1 32 h 2\n";

const EXPORTED_OUTCOMES: &[u8] =
    b"outcomes 1\nr 0 1 0\nr 1 1 0\nm 2 0\nm 3 1\nm 4 1\nm 5 0\nm 6 1\n";

const TELEPORTATION: &[u8] = b"OPENQASM 2.0;\ninclude \"qelib1.inc\";\nqreg q[3];\n\
    creg mz[1];\ncreg mx[1];\ncreg out[1];\nh q[0];\nt q[0];\nh q[1];\ncx q[1],q[2];\n\
    cx q[0],q[1];\nh q[0];\nmeasure q[0] -> mz[0];\nmeasure q[1] -> mx[0];\n\
    if(mx==1) x q[2];\nif(mz==1) z q[2];\ntdg q[2];\nh q[2];\nmeasure q[2] -> out[0];\n";

const TELEPORTATION_LAYOUT: &[u8] =
    b"layout 1 3 7\npatch 0 8 h\npatch 1 10 h\npatch 2 12 h\nport 0 0 h 2\n";

const TELEPORTATION_OUTCOMES: &[u8] = b"outcomes 1\nr 0 0 0\nm 1 1\nm 2 1\nr 5 1 1\nm 6 1\n";

/// A circuit as an exporter writes it, on five patches with two factories.
pub(crate) fn exported<'a>() -> Job<'a> {
    Job {
        circuit: EXPORTED,
        layout: EXPORTED_LAYOUT,
        outcomes: EXPORTED_OUTCOMES,
    }
}

/// A circuit with two conditional gates.
pub(crate) fn teleportation<'a>() -> Job<'a> {
    Job {
        circuit: TELEPORTATION,
        layout: TELEPORTATION_LAYOUT,
        outcomes: TELEPORTATION_OUTCOMES,
    }
}

/// Two rotations and a measurement of one qubit, with a failing run of factory 0.
pub(crate) fn three<'a>() -> Job<'a> {
    Job {
        circuit: b"products 1 1\nc c 1\nr +Z\nr +X\nm +X c 0\n",
        layout: b"layout 1 2 4\npatch 0 5 h\nport 0 7 h 1\n",
        outcomes: b"outcomes 1\nr 0 1 0\nr 1 0 0\nm 2 0\nf 0 0\n",
    }
}

/// A circuit without products.
pub(crate) fn empty<'a>() -> Job<'a> {
    Job {
        circuit: b"OPENQASM 2.0;\ncreg c[2];\n",
        layout: b"layout 1 1 1\n",
        outcomes: b"outcomes 1\n",
    }
}
