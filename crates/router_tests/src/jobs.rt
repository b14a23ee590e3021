//! Small jobs.

use source_model::Kind;

/// The text of a product's axis, and what it does.
pub(crate) type Row = (&'static [u8], Kind);

/// A job: its qubits, whether it has rotations, its layout's text, its products, and their raw outcomes.
#[derive(Clone, Copy)]
pub(crate) struct Job {
    pub(crate) qubits: u32,
    pub(crate) rotations: bool,
    pub(crate) layout: &'static [u8],
    pub(crate) rows: &'static [Row],
    pub(crate) raws: &'static [bool],
}

// Two upright patches side by side in the middle row: cells 5 and 7 are the Z sides of patch 0, and 7 and 9 those of
// patch 1. Above and below a patch are its X sides.
const UPRIGHT: &[u8] = b"layout 1 3 5\npatch 0 6 v\npatch 1 8 v\n";

static PAIR_ROWS: [Row; 2] = [
    (b"+ZI", Kind::Measure { bit: 0 }),
    (b"+IZ", Kind::Measure { bit: 1 }),
];

/// Two measurements, with outcomes 0, that commute.
pub(crate) fn pair() -> Job {
    Job {
        qubits: 2,
        rotations: false,
        layout: UPRIGHT,
        rows: &PAIR_ROWS,
        raws: &[],
    }
}

static LINE_ROWS: [Row; 2] = [
    (b"+ZI", Kind::Measure { bit: 0 }),
    (b"+XI", Kind::Measure { bit: 1 }),
];

/// Two measurements, the second of which waits on the first.
pub(crate) fn line() -> Job {
    Job {
        qubits: 2,
        rotations: false,
        layout: UPRIGHT,
        rows: &LINE_ROWS,
        raws: &[],
    }
}

static SETTLED_ROWS: [Row; 3] = [
    (b"+ZI", Kind::Measure { bit: 0 }),
    (
        b"+XI",
        Kind::Settle {
            first: 0,
            size: 1,
            value: 1,
        },
    ),
    (b"+ZI", Kind::Measure { bit: 1 }),
];

static SETTLED_RAWS: [bool; 1] = [true];

/// A measurement, a product that its bit settles, and a measurement that waits on that one.
pub(crate) fn settled() -> Job {
    Job {
        qubits: 2,
        rotations: false,
        layout: UPRIGHT,
        rows: &SETTLED_ROWS,
        raws: &SETTLED_RAWS,
    }
}

static SIDES_ROWS: [Row; 2] = [
    (b"+IY", Kind::Measure { bit: 0 }),
    (b"+YI", Kind::Measure { bit: 1 }),
];

/// Two measurements of Y, which want a side of each kind. Cells 0 to 5 lie above, and 6, 7 (patch 0), 8, 9 (patch 1), 10
/// and 11 below. The X sides lie left and right of a patch, and the Z side above it.
pub(crate) fn sides() -> Job {
    Job {
        qubits: 2,
        rotations: false,
        layout: b"layout 1 2 6\npatch 0 7 h\npatch 1 9 h\n",
        rows: &SIDES_ROWS,
        raws: &[],
    }
}

static SEVEN_ROWS: [Row; 7] = [
    (b"+XZIII", Kind::Rotation),
    (b"-XZIII", Kind::Rotation),
    (b"+XIIII", Kind::Measure { bit: 0 }),
    (b"+IIZII", Kind::Measure { bit: 1 }),
    (b"+IXIII", Kind::Measure { bit: 2 }),
    (b"+IIIZI", Kind::Measure { bit: 3 }),
    (b"+IIIIZ", Kind::Measure { bit: 4 }),
];

static SEVEN_RAWS: [bool; 7] = [true, true, false, true, true, false, true];

/// Two rotations and five measurements on a row of five patches between two ports, each with room for two states.
pub(crate) fn seven() -> Job {
    Job {
        qubits: 5,
        rotations: true,
        layout: b"layout 1 3 11\npatch 0 12 h\npatch 1 14 h\npatch 2 16 h\npatch 3 18 h\npatch 4 20 h\nport 0 0 h 2\nport 1 32 h 2\n",
        rows: &SEVEN_ROWS,
        raws: &SEVEN_RAWS,
    }
}
