//! Outcome texts by value.

use magic_pool::Fail as Run;
use outcome_table::{Outcomes, read_outcomes};
use source_model::{Given, Kind};
use std::alloc::Global;
use std::test::Fail;

// Two rotations, a settled product and a measurement.
const KINDS: [Kind; 4] = [
    Kind::Rotation,
    Kind::Rotation,
    Kind::Settle {
        first: 0,
        size: 1,
        value: 1,
    },
    Kind::Measure { bit: 0 },
];

const FACTORIES: [u32; 2] = [0, 7];

fn read(alloc: Global) -> Result<Outcomes, Fail> {
    let text = b"outcomes 1\n# in any order\nf 7 12\nm 3 1\n\nr 1 0 1\nf 7 4294967295\nr 0 1 0";
    Ok(read_outcomes(alloc, text, &KINDS, &FACTORIES)?)
}

#[test]
fn outcomes_stand_by_product(rt: HostRuntime) -> Result<(), Fail> {
    let given = [
        Given::Rotation {
            raw: true,
            x: false,
        },
        Given::Rotation {
            raw: false,
            x: true,
        },
        Given::Settled,
        Given::Measure { raw: true },
    ];
    let read = read(rt.alloc())?;
    assert_eq!(rt; read.given.as_slice(), given.as_slice());
    assert_eq!(rt; read.given.into_vec().as_slice(), given.as_slice());
    Ok(())
}

#[test]
fn failing_runs_stand_in_order(rt: HostRuntime) -> Result<(), Fail> {
    let fails = [
        Run {
            factory: 7,
            run: 12,
        },
        Run {
            factory: 7,
            run: 4_294_967_295,
        },
    ];
    let read = read(rt.alloc())?;
    assert_eq!(rt; read.fails.as_slice(), fails.as_slice());
    assert_eq!(rt; read.fails.into_vec().as_slice(), fails.as_slice());
    Ok(())
}
