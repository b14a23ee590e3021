//! Factories and magic states on a board.

use crate::board::Row;
use crate::calls::{Answer, Call, play};
use board_core::{BoardStepWhy, ClaimWhy};
use magic_pool::{Fail as Failing, Stepped};
use source_model::{Given, Kind};
use std::test::Fail;

const PLAIN: Given = Given::Rotation {
    raw: false,
    x: false,
};

static ROTATIONS: [Row; 2] = [(b"+ZI", Kind::Rotation), (b"+ZI", Kind::Rotation)];

static FAILING: [Failing; 1] = [Failing { factory: 0, run: 0 }];

static ROWS: [(Call, Answer); 10] = [
    (Call::Steps(11), Answer::Did(Stepped::Failed { run: 0 })),
    (
        Call::Rotate(0, b"+ZI", &[1, 2, 3, 4, 5]),
        Answer::NoClaim(ClaimWhy::NoState { port: 0 }),
    ),
    (Call::Steps(11), Answer::Did(Stepped::Made { state: 0 })),
    (
        Call::Step(0),
        Answer::NoStep(BoardStepWhy::Stocked { ready: 1 }),
    ),
    (
        Call::Rotate(0, b"+ZI", &[1, 2, 3, 4, 5]),
        Answer::Took {
            place: 22,
            state: 0,
        },
    ),
    (Call::Deliver(0, PLAIN), Answer::At(23)),
    (Call::Release(0), Answer::At(24)),
    (
        Call::Rotate(1, b"+ZI", &[1, 2, 3, 4, 5]),
        Answer::NoClaim(ClaimWhy::NoState { port: 0 }),
    ),
    (Call::Steps(11), Answer::Did(Stepped::Made { state: 1 })),
    (
        Call::Rotate(1, b"+ZI", &[1, 2, 3, 4, 5]),
        Answer::Took {
            place: 36,
            state: 1,
        },
    ),
];

// Each state serves one rotation, a failing run makes none, and no run begins with a full store.
#[test]
fn states_serve_once(rt: HostRuntime) -> Result<(), Fail> {
    assert_eq!(rt; play(rt.alloc(), &ROTATIONS, &FAILING, &ROWS)?, None);
    Ok(())
}

static ABSENT: [(Call, Answer); 2] = [
    (Call::Step(3), Answer::NoStep(BoardStepWhy::NoFactory)),
    (Call::Step(0), Answer::Did(Stepped::Running)),
];

#[test]
fn there_is_no_factory_3(rt: HostRuntime) -> Result<(), Fail> {
    assert_eq!(rt; play(rt.alloc(), &ROTATIONS, &[], &ABSENT)?, None);
    Ok(())
}
