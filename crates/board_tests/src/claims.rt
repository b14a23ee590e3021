//! Claims: cells that are held, products that wait, and axes that corrections turn.

use crate::board::Row;
use crate::calls::{Answer, Call, play};
use board_core::{ClaimWhy, DeliverWhy, Differ, ReleaseWhy};
use magic_pool::Stepped;
use patch_layout::Fault;
use source_model::{Given, Kind};
use std::test::Fail;

const OFF: Given = Given::Measure { raw: false };

const PLAIN: Given = Given::Rotation {
    raw: false,
    x: false,
};

const TURNED: Given = Given::Rotation {
    raw: true,
    x: false,
};

const BIT_0: Kind = Kind::Measure { bit: 0 };

const BIT_1: Kind = Kind::Measure { bit: 1 };

static SHARED: [Row; 2] = [(b"+XX", BIT_0), (b"+ZZ", BIT_1)];

static SHARED_ROWS: [(Call, Answer); 7] = [
    (Call::Release(0), Answer::NoRelease(ReleaseWhy::Undelivered)),
    (Call::Measure(0, b"+XX", &[8]), Answer::At(0)),
    (
        Call::Measure(1, b"+ZZ", &[1, 2, 3]),
        Answer::NoClaim(ClaimWhy::Held { cell: 7, by: 0 }),
    ),
    (Call::Deliver(0, OFF), Answer::At(1)),
    (Call::Release(0), Answer::At(2)),
    (
        Call::Measure(0, b"+XX", &[8]),
        Answer::NoClaim(ClaimWhy::Taken { place: 0 }),
    ),
    (Call::Measure(1, b"+ZZ", &[1, 2, 3]), Answer::At(3)),
];

// X X and Z Z commute and meet at both patches. After the refusal cells 1, 2 and 3 are free still.
#[test]
fn shared_patches_are_held(rt: HostRuntime) -> Result<(), Fail> {
    assert_eq!(rt; play(rt.alloc(), &SHARED, &[], &SHARED_ROWS)?, None);
    Ok(())
}

static APART: [Row; 3] = [(b"+ZI", BIT_0), (b"+IZ", BIT_1), (b"+ZZ", BIT_0)];

static APART_ROWS: [(Call, Answer); 4] = [
    (Call::Measure(0, b"+ZI", &[1]), Answer::At(0)),
    (
        Call::Measure(2, b"+ZZ", &[1, 2, 3]),
        Answer::NoClaim(ClaimWhy::Held { cell: 1, by: 0 }),
    ),
    (Call::Measure(1, b"+IZ", &[2, 3]), Answer::At(1)),
    (Call::Release(1), Answer::NoRelease(ReleaseWhy::Undelivered)),
];

// A refused claim holds none of its cells: another one takes 2 and 3.
#[test]
fn a_refused_claim_holds_nothing(rt: HostRuntime) -> Result<(), Fail> {
    assert_eq!(rt; play(rt.alloc(), &APART, &[], &APART_ROWS)?, None);
    Ok(())
}

static THIRD: [Row; 3] = [(b"+ZI", BIT_0), (b"+XX", BIT_1), (b"+ZI", BIT_0)];

static THIRD_ROWS: [(Call, Answer); 2] = [
    (
        Call::Measure(2, b"+ZI", &[1]),
        Answer::NoClaim(ClaimWhy::Waits { on: 1 }),
    ),
    (
        Call::Measure(1, b"+XX", &[8]),
        Answer::NoClaim(ClaimWhy::Waits { on: 0 }),
    ),
];

// Product 2 commutes with 0, and waits on 1, which waits on 0.
#[test]
fn products_wait_through_a_third_one(rt: HostRuntime) -> Result<(), Fail> {
    assert_eq!(rt; play(rt.alloc(), &THIRD, &[], &THIRD_ROWS)?, None);
    Ok(())
}

static TURNS: [Row; 3] = [(b"+ZI", Kind::Rotation), (b"+XI", BIT_0), (b"+ZI", BIT_1)];

static TURNS_ROWS: [(Call, Answer); 9] = [
    (Call::Steps(11), Answer::Did(Stepped::Made { state: 0 })),
    (
        Call::Rotate(0, b"+ZI", &[1, 2, 3, 4, 5]),
        Answer::Took {
            place: 11,
            state: 0,
        },
    ),
    (Call::Deliver(0, TURNED), Answer::At(12)),
    (Call::Release(0), Answer::At(13)),
    (
        Call::Measure(1, b"+X", &[8]),
        Answer::NoClaim(ClaimWhy::AxisDiffers { at: Differ::Length }),
    ),
    (
        Call::Measure(1, b"+XI", &[8]),
        Answer::NoClaim(ClaimWhy::AxisDiffers { at: Differ::Sign }),
    ),
    (
        Call::Measure(1, b"-XI", &[8]),
        Answer::NoClaim(ClaimWhy::AxisDiffers {
            at: Differ::Qubit { q: 0 },
        }),
    ),
    (
        Call::Measure(1, b"-YI", &[8]),
        Answer::NoClaim(ClaimWhy::Unfit {
            fault: Fault::Touch { index: 1 },
        }),
    ),
    (Call::Measure(1, b"-YI", &[0, 1, 6]), Answer::At(14)),
];

// Y wants a side of each kind. X after the quarter turn about Z is iZX, which is -Y.
#[test]
fn outcomes_turn_axes(rt: HostRuntime) -> Result<(), Fail> {
    assert_eq!(rt; play(rt.alloc(), &TURNS, &[], &TURNS_ROWS)?, None);
    Ok(())
}

static TWICE: [Row; 3] = [
    (b"+ZI", Kind::Rotation),
    (b"+XI", Kind::Rotation),
    (b"+ZI", BIT_0),
];

static TWICE_ROWS: [(Call, Answer); 10] = [
    (Call::Steps(11), Answer::Did(Stepped::Made { state: 0 })),
    (
        Call::Rotate(0, b"+ZI", &[1, 2, 3, 4, 5]),
        Answer::Took {
            place: 11,
            state: 0,
        },
    ),
    (Call::Deliver(0, TURNED), Answer::At(12)),
    (Call::Release(0), Answer::At(13)),
    (Call::Steps(11), Answer::Did(Stepped::Made { state: 1 })),
    (
        Call::Rotate(1, b"-YI", &[0, 1, 2, 3, 4, 5, 6]),
        Answer::Took {
            place: 25,
            state: 1,
        },
    ),
    (Call::Deliver(1, PLAIN), Answer::At(26)),
    (Call::Release(1), Answer::At(27)),
    (
        Call::Measure(2, b"+ZI", &[1]),
        Answer::NoClaim(ClaimWhy::AxisDiffers {
            at: Differ::Qubit { q: 0 },
        }),
    ),
    (Call::Measure(2, b"+XI", &[8]), Answer::At(28)),
];

// The second correction is about the axis that was carried out, -Y: its outcome 0 stands for the effective outcome 1, and
// Z after the quarter turn about -Y is -iYZ, which is X.
#[test]
fn a_second_correction_is_about_an_executed_axis(rt: HostRuntime) -> Result<(), Fail> {
    assert_eq!(rt; play(rt.alloc(), &TWICE, &[], &TWICE_ROWS)?, None);
    Ok(())
}

static SETTLES: [Row; 3] = [
    (b"+ZI", BIT_0),
    (
        b"+XI",
        Kind::Settle {
            first: 0,
            size: 1,
            value: 1,
        },
    ),
    (b"+ZI", BIT_1),
];

static SETTLES_ROWS: [(Call, Answer); 8] = [
    (
        Call::Deliver(1, Given::Settled),
        Answer::NoOutcome(DeliverWhy::Waits { on: 0 }),
    ),
    (
        Call::Measure(1, b"+XI", &[8]),
        Answer::NoClaim(ClaimWhy::NoRegion),
    ),
    (Call::Measure(0, b"+ZI", &[1]), Answer::At(0)),
    (
        Call::Deliver(0, Given::Measure { raw: true }),
        Answer::At(1),
    ),
    (Call::Release(0), Answer::At(2)),
    (Call::Deliver(1, Given::Settled), Answer::At(3)),
    (
        Call::Measure(2, b"+ZI", &[1]),
        Answer::NoClaim(ClaimWhy::AxisDiffers { at: Differ::Sign }),
    ),
    (Call::Measure(2, b"-ZI", &[1]), Answer::At(4)),
];

// A settled product waits on the bit that it reads, and flips where the bit is 1.
#[test]
fn settled_products_flip(rt: HostRuntime) -> Result<(), Fail> {
    assert_eq!(rt; play(rt.alloc(), &SETTLES, &[], &SETTLES_ROWS)?, None);
    Ok(())
}

static ABSENT_ROWS: [(Call, Answer); 8] = [
    (
        Call::Measure(2, b"+ZI", &[1]),
        Answer::NoClaim(ClaimWhy::NoProduct),
    ),
    (
        Call::Deliver(2, OFF),
        Answer::NoOutcome(DeliverWhy::NoProduct),
    ),
    (Call::Release(2), Answer::NoRelease(ReleaseWhy::NoProduct)),
    (
        Call::Deliver(0, OFF),
        Answer::NoOutcome(DeliverWhy::Unclaimed),
    ),
    (Call::Measure(0, b"+XX", &[8]), Answer::At(0)),
    (
        Call::Deliver(0, PLAIN),
        Answer::NoOutcome(DeliverWhy::WrongKind),
    ),
    (Call::Deliver(0, OFF), Answer::At(1)),
    (
        Call::Deliver(0, OFF),
        Answer::NoOutcome(DeliverWhy::Twice { place: 1 }),
    ),
];

// A claim, a delivery and a release hand their node back where there is no product 2, and a delivery that comes too early,
// is of another kind, or comes twice.
#[test]
fn refused_calls_hand_their_node_back(rt: HostRuntime) -> Result<(), Fail> {
    assert_eq!(rt; play(rt.alloc(), &SHARED, &[], &ABSENT_ROWS)?, None);
    Ok(())
}

static AGAIN_ROWS: [(Call, Answer); 4] = [
    (Call::Measure(0, b"+XX", &[8]), Answer::At(0)),
    (Call::Deliver(0, OFF), Answer::At(1)),
    (Call::Release(0), Answer::At(2)),
    (
        Call::Release(0),
        Answer::NoRelease(ReleaseWhy::Twice { place: 2 }),
    ),
];

#[test]
fn a_product_is_released_once(rt: HostRuntime) -> Result<(), Fail> {
    assert_eq!(rt; play(rt.alloc(), &SHARED, &[], &AGAIN_ROWS)?, None);
    Ok(())
}
