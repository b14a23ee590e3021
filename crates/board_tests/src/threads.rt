//! A board that moves between threads.

use crate::board::{Row, board_for};
use crate::calls::{Answer, Call, first_wrong};
use board_core::ClaimWhy;
use source_model::{Given, Kind};
use std::test::Fail;
use std::thread;

static ROWS: [Row; 2] = [
    (b"+XX", Kind::Measure { bit: 0 }),
    (b"+ZZ", Kind::Measure { bit: 1 }),
];

static THERE: [(Call, Answer); 2] = [
    (Call::Measure(0, b"+XX", &[8]), Answer::At(0)),
    (
        Call::Deliver(0, Given::Measure { raw: false }),
        Answer::At(1),
    ),
];

static BACK: [(Call, Answer); 3] = [
    (
        Call::Measure(1, b"+ZZ", &[1, 2, 3]),
        Answer::NoClaim(ClaimWhy::Held { cell: 7, by: 0 }),
    ),
    (Call::Release(0), Answer::At(2)),
    (Call::Measure(1, b"+ZZ", &[1, 2, 3]), Answer::At(3)),
];

// One thread claims and delivers, and this one goes on with the board that comes back.
#[test]
fn a_board_crosses_threads(rt: HostRuntime) -> Result<(), Fail> {
    let alloc = rt.alloc();
    let mut board = board_for(alloc, &ROWS, &[])?;
    let child = thread::spawn(&rt, move || {
        let wrong = first_wrong(alloc, &mut board, &THERE);
        (board, wrong)
    })?;
    let (board, wrong) = child.join(&rt);
    let mut board = board;
    assert_eq!(rt; wrong?, None);
    assert_eq!(rt; first_wrong(alloc, &mut board, &BACK)?, None);
    Ok(())
}
