//! Verdicts by value.

use crate::jobs::{board, circuit};
use history_replay::{Verdict, verify};
use outcome_table::{FailList, GivenList, Outcomes};
use std::alloc::Global;
use std::test::Fail;

/// The verdict on a text of the circuit that does nothing.
fn judged(alloc: Global, text: &[u8]) -> Result<Verdict, Fail> {
    let outcomes = Outcomes {
        given: GivenList::of(Vec::new(alloc)),
        fails: FailList::of(Vec::new(alloc)),
    };
    Ok(verify(alloc, board(alloc)?, &circuit(alloc)?, &outcomes, text)?)
}

#[test]
fn hands_back_the_board(rt: HostRuntime) -> Result<(), Fail> {
    let verdict = judged(rt.alloc(), b"schedule 2\n63 S 0\nbits c 0\n")?;
    let Verdict::Legal(board) = verdict else {
        return Err(Fail::new("illegal"));
    };
    assert_eq!(rt; board.history().length(), 1);
    let Some(noted) = board.history().get(0) else {
        return Err(Fail::new("no entry"));
    };
    assert_eq!(rt; noted.by, 63);
    Ok(())
}

#[test]
fn names_the_line_past_the_end(rt: HostRuntime) -> Result<(), Fail> {
    let verdict = judged(rt.alloc(), b"schedule 2\nbits c 0\n\n")?;
    let Verdict::Illegal { line } = verdict else {
        return Err(Fail::new("legal"));
    };
    assert_eq!(rt; line, 3);
    Ok(())
}
