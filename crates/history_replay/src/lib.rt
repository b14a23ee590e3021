//! Schedules read back: a text is taken where it is that of a legal complete history, and else its first bad line is named.
#![tactic(auto)]

ghost use Rattle.std.specs.Prelude.{◌≡◌, ℕ, List, [], IfOk, IfSome, IfNone};
ghost use Rattle.source_model.specs.Circuits.{WellFormed, RightKinds};
ghost use Rattle.source_model.specs.Statics.{statics};
ghost use Rattle.board_core.specs.declared.Noted.{Noted};
ghost use Rattle.board_core.specs.Position.{with_history};
ghost use Rattle.schedule_text.specs.Text.{Version};
ghost use Rattle.history_replay.specs.Replay.{IsTextOf, FirstBadLine, OneFirstBad, LegalOrBad, asked};
ghost use Rattle.history_replay.specs.declared.Verdict.TheVariants.{Legal};
ghost use Rattle.history_replay.specs.Answers.{IsVerdict};
ghost use Rattle.history_replay.specs.Laws.{SchedulesAreLegal};

mod close;
mod enter;
mod lines;

use board_core::Board;
use close::close;
use enter::{Entered, enter_all};
use lines::read_header;
use outcome_table::Outcomes;
use patch_base::Memory;
use schedule_text::law_text_tells_all;
use source_model::Circuit;
use std::alloc::Global;

/// What a schedule's text is, read against a job and its outcomes.
#[derive(Drop)]
pub enum Verdict {
    /// The text of a legal complete history, which the board now has.
    Legal(Board),
    /// Another text, and its first bad line. Lines count from 1; a text that ends too early is bad at the line past its end.
    Illegal { line: u32 },
}

/// Reads a schedule of version 1 or 2 against a new board of the circuit's static products and a table of outcomes.
///
/// The text is legal exactly where it is that of a history that is legal on the board and complete for the table, with the
/// bits that the circuit's own run leaves. The board then has that history, with the numbers of its workers, which are 0
/// in version 1. Each claim's region is certified anew from its cells.
///
/// # Errors
///
/// `Memory` where memory ran out.
pub fn verify(
    alloc: Global,
    board: Board,
    circuit: &Circuit,
    outcomes: &Outcomes,
    text: &[u8],
) -> Result<Verdict, Memory>
    requires circuit { WellFormed circuit.now }
    requires new { board.history ≡ [] }
    requires products { board.job.products ≡ statics circuit.now.items }
    requires table { RightKinds circuit.now.items outcomes.now.given }
    ensures judged { IfOk result
        (IsVerdict (asked circuit.now board.job outcomes.now.given) text.now) }
    ensures exact { (v : Version) (h : List Noted)
        → IsTextOf (asked circuit.now board.job outcomes.now.given) text.now v h
        → IfOk result (λ r. r ≡ Verdict.Legal (with_history board h)) }
    ensures first { (line : ℕ)
        → FirstBadLine (asked circuit.now board.job outcomes.now.given) text.now line
        → IfOk result (λ r. r ≡ Verdict.Illegal line) }
{
    law_one_first_bad();
    law_legal_or_bad();
    law_text_tells_all();
    let verdict = replay(alloc, board, circuit, outcomes, text)?;
    Ok(verdict)
}

// What `verify` answers. That no other answer fits is proved apart.
fn replay(
    alloc: Global,
    board: Board,
    circuit: &Circuit,
    outcomes: &Outcomes,
    text: &[u8],
) -> Result<Verdict, Memory>
    requires circuit { WellFormed circuit.now }
    requires new { board.history ≡ [] }
    requires products { board.job.products ≡ statics circuit.now.items }
    requires table { RightKinds circuit.now.items outcomes.now.given }
    ensures { IfOk result (IsVerdict (asked circuit.now board.job outcomes.now.given) text.now) }
{
    let mut board = board;
    match first_bad(alloc, &mut board, circuit, outcomes, text)? {
        Some(line) => Ok(Verdict::Illegal { line }),
        None => Ok(Verdict::Legal(board)),
    }
}

// The first bad line of a text. Where it has none, the board has its history; else the board is of no further use.
fn first_bad(
    alloc: Global,
    board: &mut Board,
    circuit: &Circuit,
    outcomes: &Outcomes,
    text: &[u8],
) -> Result<Option<u32>, Memory>
    requires circuit { WellFormed circuit.now }
    requires new { board.old.history ≡ [] }
    requires products { board.old.job.products ≡ statics circuit.now.items }
    requires table { RightKinds circuit.now.items outcomes.now.given }
    ensures bad { let q = asked circuit.now board.old.job outcomes.now.given in
        IfOk result (λ f. IfSome f (FirstBadLine q text.now)) }
    ensures legal { let q = asked circuit.now board.old.job outcomes.now.given in
        IfOk result (λ f. IfNone f (IsVerdict q text.now (Legal board.new))) }
{
    let Some(header) = read_header(text) else {
        return Ok(Some(1));
    };
    let table = outcomes.given.as_slice();
    match enter_all(alloc, board, table, header.version, text, header.next)? {
        Entered::Bad { line } => Ok(Some(line)),
        Entered::UpTo { at } => close(alloc, board, circuit, text, at),
    }
}

/// No text has two first bad lines.
pub fn law_one_first_bad()
    ensures { OneFirstBad }
{}

/// No text of a legal complete history has a bad line.
pub fn law_legal_or_bad()
    ensures { LegalOrBad }
{}

/// A schedule is legal: read against its own circuit, layout and outcomes it is the text of its history.
pub fn law_schedules_are_legal()
    ensures { SchedulesAreLegal }
{}
