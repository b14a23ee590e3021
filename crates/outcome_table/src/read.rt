//! Reading outcome texts.

ghost use Rattle.std.specs.Prelude.{◌≡◌, ◌≢◌, ◌⊎◌, ℕ, ◌<◌, ◌≤◌, ◌^◌, List, [], ◌∷◌, codes, length, drop, IfOk, IfErr, IfSome, IfNone, MatchResult};
ghost use Rattle.patch_base.specs.Texts.{lines};
ghost use Rattle.magic_pool.specs.declared.Fail.{Fail as Fail_of};
ghost use Rattle.source_model.specs.declared.Given.{Given as Given_of};
ghost use Rattle.outcome_table.specs.declared.fault.OutcomeFault.{OutcomeFault as OutcomeFault_of};
ghost use Rattle.outcome_table.specs.declared.fault.OutcomeFault.TheVariants as fault;
ghost use Rattle.outcome_table.specs.OutcomeText.{StandsFor, Refuses};
ghost use Rattle.outcome_table.specs.inside.Drafts.{IsBodyOf, BreaksBody};

use crate::draft::{Draft, filled};
use crate::{FailList, GivenList, OutcomeFault, Outcomes};
use patch_base::{TEXT_BYTES, next_line};
use source_model::Kind;
use std::alloc::Global;

const BYTES: usize = TEXT_BYTES as usize;

/// The outcomes and failing runs that a text stands for, for products of these kinds and these factories.
///
/// The first line is `outcomes 1`. Further lines, in any order, are `r PRODUCT RAW X` for a rotation,
/// `m PRODUCT RAW` for a measurement, where a `1` stands for the outcome -1, and `f FACTORY RUN` for a
/// run that fails. An empty line and one that begins with `#` are passed over, but counted. Each
/// product that isn't settled has one line.
///
/// # Errors
///
/// The first line that breaks a rule gives the fault, with the first rule that it breaks. Where no
/// line does, `Missing` names the least product without a line. `Memory` where memory runs out,
/// which is also answered for 2^32 products or more, whose numbers no line can have.
pub fn read_outcomes(
    alloc: Global,
    text: &[u8],
    kinds: &[Kind],
    factories: &[u32],
) -> Result<Outcomes, OutcomeFault>
    ensures accepted { IfOk result (λ o.
        StandsFor (record { kinds = kinds.now; factories = factories.now }) text.now o.given
        o.fails) }
    ensures exact { (given : List Given_of) (fails : List Fail_of)
        → StandsFor (record { kinds = kinds.now; factories = factories.now }) text.now given fails
        → MatchResult result (λ o. (o.given ≡ given) × (o.fails ≡ fails)) (λ f. f ≡ fault.Memory) }
    ensures refused { IfErr result (λ f. (f ≡ fault.Memory)
        ⊎ Refuses (record { kinds = kinds.now; factories = factories.now }) text.now f) }
    ensures faults { (f : OutcomeFault_of)
        → Refuses (record { kinds = kinds.now; factories = factories.now }) text.now f
        → MatchResult result (λ o. ⊥) (λ e. (e ≡ fault.Memory) ⊎ (e ≡ f)) }
{
    read(alloc, text, kinds, factories)
}

// What `read_outcomes` answers. That no other answer fits is proved apart.
fn read(
    alloc: Global,
    text: &[u8],
    kinds: &[Kind],
    factories: &[u32],
) -> Result<Outcomes, OutcomeFault>
    ensures accepted { IfOk result (λ o.
        StandsFor (record { kinds = kinds.now; factories = factories.now }) text.now o.given
        o.fails) }
    ensures refused { IfErr result (λ f. (f ≡ fault.Memory)
        ⊎ Refuses (record { kinds = kinds.now; factories = factories.now }) text.now f) }
{
    if text.len() > BYTES {
        return Err(OutcomeFault::TooLong);
    }
    if kinds.len() > u32::MAX as usize {
        return Err(OutcomeFault::Memory);
    }
    let Some(start) = after_header(text) else {
        return Err(OutcomeFault::Form { line: 1 });
    };
    let draft = read_lines(alloc, text, start, kinds, factories)?;
    Ok(Outcomes {
        given: GivenList::of(filled(alloc, &draft.table)?),
        fails: FailList::of(draft.fails),
    })
}

// Where the line after the first line begins. None where the first line isn't `outcomes 1`.
fn after_header(text: &[u8]) -> Option<usize>
    ensures some { IfSome result (λ at. (0 < at)
        × (lines text.now ≡ codes "outcomes 1" ∷ lines (drop at text.now))) }
    ensures none { IfNone result ((texts : List (List ℕ))
        → lines text.now ≢ codes "outcomes 1" ∷ texts) }
{
    let line = next_line(text, 0)?;
    if &text[line.start..line.end] == b"outcomes 1".as_slice() {
        Some(line.next)
    } else {
        None
    }
}

// What the lines from a place on say.
fn read_lines(
    alloc: Global,
    text: &[u8],
    start: usize,
    kinds: &[Kind],
    factories: &[u32],
) -> Result<Draft, OutcomeFault>
    requires few { length text.now ≤ 4194304 }
    requires some { 0 < start }
    ensures read { IfOk result (λ draft.
        IsBodyOf (record { kinds = kinds.now; factories = factories.now })
        (lines (drop start text.now)) draft) }
    ensures broken { IfErr result (λ f. (f ≡ fault.Memory)
        ⊎ BreaksBody (record { kinds = kinds.now; factories = factories.now })
        (lines (drop start text.now)) f) }
{
    let mut draft = Draft::new(alloc, kinds)?;
    let mut at = start;
    let mut number = 2;
    while let Some(line) = next_line(text, at) {
        draft.take(kinds, factories, number, &text[line.start..line.end])?;
        at = line.next;
        number += 1;
    }
    Ok(draft)
}
