//! The arguments of calls, and what they mean.

ghost use Rattle.std.specs.Prelude.{◌≡◌, ◌-◌, ◌==◌, ◌&&◌, [], Some, None, IfOk, nat_eq, nat_lt, nat_le};
ghost use Rattle.std.specs.List.{list_any, list_all};
ghost use Rattle.qasm_parse.specs.inside.Small.{IsSmallSpan};
ghost use Rattle.qasm_parse.specs.Faults.{name_place, past_end, meant, times, has_size, meets, any_pair};
ghost use Rattle.qasm_parse.specs.inside.Tried.{Resolves, TriesCall, sooner, Adds};

use crate::known::{Called, Known, Span};
use crate::source::Source;
use crate::stop::{Fault, Stop};
use crate::tree::Arg;
use patch_base::{Listed, Memory};
use qasm_grammar::Argument;
use qasm_lex::FaultKind;
use std::alloc::Global;

/// The place of an argument's name.
pub fn name_place(arg: Argument) -> usize
    ensures { result ≡ name_place arg }
{
    match arg {
        Argument::Whole { name } => name,
        Argument::Single { name, .. } => name,
    }
}

/// An index that isn't below the size of its register.
pub fn past_end(source: &Source<'_>, span: Span, arg: Argument) -> Option<Stop>
    ensures { result ≡ past_end source.now (Some span) arg }
{
    match arg {
        Argument::Whole { .. } => None,
        Argument::Single { index, .. } => {
            if source.number(index) < span.size {
                None
            } else {
                Some(Stop {
                    at: index,
                    kind: FaultKind::Index,
                })
            }
        }
    }
}

/// What an argument means by its register.
pub fn meant(source: &Source<'_>, span: Span, arg: Argument) -> Arg
    requires small { IsSmallSpan span }
    requires inside { past_end source.now (Some span) arg ≡ None }
    ensures { result ≡ meant source.now (Some span) arg }
{
    match arg {
        Argument::Whole { .. } => Arg::Whole {
            first: span.first,
            size: span.size,
        },
        Argument::Single { index, .. } => Arg::Single {
            index: span.first + source.number(index),
        },
    }
}

// No arguments yet, and room for so many: a text has many calls, and each has few.
fn room_for(alloc: Global, count: usize) -> Result<Listed<Arg>, Memory>
    ensures { IfOk result (λ means. means ≡ []) }
{
    let means = Vec::with_capacity(alloc, count)?;
    Ok(Listed::of(means))
}

/// What arguments mean that name quantum registers. A name that doesn't comes before an index that is past its end.
pub fn resolve(
    alloc: Global,
    source: &Source<'_>,
    known: &Known,
    args: &[Argument],
) -> Result<Listed<Arg>, Fault>
    ensures { Resolves result source.now known.now args.now }
{
    let mut means = room_for(alloc, args.len())?;
    let mut past = None;
    for arg in args {
        let name = name_place(*arg);
        match known.quantum(source.word(name)) {
            None => {
                return Err(Fault::Stopping(Stop {
                    at: name,
                    kind: FaultKind::Undeclared,
                }));
            }
            Some(span) => past = add_meant(source, &mut means, past, span, *arg)?,
        }
    }
    match past {
        Some(stop) => Err(Fault::Stopping(stop)),
        None => Ok(means),
    }
}

// Adds what an argument means, unless an index is past its end, and gives the first such index.
#[tactic(auto, unfolding(crate::specs::Faults::first_fault))]
fn add_meant(
    source: &Source<'_>,
    means: &mut Listed<Arg>,
    past: Option<Stop>,
    span: Span,
    arg: Argument,
) -> Result<Option<Stop>, Memory>
    requires { IsSmallSpan span }
    ensures first { IfOk result (λ now. now ≡ sooner past (past_end source.now (Some span) arg)) }
    ensures added { IfOk result (λ now. now ≡ None
        → Adds means.old means.new (meant source.now (Some span) arg)) }
{
    if past.is_some() {
        return Ok(past);
    }
    let now = past_end(source, span, arg);
    if now.is_none() {
        means.push(meant(source, span, arg))?;
    }
    Ok(now)
}

// How often a call is applied: for each index of its whole registers, and once where it has none.
fn times(args: &[Arg]) -> u32
    ensures { result ≡ times args.now }
{
    for arg in args {
        if let Arg::Whole { size, .. } = arg {
            return *size;
        }
    }
    1
}

// Whether an argument is no whole register of another size.
fn has_size(arg: &Arg, times: u32) -> bool
    ensures { result ≡ has_size times arg.now }
{
    match arg {
        Arg::Whole { size, .. } => *size == times,
        Arg::Single { .. } => true,
    }
}

// Whether the whole registers among arguments have this size.
fn are_equal(times: u32, args: &[Arg]) -> bool
    ensures { result ≡ list_all (has_size times) args.now }
{
    args.iter().all(|arg| has_size(arg, times))
}

// Whether two numbers are one, at some index.
fn is_same(times: u32, one: u32, other: u32) -> bool
    ensures { result ≡ (nat_lt 0 times && one == other) }
{
    0 < times && one == other
}

// Whether a number is that of a register's member at some index.
fn is_member(times: u32, first: u32, index: u32) -> bool
    ensures { result ≡ (nat_le first index && nat_lt (index - first) times) }
{
    first <= index && index - first < times
}

// Whether two arguments mean one qubit where the call is applied to some index.
fn meets(times: u32, one: &Arg, other: &Arg) -> bool
    ensures { result ≡ meets times one.now other.now }
{
    match (*one, *other) {
        (Arg::Whole { first, .. }, Arg::Whole { first: second, .. }) => {
            is_same(times, first, second)
        }
        (Arg::Whole { first, .. }, Arg::Single { index }) => is_member(times, first, index),
        (Arg::Single { index }, Arg::Whole { first, .. }) => is_member(times, first, index),
        (Arg::Single { index }, Arg::Single { index: second }) => is_same(times, index, second),
    }
}

fn meets_any(times: u32, one: &Arg, others: &[Arg]) -> bool
    ensures { result ≡ list_any (meets times one.now) others.now }
{
    others.iter().any(|other| meets(times, one, other))
}

// Whether two of the arguments mean one qubit where the call is applied to some index.
fn meets_itself(times: u32, args: &[Arg]) -> bool
    ensures { result ≡ any_pair (meets times) args.now }
{
    for (i, one) in args.iter().enumerate() {
        if meets_any(times, one, &args[i + 1..]) {
            return true;
        }
    }
    false
}

fn is_among(one: u32, others: &[u32]) -> bool
    ensures { result ≡ list_any (nat_eq one) others.now }
{
    others.iter().any(|other| one == *other)
}

/// Whether a number stands twice.
pub fn has_twice(numbers: &[u32]) -> bool
    ensures { result ≡ any_pair nat_eq numbers.now }
{
    for (i, one) in numbers.iter().enumerate() {
        if is_among(*one, &numbers[i + 1..]) {
            return true;
        }
    }
    false
}

/// Tries a call of a known gate, in a statement that begins at a place.
pub fn try_args(
    alloc: Global,
    source: &Source<'_>,
    known: &Known,
    at: usize,
    called: Called,
    args: &[Argument],
) -> Result<Listed<Arg>, Fault>
    ensures { TriesCall result source.now known.now at called args.now }
{
    let means = resolve(alloc, source, known, args)?;
    if args.len() != called.arity as usize {
        return Err(Fault::Stopping(Stop {
            at,
            kind: FaultKind::Arity,
        }));
    }
    let meant = means.as_slice();
    let applied = times(meant);
    if !are_equal(applied, meant) {
        return Err(Fault::Stopping(Stop {
            at,
            kind: FaultKind::Sizes,
        }));
    }
    if meets_itself(applied, meant) {
        return Err(Fault::Stopping(Stop {
            at,
            kind: FaultKind::SameQubit,
        }));
    }
    Ok(means)
}
