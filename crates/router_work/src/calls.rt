//! Calls on a grid, each made again while the turn is held.

ghost use Rattle.std.specs.Prelude.{◌≡◌};
ghost use denote.RawPtr.{Ptr};
ghost use Rattle.patch_layout.specs.declared.plan.Plan.{Plan as Plans};
ghost use Rattle.board_core.specs.Shows.{IsMadeFor};
ghost use Rattle.grid_lock.specs.Passes.{IsPassOf, IsSamePass, IsCalm};
ghost use Rattle.grid_lock.specs.Replies.{AnswersWaits, Claims, Delivers, Releases, Steps, Looks};
ghost use Rattle.grid_lock.specs.declared.replies.TryLook.TheVariants as looks;
ghost use Rattle.grid_lock.specs.declared.replies.TryWaits.TheVariants as waiting;
ghost use Rattle.grid_lock.specs.declared.replies.TryClaim.TheVariants as claims;
ghost use Rattle.grid_lock.specs.declared.replies.TryDeliver.TheVariants as delivers;
ghost use Rattle.grid_lock.specs.declared.replies.TryRelease.TheVariants as releases;
ghost use Rattle.grid_lock.specs.declared.replies.TryStep.TheVariants as steps;
ghost use Rattle.router_work.specs.Ends.{MetMore};
ghost use Rattle.router_work.specs.Waits.{AfterWaiting, OnlyRead};

use board_core::{Claimed, Noted};
use crossbeam_utils::Backoff;
use grid_lock::{Grid, Pass, TryClaim, TryDeliver, TryLook, TryRelease, TryStep, TryWaits};
use magic_pool::Stepped;
use node_log::Node;
use patch_layout::{Look, Plan};
use source_model::Given;

/// How many answers Busy in a row are enough.
pub(crate) const BUSY: u32 = 1_048_576;

/// How often a worker reads the history's length in vain, at first, before it gives up what it waits for: some milliseconds,
/// so that another worker that the system has put aside meanwhile comes back in time.
pub const PATIENCE: u32 = 16_384;

/// Waits until the history is longer than this, as long as the patience lasts: for so many reads of its length, which take no
/// turn. Each wait in vain halves the patience.
pub fn outwaits(grid: &Grid, pass: &mut Pass, length: u32, patience: &mut u32) -> bool
    requires grid { IsPassOf grid.now pass.old }
    ensures grid { IsPassOf grid.now pass.new }
    ensures same { IsSamePass pass.old pass.new }
    ensures read { OnlyRead pass.old.view pass.new.view }
    ensures rests { IsCalm pass.new }
{
    let _ = pass.number();
    let backoff = Backoff::new();
    for _read in 0..*patience {
        if grid.length(pass) > length {
            return true;
        }
        backoff.snooze();
    }
    *patience /= 2;
    false
}

/// Says what a product waits on as `Grid::try_waits` does, tried again while the turn is held. `Busy` says that the turn was
/// found held 1,048,576 times in a row.
pub fn waits(grid: &Grid, pass: &mut Pass, p: u32) -> TryWaits
    requires grid { IsPassOf grid.now pass.old }
    ensures grid { IsPassOf grid.now pass.new }
    ensures same { IsSamePass pass.old pass.new }
    ensures told { AfterWaiting pass.old.view (λ v. AnswersWaits v p result pass.new.view) }
    ensures busy { result ≡ waiting.Busy → MetMore 1048576 pass.old pass.new }
    ensures rests { IsCalm pass.new }
{
    let backoff = Backoff::new();
    for _turn in 0..BUSY {
        match grid.try_waits(pass, p) {
            TryWaits::Busy => backoff.snooze(),
            answer => return answer,
        }
    }
    TryWaits::Busy
}

/// Fills a look as `Grid::try_look` does, tried again while the turn is held.
///
/// # Errors
///
/// `NoProduct` as there; `Busy` where the turn was found held 1,048,576 times in a row.
pub fn look(grid: &Grid, pass: &mut Pass, p: u32, look: &mut Look) -> Result<(), TryLook>
    requires grid { IsPassOf grid.now pass.old }
    requires made { IsMadeFor grid.now.opened look.old }
    ensures grid { IsPassOf grid.now pass.new }
    ensures same { IsSamePass pass.old pass.new }
    ensures told { AfterWaiting pass.old.view
        (λ v. Looks v p look.old result pass.new.view look.new) }
    ensures busy { result ≡ Err looks.Busy → MetMore 1048576 pass.old pass.new }
    ensures rests { IsCalm pass.new }
    ensures made { IsMadeFor grid.now.opened look.new }
{
    let backoff = Backoff::new();
    for _turn in 0..BUSY {
        match grid.try_look(pass, p, look) {
            Ok(()) => return Ok(()),
            Err(TryLook::NoProduct) => return Err(TryLook::NoProduct),
            Err(TryLook::Busy) => backoff.snooze(),
        }
    }
    Err(TryLook::Busy)
}

/// Claims a product's region as `Grid::try_claim` does, tried again while the turn is held.
///
/// # Errors
///
/// `Refused` as there; `Busy` where the turn was found held 1,048,576 times in a row. Both give the plan and the node back.
pub fn claim(
    grid: &Grid,
    pass: &mut Pass,
    plan: Plan,
    node: Node<Noted>,
) -> Result<Claimed, TryClaim>
    requires grid { IsPassOf grid.now pass.old }
    ensures grid { IsPassOf grid.now pass.new }
    ensures same { IsSamePass pass.old pass.new }
    ensures told { AfterWaiting pass.old.view (λ v. Claims v plan node result pass.new.view) }
    ensures busy { (p : Plans) (n : Ptr) → result ≡ Err (claims.Busy p n)
        → MetMore 1048576 pass.old pass.new }
    ensures rests { IsCalm pass.new }
{
    let backoff = Backoff::new();
    let mut plan = plan;
    let mut node = node;
    for _turn in 0..BUSY {
        match grid.try_claim(pass, plan, node) {
            Ok(claimed) => return Ok(claimed),
            Err(TryClaim::Refused(refused)) => return Err(TryClaim::Refused(refused)),
            Err(
                TryClaim::Busy {
                    plan: same_plan,
                    node: same_node,
                },
            ) => {
                plan = same_plan;
                node = same_node;
                backoff.snooze();
            }
        }
    }
    Err(TryClaim::Busy { plan, node })
}

/// Delivers the outcome of a claimed product, or settles a settled one, as `Grid::try_deliver` does, tried again while
/// the turn is held.
///
/// # Errors
///
/// `Refused` as there; `Busy` where the turn was found held 1,048,576 times in a row. Both give the node back.
pub fn deliver(
    grid: &Grid,
    pass: &mut Pass,
    p: u32,
    given: Given,
    node: Node<Noted>,
) -> Result<u32, TryDeliver>
    requires grid { IsPassOf grid.now pass.old }
    ensures grid { IsPassOf grid.now pass.new }
    ensures same { IsSamePass pass.old pass.new }
    ensures told { AfterWaiting pass.old.view (λ v. Delivers v p given node result pass.new.view) }
    ensures busy { (n : Ptr) → result ≡ Err (delivers.Busy n) → MetMore 1048576 pass.old pass.new }
    ensures rests { IsCalm pass.new }
{
    let backoff = Backoff::new();
    let mut node = node;
    for _turn in 0..BUSY {
        match grid.try_deliver(pass, p, given, node) {
            Ok(place) => return Ok(place),
            Err(TryDeliver::Refused(refused)) => return Err(TryDeliver::Refused(refused)),
            Err(TryDeliver::Busy { node: same_node }) => {
                node = same_node;
                backoff.snooze();
            }
        }
    }
    Err(TryDeliver::Busy { node })
}

/// Releases a delivered product as `Grid::try_release` does, tried again while the turn is held.
///
/// # Errors
///
/// `Refused` as there; `Busy` where the turn was found held 1,048,576 times in a row. Both give the node back.
pub fn release(grid: &Grid, pass: &mut Pass, p: u32, node: Node<Noted>) -> Result<u32, TryRelease>
    requires grid { IsPassOf grid.now pass.old }
    ensures grid { IsPassOf grid.now pass.new }
    ensures same { IsSamePass pass.old pass.new }
    ensures told { AfterWaiting pass.old.view (λ v. Releases v p node result pass.new.view) }
    ensures busy { (n : Ptr) → result ≡ Err (releases.Busy n) → MetMore 1048576 pass.old pass.new }
    ensures rests { IsCalm pass.new }
{
    let backoff = Backoff::new();
    let mut node = node;
    for _turn in 0..BUSY {
        match grid.try_release(pass, p, node) {
            Ok(place) => return Ok(place),
            Err(TryRelease::Refused(refused)) => return Err(TryRelease::Refused(refused)),
            Err(TryRelease::Busy { node: same_node }) => {
                node = same_node;
                backoff.snooze();
            }
        }
    }
    Err(TryRelease::Busy { node })
}

/// Makes a step of a factory.
pub(crate) fn step(
    grid: &Grid,
    pass: &mut Pass,
    factory: u32,
    node: Node<Noted>,
) -> Result<(u32, Stepped), TryStep>
    requires grid { IsPassOf grid.now pass.old }
    ensures grid { IsPassOf grid.now pass.new }
    ensures same { IsSamePass pass.old pass.new }
    ensures told { AfterWaiting pass.old.view (λ v. Steps v factory node result pass.new.view) }
    ensures busy { (n : Ptr) → result ≡ Err (steps.Busy n) → MetMore 1048576 pass.old pass.new }
    ensures rests { IsCalm pass.new }
{
    let backoff = Backoff::new();
    let mut node = node;
    for _turn in 0..BUSY {
        match grid.try_step(pass, factory, node) {
            Ok(stepped) => return Ok(stepped),
            Err(TryStep::Refused(refused)) => return Err(TryStep::Refused(refused)),
            Err(TryStep::Busy { node: same_node }) => {
                node = same_node;
                backoff.snooze();
            }
        }
    }
    Err(TryStep::Busy { node })
}
