//! The steps of a call, on the table itself.

ghost use Rattle.std.specs.Prelude.{◌≡◌, ◌≤◌, true, false, [], length, IfOk, IfErr};
ghost use Rattle.board_core.specs.declared.Entry.TheVariants.{Release};
ghost use Rattle.board_core.specs.declared.Entry.TheVariants as entry;
ghost use Rattle.board_core.specs.Causes.{claim_of};
ghost use Rattle.board_core.specs.Shows.{IsMadeFor};
ghost use Rattle.grid_lock.specs.Views.{met, reading, IsSound};
ghost use Rattle.grid_lock.specs.inside.Views.{freeing};
ghost use Rattle.grid_lock.specs.inside.Hands.{IsIdle, HasBoard, HasTaken, HasAdded, GainsEntry, GainsOutcome, board_of, with_own};
ghost use Rattle.grid_lock.specs.Answers.{AcceptsClaim, RefusesClaim, RefusesOutcome, AcceptsRelease, RefusesRelease, AcceptsStep, RefusesStep, ShowsProduct, ShowsNothing, WaitsFor, HasNoProduct};

use crate::plays::{Add, Count, Free, Look, OneHistory, Take};
use crate::view::View;
use atomic_table::{Seat, Shared};
use board_core::{
    Board, BoardStepRefused, ClaimRefused, Claimed, DeliverRefused, NoProduct, Noted,
    ReleaseRefused,
};
use magic_pool::Stepped;
use node_log::Node;
use patch_layout::{Look as BoardLook, Plan};
use source_model::Given;
use std::snapshot::Snapshot;

pub(crate) type Core = Shared<Board, View, Snapshot<Board>, OneHistory>;

pub(crate) type PassSeat = Seat<Board, View>;

const TURN: usize = 0;

const LENGTH: usize = 1;

const FREE: u64 = 0;

const HELD: u64 = 1;

/// The length of the history, which is no less than what was seen and read.
pub(crate) fn measure(core: &Core, seat: &mut PassSeat) -> u32
    requires core { (core.now.table_id.words ≡ 2) × (seat.old.table_id ≡ core.now.table_id) }
    requires idle { IsIdle seat.old.me }
    ensures seat { (seat.new.table_id ≡ seat.old.table_id) × (seat.new.id ≡ seat.old.id) }
    ensures read { seat.old.me.0.read ≤ result }
    ensures seen { length seat.old.me.0.seen ≤ result }
    ensures told { seat.new.me ≡ (reading seat.old.me.0 result, seat.old.me.1) }
{
    core.load::<Look>(seat, LENGTH) as u32
}

/// Takes the turn and the board, if no other pass has them.
pub(crate) fn take_turn(core: &Core, seat: &mut PassSeat) -> bool
    requires core { (core.now.table_id.words ≡ 2) × (seat.old.table_id ≡ core.now.table_id) }
    requires idle { IsIdle seat.old.me }
    ensures seat { (seat.new.table_id ≡ seat.old.table_id) × (seat.new.id ≡ seat.old.id) }
    ensures won { result ≡ true → HasTaken seat.old.me seat.new.me }
    ensures busy { result ≡ false → seat.new.me ≡ (met seat.old.me.0, []) }
{
    if core.compare_exchange::<Take>(seat, TURN, FREE, HELD) != FREE {
        return false;
    }
    core.load::<Count>(seat, LENGTH);
    true
}

/// The board in hand has one entry more: the history has it too.
fn add(core: &Core, seat: &mut PassSeat)
    requires core { (core.now.table_id.words ≡ 2) × (seat.old.table_id ≡ core.now.table_id) }
    requires hand { HasAdded seat.old.me }
    ensures seat { (seat.new.table_id ≡ seat.old.table_id) × (seat.new.id ≡ seat.old.id) }
    ensures added { seat.new.me ≡ (with_own seat.old.me, seat.old.me.1) }
{
    core.fetch_add::<Add>(seat, LENGTH, 1);
}

/// Gives the turn and the board back.
pub(crate) fn give_back(core: &Core, seat: &mut PassSeat)
    requires core { (core.now.table_id.words ≡ 2) × (seat.old.table_id ≡ core.now.table_id) }
    requires hand { HasBoard seat.old.me seat.old.me.0.seen }
    ensures seat { (seat.new.table_id ≡ seat.old.table_id) × (seat.new.id ≡ seat.old.id) }
    ensures freed { seat.new.me ≡ (freeing seat.old.me.0, []) }
{
    core.store::<Free>(seat, TURN, FREE);
}

/// Adds the entry of the board in hand to the history, and gives the turn and the board back.
pub(crate) fn settle(core: &Core, seat: &mut PassSeat)
    requires core { (core.now.table_id.words ≡ 2) × (seat.old.table_id ≡ core.now.table_id) }
    requires hand { HasAdded seat.old.me }
    ensures seat { (seat.new.table_id ≡ seat.old.table_id) × (seat.new.id ≡ seat.old.id) }
    ensures settled { seat.new.me ≡ (freeing (with_own seat.old.me), []) }
    ensures sound { IsSound seat.old.me.0 → IsSound seat.new.me.0 }
{
    add(core, seat);
    give_back(core, seat);
}

/// A claim on the board in hand.
pub(crate) fn claim_in_hand(
    core: &Core,
    seat: &mut PassSeat,
    by: u32,
    plan: Plan,
    node: Node<Noted>,
) -> Result<Claimed, ClaimRefused>
    requires core { seat.old.table_id ≡ core.now.table_id }
    requires hand { HasBoard seat.old.me seat.old.me.0.seen }
    ensures seat { (seat.new.table_id ≡ seat.old.table_id) × (seat.new.id ≡ seat.old.id) }
    ensures gains { IfOk result (λ c. GainsEntry seat.old.me seat.new.me by
        (claim_of plan c.state)) }
    ensures accepted { IfOk result (AcceptsClaim (board_of seat.old.me) plan) }
    ensures same { IfErr result (λ r. seat.new.me ≡ seat.old.me) }
    ensures refused { IfErr result (λ r. RefusesClaim (board_of seat.old.me) plan r.why) }
    ensures back { IfErr result (λ r. (r.plan ≡ plan) × (r.node ≡ node)) }
{
    let board = seat.slot_mut(core, 0);
    board.claim(by, plan, node)
}

/// A delivery or a settling on the board in hand.
pub(crate) fn deliver_in_hand(
    core: &Core,
    seat: &mut PassSeat,
    by: u32,
    p: u32,
    given: Given,
    node: Node<Noted>,
) -> Result<u32, DeliverRefused>
    requires core { seat.old.table_id ≡ core.now.table_id }
    requires hand { HasBoard seat.old.me seat.old.me.0.seen }
    ensures seat { (seat.new.table_id ≡ seat.old.table_id) × (seat.new.id ≡ seat.old.id) }
    ensures accepted { IfOk result (GainsOutcome seat.old.me seat.new.me by p given) }
    ensures same { IfErr result (λ r. seat.new.me ≡ seat.old.me) }
    ensures refused { IfErr result (λ r. RefusesOutcome (board_of seat.old.me) p given r.why) }
    ensures back { IfErr result (λ r. r.node ≡ node) }
{
    let board = seat.slot_mut(core, 0);
    board.deliver(by, p, given, node)
}

/// A release on the board in hand.
pub(crate) fn release_in_hand(
    core: &Core,
    seat: &mut PassSeat,
    by: u32,
    p: u32,
    node: Node<Noted>,
) -> Result<u32, ReleaseRefused>
    requires core { seat.old.table_id ≡ core.now.table_id }
    requires hand { HasBoard seat.old.me seat.old.me.0.seen }
    ensures seat { (seat.new.table_id ≡ seat.old.table_id) × (seat.new.id ≡ seat.old.id) }
    ensures gains { IfOk result (λ place. GainsEntry seat.old.me seat.new.me by (Release p)) }
    ensures accepted { IfOk result (AcceptsRelease (board_of seat.old.me) p) }
    ensures same { IfErr result (λ r. seat.new.me ≡ seat.old.me) }
    ensures refused { IfErr result (λ r. RefusesRelease (board_of seat.old.me) p r.why) }
    ensures back { IfErr result (λ r. r.node ≡ node) }
{
    let board = seat.slot_mut(core, 0);
    board.release(by, p, node)
}

/// A factory's step on the board in hand.
pub(crate) fn step_in_hand(
    core: &Core,
    seat: &mut PassSeat,
    by: u32,
    f: u32,
    node: Node<Noted>,
) -> Result<(u32, Stepped), BoardStepRefused>
    requires core { seat.old.table_id ≡ core.now.table_id }
    requires hand { HasBoard seat.old.me seat.old.me.0.seen }
    ensures seat { (seat.new.table_id ≡ seat.old.table_id) × (seat.new.id ≡ seat.old.id) }
    ensures gains { IfOk result (λ r. GainsEntry seat.old.me seat.new.me by (entry.Step f)) }
    ensures accepted { IfOk result (AcceptsStep (board_of seat.old.me) f) }
    ensures same { IfErr result (λ r. seat.new.me ≡ seat.old.me) }
    ensures refused { IfErr result (λ r. RefusesStep (board_of seat.old.me) f r.why) }
    ensures back { IfErr result (λ r. r.node ≡ node) }
{
    let board = seat.slot_mut(core, 0);
    board.step(by, f, node)
}

/// What a product waits on, by the board in hand.
pub(crate) fn waits_in_hand(
    core: &Core,
    seat: &mut PassSeat,
    p: u32,
) -> Result<Option<u32>, NoProduct>
    requires core { seat.old.table_id ≡ core.now.table_id }
    requires hand { HasBoard seat.old.me seat.old.me.0.seen }
    ensures seat { (seat.new.table_id ≡ seat.old.table_id) × (seat.new.id ≡ seat.old.id) }
    ensures same { seat.new.me ≡ seat.old.me }
    ensures waits { IfOk result (WaitsFor (board_of seat.old.me) p) }
    ensures nothing { IfErr result (λ _. HasNoProduct (board_of seat.old.me) p) }
{
    let board = seat.slot_mut(core, 0);
    board.waits_on(p)
}

/// A look at the board in hand.
pub(crate) fn look_in_hand(
    core: &Core,
    seat: &mut PassSeat,
    p: u32,
    look: &mut BoardLook,
) -> Result<(), NoProduct>
    requires core { seat.old.table_id ≡ core.now.table_id }
    requires hand { HasBoard seat.old.me seat.old.me.0.seen }
    requires made { IsMadeFor seat.old.me.0.opened look.old }
    ensures seat { (seat.new.table_id ≡ seat.old.table_id) × (seat.new.id ≡ seat.old.id) }
    ensures same { seat.new.me ≡ seat.old.me }
    ensures shown { IfOk result (λ _. ShowsProduct (board_of seat.old.me) p look.new) }
    ensures nothing { IfErr result (λ _. ShowsNothing (board_of seat.old.me) p look.old look.new) }
    ensures held { length look.new.held ≡ length look.old.held }
    ensures long { length look.new.axis.letters ≡ length look.old.axis.letters }
{
    let board = seat.slot_mut(core, 0);
    board.look(p, look)
}
