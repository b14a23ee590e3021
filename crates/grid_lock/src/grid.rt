//! A board that passes take in turns.

ghost use Rattle.std.specs.Prelude.{◌≡◌, ◌≢◌, ℕ, ◌+◌, ◌<◌, ◌≤◌, ◌↔◌, [], false, length, IsOk, IfOk, IfErr};
ghost use Rattle.std.specs.List.{All};
ghost use Rattle.board_core.specs.declared.Noted.{Noted as Entries};
ghost use Rattle.board_core.specs.Shows.{IsMadeFor};
ghost use Rattle.grid_lock.specs.Views.{opener, dealing, newcomer};
ghost use Rattle.grid_lock.specs.Passes.{Known, known, IsPassOf, IsSamePass, IsCalm, Closes};
ghost use Rattle.grid_lock.specs.inside.Passes.{gathered};
ghost use Rattle.grid_lock.specs.Replies.{Claims, Delivers, Releases, Steps, Looks, Measures, AnswersWaits};

use crate::plays::{Deal, Gather, OneHistory};
use crate::replies::{TryClaim, TryDeliver, TryLook, TryRelease, TryStep, TryWaits};
use crate::steps::{
    Core, PassSeat, claim_in_hand, deliver_in_hand, give_back, look_in_hand, measure,
    release_in_hand, settle, step_in_hand, take_turn, waits_in_hand,
};
use crate::view::View;
use atomic_table::{Refused, Table};
use board_core::{Board, Claimed, NoProduct, Noted};
use magic_pool::Stepped;
use node_log::Node;
use patch_base::Memory;
use patch_layout::{Look, Plan};
use source_model::Given;
use std::alloc::Global;
use std::marker::Model;
use std::snapshot::Snapshot;

/// A board under a turn. Contracts see which grid it is, and the board that it was opened with.
#[derive(Drop)]
pub struct Grid {
    table: Table<Board, View, Snapshot<Board>, OneHistory, Global>,
}

impl Model for Grid {
    ghost use Rattle.grid_lock.specs.Passes.{NamedGrid};
    ghost use Rattle.grid_lock.specs.inside.Passes.{IsGridTable, named};

    ghost Value = { NamedGrid };

    ghost view = { λ g. named g.table.shared.table_id g.table.shared.key.value };

    ghost invariant = { λ g. IsGridTable g.table.shared.table_id };
}

/// One caller of a grid. Contracts see its grid and what it knows.
#[derive(Drop)]
pub struct Pass {
    seat: PassSeat,
    number: u32,
    made: u32,
}

impl Model for Pass {
    ghost use Rattle.grid_lock.specs.Passes.{Known};
    ghost use Rattle.grid_lock.specs.inside.Passes.{PassRests};

    ghost Value = { Known };

    ghost view = { λ p. record { grid = p.seat.table_id; view = p.seat.me.0 } };

    ghost invariant = { λ p. PassRests p.seat.me p.number p.made };
}

/// There was no memory. The board comes back.
#[derive(Drop)]
pub struct OpenMemory {
    pub board: Board,
}

/// The number of passes is not the number that was split off.
#[derive(Drop)]
pub struct CloseRefused {
    pub split: u32,
    pub grid: Grid,
    pub first: Pass,
    pub others: Vec<Pass>,
}

impl Pass {
    /// 0 for the pass that `open` gives; the others count from 1 in the order of the splits.
    pub fn number(&self) -> u32
        ensures number { result ≡ self.now.view.number }
        ensures rests { IsCalm self.now }
    {
        self.number
    }
}

// The other passes end, and pass 0 keeps what they knew.
fn gather(core: &Core, seat: &mut PassSeat, others: Vec<Pass>)
    requires core { (core.now.table_id.words ≡ 2) × (seat.old.table_id ≡ core.now.table_id) }
    requires first { (seat.old.me.0.number ≡ 0) × (seat.old.me.0.ended ≡ false) }
    requires others { All (λ (p : Known). p.grid ≡ core.now.table_id) others.items }
    ensures seat { (seat.new.table_id ≡ seat.old.table_id) × (seat.new.id ≡ seat.old.id) }
    ensures gathered { seat.new.me ≡ (gathered seat.old.me.0 others.items, seat.old.me.1) }
{
    for pass in others {
        let Pass {
            seat: other,
            number: _,
            made: _,
        } = pass;
        core.join_seat::<Gather>(seat, other);
    }
}

impl Grid {
    /// Puts a board under a turn. All of its history counts as pass 0's.
    pub fn open(alloc: Global, board: Board) -> Result<(Grid, Pass), OpenMemory>
        requires numbers { All (λ (e : Entries). e.by ≡ 0) board.history }
        ensures opened { IfOk result (λ r. r.0.opened ≡ board) }
        ensures first { IfOk result (λ r. r.1 ≡ known r.0.id (opener board)) }
        ensures memory { IfErr result (λ m. m.board ≡ board) }
    {
        let about = Snapshot::of(&board);
        let length = board.history().length();
        let Ok(mut slots) = Vec::with_capacity(alloc, 1) else {
            return Err(OpenMemory { board });
        };
        slots.push_reserved(board);
        match Table::new(alloc, &[0, length as u64], slots, &about) {
            Ok((table, seat)) => Ok((
                Grid { table },
                Pass {
                    seat,
                    number: 0,
                    made: 0,
                },
            )),
            Err(Refused { mut slots }) => match slots.pop() {
                Some(board) => Err(OpenMemory { board }),
                None => unreachable!(),
            },
        }
    }

    /// A new pass, with the next number. It has seen what pass 0 has seen. There is always memory.
    pub fn split(&self, first: &mut Pass) -> Result<Pass, Memory>
        requires grid { IsPassOf self.now first.old }
        requires first { first.old.view.number ≡ 0 }
        requires few { first.old.view.made < 63 }
        ensures ok { IsOk result }
        ensures first { first.new ≡ known first.old.grid (dealing first.old.view) }
        ensures new { IfOk result (λ p. p ≡ known first.old.grid (newcomer first.old.view)) }
    {
        let seat = self.table.shared.split_seat::<Deal>(&mut first.seat);
        first.made += 1;
        Ok(Pass {
            seat,
            number: first.made,
            made: 0,
        })
    }

    /// The board, once all passes are handed in. The history begins with what each pass has seen, and each pass's
    /// entries stand in it, once and under its number.
    pub fn close(self, first: Pass, others: Vec<Pass>) -> Result<Board, CloseRefused>
        requires grid { IsPassOf self first }
        requires first { first.view.number ≡ 0 }
        requires others { All (IsPassOf self) others.items }
        ensures ok { IsOk result ↔ (length others.items ≡ first.view.made) }
        ensures closed { IfOk result (λ board. Closes self first others.items board) }
        ensures split { IfErr result (λ r. r.split ≡ first.view.made) }
        ensures grid { IfErr result (λ r. r.grid ≡ self) }
        ensures passes { IfErr result (λ r. (r.first ≡ first) × (r.others ≡ others)) }
    {
        if others.len() != first.made as usize {
            return Err(CloseRefused {
                split: first.made,
                grid: self,
                first,
                others,
            });
        }
        let Grid { table } = self;
        let Pass {
            mut seat,
            number: _,
            made: _,
        } = first;
        gather(&table.shared, &mut seat, others);
        let mut closed = table.close_with(seat);
        let board = closed.take(0);
        closed.free();
        Ok(board)
    }

    /// The history's length, which is no less than what this pass saw and read.
    pub fn length(&self, pass: &mut Pass) -> u32
        requires grid { IsPassOf self.now pass.old }
        ensures grid { IsPassOf self.now pass.new }
        ensures same { IsSamePass pass.old pass.new }
        ensures told { Measures pass.old.view result pass.new.view }
        ensures rests { IsCalm pass.new }
    {
        measure(&self.table.shared, &mut pass.seat)
    }

    /// What a product waits on. Nothing is copied, so that this is cheaper than a look.
    pub fn try_waits(&self, pass: &mut Pass, p: u32) -> TryWaits
        requires grid { IsPassOf self.now pass.old }
        ensures grid { IsPassOf self.now pass.new }
        ensures same { IsSamePass pass.old pass.new }
        ensures told { AnswersWaits pass.old.view p result pass.new.view }
        ensures rests { IsCalm pass.new }
    {
        let core = &self.table.shared;
        if !take_turn(core, &mut pass.seat) {
            return TryWaits::Busy;
        }
        let waits = waits_in_hand(core, &mut pass.seat, p);
        give_back(core, &mut pass.seat);
        let Ok(waits) = waits else {
            return TryWaits::NoProduct;
        };
        match waits {
            Some(on) => TryWaits::Waits { on },
            None => TryWaits::Ready,
        }
    }

    /// Fills a look with what the board shows of a product. The look was made for the layout of the opened board, and
    /// for the number of qubits of its products, and still is.
    pub fn try_look(&self, pass: &mut Pass, p: u32, look: &mut Look) -> Result<(), TryLook>
        requires grid { IsPassOf self.now pass.old }
        requires made { IsMadeFor self.now.opened look.old }
        ensures grid { IsPassOf self.now pass.new }
        ensures same { IsSamePass pass.old pass.new }
        ensures told { Looks pass.old.view p look.old result pass.new.view look.new }
        ensures rests { IsCalm pass.new }
        ensures held { length look.new.held ≡ length look.old.held }
        ensures long { length look.new.axis.letters ≡ length look.old.axis.letters }
        ensures made { IsMadeFor self.now.opened look.new }
    {
        let core = &self.table.shared;
        if !take_turn(core, &mut pass.seat) {
            return Err(TryLook::Busy);
        }
        let seen = look_in_hand(core, &mut pass.seat, p, look);
        give_back(core, &mut pass.seat);
        match seen {
            Ok(()) => Ok(()),
            Err(NoProduct) => Err(TryLook::NoProduct),
        }
    }

    /// Claims a product's region by a plan. A rotation takes the least ready state of its port.
    pub fn try_claim(
        &self,
        pass: &mut Pass,
        plan: Plan,
        node: Node<Noted>,
    ) -> Result<Claimed, TryClaim>
        requires grid { IsPassOf self.now pass.old }
        ensures grid { IsPassOf self.now pass.new }
        ensures same { IsSamePass pass.old pass.new }
        ensures told { Claims pass.old.view plan node result pass.new.view }
        ensures rests { IsCalm pass.new }
    {
        let core = &self.table.shared;
        if !take_turn(core, &mut pass.seat) {
            return Err(TryClaim::Busy { plan, node });
        }
        match claim_in_hand(core, &mut pass.seat, pass.number, plan, node) {
            Ok(claimed) => {
                settle(core, &mut pass.seat);
                Ok(claimed)
            }
            Err(refused) => {
                give_back(core, &mut pass.seat);
                Err(TryClaim::Refused(refused))
            }
        }
    }

    /// Delivers the outcome of a claimed product, or settles a settled one, and answers the entry's place.
    pub fn try_deliver(
        &self,
        pass: &mut Pass,
        p: u32,
        given: Given,
        node: Node<Noted>,
    ) -> Result<u32, TryDeliver>
        requires grid { IsPassOf self.now pass.old }
        ensures grid { IsPassOf self.now pass.new }
        ensures same { IsSamePass pass.old pass.new }
        ensures told { Delivers pass.old.view p given node result pass.new.view }
        ensures rests { IsCalm pass.new }
    {
        let core = &self.table.shared;
        if !take_turn(core, &mut pass.seat) {
            return Err(TryDeliver::Busy { node });
        }
        match deliver_in_hand(core, &mut pass.seat, pass.number, p, given, node) {
            Ok(place) => {
                settle(core, &mut pass.seat);
                Ok(place)
            }
            Err(refused) => {
                give_back(core, &mut pass.seat);
                Err(TryDeliver::Refused(refused))
            }
        }
    }

    /// Gives a delivered product's cells back, and answers the entry's place.
    pub fn try_release(&self, pass: &mut Pass, p: u32, node: Node<Noted>) -> Result<u32, TryRelease>
        requires grid { IsPassOf self.now pass.old }
        ensures grid { IsPassOf self.now pass.new }
        ensures same { IsSamePass pass.old pass.new }
        ensures told { Releases pass.old.view p node result pass.new.view }
        ensures rests { IsCalm pass.new }
    {
        let core = &self.table.shared;
        if !take_turn(core, &mut pass.seat) {
            return Err(TryRelease::Busy { node });
        }
        match release_in_hand(core, &mut pass.seat, pass.number, p, node) {
            Ok(place) => {
                settle(core, &mut pass.seat);
                Ok(place)
            }
            Err(refused) => {
                give_back(core, &mut pass.seat);
                Err(TryRelease::Refused(refused))
            }
        }
    }

    /// Makes a step of a factory, and answers the entry's place and what the step did.
    pub fn try_step(
        &self,
        pass: &mut Pass,
        f: u32,
        node: Node<Noted>,
    ) -> Result<(u32, Stepped), TryStep>
        requires grid { IsPassOf self.now pass.old }
        ensures grid { IsPassOf self.now pass.new }
        ensures same { IsSamePass pass.old pass.new }
        ensures told { Steps pass.old.view f node result pass.new.view }
        ensures rests { IsCalm pass.new }
    {
        let core = &self.table.shared;
        if !take_turn(core, &mut pass.seat) {
            return Err(TryStep::Busy { node });
        }
        match step_in_hand(core, &mut pass.seat, pass.number, f, node) {
            Ok(stepped) => {
                settle(core, &mut pass.seat);
                Ok(stepped)
            }
            Err(refused) => {
                give_back(core, &mut pass.seat);
                Err(TryStep::Refused(refused))
            }
        }
    }
}
