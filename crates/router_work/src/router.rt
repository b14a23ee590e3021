//! Routers.

ghost use Rattle.std.specs.Prelude.{◌≡◌, ◌*◌, ◌<◌, ◌≤◌, ◌++◌, ◌∷◌, [], true, false, length, slice_get, Some, Err, IsSome, IfSome, IfNone, IfOk, IfErr};
ghost use Rattle.std.specs.List.{Contains};
ghost use Rattle.source_model.specs.Statics.{AreOutcomesOf};
ghost use Rattle.board_core.specs.Shows.{IsMadeFor};
ghost use denote.RawPtr.{Ptr};
ghost use Rattle.patch_layout.specs.declared.plan.Plan.{Plan as Plans};
ghost use Rattle.grid_lock.specs.Passes.{Known, IsCalm};
ghost use Rattle.grid_lock.specs.Passes as grids;
ghost use Rattle.grid_lock.specs.Replies.{AnswersWaits, Claims, Delivers, Measures, Releases};
ghost use Rattle.grid_lock.specs.declared.replies.TryWaits.TheVariants as waiting;
ghost use Rattle.grid_lock.specs.declared.replies.TryClaim.TheVariants as claims;
ghost use Rattle.grid_lock.specs.declared.replies.TryDeliver.TheVariants as delivers;
ghost use Rattle.grid_lock.specs.declared.replies.TryRelease.TheVariants as releases;
ghost use Rattle.patch_base.specs.Outside.{Rose};
ghost use Rattle.number_share.specs.Hands.{IsSpent, putting};
ghost use Rattle.number_share.specs.Hands as shares;
ghost use Rattle.board_core.specs.History.{claim_place, delivered, release_place};
ghost use Rattle.board_core.specs.Position.{past};
ghost use Rattle.router_work.specs.Passing.{IsRouted, Passed, seen_board};
ghost use Rattle.router_work.specs.Routing.{IsSameRouter, IsSetUp};
ghost use Rattle.router_work.specs.Tries.{Answered, ClaimsAt, IsBegun, IsPlanned, IsSettled, LookedBefore};
ghost use Rattle.router_work.specs.Ends.{AttemptEnds, LosesNone, MetMore, RouterEnds, TurnedMore};
ghost use Rattle.router_work.specs.inside.Steps.{Calls, Goes, GivesWay, HoldsOn, IsAsked, IsCutShort, IsOutcomeAt, IsTried, end_of};
ghost use Rattle.router_work.specs.Waits.{AfterWaiting, OnlyRead};
ghost use Rattle.region_plan.specs.declared.answer.Planned.TheVariants as planneds;

use crate::attempt::{Attempt, Tried};
use crate::calls::{PATIENCE, claim, deliver, look, outwaits, release, waits};
use crate::gate::{Gate, Onward, Point};
use board_core::{ClaimWhy, Claimed, DeliverWhy, Noted};
use grid_lock::{Grid, Pass, TryClaim, TryDeliver, TryLook, TryRelease, TryWaits};
use node_log::Node;
use number_share::{Hand, Share};
use outcome_table::Outcomes;
use patch_layout::{Layout, Look, Plan};
use region_plan::{KeepingPlanner, Planned, Planner};
use source_model::Given;
use std::alloc::Global;
use std::marker::Model;

/// How many tries a router makes for each product.
pub const TRIES: u64 = 64;

/// Why a router ended.
#[derive(Clone, Copy, Debug, PartialEq, Eq)]
pub enum RouterEnd {
    /// Its gate said Stop.
    Stopped,
    /// There is no number left to take.
    NoNumber,
    /// It made 64 tries for each product.
    Tries,
    /// The turn was held 1,048,576 times in a row.
    Busy,
    /// Out of memory.
    Memory,
}

/// A worker that takes products' numbers and carries the products out: it asks what a product waits on, looks, plans a region
/// outside the turn, claims, delivers and releases. Its planner keeps walks from plan to plan.
#[derive(Drop)]
pub struct Router<'a, G: Gate> {
    alloc: Global,
    grid: &'a Grid,
    layout: &'a Layout,
    pass: Pass,
    hand: Hand,
    share: &'a Share,
    outcomes: &'a Outcomes,
    look: Look,
    planner: KeepingPlanner,
    gate: G,
    // How often it reads the history's length in vain before it gives a number up.
    patience: u32,
}

impl<'a, G: Gate> Model for Router<'a, G> {
    ghost use Rattle.std.specs.Prelude.{◌≡◌};
    ghost use Rattle.board_core.specs.Shows.{IsMadeFor};
    ghost use Rattle.router_work.specs.Routing.{Routing, IsSetUp};
    ghost use Rattle.router_work.specs.inside.Routing.{routing};

    ghost Value = { Routing };

    ghost view = { λ r. routing r.grid.now r.share.now r.outcomes.now.given r.pass r.hand
        (G.stops r.gate) };

    ghost invariant = { λ r.
        IsSetUp (routing r.grid.now r.share.now r.outcomes.now.given r.pass r.hand (G.stops r.gate))
        × (r.layout.now ≡ r.grid.now.opened.job.grid) × IsMadeFor r.grid.now.opened r.look };
}

impl<'a, G: Gate> Router<'a, G> {
    /// A router with a pass of the grid and a hand of the share. The layout is that of the grid's board, the look was made for
    /// it and for the products' qubits, and there is an outcome of its kind for each product.
    pub fn new(
        alloc: Global,
        grid: &'a Grid,
        layout: &'a Layout,
        pass: Pass,
        hand: Hand,
        share: &'a Share,
        outcomes: &'a Outcomes,
        look: Look,
        gate: G,
    ) -> Router<'a, G>
        requires pass { grids.IsPassOf grid.now pass }
        requires layout { layout.now ≡ grid.now.opened.job.grid }
        requires look { IsMadeFor grid.now.opened look }
        requires hand { shares.IsHandOf share.now hand }
        requires outcomes { AreOutcomesOf outcomes.now.given grid.now.opened.job.products }
        requires numbers { share.now.numbers ≤ length outcomes.now.given }
        ensures grid { result.grid ≡ grid.entry.now }
        ensures share { result.share ≡ share.entry.now }
        ensures given { result.given ≡ outcomes.entry.now.given }
        ensures pass { result.pass ≡ pass }
        ensures hand { result.hand ≡ hand }
        ensures stops { result.stops ≡ G.stops gate }
    {
        Router {
            alloc,
            grid,
            layout,
            pass,
            hand,
            share,
            outcomes,
            look,
            planner: KeepingPlanner::new(alloc),
            gate,
            patience: PATIENCE,
        }
    }

    /// The pass and the hand, which are still of the router's grid and share.
    pub fn into_parts(self) -> (Pass, Hand)
        ensures pass { result.0 ≡ self.entry.pass }
        ensures hand { result.1 ≡ self.entry.hand }
        ensures set_up { IsSetUp self.entry }
    {
        (self.pass, self.hand)
    }

    /// One try to carry out a product whose number the hand took: a look, a plan and a claim, and then the delivery of its
    /// outcome and the release. A product that waits is asked for alone, and neither looked at nor planned. A settled product
    /// is settled, without look and plan. Stopped, busy or out of memory after the claim, the product stays claimed.
    pub fn attempt(&mut self, number: u32) -> Attempt
        requires taken { Contains self.old.hand.held number }
        requires below { number < length self.old.given }
        ensures same { IsSameRouter self.old self.new }
        ensures hand { self.new.hand ≡ self.old.hand }
        ensures passed { Passed (IsRouted self.old.given) self.old.pass self.new.pass }
        ensures answered { Answered self.old.given self.old.pass number result self.new.pass }
        ensures ends { AttemptEnds self.old result self.new }
    {
        self.carry(number).answer
    }

    /// Takes numbers and makes an attempt for each, until there is none left, or its gate, the tries, the turn or the memory
    /// end it. A number whose product isn't begun is put back, once attempts made as the history grew don't begin it either.
    pub fn work(&mut self) -> RouterEnd
        ensures same { IsSameRouter self.old self.new }
        ensures passed { Passed (IsRouted self.old.given) self.old.pass self.new.pass }
        ensures ends { RouterEnds result self.old self.new }
        ensures loses_none { LosesNone self.old self.new }
    {
        for _try in 0..self.tries() {
            let Some(number) = self.take() else {
                return RouterEnd::NoNumber;
            };
            if let Some(end) = self.carry_or_put(number) {
                return end;
            }
        }
        RouterEnd::Tries
    }

    // How many tries are enough.
    fn tries(&self) -> u64
        ensures tries { result ≡ 64 * length self.now.given }
        ensures rests { IsCalm self.now.pass }
    {
        self.rests();
        TRIES * self.outcomes.given.as_slice().len() as u64
    }

    // Between two calls the pass is calm.
    fn rests(&self)
        ensures calm { IsCalm self.now.pass }
        ensures set_up { IsSetUp self.now }
    {
        self.pass.number();
    }

    // Takes a number.
    fn take(&mut self) -> Option<u32>
        ensures hand { self.new ≡ record self.old { hand = self.new.hand } }
        ensures taken { IfSome result (λ n. (n < length self.old.given)
            × (self.new.hand.held ≡ self.old.hand.held ++ n ∷ [])) }
        ensures none { IfNone result (IsSpent self.new.hand × (self.new.hand.left ≡ [])
            × (self.new.hand.held ≡ self.old.hand.held)) }
    {
        self.hand.take(self.share)
    }

    // Puts a number back.
    fn put(&mut self, number: u32)
        requires taken { Contains self.old.hand.held number }
        ensures put { self.new ≡ record self.old { hand = putting self.old.hand number } }
    {
        self.hand.put(number);
    }

    // Carries out the product of a number that was just taken, or puts the number back where the product isn't begun.
    fn carry_or_put(&mut self, number: u32) -> Option<RouterEnd>
        requires taken { Contains self.old.hand.held number }
        requires below { number < length self.old.given }
        ensures goes { Goes self.old self.new }
        ensures ends { IfSome result (λ end. RouterEnds end self.old self.new) }
        ensures turned { IfNone result (TurnedMore 1 self.old.pass self.new.pass) }
        ensures held { HoldsOn self.old.hand number self.new.hand }
        ensures begun { Contains self.new.hand.held number → IsBegun self.new.pass number }
    {
        self.rests();
        if self.is_stopped(Point::Took { product: number }) {
            self.put(number);
            return Some(RouterEnd::Stopped);
        }
        let tried = self.carry_in_place(number);
        self.put_unless(tried.begun, number);
        end_after(tried.answer)
    }

    // Puts a number back, unless its product is begun.
    fn put_unless(&mut self, begun: bool, number: u32)
        requires taken { Contains self.old.hand.held number }
        ensures hand { self.new ≡ record self.old { hand = self.new.hand } }
        ensures held { HoldsOn self.old.hand number self.new.hand }
        ensures begun { Contains self.new.hand.held number → begun ≡ true }
    {
        if begun {
            return;
        }
        self.put(number);
    }

    // Whether the gate says Stop at a point.
    fn is_stopped(&mut self, point: Point) -> bool
        ensures asked { IsAsked self.old self.new }
        ensures stopped { result ≡ true → Rose self.old.stops self.new.stops }
    {
        says_stop(&mut self.gate, point)
    }

    // Carries out a product, tried again whenever the history has grown, as long as the router's patience lasts.
    fn carry_in_place(&mut self, number: u32) -> Tried
        requires below { number < length self.old.given }
        ensures tried { IsTried self.old number result self.new }
    {
        self.rests();
        for _again in 0..u32::MAX {
            let length = self.length_now();
            let tried = self.carry(number);
            if is_over(&tried) {
                return tried;
            }
            if !self.outwaits(length) {
                return tried;
            }
        }
        self.carry(number)
    }

    // Waits until the history is longer than this, as long as the router's patience lasts.
    fn outwaits(&mut self, length: u32) -> bool
        ensures calls { Calls self.old self.new }
        ensures read { OnlyRead self.old.pass.view self.new.pass.view }
    {
        outwaits(self.grid, &mut self.pass, length, &mut self.patience)
    }

    fn carry(&mut self, number: u32) -> Tried
        requires below { number < length self.old.given }
        ensures tried { IsTried self.old number result self.new }
        ensures answered { Answered self.old.given self.old.pass number result.answer
            self.new.pass }
    {
        match self.outcome(number) {
            Given::Settled => self.settle(number),
            given => self.serve(number, given),
        }
    }

    // The outcome that was handed in for a product.
    fn outcome(&self, number: u32) -> Given
        requires below { number < length self.now.given }
        ensures { slice_get self.now.given number ≡ Some result }
    {
        self.outcomes.given.as_slice()[number as usize]
    }

    // Settles a settled product.
    fn settle(&mut self, number: u32) -> Tried
        requires settled { IsSettled self.old.given number }
        ensures tried { IsTried self.old number result self.new }
        ensures answered { Answered self.old.given self.old.pass number result.answer
            self.new.pass }
    {
        self.rests();
        let Ok(node) = Node::empty(self.alloc) else {
            return Tried {
                answer: Attempt::Memory,
                begun: false,
            };
        };
        match self.deliver_outcome(number, Given::Settled, node) {
            Ok(place) => {
                if self.is_stopped(Point::Delivered { product: number }) {
                    return Tried {
                        answer: Attempt::Stopped,
                        begun: true,
                    };
                }
                Tried {
                    answer: Attempt::Settled { place },
                    begun: true,
                }
            }
            Err(TryDeliver::Busy { .. }) => Tried {
                answer: Attempt::Busy,
                begun: false,
            },
            Err(TryDeliver::Refused(refused)) => match refused.why {
                DeliverWhy::Waits { on } => Tried {
                    answer: Attempt::NotReady { on },
                    begun: false,
                },
                DeliverWhy::Twice { place } => Tried {
                    answer: Attempt::Taken { place },
                    begun: true,
                },
                DeliverWhy::NoProduct => unreachable!(),
                DeliverWhy::Unclaimed => unreachable!(),
                DeliverWhy::WrongKind => unreachable!(),
            },
        }
    }

    // Asks first what the product waits on, before a look copies anything.
    fn serve(&mut self, number: u32, given: Given) -> Tried
        requires outcome { IsOutcomeAt self.old number given }
        ensures tried { IsTried self.old number result self.new }
        ensures answered { Answered self.old.given self.old.pass number result.answer
            self.new.pass }
    {
        match self.held_back(number) {
            Some(answer) => Tried {
                answer,
                begun: false,
            },
            None => self.serve_next(number, given),
        }
    }

    // The answer where the product waits on an earlier one, or the turn was held all along.
    fn held_back(&mut self, number: u32) -> Option<Attempt>
        requires below { number < length self.old.given }
        ensures goes { Goes self.old self.new }
        ensures hand { self.new.hand ≡ self.old.hand }
        ensures read { self.new.pass.view.read ≡ self.old.pass.view.read }
        ensures ends { IfSome result (λ a. AttemptEnds self.old a self.new) }
        ensures answered { IfSome result
            (λ a. Answered self.old.given self.old.pass number a self.new.pass) }
    {
        self.rests();
        match self.ask(number) {
            TryWaits::Ready => None,
            TryWaits::Waits { on } => Some(Attempt::NotReady { on }),
            TryWaits::Busy => Some(Attempt::Busy),
            TryWaits::NoProduct => unreachable!(),
        }
    }

    // Looks and plans, and claims by the region.
    fn serve_next(&mut self, number: u32, given: Given) -> Tried
        requires outcome { IsOutcomeAt self.old number given }
        ensures tried { IsTried self.old number result self.new }
        ensures answered { Answered self.old.given self.old.pass number result.answer
            self.new.pass }
    {
        let planned = match self.plan_region(number) {
            Ok(planned) => planned,
            Err(answer) => return Tried {
                answer,
                begun: false,
            },
        };
        match planned {
            Planned::Region(plan) => self.take_region(number, given, plan),
            Planned::Taken { place } => Tried {
                answer: Attempt::Taken { place },
                begun: true,
            },
            Planned::NotReady { on } => Tried {
                answer: Attempt::NotReady { on },
                begun: false,
            },
            Planned::NoReady => Tried {
                answer: Attempt::NoReady,
                begun: false,
            },
            Planned::Blocked => Tried {
                answer: Attempt::Blocked,
                begun: false,
            },
            Planned::Memory => Tried {
                answer: Attempt::Memory,
                begun: false,
            },
        }
    }

    // Looks at a product and plans a region for it, unless the turn or the gate ends the try.
    fn plan_region(&mut self, number: u32) -> Result<Planned, Attempt>
        requires below { number < length self.old.given }
        ensures goes { Goes self.old self.new }
        ensures hand { self.new.hand ≡ self.old.hand }
        ensures planned { IfOk result (IsPlanned self.old.pass self.new.pass number) }
        ensures turned { IfOk result (λ _. TurnedMore 1 self.old.pass self.new.pass) }
        ensures ends { IfErr result (IsCutShort self.old self.new) }
    {
        self.rests();
        match look(self.grid, &mut self.pass, number, &mut self.look) {
            Ok(()) => {}
            Err(TryLook::Busy) => return Err(Attempt::Busy),
            Err(TryLook::NoProduct) => unreachable!(),
        }
        let looked = Point::Looked {
            product: number,
            length: self.look.length,
        };
        if says_stop(&mut self.gate, looked) {
            return Err(Attempt::Stopped);
        }
        let planned = self.planner.plan(self.alloc, self.layout, &self.look);
        let told = Point::Planned {
            product: number,
            region: is_region(&planned),
        };
        if says_stop(&mut self.gate, told) {
            return Err(Attempt::Stopped);
        }
        Ok(planned)
    }

    // Claims by a region, and completes the product. All memory is taken before the claim.
    fn take_region(&mut self, number: u32, given: Given, plan: Plan) -> Tried
        requires outcome { IsOutcomeAt self.old number given }
        requires number { plan.number ≡ number }
        ensures tried { IsTried self.old number result self.new }
        ensures answered { (p : Known) → IsPlanned p self.old.pass number (planneds.Region plan)
            → Answered self.old.given p number result.answer self.new.pass }
    {
        self.rests();
        let (Ok(claiming), Ok(delivering), Ok(releasing)) = (
            Node::empty(self.alloc),
            Node::empty(self.alloc),
            Node::empty(self.alloc),
        ) else {
            return Tried {
                answer: Attempt::Memory,
                begun: false,
            };
        };
        match self.claim_by(plan, claiming) {
            Ok(claimed) => {
                if self.is_stopped_after_answer(number, true, false) {
                    return Tried {
                        answer: Attempt::Stopped,
                        begun: true,
                    };
                }
                self.complete(number, given, claimed.place, delivering, releasing)
            }
            Err(TryClaim::Busy { .. }) => Tried {
                answer: Attempt::Busy,
                begun: false,
            },
            Err(TryClaim::Refused(refused)) => self.give_way(number, refused.why),
        }
    }

    // The claim was refused.
    fn give_way(&mut self, number: u32, why: ClaimWhy) -> Tried
        ensures goes { Goes self.old self.new }
        ensures hand { self.new.hand ≡ self.old.hand }
        ensures seen { self.new.pass.view.seen ≡ self.old.pass.view.seen }
        ensures gives_way { GivesWay self.old why result self.new }
    {
        let held = matches!(why, ClaimWhy::Held { .. });
        let stopped = self.is_stopped_after_answer(number, false, held);
        let answer = if stopped {
            Attempt::Stopped
        } else {
            Attempt::Refused { why }
        };
        match why {
            ClaimWhy::Taken { .. } => Tried {
                answer,
                begun: true,
            },
            _ => Tried {
                answer,
                begun: false,
            },
        }
    }

    // Whether the gate says Stop at the board's answer to a claim.
    fn is_stopped_after_answer(&mut self, number: u32, claimed: bool, held: bool) -> bool
        ensures goes { Goes self.old self.new }
        ensures hand { self.new.hand ≡ self.old.hand }
        ensures seen { self.new.pass.view.seen ≡ self.old.pass.view.seen }
        ensures stopped { result ≡ true → Rose self.old.stops self.new.stops }
    {
        let length = self.length_now();
        self.is_stopped(Point::Answered {
            product: number,
            claimed,
            held,
            length,
        })
    }

    // Delivers the outcome of a claimed product, and releases the product.
    fn complete(
        &mut self,
        number: u32,
        given: Given,
        place: u32,
        delivering: Node<Noted>,
        releasing: Node<Noted>,
    ) -> Tried
        requires outcome { IsOutcomeAt self.old number given }
        requires claimed { ClaimsAt self.old.pass number place }
        ensures tried { IsTried self.old number result self.new }
        ensures answered { (p : Known) → LookedBefore p self.old.pass number place
            → Answered self.old.given p number result.answer self.new.pass }
    {
        if !self.delivers(number, given, delivering) {
            return Tried {
                answer: Attempt::Busy,
                begun: true,
            };
        }
        if self.is_stopped(Point::Delivered { product: number }) {
            return Tried {
                answer: Attempt::Stopped,
                begun: true,
            };
        }
        if !self.releases(number, given, releasing) {
            return Tried {
                answer: Attempt::Busy,
                begun: true,
            };
        }
        if self.is_stopped(Point::Released { product: number }) {
            return Tried {
                answer: Attempt::Stopped,
                begun: true,
            };
        }
        Tried {
            answer: Attempt::Claimed { place },
            begun: true,
        }
    }

    // Delivers the outcome of a claimed product; else the turn was held all along.
    fn delivers(&mut self, number: u32, given: Given, node: Node<Noted>) -> bool
        requires outcome { IsOutcomeAt self.old number given }
        requires claimed { IsSome (claim_place (past (seen_board self.old.pass)) number) }
        ensures goes { Goes self.old self.new }
        ensures hand { self.new.hand ≡ self.old.hand }
        ensures turned { result ≡ true → TurnedMore 1 self.old.pass self.new.pass }
        ensures delivered { result ≡ true → IsSome
            (delivered (past (seen_board self.new.pass)) number) }
        ensures held { result ≡ false → MetMore 1048576 self.old.pass self.new.pass }
    {
        self.rests();
        match self.deliver_outcome(number, given, node) {
            Ok(_) => true,
            Err(TryDeliver::Refused(_)) => true,
            Err(TryDeliver::Busy { .. }) => false,
        }
    }

    // Releases a delivered product; else the turn was held all along.
    fn releases(&mut self, number: u32, given: Given, node: Node<Noted>) -> bool
        requires outcome { IsOutcomeAt self.old number given }
        requires delivered { IsSome (delivered (past (seen_board self.old.pass)) number) }
        ensures goes { Goes self.old self.new }
        ensures hand { self.new.hand ≡ self.old.hand }
        ensures released { result ≡ true → IsSome
            (release_place (past (seen_board self.new.pass)) number) }
        ensures held { result ≡ false → MetMore 1048576 self.old.pass self.new.pass }
    {
        self.rests();
        match self.release_product(number, node) {
            Ok(_) => true,
            Err(TryRelease::Refused(_)) => true,
            Err(TryRelease::Busy { .. }) => false,
        }
    }

    // The history's length.
    fn length_now(&mut self) -> u32
        ensures calls { Calls self.old self.new }
        ensures told { Measures self.old.pass.view result self.new.pass.view }
    {
        self.grid.length(&mut self.pass)
    }

    // What a product waits on.
    fn ask(&mut self, number: u32) -> TryWaits
        ensures calls { Calls self.old self.new }
        ensures told { AfterWaiting self.old.pass.view
            (λ v. AnswersWaits v number result self.new.pass.view) }
        ensures busy { result ≡ waiting.Busy → MetMore 1048576 self.old.pass self.new.pass }
    {
        waits(self.grid, &mut self.pass, number)
    }

    // Claims by a plan.
    fn claim_by(&mut self, plan: Plan, node: Node<Noted>) -> Result<Claimed, TryClaim>
        ensures calls { Calls self.old self.new }
        ensures told { AfterWaiting self.old.pass.view
            (λ v. Claims v plan node result self.new.pass.view) }
        ensures busy { (p : Plans) (n : Ptr) → result ≡ Err (claims.Busy p n)
            → MetMore 1048576 self.old.pass self.new.pass }
    {
        claim(self.grid, &mut self.pass, plan, node)
    }

    // Delivers an outcome, or settles.
    fn deliver_outcome(
        &mut self,
        number: u32,
        given: Given,
        node: Node<Noted>,
    ) -> Result<u32, TryDeliver>
        ensures calls { Calls self.old self.new }
        ensures told { AfterWaiting self.old.pass.view
            (λ v. Delivers v number given node result self.new.pass.view) }
        ensures busy { (n : Ptr) → result ≡ Err (delivers.Busy n)
            → MetMore 1048576 self.old.pass self.new.pass }
    {
        deliver(self.grid, &mut self.pass, number, given, node)
    }

    // Releases a product.
    fn release_product(&mut self, number: u32, node: Node<Noted>) -> Result<u32, TryRelease>
        ensures calls { Calls self.old self.new }
        ensures told { AfterWaiting self.old.pass.view
            (λ v. Releases v number node result self.new.pass.view) }
        ensures busy { (n : Ptr) → result ≡ Err (releases.Busy n)
            → MetMore 1048576 self.old.pass self.new.pass }
    {
        release(self.grid, &mut self.pass, number, node)
    }
}

// Whether a gate says Stop at a point.
fn says_stop<G: Gate>(gate: &mut G, point: Point) -> bool
    ensures counts { G.stops gate.old ≤ G.stops gate.new }
    ensures stopped { result ≡ true → Rose (G.stops gate.old) (G.stops gate.new) }
{
    matches!(gate.at(point), Onward::Stop)
}

// Whether the planner has a region.
fn is_region(planned: &Planned) -> bool {
    matches!(planned, Planned::Region(_))
}

// Whether nothing is left to try: the product is begun, or the try ends the router.
fn is_over(tried: &Tried) -> bool {
    tried.begun || end_after(tried.answer).is_some()
}

// The end of a router's work that an attempt brings about, if it does.
fn end_after(answer: Attempt) -> Option<RouterEnd>
    ensures { result ≡ end_of answer }
{
    match answer {
        Attempt::Stopped => Some(RouterEnd::Stopped),
        Attempt::Busy => Some(RouterEnd::Busy),
        Attempt::Memory => Some(RouterEnd::Memory),
        _ => None,
    }
}
