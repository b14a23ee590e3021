//! The board.

ghost use Rattle.std.specs.Prelude.{◌≡◌, ℕ, ◌<◌, ◌≤◌, [], List, length, slice_get, Option, Some, None, is_some, IsOk, MatchOption, MatchResult, IfOk, IfErr};
ghost use Rattle.board_core.specs.declared.Entry.{Entry as Entries};
ghost use Rattle.board_core.specs.declared.Entry.TheVariants.{Release};
ghost use Rattle.board_core.specs.declared.Entry.TheVariants as entry;
ghost use Rattle.source_model.specs.declared.Static.{Static as Statics};
ghost use Rattle.patch_layout.specs.Certificate.{Certified};
ghost use Rattle.patch_layout.specs.Case.{case_of};
ghost use Rattle.magic_pool.specs.Pooled.{Recounts};
ghost use Rattle.board_core.specs.Legal.{Allowed, AxisOf};
ghost use Rattle.board_core.specs.Limits.{WithinLimits};
ghost use Rattle.board_core.specs.Suits.{HaveLetters, IsOpenFor};
ghost use Rattle.board_core.specs.Position.{past, with_entry, job_with, IsLegal};
ghost use Rattle.board_core.specs.Books.{HasMakersOf, standing_of};
ghost use Rattle.board_core.specs.Uses.{IsOrderOf};
ghost use Rattle.board_core.specs.Laws.{Agrees, ProductsOfLength};
ghost use Rattle.board_core.specs.History.{done_place};
ghost use Rattle.board_core.specs.View.{claimed_axis, LeastWait};
ghost use Rattle.board_core.specs.Orders.{InSourceOrderUpToSwaps};
ghost use Rattle.pauli_product.specs.Signed.{Signed, IsNotIdentity};
ghost use Rattle.source_model.specs.declared.Given.{Given as Givens};
ghost use Rattle.source_model.specs.SourceRun.{axes};
ghost use Rattle.source_model.specs.Statics.{static_items};
ghost use Rattle.board_core.specs.Shows.{Shows};
ghost use Rattle.board_core.specs.Causes.{ClaimRefusedBecause, DeliverRefusedBecause, EntryOf, HasAxis, IsClaimable, IsDeliverable, IsProduct, ReleaseRefusedBecause, StepRefusedBecause, Waiting, claim_of, stepped_by};

use crate::board::{
    BoardStepRefused, BoardStepWhy, ClaimRefused, ClaimWhy, Claimed, DeliverRefused, DeliverWhy,
    NoProduct, ReleaseRefused, ReleaseWhy, Standing,
};
use crate::judging::{is_rotation, takes_region, why_not_delivered, why_not_released};
use crate::ledger::{Ledger, note_outcome};
use crate::{Entry, Noted};
use commute_order::Order;
use magic_pool::{Fail, Pool, StepRefused, Stepped};
use node_log::{Log, Node};
use patch_base::Memory;
use patch_layout::{Layout, Look, Plan, check};
use source_model::{Given, Kind, Static};
use std::alloc::Global;
use std::marker::Model;

/// Products on a layout, with a legal history of what was done with them.
#[derive(Drop)]
pub struct Board {
    layout: Layout,
    products: Vec<Static>,
    ledger: Ledger,
    history: Log<Noted>,
}

impl Model for Board {
    ghost use Rattle.board_core.specs.Position.{Position, job_with};

    ghost Value = { Position };

    ghost use Rattle.board_core.specs.History.{entries};
    ghost use Rattle.board_core.specs.inside.Kept.{Kept};

    ghost view = { λ b.
        record { job = job_with b.products.items b.layout b.ledger.pool; history = b.history } };

    ghost invariant = { λ b. Kept (job_with b.products.items b.layout b.ledger.pool)
        (entries b.history) b.ledger };
}

impl Board {
    /// A board with an empty history.
    ///
    /// The order is that of the products, as `order_of` makes it, and the pool is a new one with the layout's factories and
    /// their stores, as `pool_of` makes it. The layout is open for the products, and each product's axis has a letter other
    /// than I.
    pub fn new(
        alloc: Global,
        layout: Layout,
        order: Order,
        products: Vec<Static>,
        pool: Pool,
    ) -> Result<Board, Memory>
        requires limits { WithinLimits (job_with products.items layout pool) }
        requires order { IsOrderOf products.items order }
        requires pool { Recounts pool [] [] }
        requires makers { HasMakersOf layout pool.makers }
        requires open { IsOpenFor layout products.items }
        requires letters { HaveLetters products.items }
        ensures new { IfOk result
            (λ b. b ≡ record { job = job_with products.items layout pool; history = [] }) }
        ensures legal { IfOk result IsLegal }
    {
        let ledger = Ledger::new(alloc, &layout, order, &products, pool)?;
        Ok(Board {
            layout,
            products,
            ledger,
            history: Log::new(),
        })
    }

    /// The entries, the first one first.
    pub fn history(&self) -> &Log<Noted>
        ensures value { result.now ≡ self.now.history }
        ensures legal { IsLegal self.now }
    {
        &self.history
    }

    /// The products, by number.
    pub fn products(&self) -> &[Static]
        ensures { result.now ≡ self.now.job.products }
    {
        self.products.as_slice()
    }

    pub fn layout(&self) -> &Layout
        ensures { result.now ≡ self.now.job.grid }
    {
        &self.layout
    }

    /// The failing runs that the pool was made with.
    pub fn fails(&self) -> &[Fail]
        ensures { result.now ≡ self.now.job.fails }
    {
        self.ledger.fails()
    }

    /// The places of a product's entries.
    pub fn standing(&self, p: u32) -> Option<Standing>
        ensures { MatchOption result (length self.now.job.products ≤ p)
            (λ s. (p < length self.now.job.products) × (s ≡ standing_of (past self.now) p)) }
    {
        if p as usize >= self.products.len() {
            return None;
        }
        Some(self.ledger.standing(p))
    }

    /// The kind of a product.
    fn kind(&self, p: u32) -> Option<Kind>
        ensures kind { MatchOption result (length self.now.job.products ≤ p) (λ k. (s : Statics)
            × IsProduct self.now p s × (k ≡ s.kind)) }
        ensures legal { IsLegal self.now }
    {
        if p as usize >= self.products.len() {
            return None;
        }
        Some(self.products[p as usize].kind)
    }

    /// Fills a look with what a planner for the product has to know. The look was made for this layout, and for the
    /// number of qubits of the products, and still is. The axis that it shows has a letter other than I.
    pub fn look(&self, p: u32, look: &mut Look) -> Result<(), NoProduct>
        requires held { length look.old.held ≡ length self.now.job.grid.sites }
        requires axis { ProductsOfLength (length look.old.axis.letters) self.now.job.products }
        ensures shown { IfOk result (λ _. Shows self.now p look.new) }
        ensures letter { IfOk result (λ _. IsNotIdentity look.new.axis) }
        ensures long { length look.new.axis.letters ≡ length look.old.axis.letters }
        ensures source { IfOk result (λ _. done_place (past self.now) p ≡ None
            → look.new.waits ≡ None → AxisOf self.now.job (past self.now) p look.new.axis) }
        ensures stays { IfOk result (λ _. (axis : Signed)
            → claimed_axis (past self.now) p ≡ Some axis → done_place (past self.now) p ≡ None
            → look.new.axis ≡ axis) }
        ensures refused { IfErr result (λ _. (length self.now.job.products ≤ p)
            × (look.new ≡ look.old)) }
    {
        let Some(kind) = self.kind(p) else {
            return Err(NoProduct);
        };
        look.product = p;
        look.length = self.history.length();
        look.rotation = is_rotation(kind);
        look.taken = self.ledger.standing(p).claim;
        look.waits = self.ledger.waits_on(p);
        let own = &self.products[p as usize].axis;
        self.ledger.show_axis(own, &mut look.axis);
        look.held.copy_from(self.ledger.holders());
        self.ledger.show_ready(&mut look.ready);
        Ok(())
    }

    /// The least earlier product that doesn't commute with this one and isn't done, where there is one.
    pub fn waits_on(&self, p: u32) -> Result<Option<u32>, NoProduct>
        ensures waits { IfOk result (λ on. (p < length self.now.job.products)
            × LeastWait self.now.job.products (past self.now) p on) }
        ensures refused { IfErr result (λ _. length self.now.job.products ≤ p) }
    {
        if p as usize >= self.products.len() {
            return Err(NoProduct);
        }
        Ok(self.ledger.waits_on(p))
    }

    /// The kind of a plan's product, where it takes a region, has no claim, and waits on none.
    fn begin(&self, plan: &Plan) -> Result<Kind, ClaimWhy>
        ensures begun { MatchResult result (λ k. Waiting self.now plan.now
            × ((s : Statics) → IsProduct self.now plan.now.number s → k ≡ s.kind))
            (λ why. ClaimRefusedBecause why self.now plan.now) }
        ensures legal { IsLegal self.now }
    {
        let Some(kind) = self.kind(plan.number) else {
            return Err(ClaimWhy::NoProduct);
        };
        if !takes_region(kind) {
            return Err(ClaimWhy::NoRegion);
        }
        if let Some(place) = self.ledger.standing(plan.number).claim {
            return Err(ClaimWhy::Taken { place });
        }
        if let Some(on) = self.ledger.waits_on(plan.number) {
            return Err(ClaimWhy::Waits { on });
        }
        Ok(kind)
    }

    /// Whether a plan has the axis about which its product is carried out.
    fn compare(&mut self, plan: &Plan) -> Result<(), ClaimWhy>
        requires { Waiting self.old plan.now }
        ensures same { self.new ≡ self.old }
        ensures axis { MatchResult result (λ _. HasAxis self.old plan.now)
            (λ why. ClaimRefusedBecause why self.old plan.now) }
    {
        let own = &self.products[plan.number as usize].axis;
        if let Some(at) = self.ledger.difference(own, &plan.axis) {
            return Err(ClaimWhy::AxisDiffers { at });
        }
        Ok(())
    }

    /// Whether a plan's certificate is right, its cells are free, and its port has a ready state.
    fn place(&self, plan: &Plan, kind: Kind) -> Result<(), ClaimWhy>
        requires axis { HasAxis self.now plan.now }
        requires kind { (s : Statics) → IsProduct self.now plan.now.number s → kind ≡ s.kind }
        ensures { MatchResult result (λ _. IsClaimable self.now plan.now)
            (λ why. ClaimRefusedBecause why self.now plan.now) }
    {
        if let Some(fault) = check(&self.layout, plan, is_rotation(kind)) {
            return Err(ClaimWhy::Unfit { fault });
        }
        let cells = plan.cells.cells();
        if let Some((cell, by)) = self
            .ledger
            .least_held(&self.layout, &plan.axis, plan.port, cells)
        {
            return Err(ClaimWhy::Held { cell, by });
        }
        if let Some(port) = plan.port {
            if self.ledger.ready(port) == 0 {
                return Err(ClaimWhy::NoState { port });
            }
        }
        Ok(())
    }

    /// Whether a claim is allowed.
    fn judge(&mut self, plan: &Plan) -> Result<(), ClaimWhy>
        ensures same { self.new ≡ self.old }
        ensures legal { IsLegal self.new }
        ensures judged { MatchResult result (λ _. IsClaimable self.old plan.now)
            (λ why. ClaimRefusedBecause why self.old plan.now) }
    {
        let kind = self.begin(plan)?;
        self.compare(plan)?;
        self.place(plan, kind)
    }

    /// Claims a product's region by a plan. A rotation takes the least ready state of its port.
    pub fn claim(&mut self, by: u32, plan: Plan, node: Node<Noted>) -> Result<Claimed, ClaimRefused>
        ensures claimable { IfOk result (λ c. IsClaimable self.old plan) }
        ensures accepted { IfOk result (λ c. Allowed self.old.job (past self.old)
            (claim_of plan c.state) × (c.place ≡ length self.old.history)
            × (self.new ≡ with_entry self.old by (claim_of plan c.state))) }
        ensures source { IfOk result (λ c. (table : List Givens)
            → length table ≡ length self.old.job.products → Agrees table (past self.new)
            → slice_get (axes (static_items self.old.job.products) table) plan.number
            ≡ Some plan.axis) }
        ensures complete { (state : Option ℕ)
            → Allowed self.old.job (past self.old) (claim_of plan state)
            → Certified (case_of self.old.job.grid (is_some plan.port) plan) → IsOk result }
        ensures refused { IfErr result (λ r. (self.new ≡ self.old)
            × ClaimRefusedBecause r.why self.old plan × (r.plan ≡ plan) × (r.node ≡ node)) }
        ensures legal { IsLegal self.new }
    {
        if let Err(why) = self.judge(&plan) {
            return Err(ClaimRefused { why, plan, node });
        }
        let Plan {
            number,
            axis,
            cells,
            port,
            parents: _,
            touches: _,
        } = plan;
        let place = self.history.length();
        let state = self
            .ledger
            .claim(&self.layout, &axis, port, cells.cells(), number, place);
        let entry = Entry::Claim {
            product: number,
            axis,
            port,
            state,
            cells,
        };
        self.history.push(node, Noted { by, entry });
        Ok(Claimed { place, state })
    }

    /// Why an outcome isn't accepted.
    fn deliver_why(&self, p: u32, given: Given) -> Option<DeliverWhy>
        ensures { MatchOption result (IsDeliverable self.now p given)
            (λ why. DeliverRefusedBecause why self.now p given) }
    {
        let Some(kind) = self.kind(p) else {
            return Some(DeliverWhy::NoProduct);
        };
        if let Some(why) = why_not_delivered(kind, self.ledger.standing(p), given) {
            return Some(why);
        }
        if let Given::Settled = given {
            if let Some(on) = self.ledger.waits_on(p) {
                return Some(DeliverWhy::Waits { on });
            }
        }
        None
    }

    /// Delivers the outcome of a claimed product, or settles a settled one, and answers the entry's place.
    pub fn deliver(
        &mut self,
        by: u32,
        p: u32,
        given: Given,
        node: Node<Noted>,
    ) -> Result<u32, DeliverRefused>
        ensures deliverable { IfOk result (λ place. IsDeliverable self.old p given) }
        ensures accepted { IfOk result (λ place. (e : Entries) × EntryOf p given e
            × Allowed self.old.job (past self.old) e × (place ≡ length self.old.history)
            × (self.new ≡ with_entry self.old by e)) }
        ensures order { IfOk result (λ place. (table : List Givens)
            → length table ≡ length self.old.job.products → Agrees table (past self.new)
            → InSourceOrderUpToSwaps self.old.job.products table (past self.new)) }
        ensures complete { (e : Entries) → EntryOf p given e
            → Allowed self.old.job (past self.old) e → IsOk result }
        ensures refused { IfErr result (λ r. (self.new ≡ self.old)
            × DeliverRefusedBecause r.why self.old p given × (r.node ≡ node)) }
        ensures legal { IsLegal self.new }
    {
        if let Some(why) = self.deliver_why(p, given) {
            return Err(DeliverRefused { why, node });
        }
        let place = self.history.length();
        let product = &self.products[p as usize];
        let entry = note_outcome(&mut self.ledger, product, given, p, place);
        Ok(self.history.push(node, Noted { by, entry }))
    }

    /// Why a release isn't allowed.
    fn release_why(&self, p: u32) -> Option<ReleaseWhy>
        ensures { MatchOption result (Allowed self.now.job (past self.now) (Release p))
            (λ why. ReleaseRefusedBecause why self.now p) }
    {
        let Some(kind) = self.kind(p) else {
            return Some(ReleaseWhy::NoProduct);
        };
        why_not_released(kind, self.ledger.standing(p))
    }

    /// Gives a delivered product's cells back, and answers the entry's place.
    pub fn release(&mut self, by: u32, p: u32, node: Node<Noted>) -> Result<u32, ReleaseRefused>
        ensures accepted { IfOk result (λ place. Allowed self.old.job (past self.old) (Release p)
            × (place ≡ length self.old.history) × (self.new ≡ with_entry self.old by (Release p))) }
        ensures complete { Allowed self.old.job (past self.old) (Release p) → IsOk result }
        ensures refused { IfErr result (λ r. (self.new ≡ self.old)
            × ReleaseRefusedBecause r.why self.old p × (r.node ≡ node)) }
        ensures legal { IsLegal self.new }
    {
        if let Some(why) = self.release_why(p) {
            return Err(ReleaseRefused { why, node });
        }
        let place = self.history.length();
        self.ledger.release(p, place);
        let entry = Entry::Release { product: p };
        Ok(self.history.push(node, Noted { by, entry }))
    }

    /// Makes a step of a factory, and answers the entry's place and what the step did.
    pub fn step(
        &mut self,
        by: u32,
        f: u32,
        node: Node<Noted>,
    ) -> Result<(u32, Stepped), BoardStepRefused>
        ensures accepted { IfOk result (λ r. Allowed self.old.job (past self.old) (entry.Step f)
            × (r.0 ≡ length self.old.history) × (r.1 ≡ stepped_by self.old f)
            × (self.new ≡ with_entry self.old by (entry.Step f))) }
        ensures complete { Allowed self.old.job (past self.old) (entry.Step f) → IsOk result }
        ensures refused { IfErr result (λ r. (self.new ≡ self.old)
            × StepRefusedBecause r.why self.old f × (r.node ≡ node)) }
        ensures legal { IsLegal self.new }
    {
        match self.ledger.step(f) {
            Err(StepRefused::NoFactory) => Err(BoardStepRefused {
                why: BoardStepWhy::NoFactory,
                node,
            }),
            Err(StepRefused::Stocked { ready }) => Err(BoardStepRefused {
                why: BoardStepWhy::Stocked { ready },
                node,
            }),
            Ok(stepped) => {
                let entry = Entry::Step { factory: f };
                let place = self.history.push(node, Noted { by, entry });
                Ok((place, stepped))
            }
        }
    }
}
