//! What a board notes of its history, so that no call goes through it.

ghost use Rattle.std.specs.Prelude.{◌≡◌, ℕ, ◌+◌, ◌-◌, ◌∷◌, ◌++◌, ◌<◌, ◌==◌, List, ◌≤◌, ◌^◌, [], length, replicate, slice_get, slice_set, true, false, All, Some, None, Err, IfOk, OnOk, OnErr, MatchOption};
ghost use Rattle.pauli_product.specs.Signed.{OfLength};
ghost use Rattle.board_core.specs.Laws.{ProductsOfLength};
ghost use Rattle.pauli_product.specs.Pulls.{carry};
ghost use Rattle.source_model.specs.declared.Kind.TheVariants.{Measure};
ghost use Rattle.source_model.specs.declared.Given.TheVariants as given;
ghost use Rattle.source_model.specs.declared.Static.{Static as Statics};
ghost use Rattle.frame_table.specs.Images.{qubits};
ghost use Rattle.magic_pool.specs.Recount.{ready_of};
ghost use Rattle.magic_pool.specs.Pooled.{HasFewer, Recounts, step_answer, store_of};
ghost use Rattle.magic_pool.specs.declared.StepRefused.TheVariants.{Stocked};
ghost use Rattle.board_core.specs.declared.Entry.TheVariants as entry;
ghost use Rattle.board_core.specs.History.{History, steps, taken_states};
ghost use Rattle.board_core.specs.Legal.{Allowed, ClaimCell, BoardJob};
ghost use Rattle.board_core.specs.View.{turns_of, LeastWait};
ghost use Rattle.board_core.specs.Limits.{WithinLimits};
ghost use Rattle.board_core.specs.Suits.{HaveLetters, IsOpenFor};
ghost use Rattle.board_core.specs.inside.Bits.{value_in};
ghost use Rattle.board_core.specs.Books.{HasMakersOf};
ghost use Rattle.board_core.specs.inside.Books.{CanDeliver, NamesBelow, next_state};
ghost use Rattle.board_core.specs.inside.Cells.{LeastTaken};
ghost use Rattle.board_core.specs.Causes.{DiffersAt, EntryOf};
ghost use Rattle.board_core.specs.Uses.{IsOrderOf};
ghost use Rattle.board_core.specs.inside.Kept.{HasProduct, Kept};
ghost use Rattle.board_core.specs.Position.{job_with};
ghost use Rattle.board_core.specs.declared.board.Standing.{Standing as Standings};
ghost use Rattle.std.specs.Option.{option_to_list};
ghost use Rattle.pauli_product.specs.Bits.{number_of};

use crate::Entry;
use crate::bits::{Written, bit_count, spells, write_bit};
use crate::board::{Differ, Standing};
use crate::cells::{least_held, take_cells};
use crate::differ::first_difference;
use crate::frames::{correct_rotation, correct_settled, effective_now};
use crate::holders::Holders;
use commute_order::{DoneSet, Order};
use frame_table::Frame;
use magic_pool::{Fail, Pool, StepRefused, Stepped};
use patch_base::Memory;
use patch_layout::Layout;
use pauli_product::Product;
use source_model::{Given, Kind, Static};
use std::alloc::Global;
use std::marker::Model;

/// The tables beside a history. A clause speaks of every history that the tables are those of.
#[derive(Drop)]
pub struct Ledger {
    order: Order,
    frame: Frame,
    done: DoneSet,
    standings: Vec<Standing>,
    holders: Holders,
    bits: Vec<Written>,
    pool: Pool,
    // Room for one axis.
    scratch: Product,
}

impl Model for Ledger {
    ghost use Rattle.board_core.specs.inside.Kept.{Tables};

    ghost Value = { Tables };

    ghost view = { λ l.
        record {
          order = l.order;
          frame = l.frame;
          done = l.done;
          standings = l.standings.items;
          holders = l.holders;
          bits = l.bits.items;
          pool = l.pool;
          scratch = l.scratch;
        } };
}

impl Ledger {
    /// The tables of the empty history.
    pub fn new(
        alloc: Global,
        layout: &Layout,
        order: Order,
        products: &[Static],
        pool: Pool,
    ) -> Result<Ledger, Memory>
        requires limits { WithinLimits (job_with products.now layout.now pool) }
        requires order { IsOrderOf products.now order }
        requires pool { Recounts pool [] [] }
        requires makers { HasMakersOf layout.now pool.makers }
        requires open { IsOpenFor layout.now products.now }
        requires letters { HaveLetters products.now }
        ensures { IfOk result (Kept (job_with products.now layout.now pool) []) }
    {
        let n = products.len();
        let qubits = qubits_of(products);
        Ok(Ledger {
            order,
            frame: Frame::new(alloc, qubits)?,
            done: DoneSet::new(alloc, n as u32)?,
            standings: no_places(alloc, n)?,
            holders: Holders::new(alloc, layout.size() as usize, n)?,
            bits: no_bits(alloc, bit_count(products))?,
            pool,
            scratch: Product::identity(alloc, qubits)?,
        })
    }

    /// The places of a product's entries.
    pub fn standing(&self, p: u32) -> Standing
        requires { p < length self.now.standings }
        ensures { slice_get self.now.standings p ≡ Some result }
    {
        self.standings[p as usize]
    }

    /// The least earlier product that doesn't commute with this one and isn't done.
    pub fn waits_on(&self, p: u32) -> Option<u32>
        requires { HasProduct self.now p }
        ensures { (j : BoardJob) (h : History) → Kept j h self.now → p < length j.products
            → LeastWait j.products h p result }
    {
        self.order.waits_on(p, &self.done)
    }

    /// Who holds each cell.
    pub fn holders(&self) -> &[Option<u32>]
        ensures { result.now ≡ self.now.holders }
    {
        self.holders.as_slice()
    }

    /// The failing runs.
    pub fn fails(&self) -> &[Fail]
        ensures { result.now ≡ self.now.pool.fails }
    {
        self.pool.fails()
    }

    /// How many states of a factory are ready.
    pub fn ready(&self, f: u32) -> u32
        ensures { (j : BoardJob) (h : History) → Kept j h self.now
            → result ≡ length (ready_of j.fails (steps h) (taken_states h) f) }
    {
        self.pool.ready(f)
    }

    /// Leaves in `into` the axis that a product has now.
    pub fn show_axis(&self, own: &Product, into: &mut Product)
        requires own { OfLength (qubits self.now.frame) own.now }
        requires room { OfLength (qubits self.now.frame) into.old }
        ensures axis { (j : BoardJob) (h : History) → Kept j h self.now
            → into.new ≡ carry (turns_of j.products h) own.now }
        ensures long { length into.new.letters ≡ length into.old.letters }
    {
        self.frame.image(own, into);
    }

    /// Leaves each factory's count of ready states.
    pub fn show_ready(&self, counts: &mut [u32])
        requires { length counts.old ≡ 16 }
        ensures counts { (j : BoardJob) (h : History) → Kept j h self.now → (f : ℕ) → f < 16
            → slice_get counts.new f ≡ Some (length
            (ready_of j.fails (steps h) (taken_states h) f)) }
    {
        for f in 0..16u32 {
            counts[f as usize] = self.pool.ready(f);
        }
    }

    /// Where an axis first differs from the one that a product has now.
    pub fn difference(&mut self, own: &Product, axis: &Product) -> Option<Differ>
        requires own { OfLength (qubits self.old.frame) own.now }
        requires room { OfLength (qubits self.old.frame) self.old.scratch }
        ensures first { (j : BoardJob) (h : History) → Kept j h self.old
            → MatchOption result (carry (turns_of j.products h) own.now ≡ axis.now)
            (DiffersAt (carry (turns_of j.products h) own.now) axis.now) }
        ensures kept { (j : BoardJob) (h : History) → Kept j h self.old → Kept j h self.new }
    {
        self.frame.image(own, &mut self.scratch);
        first_difference(&self.scratch, axis)
    }

    /// The least of a claim's cells that is held, and by whom.
    pub fn least_held(
        &self,
        layout: &Layout,
        axis: &Product,
        port: Option<u32>,
        cells: &[u32],
    ) -> Option<(u32, u32)>
        requires sizes { length self.now.holders ≡ length layout.now.sites }
        requires few { length cells.now ≤ 4096 }
        requires cells { All (λ c. c < length layout.now.sites) cells.now }
        ensures { LeastTaken (ClaimCell layout.now axis.now port cells.now) self.now.holders
            result }
    {
        least_held(layout, axis, port, cells, self.holders.as_slice())
    }

    /// Whether the bits that a settled product reads spell its value.
    pub fn flips(&self, first: u32, size: u32, value: u32) -> bool
        requires { first + size ≤ length self.now.bits }
        ensures { result ≡ (number_of (value_in self.now.bits) first size == value) }
    {
        spells(&self.bits, first, size, value)
    }

    /// Notes a claim, and takes its state.
    pub fn claim(
        &mut self,
        layout: &Layout,
        axis: &Product,
        port: Option<u32>,
        cells: &[u32],
        p: u32,
        place: u32,
    ) -> Option<u32>
        requires sizes { length self.old.holders ≡ length layout.now.sites }
        requires few { length cells.now ≤ 4096 }
        requires cells { All (λ c. c < length layout.now.sites) cells.now }
        requires p { p < length self.old.standings }
        ensures state { (j : BoardJob) (h : History) → Kept j h self.old
            → result ≡ next_state j.fails (steps h) (taken_states h) port }
        ensures kept { (j : BoardJob) (h : History) → Kept j h self.old → j.grid ≡ layout.now
            → Allowed j h (entry.Claim p axis.now port result cells.now) → place ≡ length h
            → Kept j (h ++ entry.Claim p axis.now port result cells.now ∷ []) self.new }
    {
        take_cells(layout, axis, port, cells, p, &mut self.holders);
        note_claim(&mut self.standings, p, place);
        take_state(&mut self.pool, port)
    }

    /// Notes a rotation's outcome.
    pub fn rotate(&mut self, own: &Product, raw: bool, x: bool, p: u32, place: u32)
        requires own { OfLength (qubits self.old.frame) own.now }
        requires covers { HasProduct self.old p }
        ensures { (j : BoardJob) (h : History) (s : Statics) → Kept j h self.old
            → slice_get j.products p ≡ Some s → s.axis ≡ own.now
            → Allowed j h (entry.Deliver p (given.Rotation raw x)) → place ≡ length h
            → Kept j (h ++ entry.Deliver p (given.Rotation raw x) ∷ []) self.new }
    {
        let effective = effective_now(&self.frame, own, &mut self.scratch, raw);
        correct_rotation(&mut self.frame, own, effective, x);
        note_done(&mut self.done, &mut self.standings, p, place);
    }

    /// Notes a measurement's outcome.
    pub fn measure(&mut self, own: &Product, raw: bool, bit: u32, p: u32, place: u32)
        requires own { OfLength (qubits self.old.frame) own.now }
        requires covers { HasProduct self.old p }
        requires bit { bit < length self.old.bits }
        ensures { (j : BoardJob) (h : History) (s : Statics) → Kept j h self.old
            → slice_get j.products p ≡ Some s → s.axis ≡ own.now → s.kind ≡ Measure bit
            → Allowed j h (entry.Deliver p (given.Measure raw)) → place ≡ length h
            → Kept j (h ++ entry.Deliver p (given.Measure raw) ∷ []) self.new }
    {
        let effective = effective_now(&self.frame, own, &mut self.scratch, raw);
        write_bit(&mut self.bits, bit, p, effective);
        note_done(&mut self.done, &mut self.standings, p, place);
    }

    /// Notes a settling.
    pub fn settle(&mut self, own: &Product, flip: bool, p: u32, place: u32)
        requires own { OfLength (qubits self.old.frame) own.now }
        requires covers { HasProduct self.old p }
        ensures { (j : BoardJob) (h : History) (s : Statics) → Kept j h self.old
            → slice_get j.products p ≡ Some s → s.axis ≡ own.now → Allowed j h (entry.Settle p flip)
            → place ≡ length h → Kept j (h ++ entry.Settle p flip ∷ []) self.new }
    {
        correct_settled(&mut self.frame, own, flip);
        note_done(&mut self.done, &mut self.standings, p, place);
    }

    /// Notes a release.
    pub fn release(&mut self, p: u32, place: u32)
        requires { p < length self.old.standings }
        ensures { (j : BoardJob) (h : History) → Kept j h self.old → Allowed j h (entry.Release p)
            → place ≡ length h → Kept j (h ++ entry.Release p ∷ []) self.new }
    {
        self.holders.free(p);
        note_release(&mut self.standings, p, place);
    }

    /// Makes a step of a factory.
    pub fn step(&mut self, f: u32) -> Result<Stepped, StepRefused>
        requires { HasFewer self.old.pool (2 ^ 32 - 1) }
        ensures answer { (j : BoardJob) (h : History) → Kept j h self.old
            → result ≡ step_answer self.old.pool.makers j.fails (steps h) (taken_states h) f }
        ensures stocked { (n : ℕ) → result ≡ Err (Stocked n) → n ≡ store_of self.old.pool.makers f }
        ensures kept { OnOk result ((j : BoardJob) (h : History) → Kept j h self.old
            → Allowed j h (entry.Step f) → Kept j (h ++ entry.Step f ∷ []) self.new) }
        ensures refused { OnErr result (self.new ≡ self.old) }
    {
        self.pool.step(f)
    }
}

/// Takes the least ready state of the port that is named.
fn take_state(pool: &mut Pool, port: Option<u32>) -> Option<u32>
    ensures state { (made taken : List ℕ) → Recounts pool.old made taken
        → result ≡ next_state pool.old.fails made taken port }
    ensures history { (made taken : List ℕ) → Recounts pool.old made taken
        → Recounts pool.new made (taken ++ option_to_list result) }
    ensures makers { pool.new.makers ≡ pool.old.makers }
    ensures fails { pool.new.fails ≡ pool.old.fails }
{
    match port {
        Some(factory) => pool.take(factory),
        None => None,
    }
}

/// Notes the place of a product's claim.
fn note_claim(standings: &mut [Standing], p: u32, place: u32)
    requires { p < length standings.old }
    ensures { (s : Standings) → slice_get standings.old p ≡ Some s
        → standings.new ≡ slice_set standings.old p (record s { claim = Some place }) }
{
    standings[p as usize].claim = Some(place);
}

/// Notes the place of a product's release.
fn note_release(standings: &mut [Standing], p: u32, place: u32)
    requires { p < length standings.old }
    ensures { (s : Standings) → slice_get standings.old p ≡ Some s
        → standings.new ≡ slice_set standings.old p (record s { release = Some place }) }
{
    standings[p as usize].release = Some(place);
}

/// Notes that a product is done, and the place.
fn note_done(done: &mut DoneSet, standings: &mut [Standing], p: u32, place: u32)
    requires done { p < length done.old }
    requires standings { p < length standings.old }
    ensures done { done.new ≡ slice_set done.old p true }
    ensures places { (s : Standings) → slice_get standings.old p ≡ Some s
        → standings.new ≡ slice_set standings.old p (record s { deliver = Some place }) }
{
    done.mark(p);
    standings[p as usize].deliver = Some(place);
}

/// Notes an outcome that may be delivered, or settles a product that may be settled. Answers the entry.
pub fn note_outcome(
    ledger: &mut Ledger,
    product: &Static,
    given: Given,
    p: u32,
    place: u32,
) -> Entry
    requires own { OfLength (qubits ledger.old.frame) product.now.axis }
    requires covers { HasProduct ledger.old p }
    requires bits { NamesBelow (length ledger.old.bits) product.now.kind }
    ensures { (j : BoardJob) (h : History) → Kept j h ledger.old
        → CanDeliver j h p product.now given
        → place ≡ length h → EntryOf p given result × Allowed j h result
        × Kept j (h ++ result ∷ []) ledger.new }
{
    let own = &product.axis;
    match (product.kind, given) {
        (Kind::Rotation, Given::Rotation { raw, x }) => {
            ledger.rotate(own, raw, x, p, place);
            Entry::Deliver { product: p, given }
        }
        (Kind::Measure { bit }, Given::Measure { raw }) => {
            ledger.measure(own, raw, bit, p, place);
            Entry::Deliver { product: p, given }
        }
        (Kind::Settle { first, size, value }, Given::Settled) => {
            let flip = ledger.flips(first, size, value);
            ledger.settle(own, flip, p, place);
            Entry::Settle { product: p, flip }
        }
        // The outcome is of the product's kind.
        (_, _) => Entry::Deliver { product: p, given },
    }
}

/// How many qubits the products are on, and 0 where there are none.
fn qubits_of(products: &[Static]) -> u32
    requires { (n : ℕ) × (n ≤ 1024) × ProductsOfLength n products.now }
    ensures { (result ≤ 1024) × ProductsOfLength result products.now }
{
    match products.first() {
        Some(product) => product.axis.len(),
        None => 0,
    }
}

/// The places of products without entries.
fn no_places(alloc: Global, n: usize) -> Result<Vec<Standing>, Memory>
    ensures { IfOk result (λ v. v.items ≡ replicate n
        (record { claim = None; deliver = None; release = None })) }
{
    Ok(vec![in alloc; Standing::empty(); n]?)
}

/// Bits that nothing has written.
fn no_bits(alloc: Global, n: usize) -> Result<Vec<Written>, Memory>
    ensures { IfOk result (λ v. v.items ≡ replicate n (record { by = None; value = false })) }
{
    Ok(vec![in alloc; Written::none(); n]?)
}
