//! Tables by cell, product, state and factory: what an entry needs of all that came before it.

ghost use Rattle.std.specs.Prelude.{◌≡◌, ◌+◌, ◌-◌, ◌<◌, ◌^◌, ℕ, [], All, length, max, slice_index_or, IfOk, IfSome};
ghost use Rattle.board_core.specs.Laws.{ProductsOfLength};
ghost use Rattle.slice_write.specs.Slices.{is_among, is_claim_cell, store_in};
ghost use Rattle.slice_write.specs.inside.Numbers.{made_by, greatest_at as greatest_in};
ghost use Rattle.slice_write.specs.inside.Clashes.{greatest_clash, PlacedAre};
ghost use Rattle.slice_write.specs.inside.Factories.{IsFresh, IsReady, step_of};

use crate::cells::held_cells;
use crate::clashes::{latest_clash, place};
use crate::factory::Factory;
use crate::numbers::{entry_at, greatest_at, raise, room, set_at, zeros};
use crate::placed::Placed;
use board_core::Entry;
use magic_pool::Fail;
use patch_base::{FACTORIES, Memory};
use patch_layout::Layout;
use pauli_product::Product;
use source_model::Static;
use std::alloc::Global;

#[derive(Drop)]
pub(crate) struct Ledger {
    /// By cell: the latest slice of a claim that holds it.
    pub(crate) cells: Vec<u32>,
    /// By product: the slice of its claim.
    pub(crate) claims: Vec<u32>,
    /// By state: the slice of the step that made it.
    pub(crate) made: Vec<u32>,
    /// By state: the slice of the claim that has it.
    pub(crate) taken: Vec<u32>,
    pub(crate) factories: Vec<Factory>,
    /// The products that are claimed or settled, by ascending slices.
    pub(crate) placed: Vec<Placed>,
    /// The cells of the claim in hand.
    pub(crate) held: Vec<u32>,
}

impl Ledger {
    ghost use Rattle.slice_write.specs.inside.Tables.{job, Keeps, Awaits, Notes, NotesClaim, NotesSettle, NotesStep};

    pub(crate) fn new(
        alloc: Global,
        products: &[Static],
        layout: &Layout,
        fails: &[Fail],
    ) -> Result<Ledger, Memory>
        ensures { IfOk result (Keeps (job products.now layout.now fails.now) []) }
    {
        Ok(Ledger {
            cells: zeros(alloc, layout.size() as usize)?,
            claims: zeros(alloc, products.len())?,
            made: Vec::new(alloc),
            taken: Vec::new(alloc),
            factories: factories(alloc, fails)?,
            placed: Vec::new(alloc),
            held: Vec::new(alloc),
        })
    }

    /// The slice of an entry that comes after those that the ledger has. The ledger then has it too.
    pub(crate) fn slice(
        &mut self,
        products: &[Static],
        layout: &Layout,
        entry: &Entry,
    ) -> Result<u32, Memory>
        requires qubits { (n : ℕ) × ProductsOfLength n products.now }
        requires awaits { Awaits products.now layout.now self.old entry.now }
        ensures { IfOk result (λ n. Notes products.now layout.now self.old entry.now n self.new) }
    {
        match entry {
            Entry::Claim {
                product,
                axis,
                port,
                state,
                cells,
            } => {
                let floor = self.floor(layout, axis, *port, *state, cells.cells())?;
                self.claim(products, *product, *state, floor)
            }
            Entry::Deliver { product, .. } => Ok(entry_at(&self.claims, *product as usize)),
            Entry::Release { product } => Ok(entry_at(&self.claims, *product as usize)),
            Entry::Step { factory } => self.step(layout, *factory),
            Entry::Settle { product, .. } => self.settle(products, *product),
        }
    }

    // Takes the cells of a claim in hand. The greatest slice among the claims that share one of them and the step that
    // made the state.
    fn floor(
        &mut self,
        layout: &Layout,
        axis: &Product,
        port: Option<u32>,
        state: Option<u32>,
        region: &[u32],
    ) -> Result<u32, Memory>
        requires size { length self.old.cells.items ≡ length layout.now.sites }
        requires region { All (λ c. c < length layout.now.sites) region.now }
        ensures held { IfOk result (λ n. (c : ℕ)
            → is_among self.new.held.items c ≡ is_claim_cell layout.now axis.now port region.now
            c) }
        ensures within { IfOk result (λ n. All
            (λ c. c < length layout.now.sites) self.new.held.items) }
        ensures value { IfOk result (λ n. n ≡ max
            (greatest_in self.old.cells.items self.new.held.items)
            (made_by self.old.made.items state)) }
        ensures others { IfOk result (λ n. self.new ≡ record self.old { held = self.new.held }) }
    {
        held_cells(layout, axis, port, region, &mut self.held)?;
        let made = match state {
            Some(state) => entry_at(&self.made, state as usize),
            None => 0,
        };
        Ok(greatest_at(&self.cells, &self.held).max(made))
    }

    // Notes a claim of the cells in hand, in the least slice after `floor` and all that doesn't commute with the product.
    fn claim(
        &mut self,
        products: &[Static],
        product: u32,
        state: Option<u32>,
        floor: u32,
    ) -> Result<u32, Memory>
        requires qubits { (n : ℕ) × ProductsOfLength n products.now }
        requires product { product < length products.now }
        requires products { length self.old.claims.items ≡ length products.now }
        requires placed { PlacedAre products.now self.old.placed.items }
        requires held { All (λ c. c < length self.old.cells.items) self.old.held.items }
        requires state { IfSome state (λ s. s < length self.old.taken.items) }
        requires few { max floor (greatest_clash products.now self.old.placed.items product)
            < 2 ^ 32 - 1 }
        ensures value { IfOk result (λ n. n ≡ 1 + max floor
            (greatest_clash products.now self.old.placed.items product)) }
        ensures notes { IfOk result (λ n. NotesClaim self.old self.new n product state) }
    {
        let slice = 1 + latest_clash(products, &self.placed, product, floor);
        set_at(&mut self.cells, &self.held, slice);
        raise(&mut self.claims, product as usize, slice);
        if let Some(state) = state {
            raise(&mut self.taken, state as usize, slice);
        }
        place(&mut self.placed, Placed { slice, product })?;
        Ok(slice)
    }

    fn settle(&mut self, products: &[Static], product: u32) -> Result<u32, Memory>
        requires qubits { (n : ℕ) × ProductsOfLength n products.now }
        requires product { product < length products.now }
        requires placed { PlacedAre products.now self.old.placed.items }
        ensures value { IfOk result
            (λ n. n ≡ greatest_clash products.now self.old.placed.items product) }
        ensures notes { IfOk result (λ n. NotesSettle self.old self.new n product) }
    {
        let slice = latest_clash(products, &self.placed, product, 0);
        place(&mut self.placed, Placed { slice, product })?;
        Ok(slice)
    }

    fn step(&mut self, layout: &Layout, factory: u32) -> Result<u32, Memory>
        requires known { factory < length self.old.factories.items }
        requires ready { (d : Factory) → IsReady self.old.taken.items
            (slice_index_or self.old.factories.items factory d)
            (store_in layout.now.sites factory) }
        ensures value { IfOk result (λ n. (d : Factory)
            → n ≡ step_of self.old.taken.items (slice_index_or self.old.factories.items factory d)
            (store_in layout.now.sites factory)) }
        ensures notes { IfOk result (λ n. (d : Factory)
            → NotesStep self.old self.new factory n
            (slice_index_or self.old.factories.items factory d)) }
    {
        let this = &self.factories[factory as usize];
        let room = if this.begins_a_run() {
            room(&self.taken, &this.own, store(layout, factory) as usize)
        } else {
            0
        };
        let slice = 1 + this.last.max(room);
        let this = &mut self.factories[factory as usize];
        if this.advance(slice) {
            this.own.push(self.made.len())?;
            self.made.push(slice)?;
            self.taken.push(0)?;
        }
        Ok(slice)
    }
}

fn factories(alloc: Global, fails: &[Fail]) -> Result<Vec<Factory>, Memory>
    ensures count { IfOk result (λ v. length v.items ≡ 16) }
    ensures fresh { IfOk result (λ v. (f : ℕ) (d : Factory) → f < 16
        → IsFresh fails.now f (slice_index_or v.items f d)) }
{
    let mut factories = Vec::new(alloc);
    for number in 0..FACTORIES {
        factories.push(Factory::new(alloc, fails, number)?)?;
    }
    Ok(factories)
}

// The store of a factory, and 0 where there is no such factory.
fn store(layout: &Layout, factory: u32) -> u32
    ensures { result ≡ store_in layout.now.sites factory }
{
    layout.store(factory).unwrap_or(0)
}
