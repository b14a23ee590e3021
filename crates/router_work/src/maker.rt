//! Makers.

ghost use Rattle.std.specs.Prelude.{◌≡◌, ◌<◌, ◌≤◌, ℕ, ◌^◌, length, IfOk};
ghost use denote.RawPtr.{Ptr};
ghost use Rattle.board_core.specs.declared.board.BoardStepRefused.{BoardStepRefused as Refusals};
ghost use Rattle.grid_lock.specs.Passes.{IsPassOf};
ghost use Rattle.grid_lock.specs.declared.replies.TryStep.TheVariants as steps;
ghost use Rattle.router_work.specs.Passing.{IsStepOf, Passed};
ghost use Rattle.router_work.specs.Routing.{HasFactory};
ghost use Rattle.router_work.specs.Ends.{IsFull, MakerEnds, MetMore, TurnedMore};

use crate::calls::{PATIENCE, outwaits, step};
use board_core::{BoardStepWhy, Noted};
use grid_lock::{Grid, Pass, TryStep};
use magic_pool::Stepped;
use node_log::Node;
use std::alloc::Global;
use std::marker::Model;

/// How many refusals in a row end a maker.
pub(crate) const REFUSALS: u32 = 64;

/// Why a maker ended.
#[derive(Clone, Copy, Debug, PartialEq, Eq)]
pub enum MakerEnd {
    /// Its factory has as many ready states as it stores, and refused 64 steps in a row.
    Stocked,
    /// The turn was held 1,048,576 times in a row.
    Busy,
    /// Out of memory.
    Memory,
}

/// A worker that steps one factory, so that magic states are ready. Contracts see its grid, its pass and the factory.
#[derive(Drop)]
pub struct Maker<'a> {
    alloc: Global,
    grid: &'a Grid,
    pass: Pass,
    factory: u32,
}

impl<'a> Model for Maker<'a> {
    ghost use Rattle.grid_lock.specs.Passes.{IsPassOf};
    ghost use Rattle.router_work.specs.Routing.{HasFactory, Making};
    ghost use Rattle.router_work.specs.inside.Routing.{making};

    ghost Value = { Making };

    ghost view = { λ m. making m.grid.now m.pass m.factory };

    ghost invariant = { λ m. IsPassOf m.grid.now m.pass × HasFactory m.grid.now m.factory };
}

impl<'a> Maker<'a> {
    /// A maker with a pass of the grid, for a factory of the layout of the grid's board.
    pub fn new(alloc: Global, grid: &'a Grid, pass: Pass, factory: u32) -> Maker<'a>
        requires pass { IsPassOf grid.now pass }
        requires factory { HasFactory grid.now factory }
        ensures grid { result.grid ≡ grid.entry.now }
        ensures pass { result.pass ≡ pass }
        ensures factory { result.factory ≡ factory }
    {
        Maker {
            alloc,
            grid,
            pass,
            factory,
        }
    }

    /// The pass.
    pub fn into_pass(self) -> Pass
        ensures { result ≡ self.entry.pass }
    {
        self.pass
    }

    /// Steps the factory until it is full, and refused 64 steps in a row.
    pub fn work(&mut self) -> MakerEnd
        ensures grid { self.new.grid ≡ self.old.grid }
        ensures factory { self.new.factory ≡ self.old.factory }
        ensures passed { Passed (IsStepOf self.old.factory) self.old.pass self.new.pass }
        ensures ends { MakerEnds result self.old.factory self.old.pass self.new.pass }
    {
        fill(self.alloc, self.grid, &mut self.pass, self.factory)
    }
}

// Steps a factory until it is full, and refused 64 steps in a row.
fn fill(alloc: Global, grid: &Grid, pass: &mut Pass, factory: u32) -> MakerEnd
    requires grid { IsPassOf grid.now pass.old }
    requires factory { HasFactory grid.now factory }
    ensures passed { Passed (IsStepOf factory) pass.old pass.new }
    ensures ends { MakerEnds result factory pass.old pass.new }
{
    let _ = pass.number();
    let Ok(mut node) = Node::empty(alloc) else {
        return MakerEnd::Memory;
    };
    let mut patience = PATIENCE;
    let mut refusals = 0;
    while refusals < REFUSALS {
        match step_in_place(grid, pass, factory, node, &mut patience) {
            Ok(_) => {
                refusals = 0;
                match Node::empty(alloc) {
                    Ok(next) => node = next,
                    Err(_) => return MakerEnd::Memory,
                }
            }
            Err(TryStep::Busy { .. }) => return MakerEnd::Busy,
            Err(TryStep::Refused(refused)) => {
                refusals += 1;
                node = refused.node;
            }
        }
    }
    MakerEnd::Stocked
}

// Steps a factory, tried again whenever the history has grown, as long as the patience lasts: a router may have taken a state.
fn step_in_place(
    grid: &Grid,
    pass: &mut Pass,
    factory: u32,
    node: Node<Noted>,
    patience: &mut u32,
) -> Result<(u32, Stepped), TryStep>
    requires grid { IsPassOf grid.now pass.old }
    requires factory { HasFactory grid.now factory }
    ensures grid { IsPassOf grid.now pass.new }
    ensures passed { Passed (IsStepOf factory) pass.old pass.new }
    ensures longer { IfOk result (λ _.
        length pass.old.view.seen < length pass.new.view.seen) }
    ensures full { (r : Refusals) → result ≡ Err (steps.Refused r)
        → TurnedMore 1 pass.old pass.new × IsFull pass.new factory }
    ensures busy { (n : Ptr) → result ≡ Err (steps.Busy n) → MetMore 1048576 pass.old pass.new }
{
    let _ = pass.number();
    let mut node = node;
    for _again in 0..u32::MAX {
        let length = grid.length(pass);
        match step(grid, pass, factory, node) {
            Ok(stepped) => return Ok(stepped),
            Err(TryStep::Busy { node }) => return Err(TryStep::Busy { node }),
            Err(TryStep::Refused(refused)) => {
                if !outwaits(grid, pass, length, patience) {
                    return Err(TryStep::Refused(refused));
                }
                node = refused.node;
            }
        }
    }
    step(grid, pass, factory, node)
}
