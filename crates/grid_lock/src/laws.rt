//! What the rule of the grid's table says, and that grids and passes are made for threads.

ghost use Rattle.atomic_table.specs.Table.{State};
ghost use Rattle.board_core.specs.Position.{Position};
ghost use Rattle.grid_lock.specs.declared.view.View.{View};
ghost use Rattle.grid_lock.specs.Turn.{KeepsRule};
ghost use Rattle.grid_lock.specs.Moments.{Moment};

use crate::grid::{Grid, Pass};
use std::marker::{Send, Sync};

/// The rule holds between any two steps of any threads, so this does.
pub fn law_moment()
    ensures { (start : Position) (s : State Position View) → KeepsRule start s → Moment start s }
{}

fn is_shared<T: Sync>() {}

fn is_sent<T: Send>() {}

/// A grid may be shared between threads, and a grid and a pass may go to another thread.
pub fn law_threads() {
    is_shared::<Grid>();
    is_sent::<Grid>();
    is_sent::<Pass>();
}
