//! The rule of the grid's table, and the names of its steps.

ghost use Rattle.grid_lock.specs.Views.{opener, dealing, newcomer};
ghost use Rattle.grid_lock.specs.inside.Views.{gathering, spent};
ghost use Rattle.grid_lock.specs.Turn.{KeepsRule};
ghost use Rattle.grid_lock.specs.inside.Plays.{took, counted, looked, added, freed};

use crate::view::View;
use atomic_table::{Join, Play, Split, TableRule};
use board_core::Board;
use std::snapshot::Snapshot;

/// One legal history, which each pass has seen a beginning of.
pub struct OneHistory;

impl TableRule<Board, View, Snapshot<Board>> for OneHistory {
    ghost holds = { λ key. KeepsRule key.value };

    ghost first = { λ key. opener key.value };
}

/// The compare and exchange of the turn, from free to held.
pub struct Take;

impl Play<Board, View> for Take {
    ghost then = { took };
}

/// The load of the length by who holds the turn.
pub struct Count;

impl Play<Board, View> for Count {
    ghost then = { counted };
}

/// The load of the length by another.
pub struct Look;

impl Play<Board, View> for Look {
    ghost then = { looked };
}

/// The rise of the length by one.
pub struct Add;

impl Play<Board, View> for Add {
    ghost then = { added };
}

/// The store of the turn to free.
pub struct Free;

impl Play<Board, View> for Free {
    ghost then = { freed };
}

/// The split of a pass off pass 0.
pub struct Deal;

impl Split<View> for Deal {
    ghost left = { dealing };

    ghost right = { newcomer };
}

/// The join of a pass with pass 0.
pub struct Gather;

impl Join<View> for Gather {
    ghost both = { gathering };

    ghost spent = { spent };
}
