// The rule of the word, and the names of its steps.
ghost use Rattle.number_share.specs.inside.Views.{opener, dealing, dealt, joining, ended};
ghost use Rattle.number_share.specs.Rule.{Kept};
ghost use Rattle.number_share.specs.inside.Plays.{drew};

use crate::view::View;
use atomic_table::{Join, Play, Split, TableRule};

/// How many numbers are shared, and by how many hands.
#[derive(Clone, Copy)]
pub struct Counts {
    pub numbers: u32,
    pub owners: u32,
}

pub struct EachOnce;

impl TableRule<(), View, Counts> for EachOnce {
    ghost holds = { λ counts. Kept counts.numbers counts.owners };

    ghost first = { λ counts. opener counts.numbers counts.owners };
}

pub struct Draw;

impl Play<(), View> for Draw {
    ghost then = { drew };
}

pub struct Deal;

impl Split<View> for Deal {
    ghost left = { dealing };

    ghost right = { dealt };
}

pub struct Gather;

impl Join<View> for Gather {
    ghost both = { joining };

    ghost spent = { ended };
}
