// The step on the word.
ghost use Rattle.std.specs.Prelude.{◌≡◌, ◌<◌, ◌≤◌, []};
ghost use Rattle.number_share.specs.inside.Views.{drawing, passing, IsSound};

use crate::rule::{Counts, Draw, EachOnce};
use crate::view::View;
use atomic_table::{Seat, Shared};

pub(crate) type Core = Shared<(), View, Counts, EachOnce>;

pub(crate) type HandSeat = Seat<(), View>;

/// The place of the word: the next number.
pub(crate) const NEXT: usize = 0;

/// Reads the next number, and raises the word by 1.
pub(crate) fn draw(core: &Core, seat: &mut HandSeat) -> u64
    requires core { (core.now.table_id.words ≡ 1) × (seat.old.table_id ≡ core.now.table_id) }
    requires unspent { (seat.old.me.0.part ≡ 1) × (seat.old.me.0.past ≡ []) }
    ensures seat { (seat.new.table_id ≡ seat.old.table_id) × (seat.new.me.1 ≡ seat.old.me.1) }
    ensures drawn { result < seat.old.me.0.numbers → (seat.new.me.0 ≡ drawing seat.old.me.0 result)
        × IsSound seat.new.me.0 }
    ensures past { seat.old.me.0.numbers ≤ result → seat.new.me.0 ≡ passing seat.old.me.0 result }
{
    core.fetch_add::<Draw>(seat, NEXT, 1)
}
