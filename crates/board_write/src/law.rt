//! What holds of each board that is written, over definitions alone.

ghost use Rattle.board_write.specs.Laws.{CompleteBoardsAreSchedules};

use board_core::law_headline;
use schedule_text::law_legal_entries_stand;

/// The text of a legal board that is complete for a table of outcomes is the schedule of its one history.
pub fn law_complete_boards()
    ensures { CompleteBoardsAreSchedules }
{
    law_headline();
    law_legal_entries_stand();
}
