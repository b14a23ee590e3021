//! What holds of each board that is brought to its end, over definitions alone.

ghost use Rattle.finish_run.specs.Finished.{NewBoardsAreByZero};

/// A new board that is brought to its end has entries by worker 0 alone.
pub fn law_by_zero()
    ensures { NewBoardsAreByZero }
{}
