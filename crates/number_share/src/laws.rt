//! What the rule of the word says of all hands together, and that shares and hands are made for
//! threads.

ghost use Rattle.std.specs.Prelude.{ℕ};
ghost use Rattle.atomic_table.specs.Table.{State};
ghost use Rattle.number_share.specs.declared.view.View.{View};
ghost use Rattle.number_share.specs.Rule.{Kept};
ghost use Rattle.number_share.specs.Moments.{Moment};

use crate::share::{Hand, Share};
use std::marker::{Send, Sync};

/// The rule holds between any two steps of any threads, so this does: no number is drawn twice, and
/// a hand is spent only where every shared number was drawn.
pub fn law_once()
    ensures { (numbers owners : ℕ) (s : State (Unit {0}) View) → Kept numbers owners s
        → Moment numbers s }
{}

fn is_shared<T: Sync>() {}

fn is_sent<T: Send>() {}

/// A share may be shared between threads, and a share and a hand may go to another thread.
pub fn law_threads() {
    is_shared::<Share>();
    is_sent::<Share>();
    is_sent::<Hand>();
}
