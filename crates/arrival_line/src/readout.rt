//! Where outcomes come from.

ghost use Rattle.std.specs.Prelude.{◌≡◌, List, [], ◌∷◌, MatchOption};
ghost use Rattle.arrival_line.specs.declared.arrival.Arrival.{Arrival};

use crate::arrival::Arrival;

/// A source of arrivals, which can be moved to another thread.
pub trait Readout: Send + Drop {
    /// The arrivals left.
    ghost left: { Self → List Arrival };

    /// Takes the first arrival off. None exactly where none is left, and the list then stays empty.
    fn next(&mut self) -> Option<Arrival>
        ensures { MatchOption result
            ((left self.old ≡ []) × (left self.new ≡ []))
            (λ a. left self.old ≡ a ∷ left self.new) };
}
