//! Where outcomes go.

ghost use Rattle.std.specs.Prelude.{◌≡◌, List};
ghost use Rattle.arrival_line.specs.declared.arrival.Arrival.{Arrival};
ghost use Rattle.arrival_line.specs.Made.{made_after};

use crate::arrival::Arrival;

/// What became of a try to deliver an outcome.
#[derive(Clone, Copy, Debug, PartialEq, Eq)]
pub enum Delivery {
    /// It was delivered.
    Done,
    /// It can't be delivered yet.
    Later,
    /// It can't be delivered at all.
    Never,
}

/// What delivers products' outcomes, each once its product is claimed.
pub trait Courier: Send + Drop {
    // What stays the same, whatever it delivers.
    ghost Key: { Type 0 };

    ghost key: { Self → Self.Key };
    /// What it has delivered, oldest first.
    ghost made: { Self → List Arrival };

    /// Tries to deliver an outcome.
    fn deliver(&mut self, arrival: Arrival) -> Delivery
        ensures key { key self.new ≡ key self.old }
        ensures made { made self.new ≡ made_after (made self.old) arrival result };
}
