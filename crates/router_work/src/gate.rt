//! Gates: what a router asks at each point of its work.

ghost use Rattle.std.specs.Prelude.{◌≡◌, ℕ, ◌-◌, ◌<◌, ◌≤◌};
ghost use Rattle.patch_base.specs.Outside.{Rose};
ghost use Rattle.router_work.specs.Gates.{HoldsBack};

/// A point of a router's work.
#[derive(Clone, Copy, Debug, PartialEq, Eq)]
pub enum Point {
    /// The router took the number of a product.
    Took {
        product: u32,
    },
    /// It looked at the board, whose history had this length.
    Looked {
        product: u32,
        length: u32,
    },
    /// The planner answered, with a region or without.
    Planned {
        product: u32,
        region: bool,
    },
    /// The board answered the claim: it was accepted, or refused since a cell was held, or neither. The length is that of
    /// the history just after.
    Answered {
        product: u32,
        claimed: bool,
        held: bool,
        length: u32,
    },
    /// The product's outcome was delivered, or the product settled.
    Delivered {
        product: u32,
    },
    /// The product was released.
    Released {
        product: u32,
    },
}

/// Whether a router goes on.
#[derive(Clone, Copy, Debug, PartialEq, Eq)]
pub enum Onward {
    Go,
    Stop,
}

/// What a router asks at each point of its work. The count of its stops doesn't fall.
pub trait Gate: Send + Drop {
    /// How often it said Stop.
    ghost stops: { Self → ℕ };

    /// Whether the router goes on from a point.
    fn at(&mut self, point: Point) -> Onward
        ensures counts { stops self.old ≤ stops self.new }
        ensures stopped { result ≡ Onward.Stop → Rose (stops self.old) (stops self.new) };
}

/// The gate that always lets the router go on.
#[derive(Clone, Copy, Debug, Drop)]
pub struct NoGate;

impl Gate for NoGate {
    ghost stops = { λ _. 0 };

    fn at(&mut self, _point: Point) -> Onward
        ensures counts { 0 ≤ 0 }
        ensures stopped { result ≡ Onward.Stop → Rose 0 0 }
        ensures goes { result ≡ Onward.Go }
    {
        Onward::Go
    }
}

/// The gate that lets the router go on `left` times, and stops it from then on. `stops` counts the stops, as long as it can.
#[derive(Clone, Copy, Debug, PartialEq, Eq, Drop)]
pub struct StopAt {
    pub left: u32,
    pub stops: u64,
}

impl Gate for StopAt {
    ghost stops = { λ gate. gate.stops };

    fn at(&mut self, _point: Point) -> Onward
        ensures counts { self.old.stops ≤ self.new.stops }
        ensures stopped { result ≡ Onward.Stop → Rose self.old.stops self.new.stops }
        ensures told { HoldsBack self.old result self.new }
    {
        if self.left > 0 {
            self.left -= 1;
            return Onward::Go;
        }
        if self.stops == u64::MAX {
            return Onward::Go;
        }
        self.stops += 1;
        Onward::Stop
    }
}
