//! Laws of the orders in which signed Pauli products are carried out.
//!
//! A product has a static axis, which is its own axis pulled through the circuit's Clifford rotations
//! (Litinski, "A Game of Surface Codes", Quantum 3, 128, 2019, section 1), and acts as a rotation, a
//! measurement or a settled product, which flips where bits spell its value. Carried out in any
//! order, it is executed about its static axis conjugated by the corrections so far.
//!
//! The functions do nothing: each carries a law in its contract.
#![tactic(auto)]

ghost use Rattle.pauli_product.specs.Laws.{CommutingIsKept, ConjugationCarries, ConjugationsExchange, TurnActsLast};
ghost use Rattle.trace_laws.specs.Laws.{NeighboursKeepAxes, OrderComesBySwaps, WaitingKeepsAxes, SourceAxes, WaitingKeepsFlips, BitsGiveAxes, NextWaits, NextHasSourceAxis, KnownAxis, KnownFlip, WaitingIsClosed, WaitingIsWithin, WaitingGrows, WaitingIsExchanged, SourceAxisIsPulled, BitsAgree, NumbersAgree};

/// Two products commute exactly where their conjugates do.
pub fn law_keep()
    ensures { CommutingIsKept }
{}

/// A conjugation acts on the axis and on the product of a conjugation.
pub fn law_carry()
    ensures { ConjugationCarries }
{}

/// Conjugations about axes that commute change places.
pub fn law_exchange()
    ensures { ConjugationsExchange }
{}

/// A turn in the middle of a list acts last, about its axis pulled through those before it.
pub fn law_move()
    ensures { TurnActsLast }
{}

/// Neighbours whose static axes commute change places, and no product's axis changes, whatever
/// flips.
pub fn law_neighbours()
    ensures { NeighboursKeepAxes }
{}

/// An order of all products in which no pair that doesn't commute stands reversed comes from the
/// source order by exchanges of commuting neighbours.
pub fn law_swaps()
    ensures { OrderComesBySwaps }
{}

/// Where each product waits for its earlier products with anticommuting static axes, it has the
/// axis of source order, whatever flips. With the flips of one gate at a time that is the axis of
/// one gate at a time.
pub fn law_held_back()
    ensures axes { WaitingKeepsAxes }
    ensures source { SourceAxes }
{}

/// Where each product waits for its earlier products that don't commute with it, bits included, it
/// flips as one gate at a time does, and so has the axis that these flips give.
pub fn law_flips()
    ensures flips { WaitingKeepsFlips }
    ensures axes { BitsGiveAxes }
{}

/// A product that waits on none may be the next of an order, and has the axis of one gate at a time.
/// That axis and whether it flips depend on the outcomes along the order alone.
pub fn law_next()
    ensures waits { NextWaits }
    ensures axis { NextHasSourceAxis }
    ensures known_axis { KnownAxis }
    ensures known_flip { KnownFlip }
{}

/// An order in which each product waits has what its products wait for, may grow by a product that
/// waits on none, and comes, with the other products after it, by exchanges of neighbours.
pub fn law_waiting()
    ensures closed { WaitingIsClosed }
    ensures within { WaitingIsWithin }
    ensures grows { WaitingGrows }
    ensures exchanged { WaitingIsExchanged }
{}

/// A source axis is the static axis pulled through the turns of one gate at a time, bits agree where
/// the axes of the products that write them do, and numbers agree where their bits do.
pub fn law_bits()
    ensures axis { SourceAxisIsPulled }
    ensures bits { BitsAgree }
    ensures numbers { NumbersAgree }
{}
