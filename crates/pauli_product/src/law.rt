//! Laws of commuting and of conjugation, over definitions alone.
//!
//! The functions do nothing: each carries laws in its contract.

ghost use Rattle.pauli_product.specs.Laws.{TurnsAreJoined, AboutIsJoined, OddClashesDont, EvenClashesCommute, CommutingIsMutual, CommutingIsKept, ConjugationIsIdle, ConjugationMoves, ConjugationKeepsLength, ConjugationKeepsLetters, ConjugationCarries, ConjugationsExchange, PullIsCut, PullKeepsLength, PullKeepsLetters, TurnActsLast, PullCarries, PullOfTurns, PullIsCorrected, CarryIsCut, CarryKeepsLength, CarryKeepsLetters, CarryKeepsCommuting, CarryIsIdle, CarriesExchange, CarryOfRealProduct, CarryOfITimes, CarryOfNegated, RealOfThree, TurnsAreAlike, CorrectionsAreAlike, AlikeAreAbout, AlikeAreJoined, TurnsAboutAreLong};

/// Two products commute where they clash on an even number of qubits. Whether they do depends
/// neither on their order nor on a conjugation of both.
pub fn law_commuting()
    ensures mutual { CommutingIsMutual }
    ensures kept { CommutingIsKept }
    ensures even { EvenClashesCommute }
    ensures odd { OddClashesDont }
{}

/// A conjugation leaves what commutes with its axis as it is and moves what doesn't. It keeps the
/// number of qubits and a letter other than I, acts on the axis and on the product of another one,
/// and changes places with one about an axis that commutes with its own.
pub fn law_conjugation()
    ensures idle { ConjugationIsIdle }
    ensures moves { ConjugationMoves }
    ensures length { ConjugationKeepsLength }
    ensures letters { ConjugationKeepsLetters }
    ensures carries { ConjugationCarries }
    ensures exchange { ConjugationsExchange }
{}

/// A product is pulled through a list of turns, the latest first. A pull keeps the number of qubits
/// and a letter other than I, and each turn of the list may be made to act last. It takes turns
/// about an axis to turns about the pulled axis, so that corrections about an executed axis do what
/// turns about the own axis do.
pub fn law_pull()
    ensures cut { PullIsCut }
    ensures length { PullKeepsLength }
    ensures letters { PullKeepsLetters }
    ensures last { TurnActsLast }
    ensures carries { PullCarries }
    ensures turns { PullOfTurns }
    ensures corrected { PullIsCorrected }
{}

/// A product is corrected by a list of turns, the first one first. Corrections keep the number of
/// qubits, a letter other than I, and whether two products commute. They leave a product that
/// commutes with their axis as it is, and those about axes that commute change places.
pub fn law_carry()
    ensures cut { CarryIsCut }
    ensures length { CarryKeepsLength }
    ensures letters { CarryKeepsLetters }
    ensures commuting { CarryKeepsCommuting }
    ensures idle { CarryIsIdle }
    ensures exchange { CarriesExchange }
{}

/// A corrected product is the product of its corrected factors.
pub fn law_products()
    ensures real { CarryOfRealProduct }
    ensures i_times { CarryOfITimes }
    ensures negated { CarryOfNegated }
    ensures three { RealOfThree }
{}

/// A rotation's corrections about one axis have the angles of those about another, and so do lists
/// that are joined of such.
pub fn law_alike()
    ensures turns { TurnsAreAlike }
    ensures corrections { CorrectionsAreAlike }
    ensures about { AlikeAreAbout }
    ensures joined { AlikeAreJoined }
    ensures long { TurnsAboutAreLong }
    ensures one_axis { AboutIsJoined }
    ensures more { TurnsAreJoined }
{}
