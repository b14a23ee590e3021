//! What holds of programs side by side, over definitions alone. The functions do nothing: each carries a law in its contract.

ghost use Rattle.side_by_side.specs.Laws.{AxesAreThoseAlone, AxisIsThatAlone, EachIsOfAProgram, OwnAxesAreThoseAlone, BitsAreThoseAlone, RegistersAreThoseAlone, ClaimsAreThoseAlone, NoneSeesAnother, StaticsAreThoseAlone, ProgramsCommute, JoinedIsWellFormed, ProductsAreAdded, JoinedKindsAreRight, LettersStay};

/// In the joined run each program has the axes and the bits that it has alone, with I on all other qubits.
pub fn law_alone()
    ensures axes { AxesAreThoseAlone }
    ensures axis { AxisIsThatAlone }
    ensures each { EachIsOfAProgram }
    ensures own_axes { OwnAxesAreThoseAlone }
    ensures bits { BitsAreThoseAlone }
    ensures registers { RegistersAreThoseAlone }
{}

/// In each legal complete history of the joined programs a claim has the axis that its program alone gives it, and I on all
/// other qubits.
pub fn law_claims()
    ensures { ClaimsAreThoseAlone }
{}

/// A program with its outcomes has the same axes and bits whatever the other programs and their outcomes are.
pub fn law_unseen()
    ensures { NoneSeesAnother }
{}

/// The joined static products are those of each program alone, and those of different programs commute.
pub fn law_statics()
    ensures statics { StaticsAreThoseAlone }
    ensures commuting { ProgramsCommute }
{}

/// The joined circuit is well-formed, with the products of all its programs, and the joined outcomes are of its kinds.
pub fn law_joined()
    ensures circuit { JoinedIsWellFormed }
    ensures products { ProductsAreAdded }
    ensures kinds { JoinedKindsAreRight }
    ensures letters { LettersStay }
{}
