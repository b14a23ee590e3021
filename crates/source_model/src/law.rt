//! Laws of a circuit's run, over definitions alone.
//!
//! The functions do nothing: each carries a law in its contract.

ghost use Rattle.source_model.specs.Laws.{LaterOutcomesDontMatter, BitsAreLastOutcomes, StaticsKeepKinds, StaticItemsKeepKinds, StaticsStay, StaticsRunAlike, StaticsWriteAlike, AxesStayOnUsed};

/// A product's axis depends on the outcomes of the products before it alone.
pub fn law_later_outcomes()
    ensures { LaterOutcomesDontMatter }
{}

/// The bits depend on the effective outcomes alone: each is the last one that is measured into it.
pub fn law_bits()
    ensures { BitsAreLastOutcomes }
{}

/// A circuit, its static products and its static circuit have products of the same kinds, and the
/// static products of a static circuit are those that it was made of.
pub fn law_kinds()
    ensures statics { StaticsKeepKinds }
    ensures items { StaticItemsKeepKinds }
    ensures stay { StaticsStay }
{}

/// A circuit and its static circuit have equal axes and equal bits for every table.
pub fn law_equal_runs()
    ensures axes { StaticsRunAlike }
    ensures bits { StaticsWriteAlike }
{}

/// Rotations and measurements act on used qubits alone.
pub fn law_used()
    ensures { AxesStayOnUsed }
{}
