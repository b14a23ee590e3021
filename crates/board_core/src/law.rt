//! What holds of every legal history, over definitions alone. The functions do nothing: each carries a law in its contract.

ghost use Rattle.board_core.specs.Laws.{LegalAndCompleteIsTheHeadline, AxisIsKnown, OwnAxisIsKnown, FlipIsKnown, EmptyIsLegal, AllowedGoesOn, LegalGoesBack, ClaimsHaveSourceAxes, OrderIsSourceOrderUpToSwaps, ClaimedAxisStays, FrameIsSource, ThirdHoldsBack, RegionsAreApart, StatesServeOnce, AxesAreSourceAxes, FlipsAreSourceFlips, FrontIsLegal, EntriesGoOn, DeliveriesGoOn, ClaimsGoOn, ClaimsHaveAxes, DeliveriesStand, UndoneIsUndelivered, ReleasedIsClaimed, TablesFit};
ghost use Rattle.board_core.specs.BoardLaws.{LooksAreEqual, AllowedClaimsHavePlans};
ghost use Rattle.board_core.specs.Limits.{LegalIsShort};

/// A legal history that is complete for a table of outcomes holds regions apart, takes each magic state once, completes
/// its products in source order up to swaps of commuting neighbours, and carries each out about its axis in source order.
pub fn law_headline()
    ensures { LegalAndCompleteIsTheHeadline }
{}

/// Behind the outcomes of the products before it a product's axis, or its flip, is the one that the whole table gives it.
pub fn law_axis_known()
    ensures axis { AxisIsKnown }
    ensures own { OwnAxisIsKnown }
    ensures flip { FlipIsKnown }
{}

/// The empty history is legal, and the others are legal histories with one allowed entry more.
pub fn law_next()
    ensures empty { EmptyIsLegal }
    ensures next { AllowedGoesOn }
    ensures back { LegalGoesBack }
    ensures front { FrontIsLegal }
{}

/// What stands in a history: entries one after another, first claims and deliveries, and what comes before what.
pub fn law_past()
    ensures entries { EntriesGoOn }
    ensures deliveries { DeliveriesGoOn }
    ensures claims { ClaimsGoOn }
    ensures axes { ClaimsHaveAxes }
    ensures stand { DeliveriesStand }
    ensures undone { UndoneIsUndelivered }
    ensures released { ReleasedIsClaimed }
    ensures tables { TablesFit }
{}

/// Each claim has the axis and sign of the source run, by every table that agrees with the deliveries.
pub fn law_claims()
    ensures { ClaimsHaveSourceAxes }
{}

/// Products are done in source order up to swaps of commuting neighbours.
pub fn law_order()
    ensures { OrderIsSourceOrderUpToSwaps }
{}

/// From its claim to its delivery a product's axis stays, and for a product that waits on none the axis kept by
/// corrections about executed axes is that of the source run.
pub fn law_frame()
    ensures stays { ClaimedAxisStays }
    ensures source { FrameIsSource }
{}

/// A product is held back through a third one, even by a product that it commutes with.
pub fn law_third()
    ensures { ThirdHoldsBack }
{}

/// Regions held together are disjoint.
pub fn law_apart()
    ensures { RegionsAreApart }
{}

/// Each magic state serves one rotation.
pub fn law_states()
    ensures { StatesServeOnce }
{}

/// Within the limits a legal history has fewer than 2^20 entries.
pub fn law_short()
    ensures { LegalIsShort }
{}

/// The laws of orders speak of the source run a gate at a time: its axes and flips are those of the circuit of static
/// products, whatever the outcomes.
pub fn law_source()
    ensures axes { AxesAreSourceAxes }
    ensures flips { FlipsAreSourceFlips }
{}

/// Two looks that show the same product of the same board are equal.
pub fn law_looks()
    ensures { LooksAreEqual }
{}

/// Each claim that legality allows has a plan that the check passes, and so a board accepts it.
pub fn law_plans()
    ensures { AllowedClaimsHavePlans }
{}
