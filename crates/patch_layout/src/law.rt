//! Laws of layouts, regions and their certificates, over definitions alone.
//!
//! The functions do nothing: each carries a law in its contract.

ghost use Rattle.patch_layout.specs.Laws.{FitsHaveCertificates, CertifiedFits, CertifiedAscends, NeighboursAreMutual, SidesAreAncilla, RowPatchesStand, GridOrFault, NotBoth, OneGrid, OneFault};

/// Each ascending list of cells that fits has a certificate that the check passes.
pub fn law_certificate()
    ensures { FitsHaveCertificates }
{}

/// What the check passes fits.
pub fn law_certified_fits()
    ensures { CertifiedFits }
{}

/// The cells of what the check passes ascend.
pub fn law_certified_ascends()
    ensures { CertifiedAscends }
{}

/// A cell is a neighbour of each of its neighbours.
pub fn law_neighbours()
    ensures { NeighboursAreMutual }
{}

/// The cells on a side of a patch or a port are ancilla cells.
pub fn law_sides()
    ensures { SidesAreAncilla }
{}

/// The row layout has no patches but those of its qubits.
pub fn law_row_patches()
    ensures { RowPatchesStand }
{}

/// Each text stands for a grid, open or not, or is refused for its form.
pub fn law_answer()
    ensures { GridOrFault }
{}

/// A text that stands for a grid isn't refused for its form.
pub fn law_not_both()
    ensures { NotBoth }
{}

/// A text stands for one grid at most.
pub fn law_one_grid()
    ensures { OneGrid }
{}

/// A text is refused for its form with one fault at most.
pub fn law_one_fault()
    ensures { OneFault }
{}
