//! Plans: regions with certificates.

ghost use Rattle.std.specs.Prelude.{◌≡◌, ◌++◌, ◌∷◌, [], is_ok, IfOk, if◌then◌else◌};

use patch_base::{Listed, Memory};
use pauli_product::Product;
use std::alloc::Global;
use std::marker::Model;

/// Cell numbers, which contracts see as a list.
#[derive(Drop)]
pub struct CellList {
    cells: Vec<u32>,
}

impl Model for CellList {
    ghost use Rattle.std.specs.Prelude.{List, ℕ};

    ghost Value = { List ℕ };

    ghost view = { λ s. s.cells.items };
}

impl CellList {
    /// A list without cells.
    pub fn new(alloc: Global) -> CellList
        ensures { result ≡ [] }
    {
        CellList {
            cells: Vec::new(alloc),
        }
    }

    /// The list of these cells.
    pub fn of(cells: Vec<u32>) -> CellList
        ensures { result ≡ cells.items }
    {
        CellList { cells }
    }

    /// The cells, given back.
    pub fn into_vec(self) -> Vec<u32>
        ensures { result.items ≡ self }
    {
        self.cells
    }

    /// Appends a cell.
    pub fn push(&mut self, cell: u32) -> Result<(), Memory>
        ensures { self.new ≡ (if is_ok result then self.old ++ cell ∷ [] else self.old) }
    {
        match self.cells.push(cell) {
            Ok(()) => Ok(()),
            Err(_) => Err(Memory),
        }
    }

    /// The cells, in the list's order.
    pub fn cells(&self) -> &[u32]
        ensures { result.now ≡ self.now }
    {
        self.cells.as_slice()
    }

    /// An equal list.
    pub fn copy(&self, alloc: Global) -> Result<CellList, Memory>
        ensures { IfOk result (λ list. list ≡ self.now) }
    {
        let cells = Vec::from_slice(alloc, &self.cells)?;
        Ok(CellList { cells })
    }
}

/// An entry of a certificate's tree: the index of a neighbouring cell that is one step nearer to the root, or of the cell itself at depth 0.
#[derive(Clone, Copy, Debug, PartialEq, Eq)]
pub struct Parent {
    pub index: u32,
    pub depth: u32,
}

/// The parents of a plan's cells, in the order of the cells.
pub type ParentList = Listed<Parent>;

/// The indices of the cells that touch the sides, in the order of the sides.
pub type TouchList = Listed<u32>;

/// The first rule that a plan breaks.
#[derive(Clone, Copy, Debug, PartialEq, Eq)]
pub enum Fault {
    Shape,
    Port,
    Cell { index: u32 },
    Parent { index: u32 },
    Touch { index: u32 },
}

/// A region with its certificate.
#[derive(Drop)]
pub struct Plan {
    pub number: u32,
    pub axis: Product,
    pub cells: CellList,
    pub parents: ParentList,
    pub touches: TouchList,
    pub port: Option<u32>,
}
