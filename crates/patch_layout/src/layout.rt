//! Layouts: a grid of cells, of which some are patches, ports or walls.

ghost use Rattle.std.specs.Prelude.{◌≡◌, ℕ, ◌<◌, ◌↔◌, length, slice_get, Option, Some, None, IsTrue, IfOk, Contains};
ghost use Rattle.patch_layout.specs.Kept.{grid_of};
ghost use Rattle.patch_layout.specs.Region.{OnSide, Ascend};
ghost use Rattle.patch_layout.specs.Grid.{Sound, IsPatch, IsPort, neighbours, sides, beside, ancilla, tile_of, IsAncilla, Adjacent, HasStore, lies_level};
ghost use Rattle.patch_layout.specs.inside.Grid.{store_at};

use crate::tables::{columns_of, note};
use patch_base::Memory;
use std::alloc::Global;
use std::marker::Model;

/// A kind of side of a patch or a port.
#[derive(Clone, Copy, Debug, PartialEq, Eq)]
pub enum Edge {
    X,
    Z,
}

impl Edge {
    // Whether the sides of this kind lie left and right.
    fn lies_level(self, level: bool) -> bool
        ensures { result ≡ lies_level level self }
    {
        match self {
            Edge::X => level,
            Edge::Z => !level,
        }
    }
}

/// What a region must touch: the sides of one kind of a qubit's patch, or the Z sides of a factory's port.
#[derive(Clone, Copy, Debug, PartialEq, Eq)]
pub enum Side {
    Patch { qubit: u32, edge: Edge },
    Port { factory: u32 },
}

/// What a caller sees of a cell.
#[derive(Clone, Copy, Debug, PartialEq, Eq)]
pub enum Tile {
    Ancilla,
    Patch { qubit: u32 },
    Port { factory: u32 },
    Wall,
}

/// What a cell is. A level patch or port has its X sides left and right, and its Z sides above and below; else it is the other way round.
#[derive(Clone, Copy, Debug, PartialEq, Eq)]
pub enum Site {
    Ancilla,
    Wall,
    Patch {
        qubit: u32,
        level: bool,
    },
    Port {
        factory: u32,
        level: bool,
        store: u32,
    },
}

/// A grid of cells, row by row.
#[derive(Drop)]
pub struct Layout {
    rows: u32,
    columns: u32,
    sites: Vec<Site>,
    // The column of each cell: to look it up is faster than to divide.
    column_of: Vec<u32>,
    patches: Vec<Option<u32>>,
    ports: Vec<Option<u32>>,
}

impl Model for Layout {
    ghost use Rattle.patch_layout.specs.Grid.{Grid};
    ghost use Rattle.patch_layout.specs.Kept.{grid_of};
    ghost use Rattle.patch_layout.specs.inside.Kept.{Kept};

    ghost Value = { Grid };

    ghost view = { λ s. grid_of s.rows s.columns s.sites.items };

    ghost invariant = { λ s. Kept (grid_of s.rows s.columns s.sites.items) s.column_of.items
        s.patches.items s.ports.items };
}

impl Layout {
    /// The layout of these sites, row by row.
    pub fn of(alloc: Global, rows: u32, columns: u32, sites: Vec<Site>) -> Result<Layout, Memory>
        requires { Sound (grid_of rows columns sites.items) }
        ensures { IfOk result (λ layout. layout ≡ grid_of rows columns sites.items) }
    {
        let column_of = columns_of(alloc, sites.len() as u32, columns)?;
        let mut patches = vec![in alloc; None; 1024]?;
        let mut ports = vec![in alloc; None; 16]?;
        note(&sites, &mut patches, &mut ports);
        Ok(Layout {
            rows,
            columns,
            sites,
            column_of,
            patches,
            ports,
        })
    }

    /// An equal layout.
    pub fn copy(&self, alloc: Global) -> Result<Layout, Memory>
        ensures { IfOk result (λ layout. layout ≡ self.now) }
    {
        let sites = Vec::from_slice(alloc, &self.sites)?;
        let column_of = Vec::from_slice(alloc, &self.column_of)?;
        let patches = Vec::from_slice(alloc, &self.patches)?;
        let ports = Vec::from_slice(alloc, &self.ports)?;
        Ok(Layout {
            rows: self.rows,
            columns: self.columns,
            sites,
            column_of,
            patches,
            ports,
        })
    }

    /// The number of rows.
    pub fn rows(&self) -> u32
        ensures value { result ≡ self.now.rows }
        ensures sound { Sound self.now }
    {
        self.rows
    }

    /// The number of columns. The cell in row r and column c has the number r * columns + c.
    pub fn columns(&self) -> u32
        ensures value { result ≡ self.now.columns }
        ensures sound { Sound self.now }
    {
        self.columns
    }

    /// How many cells there are.
    pub fn size(&self) -> u32
        ensures value { result ≡ length self.now.sites }
        ensures sound { Sound self.now }
    {
        self.sites.len() as u32
    }

    /// What a cell is.
    pub fn tile(&self, cell: u32) -> Tile
        requires { cell < length self.now.sites }
        ensures { Some result ≡ tile_of (slice_get self.now.sites cell) }
    {
        match self.sites[cell as usize] {
            Site::Ancilla => Tile::Ancilla,
            Site::Wall => Tile::Wall,
            Site::Patch { qubit, .. } => Tile::Patch { qubit },
            Site::Port { factory, .. } => Tile::Port { factory },
        }
    }

    /// The cells above, left, right and below, where there are such cells.
    pub fn neighbours(&self, cell: u32) -> [Option<u32>; 4]
        requires { cell < length self.now.sites }
        ensures value { result ≡ neighbours self.now cell }
        ensures sound { Sound self.now }
    {
        let columns = self.columns;
        let above = if cell < columns {
            None
        } else {
            Some(cell - columns)
        };
        let column = self.column_of[cell as usize];
        let left = if column == 0 { None } else { Some(cell - 1) };
        let right = if column + 1 == columns {
            None
        } else {
            Some(cell + 1)
        };
        let below = if cell + columns < self.sites.len() as u32 {
            Some(cell + columns)
        } else {
            None
        };
        [above, left, right, below]
    }

    /// Whether two cells are neighbours.
    pub fn adjacent(&self, cell: u32, other: u32) -> bool
        requires { cell < length self.now.sites }
        ensures { IsTrue result ↔ Adjacent self.now cell other }
    {
        let [above, left, right, below] = self.neighbours(cell);
        if is_on([above, left], other) {
            return true;
        }
        is_on([right, below], other)
    }

    /// The ancilla neighbours on an edge of a patch or a port: left and right, or above and below.
    pub fn sides(&self, cell: u32, edge: Edge) -> [Option<u32>; 2]
        requires { cell < length self.now.sites }
        ensures { result ≡ sides self.now cell edge }
    {
        match self.sites[cell as usize] {
            Site::Ancilla => [None, None],
            Site::Wall => [None, None],
            Site::Patch { level, .. } => self.beside(cell, edge.lies_level(level)),
            Site::Port { level, .. } => self.beside(cell, edge.lies_level(level)),
        }
    }

    // The ancilla cells to the left and the right, or above and below.
    fn beside(&self, cell: u32, level: bool) -> [Option<u32>; 2]
        requires { cell < length self.now.sites }
        ensures { result ≡ beside self.now level cell }
    {
        let [above, left, right, below] = self.neighbours(cell);
        if level {
            [self.ancilla(left), self.ancilla(right)]
        } else {
            [self.ancilla(above), self.ancilla(below)]
        }
    }

    // The cell, where there is one and it is an ancilla cell.
    fn ancilla(&self, cell: Option<u32>) -> Option<u32>
        ensures { result ≡ ancilla self.now cell }
    {
        let cell = cell?;
        match self.sites.get(cell as usize) {
            Some(Site::Ancilla) => Some(cell),
            _ => None,
        }
    }

    /// Whether there is such a cell and it is an ancilla cell.
    pub fn is_ancilla(&self, cell: u32) -> bool
        ensures { IsTrue result ↔ IsAncilla self.now cell }
    {
        match self.sites.get(cell as usize) {
            Some(Site::Ancilla) => true,
            _ => false,
        }
    }

    /// The cell of the qubit's patch.
    pub fn patch(&self, qubit: u32) -> Option<u32>
        ensures { (c : ℕ) → (result ≡ Some c) ↔ IsPatch self.now qubit c }
    {
        entry(&self.patches, qubit)
    }

    /// The cell of the factory's port.
    pub fn port(&self, factory: u32) -> Option<u32>
        ensures { (c : ℕ) → (result ≡ Some c) ↔ IsPort self.now factory c }
    {
        entry(&self.ports, factory)
    }

    /// A number above all factories that have a port.
    pub(crate) fn factories(&self) -> u32
        ensures { (f c : ℕ) → IsPort self.now f c → f < result }
    {
        self.ports.len() as u32
    }

    /// The ancilla cells that lie on a side.
    pub fn side(&self, side: Side) -> [Option<u32>; 2]
        ensures value { (d : ℕ) → Contains result (Some d) ↔ OnSide self.now side d }
        ensures ascending { Ascend result }
    {
        match side {
            Side::Patch { qubit, edge } => match self.patch(qubit) {
                Some(cell) => self.sides_within(cell, edge),
                None => [None, None],
            },
            Side::Port { factory } => match self.port(factory) {
                Some(cell) => self.sides_within(cell, Edge::Z),
                None => [None, None],
            },
        }
    }

    // `sides`, and two None for a number that is no cell's.
    fn sides_within(&self, cell: u32, edge: Edge) -> [Option<u32>; 2]
        ensures value { result ≡ sides self.now cell edge }
        ensures ascending { Ascend result }
    {
        if cell < self.size() {
            self.sides(cell, edge)
        } else {
            [None, None]
        }
    }

    /// The store of the factory.
    pub fn store(&self, factory: u32) -> Option<u32>
        ensures value { (s : ℕ) → (result ≡ Some s) ↔ HasStore self.now factory s }
        ensures sound { Sound self.now }
    {
        match entry(&self.ports, factory) {
            Some(cell) => self.store_at(cell),
            None => None,
        }
    }

    fn store_at(&self, cell: u32) -> Option<u32>
        ensures { result ≡ store_at (slice_get self.now.sites cell) }
    {
        match self.sites.get(cell as usize) {
            Some(Site::Port { store, .. }) => Some(*store),
            _ => None,
        }
    }
}

// What a table has at a number, and None past its end.
fn entry(table: &[Option<u32>], at: u32) -> Option<u32>
    ensures { (c : ℕ) → (result ≡ Some c) ↔ (slice_get table.now at ≡ Some (Some c)) }
{
    let at = at as usize;
    if at < table.len() { table[at] } else { None }
}

/// Whether the cell is one of the two.
pub fn is_on(pair: [Option<u32>; 2], cell: u32) -> bool
    ensures { IsTrue result ↔ Contains pair (Some cell) }
{
    pair[0] == Some(cell) || pair[1] == Some(cell)
}
