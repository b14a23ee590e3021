//! Reading layout texts.

ghost use Rattle.std.specs.Prelude.{◌≡◌, ◌≢◌, ◌⊎◌, ℕ, ◌*◌, ◌<◌, ◌≤◌, ◌↔◌, [], ◌∷◌, length, drop, slice_get, slice_set, true, Some, None, IfOk, IfErr, IfSome, IfNone, MatchOption, MatchResult, IsTrue, IsFalse, Contains};
ghost use Rattle.patch_base.specs.Texts.{lines};
ghost use Rattle.patch_layout.specs.declared.line.Line.{Line};
ghost use Rattle.patch_layout.specs.declared.layout.Site.TheVariants as site;
ghost use Rattle.patch_layout.specs.Grid.{Grid, Open, Sound};
ghost use Rattle.patch_layout.specs.declared.fault.LayoutFault.{LayoutFault};
ghost use Rattle.patch_layout.specs.declared.fault.LayoutFault.TheVariants as fault;
ghost use Rattle.patch_layout.specs.Row.{demand};
ghost use Rattle.patch_layout.specs.Spread.{Marked};
ghost use Rattle.patch_layout.specs.LayoutText.{InRange, cell_of, Doubles, Takes, Breaks, Body, Formed, Sized, Twice, Laid, StandsFor, Refused};
ghost use Rattle.patch_layout.specs.inside.Reading.{HasKey, Keyed, BodyRefused, FormRefused, Proper, Lays, GridRefused};

use crate::fault::LayoutFault;
use crate::layout::{Layout, Site};
use crate::line::{Line, read_header, read_line};
use crate::openness::open_fault;
use patch_base::{CELLS, FACTORIES, Memory, Need, QUBITS, TEXT_BYTES, is_skipped, next_line};
use std::alloc::Global;

const BYTES: usize = TEXT_BYTES as usize;

// The header and the further lines of a layout text.
#[derive(Drop)]
struct Drawing {
    rows: u32,
    columns: u32,
    lines: Vec<Line>,
}

impl Layout {
    /// The layout that a text stands for, where it is open for what it must serve.
    ///
    /// The first line is `layout 1 ROWS COLUMNS`. Further lines, in any order, are `patch QUBIT CELL SIDE`, `port FACTORY CELL SIDE STORE` and `wall CELL`; a line that is empty or begins with `#` is passed over. SIDE is `h` where the X sides lie left and right, and `v` where they lie above and below. A cell that no line names is an ancilla cell.
    ///
    /// # Errors
    ///
    /// The first of `LayoutFault` that holds.
    pub fn read(alloc: Global, text: &[u8], need: &Need) -> Result<Layout, LayoutFault>
        requires { length need.now.used ≡ need.now.qubits }
        ensures stands { IfOk result (StandsFor text.now) }
        ensures sound { IfOk result Sound }
        ensures open { IfOk result (λ layout.
            Open layout (demand need.now.used need.now.rotations)) }
        ensures refused { IfErr result (Refused text.now
            (demand need.now.used need.now.rotations)) }

        // A text that stands for an open grid is refused only where memory is out.
        ensures exact { (g : Grid) → StandsFor text.now g
            → Open g (demand need.now.used need.now.rotations)
            → MatchResult result (λ layout. layout ≡ g) (λ f. f ≡ fault.Memory) }

        // A text with a cause to be refused is refused for it, or where memory is out.
        ensures told { (f : LayoutFault) → f ≢ fault.Memory
            → Refused text.now (demand need.now.used need.now.rotations) f
            → MatchResult result (λ _. ⊥) (λ e. (e ≡ f) ⊎ (e ≡ fault.Memory)) }
    {
        read_open(alloc, text, need)
    }
}

// The layout that a text stands for, where it is open.
fn read_open(alloc: Global, text: &[u8], need: &Need) -> Result<Layout, LayoutFault>
    requires { length need.now.used ≡ need.now.qubits }
    ensures stands { IfOk result (StandsFor text.now) }
    ensures sound { IfOk result Sound }
    ensures open { IfOk result (λ layout. Open layout (demand need.now.used need.now.rotations)) }
    ensures refused { IfErr result (Refused text.now (demand need.now.used need.now.rotations)) }
{
    if text.len() > BYTES {
        return Err(LayoutFault::TooLong);
    }
    let drawing = read_drawing(alloc, text)?;
    let layout = lay_out(alloc, drawing.rows, drawing.columns, &drawing.lines)?;
    match open_fault(alloc, &layout, need)? {
        Some(fault) => Err(fault),
        None => Ok(layout),
    }
}

// Marks a number, and tells whether it wasn't marked before.
fn mark(marks: &mut [bool], number: u32) -> bool
    requires { number < length marks.old }
    ensures fresh { IsTrue result → Marked marks.old number → ⊥ }
    ensures marked { IsFalse result → Marked marks.old number }
    ensures after { marks.new ≡ slice_set marks.old number true }
{
    let at = number as usize;
    let fresh = !marks[at];
    marks[at] = true;
    fresh
}

// Marks the qubit or the factory that a line has, and tells whether no line before has it.
fn take_key(line: Line, qubits: &mut [bool], factories: &mut [bool]) -> bool
    requires ranged { InRange line }
    requires qubits { length qubits.old ≡ 1024 }
    requires factories { length factories.old ≡ 16 }
    ensures fresh { IsTrue result → HasKey qubits.old factories.old line → ⊥ }
    ensures marked { IsFalse result → HasKey qubits.old factories.old line }
    ensures had { (other : Line) → HasKey qubits.new factories.new other
        → HasKey qubits.old factories.old other ⊎ Doubles line other }
    ensures has { (other : Line) → HasKey qubits.old factories.old other ⊎ Doubles line other
        → HasKey qubits.new factories.new other }
{
    match line {
        Line::Patch { qubit, .. } => mark(qubits, qubit),
        Line::Port { factory, .. } => mark(factories, factory),
        Line::Wall { .. } => true,
    }
}

// Adds the line that a text line spells, if it isn't passed over. False where the text line breaks the form.
fn take_line(
    text: &[u8],
    found: &mut Vec<Line>,
    qubits: &mut [bool],
    factories: &mut [bool],
) -> Result<bool, Memory>
    requires { Keyed found.old.items qubits.old factories.old }
    ensures takes { IfOk result (λ taken. IsTrue taken
        → Takes found.old.items text.now found.new.items) }
    ensures keyed { IfOk result (λ taken. IsTrue taken
        → Keyed found.new.items qubits.new factories.new) }
    ensures breaks { IfOk result (λ taken. IsFalse taken → Breaks found.old.items text.now) }
{
    if is_skipped(text) {
        return Ok(true);
    }
    let Some(line) = read_line(text) else {
        return Ok(false);
    };
    if !take_key(line, qubits, factories) {
        return Ok(false);
    }
    found.push(line)?;
    Ok(true)
}

// The text line that begins at a place, without its line feed, and the place after it.
fn line_at(text: &[u8], at: usize) -> Option<(&[u8], usize)>
    ensures { MatchOption result (lines (drop at text.now) ≡ []) (λ p. (at < p.1)
        × (p.1 ≤ length text.now)
        × (lines (drop at text.now) ≡ p.0.now ∷ lines (drop p.1 text.now))) }
{
    let line = next_line(text, at)?;
    Some((&text[line.start..line.end], line.next))
}

// Adds the lines that the text lines from a place on spell. The first of them is the second one of the text.
fn read_lines(
    text: &[u8],
    start: usize,
    found: &mut Vec<Line>,
    qubits: &mut [bool],
    factories: &mut [bool],
) -> Result<(), LayoutFault>
    requires short { length text.now ≤ 4194304 }
    requires empty { found.old.items ≡ [] }
    requires keyed { Keyed [] qubits.old factories.old }
    ensures body { IfOk result (λ _. Body [] (lines (drop start text.now)) found.new.items) }
    ensures refused { IfErr result (BodyRefused (lines (drop start text.now))) }
{
    let mut number = 2;
    let mut at = start;
    while let Some((line, next)) = line_at(text, at) {
        if !take_line(line, found, qubits, factories)? {
            return Err(LayoutFault::Form { line: number });
        }
        number += 1;
        at = next;
    }
    Ok(())
}

// The lines that the text lines from a place on spell. The first of them is the second one of the text.
fn read_body(alloc: Global, text: &[u8], start: usize) -> Result<Vec<Line>, LayoutFault>
    requires { length text.now ≤ 4194304 }
    ensures body { IfOk result (λ found. Body [] (lines (drop start text.now)) found.items) }
    ensures refused { IfErr result (BodyRefused (lines (drop start text.now))) }
{
    let mut found = Vec::new(alloc);
    let mut qubits = vec![in alloc; false; QUBITS as usize]?;
    let mut factories = vec![in alloc; false; FACTORIES as usize]?;
    read_lines(text, start, &mut found, &mut qubits, &mut factories)?;
    Ok(found)
}

// The header and the further lines of a text.
fn read_drawing(alloc: Global, text: &[u8]) -> Result<Drawing, LayoutFault>
    requires { length text.now ≤ 4194304 }
    ensures formed { IfOk result (λ d. Formed (lines text.now) d.rows d.columns d.lines.items) }
    ensures refused { IfErr result (FormRefused (lines text.now)) }
{
    let Some((first, next)) = line_at(text, 0) else {
        return Err(LayoutFault::Form { line: 1 });
    };
    let Some((rows, columns)) = read_header(first) else {
        return Err(LayoutFault::Form { line: 1 });
    };
    let lines = read_body(alloc, text, next)?;
    Ok(Drawing {
        rows,
        columns,
        lines,
    })
}

// How many cells there are, where there are 1 to 4,096.
fn cell_count(rows: u32, columns: u32) -> Option<u32>
    ensures some { IfSome result (λ n. (n ≡ rows * columns) × (0 < n) × (n ≤ 4096)) }
    ensures none { IfNone result (0 < rows * columns → rows * columns ≤ 4096 → ⊥) }
{
    let cells = rows as u64 * columns as u64;
    if cells == 0 || cells > CELLS as u64 {
        None
    } else {
        Some(cells as u32)
    }
}

// Whether all lines name cells below a number.
fn are_within(lines: &[Line], cells: u32) -> bool
    ensures { IsTrue result ↔ ((l : Line) → Contains lines.now l → cell_of l < cells) }
{
    for line in lines {
        if line.cell() >= cells {
            return false;
        }
    }
    true
}

// The lesser of two cells, of which the first may be wanting.
fn least_of(found: Option<u32>, cell: u32) -> u32
    ensures none { IfNone found (result ≡ cell) }
    ensures some { IfSome found (λ c. (result ≤ c) × (result ≤ cell)
        × ((result ≡ c) ⊎ (result ≡ cell))) }
{
    match found {
        Some(other) if other < cell => other,
        _ => cell,
    }
}

// Makes the cell of each line what the first line that names it says. The answer is the least cell that two lines name.
fn lay(lines: &[Line], sites: &mut [Site]) -> Option<u32>
    requires clear { (c : ℕ) → c < length sites.old → slice_get sites.old c ≡ Some site.Ancilla }
    requires within { (l : Line) → Contains lines.now l → cell_of l < length sites.old }
    ensures { Lays lines.now (length lines.now) sites.new result }
{
    let mut double = None;
    for line in lines {
        let cell = line.cell();
        let at = cell as usize;
        match sites[at] {
            Site::Ancilla => sites[at] = line.site(),
            _ => double = Some(least_of(double, cell)),
        }
    }
    double
}

// The layout that these lines make.
fn lay_out(alloc: Global, rows: u32, columns: u32, lines: &[Line]) -> Result<Layout, LayoutFault>
    requires { Proper lines.now }
    ensures sized { IfOk result (λ _. Sized rows columns lines.now) }
    ensures once { IfOk result (λ _. (c : ℕ) → Twice lines.now c → ⊥) }
    ensures laid { IfOk result (Laid rows columns lines.now) }
    ensures sound { IfOk result Sound }
    ensures refused { IfErr result (GridRefused rows columns lines.now) }
{
    let Some(cells) = cell_count(rows, columns) else {
        return Err(LayoutFault::Size);
    };
    if !are_within(lines, cells) {
        return Err(LayoutFault::Size);
    }
    let mut sites = vec![in alloc; Site::Ancilla; cells as usize]?;
    if let Some(cell) = lay(lines, &mut sites) {
        return Err(LayoutFault::Overlap { cell });
    }
    let layout = Layout::of(alloc, rows, columns, sites)?;
    Ok(layout)
}
