//! The picture of a layout without claims, put through a pen.

ghost use Rattle.std.specs.Prelude.{◌≡◌, ◌+◌, ◌<◌, ◌≤◌, ◌∷◌, ◌++◌, Some, flat_map, length, replicate, decimal, OnOk, OnErr};
ghost use Rattle.patch_base.specs.Outside.{Rose, AppendsPrefix};
ghost use Rattle.patch_base.specs.Passes.{Passes};
ghost use Rattle.slice_write.specs.Slices.{upto};
ghost use Rattle.slice_write.specs.Pictures.{aligned, tile_text, piece, nobody};

use itoa::Buffer;
use patch_base::{Failed, Pen, Sink};
use patch_layout::{Layout, Tile};

// So many spaces.
fn put_spaces(pen: &mut Pen, n: usize)
    requires { length pen.old + n ≤ 8192 }
    ensures { pen.new ≡ pen.old ++ replicate n 32 }
{
    'spaces: for _ in 0..n {
        pen.put_byte(b' ');
    }
}

// A letter and a number, at the right of six columns.
fn put_aligned(pen: &mut Pen, letter: u8, n: u32)
    requires { length pen.old + 16 ≤ 8192 }
    ensures text { pen.new ≡ pen.old ++ aligned (letter ∷ decimal n) }
    ensures few { length pen.new ≤ length pen.old + 16 }
{
    let mut buffer = Buffer::new();
    let digits = buffer.format(n).as_bytes();
    put_spaces(pen, 5usize.saturating_sub(digits.len()));
    pen.put_byte(letter);
    pen.put(digits);
}

fn put_tile(pen: &mut Pen, tile: Tile)
    requires { length pen.old + 16 ≤ 8192 }
    ensures text { pen.new ≡ pen.old ++ aligned (tile_text (Some tile)) }
    ensures few { length pen.new ≤ length pen.old + 16 }
{
    match tile {
        Tile::Ancilla => pen.put(b"     ."),
        Tile::Wall => pen.put(b"     #"),
        Tile::Patch { qubit } => put_aligned(pen, b'q', qubit),
        Tile::Port { factory } => put_aligned(pen, b'm', factory),
    }
}

/// Puts a cell without its claims, and the end of a row after the last cell of it.
pub(crate) fn put_piece(pen: &mut Pen, layout: &Layout, cell: u32)
    requires room { length pen.old + 17 ≤ 8192 }
    requires cell { cell < length layout.now.sites }
    ensures text { pen.new ≡ pen.old ++ piece layout.now nobody cell }
    ensures few { length pen.new ≤ length pen.old + 17 }
{
    let columns = layout.columns();
    put_tile(pen, layout.tile(cell));
    if (cell + 1) % columns == 0 {
        pen.put_byte(b'\n');
    }
}

fn put_cell<O: Sink>(pen: &mut Pen, layout: &Layout, cell: u32, out: &mut O) -> Result<(), Failed>
    requires { cell < length layout.now.sites }
    ensures counts { O.faults out.old ≤ O.faults out.new }
    ensures ok { OnOk result (Passes (O.taken out.old) (O.taken out.new) pen.old pen.new
        (piece layout.now nobody cell)) }
    ensures prefix { OnErr result (AppendsPrefix (O.taken out.old) (O.taken out.new)
        (pen.old ++ piece layout.now nobody cell)) }
    ensures failed { OnErr result (Rose (O.faults out.old) (O.faults out.new)) }
{
    pen.make_room(out)?;
    put_piece(pen, layout, cell);
    Ok(())
}

/// Puts the picture without claims.
pub(crate) fn put_picture<O: Sink>(
    pen: &mut Pen,
    layout: &Layout,
    out: &mut O,
) -> Result<(), Failed>
    ensures counts { O.faults out.old ≤ O.faults out.new }
    ensures ok { OnOk result (Passes (O.taken out.old) (O.taken out.new) pen.old pen.new
        (flat_map (piece layout.now nobody) (upto (length layout.now.sites)))) }
    ensures prefix { OnErr result (AppendsPrefix (O.taken out.old) (O.taken out.new)
        (pen.old ++ flat_map (piece layout.now nobody) (upto (length layout.now.sites)))) }
    ensures failed { OnErr result (Rose (O.faults out.old) (O.faults out.new)) }
{
    for cell in 0..layout.size() {
        put_cell(pen, layout, cell, out)?;
    }
    Ok(())
}
