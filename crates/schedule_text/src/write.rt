//! Entries and bits put through a pen, a line for each entry and for each register.

ghost use Rattle.std.specs.Prelude.{◌≡◌, ◌+◌, ◌<◌, ◌≤◌, ◌∷◌, ◌++◌, [], All, flat_map, length, decimal, OnOk, OnErr};
ghost use Rattle.patch_base.specs.Outside.{Rose, AppendsPrefix};
ghost use Rattle.patch_base.specs.Passes.{Passes};
ghost use Rattle.patch_base.specs.Texts.{digit};
ghost use Rattle.pauli_product.specs.Spelling.{product_text, letter_text};
ghost use Rattle.source_model.specs.Circuits.{WellFormed, bits_in};
ghost use Rattle.schedule_text.specs.Text.{optional, outcome_words, digits, bit_in, bits_text};
ghost use Rattle.schedule_text.specs.Pens.{IsWithin};
ghost use Rattle.schedule_text.specs.inside.Pens.{spread, head_words, cells_in, cell_word, entry_text, register_text};

use board_core::{Entry, Noted};
use node_log::Log;
use patch_base::{Failed, Pen, Sink};
use pauli_product::{Letter, Product};
use source_model::{Circuit, Given, Name, Register};

fn letter_byte(letter: Letter) -> u8
    ensures { letter_text letter ≡ result ∷ [] }
{
    match letter {
        Letter::I => b'I',
        Letter::X => b'X',
        Letter::Y => b'Y',
        Letter::Z => b'Z',
    }
}

fn put_digit(pen: &mut Pen, bit: bool)
    requires { length pen.old < 8192 }
    ensures { pen.new ≡ pen.old ++ digit bit }
{
    pen.put_byte(if bit { b'1' } else { b'0' });
}

fn put_letter_word(pen: &mut Pen, letter: u8)
    requires { length pen.old + 2 ≤ 8192 }
    ensures text { pen.new ≡ pen.old ++ 32 ∷ letter ∷ [] }
    ensures few { length pen.new ≡ length pen.old + 2 }
{
    pen.put_byte(b' ');
    pen.put_byte(letter);
}

fn put_number(pen: &mut Pen, n: u32)
    requires { length pen.old + 11 ≤ 8192 }
    ensures text { pen.new ≡ pen.old ++ 32 ∷ decimal n }
    ensures few { length pen.new ≤ length pen.old + 11 }
{
    pen.put_byte(b' ');
    pen.put_decimal(n);
}

fn put_optional(pen: &mut Pen, n: Option<u32>)
    requires { length pen.old + 11 ≤ 8192 }
    ensures text { pen.new ≡ pen.old ++ 32 ∷ optional n }
    ensures few { length pen.new ≤ length pen.old + 11 }
{
    match n {
        Some(n) => put_number(pen, n),
        None => put_letter_word(pen, b'-'),
    }
}

fn put_flag(pen: &mut Pen, bit: bool)
    requires { length pen.old + 2 ≤ 8192 }
    ensures text { pen.new ≡ pen.old ++ 32 ∷ digit bit }
    ensures few { length pen.new ≡ length pen.old + 2 }
{
    pen.put_byte(b' ');
    put_digit(pen, bit);
}

fn put_axis(pen: &mut Pen, axis: &Product)
    requires { length pen.old + 1026 ≤ 8192 }
    ensures text { pen.new ≡ pen.old ++ 32 ∷ product_text axis.now }
    ensures few { length pen.new ≤ length pen.old + 1026 }
{
    pen.put_byte(b' ');
    pen.put_byte(if axis.sign() { b'-' } else { b'+' });
    for q in 0..axis.len() {
        pen.put_byte(letter_byte(axis.letter(q)));
    }
}

fn put_given(pen: &mut Pen, given: Given)
    requires { length pen.old + 4 ≤ 8192 }
    ensures text { pen.new ≡ pen.old ++ spread (outcome_words given) }
    ensures few { length pen.new ≤ length pen.old + 4 }
{
    match given {
        Given::Rotation { raw, x } => {
            put_flag(pen, raw);
            put_flag(pen, x);
        }
        Given::Measure { raw } => put_flag(pen, raw),
        Given::Settled => {}
    }
}

// The words of an entry but for a claim's cells.
fn put_words(pen: &mut Pen, entry: &Entry)
    requires { length pen.old + 1100 ≤ 8192 }
    ensures text { pen.new ≡ pen.old ++ spread (head_words entry.now) }
    ensures few { length pen.new ≤ length pen.old + 1100 }
{
    match entry {
        Entry::Claim {
            product,
            axis,
            port,
            state,
            cells: _,
        } => {
            put_letter_word(pen, b'C');
            put_number(pen, *product);
            put_axis(pen, axis);
            put_optional(pen, *port);
            put_optional(pen, *state);
        }
        Entry::Deliver { product, given } => {
            put_letter_word(pen, b'D');
            put_number(pen, *product);
            put_given(pen, *given);
        }
        Entry::Release { product } => {
            put_letter_word(pen, b'R');
            put_number(pen, *product);
        }
        Entry::Step { factory } => {
            put_letter_word(pen, b'S');
            put_number(pen, *factory);
        }
        Entry::Settle { product, flip } => {
            put_letter_word(pen, b'T');
            put_number(pen, *product);
            put_flag(pen, *flip);
        }
    }
}

fn put_cell<O: Sink>(pen: &mut Pen, cell: u32, out: &mut O) -> Result<(), Failed>
    ensures counts { O.faults out.old ≤ O.faults out.new }
    ensures ok { OnOk result (Passes (O.taken out.old) (O.taken out.new) pen.old pen.new
        (cell_word cell)) }
    ensures room { OnOk result (length pen.new ≤ 8000) }
    ensures prefix { OnErr result (AppendsPrefix (O.taken out.old) (O.taken out.new)
        (pen.old ++ cell_word cell)) }
    ensures failed { OnErr result (Rose (O.faults out.old) (O.faults out.new)) }
{
    pen.make_room(out)?;
    put_number(pen, cell);
    Ok(())
}

fn put_cells<O: Sink>(pen: &mut Pen, cells: &[u32], out: &mut O) -> Result<(), Failed>
    requires { length pen.old ≤ 8000 }
    ensures counts { O.faults out.old ≤ O.faults out.new }
    ensures ok { OnOk result (Passes (O.taken out.old) (O.taken out.new) pen.old pen.new
        (flat_map cell_word cells.now)) }
    ensures room { OnOk result (length pen.new ≤ 8000) }
    ensures prefix { OnErr result (AppendsPrefix (O.taken out.old) (O.taken out.new)
        (pen.old ++ flat_map cell_word cells.now)) }
    ensures failed { OnErr result (Rose (O.faults out.old) (O.faults out.new)) }
{
    for cell in cells {
        put_cell(pen, *cell, out)?;
    }
    Ok(())
}

// A claim's cells; other entries have none.
fn put_cells_of<O: Sink>(pen: &mut Pen, entry: &Entry, out: &mut O) -> Result<(), Failed>
    requires { length pen.old ≤ 8000 }
    ensures counts { O.faults out.old ≤ O.faults out.new }
    ensures ok { OnOk result (Passes (O.taken out.old) (O.taken out.new) pen.old pen.new
        (flat_map cell_word (cells_in entry.now))) }
    ensures room { OnOk result (length pen.new ≤ 8000) }
    ensures prefix { OnErr result (AppendsPrefix (O.taken out.old) (O.taken out.new)
        (pen.old ++ flat_map cell_word (cells_in entry.now))) }
    ensures failed { OnErr result (Rose (O.faults out.old) (O.faults out.new)) }
{
    match entry {
        Entry::Claim { cells, .. } => put_cells(pen, cells.cells(), out),
        _ => Ok(()),
    }
}

// An entry's line.
fn put_entry<O: Sink>(pen: &mut Pen, noted: &Noted, out: &mut O) -> Result<(), Failed>
    ensures counts { O.faults out.old ≤ O.faults out.new }
    ensures ok { OnOk result (Passes (O.taken out.old) (O.taken out.new) pen.old pen.new
        (entry_text noted.now)) }
    ensures prefix { OnErr result (AppendsPrefix (O.taken out.old) (O.taken out.new)
        (pen.old ++ entry_text noted.now)) }
    ensures failed { OnErr result (Rose (O.faults out.old) (O.faults out.new)) }
{
    pen.make_room(out)?;
    pen.put_decimal(noted.by);
    put_words(pen, &noted.entry);
    put_cells_of(pen, &noted.entry, out)?;
    pen.put_byte(b'\n');
    Ok(())
}

fn put_bit<O: Sink>(pen: &mut Pen, bit: bool, out: &mut O) -> Result<(), Failed>
    ensures counts { O.faults out.old ≤ O.faults out.new }
    ensures ok { OnOk result (Passes (O.taken out.old) (O.taken out.new) pen.old pen.new
        (digit bit)) }
    ensures room { OnOk result (length pen.new ≤ 8000) }
    ensures prefix { OnErr result (AppendsPrefix (O.taken out.old) (O.taken out.new)
        (pen.old ++ digit bit)) }
    ensures failed { OnErr result (Rose (O.faults out.old) (O.faults out.new)) }
{
    pen.make_room(out)?;
    put_digit(pen, bit);
    Ok(())
}

// The digits of `size` bits from `first` on, the highest index first.
fn put_digits<O: Sink>(
    pen: &mut Pen,
    first: usize,
    size: usize,
    bits: &[bool],
    out: &mut O,
) -> Result<(), Failed>
    requires room { length pen.old ≤ 8000 }
    requires within { first + size ≤ length bits.now }
    ensures counts { O.faults out.old ≤ O.faults out.new }
    ensures ok { OnOk result (Passes (O.taken out.old) (O.taken out.new) pen.old pen.new
        (digits (bit_in bits.now) first size)) }
    ensures room { OnOk result (length pen.new ≤ 8000) }
    ensures prefix { OnErr result (AppendsPrefix (O.taken out.old) (O.taken out.new)
        (pen.old ++ digits (bit_in bits.now) first size)) }
    ensures failed { OnErr result (Rose (O.faults out.old) (O.faults out.new)) }
{
    for b in (first..first + size).rev() {
        put_bit(pen, bits[b], out)?;
    }
    Ok(())
}

fn put_name<O: Sink>(pen: &mut Pen, name: &Name, out: &mut O) -> Result<(), Failed>
    ensures counts { O.faults out.old ≤ O.faults out.new }
    ensures ok { OnOk result (Passes (O.taken out.old) (O.taken out.new) pen.old pen.new
        name.now) }
    ensures room { OnOk result (length pen.new ≤ 8191) }
    ensures prefix { OnErr result (AppendsPrefix (O.taken out.old) (O.taken out.new)
        (pen.old ++ name.now)) }
    ensures failed { OnErr result (Rose (O.faults out.old) (O.faults out.new)) }
{
    pen.put_all(name.bytes(), out)
}

// A register's line of bits.
fn put_register<O: Sink>(
    pen: &mut Pen,
    register: &Register,
    bits: &[bool],
    out: &mut O,
) -> Result<(), Failed>
    requires { register.now.first + register.now.size ≤ length bits.now }
    ensures counts { O.faults out.old ≤ O.faults out.new }
    ensures ok { OnOk result (Passes (O.taken out.old) (O.taken out.new) pen.old pen.new
        (register_text (bit_in bits.now) register.now)) }
    ensures prefix { OnErr result (AppendsPrefix (O.taken out.old) (O.taken out.new)
        (pen.old ++ register_text (bit_in bits.now) register.now)) }
    ensures failed { OnErr result (Rose (O.faults out.old) (O.faults out.new)) }
{
    pen.make_room(out)?;
    pen.put(b"bits ");
    put_name(pen, &register.name, out)?;
    pen.put_byte(b' ');
    pen.make_room(out)?;
    put_digits(
        pen,
        register.first as usize,
        register.size as usize,
        bits,
        out,
    )?;
    pen.put_byte(b'\n');
    Ok(())
}

fn put_registers<O: Sink>(
    pen: &mut Pen,
    registers: &[Register],
    bits: &[bool],
    out: &mut O,
) -> Result<(), Failed>
    requires { All (IsWithin (length bits.now)) registers.now }
    ensures counts { O.faults out.old ≤ O.faults out.new }
    ensures ok { OnOk result (Passes (O.taken out.old) (O.taken out.new) pen.old pen.new
        (flat_map (register_text (bit_in bits.now)) registers.now)) }
    ensures prefix { OnErr result (AppendsPrefix (O.taken out.old) (O.taken out.new)
        (pen.old ++ flat_map (register_text (bit_in bits.now)) registers.now)) }
    ensures failed { OnErr result (Rose (O.faults out.old) (O.faults out.new)) }
{
    for register in registers {
        put_register(pen, register, bits, out)?;
    }
    Ok(())
}

/// Puts the entries' lines.
pub(crate) fn put_entries<O: Sink>(
    pen: &mut Pen,
    history: &Log<Noted>,
    out: &mut O,
) -> Result<(), Failed>
    ensures counts { O.faults out.old ≤ O.faults out.new }
    ensures ok { OnOk result (Passes (O.taken out.old) (O.taken out.new) pen.old pen.new
        (flat_map entry_text history.now)) }
    ensures prefix { OnErr result (AppendsPrefix (O.taken out.old) (O.taken out.new)
        (pen.old ++ flat_map entry_text history.now)) }
    ensures failed { OnErr result (Rose (O.faults out.old) (O.faults out.new)) }
{
    for noted in history.walk() {
        put_entry(pen, noted, out)?;
    }
    Ok(())
}

/// Puts the lines of the registers' bits.
pub(crate) fn put_bits<O: Sink>(
    pen: &mut Pen,
    circuit: &Circuit,
    bits: &[bool],
    out: &mut O,
) -> Result<(), Failed>
    requires circuit { WellFormed circuit.now }
    requires bits { length bits.now ≡ bits_in circuit.now.registers }
    ensures counts { O.faults out.old ≤ O.faults out.new }
    ensures ok { OnOk result (Passes (O.taken out.old) (O.taken out.new) pen.old pen.new
        (bits_text circuit.now.registers (bit_in bits.now))) }
    ensures prefix { OnErr result (AppendsPrefix (O.taken out.old) (O.taken out.new)
        (pen.old ++ bits_text circuit.now.registers (bit_in bits.now))) }
    ensures failed { OnErr result (Rose (O.faults out.old) (O.faults out.new)) }
{
    put_registers(pen, circuit.registers.as_slice(), bits, out)
}
