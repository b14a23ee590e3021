//! Lines and numbers to a sink.

ghost use Rattle.std.specs.Prelude.{◌≤◌, ◌++◌, decimal, OnOk, OnErr};
ghost use Rattle.patch_base.specs.Outside.{Rose, Grew, AppendsPrefix};
ghost use Rattle.fault_lines.specs.Lines.{plain, numbered};

use itoa::Buffer;
use patch_base::{Failed, Sink, write_all};

/// Writes a line of two parts.
pub fn write_line<O: Sink>(out: &mut O, first: &[u8], second: &[u8]) -> Result<(), Failed>
    ensures counts { O.faults out.old ≤ O.faults out.new }
    ensures all { OnOk result (Grew (O.taken out.old) (O.taken out.new)
        (plain first.now second.now)) }
    ensures part { OnErr result (AppendsPrefix (O.taken out.old) (O.taken out.new)
        (plain first.now second.now)) }
    ensures failed { OnErr result (Rose (O.faults out.old) (O.faults out.new)) }
{
    write_all(out, first)?;
    write_all(out, second)?;
    write_all(out, b"\n")?;
    Ok(())
}

/// Writes some bytes and a number.
///
/// # Errors
///
/// `Failed` where the sink failed, which then took a prefix of these bytes.
pub fn write_number<O: Sink>(out: &mut O, first: &[u8], number: u32) -> Result<(), Failed>
    ensures counts { O.faults out.old ≤ O.faults out.new }
    ensures all { OnOk result (Grew (O.taken out.old) (O.taken out.new)
        (first.now ++ decimal number)) }
    ensures part { OnErr result (AppendsPrefix (O.taken out.old) (O.taken out.new)
        (first.now ++ decimal number)) }
    ensures failed { OnErr result (Rose (O.faults out.old) (O.faults out.new)) }
{
    let mut buffer = Buffer::new();
    write_all(out, first)?;
    write_all(out, buffer.format(number).as_bytes())?;
    Ok(())
}

/// Writes a line with a number in it.
///
/// # Errors
///
/// `Failed` where the sink failed, which then took a prefix of the line.
pub fn write_numbered<O: Sink>(
    out: &mut O,
    first: &[u8],
    number: u32,
    last: &[u8],
) -> Result<(), Failed>
    ensures counts { O.faults out.old ≤ O.faults out.new }
    ensures all { OnOk result (Grew (O.taken out.old) (O.taken out.new)
        (numbered first.now number last.now)) }
    ensures part { OnErr result (AppendsPrefix (O.taken out.old) (O.taken out.new)
        (numbered first.now number last.now)) }
    ensures failed { OnErr result (Rose (O.faults out.old) (O.faults out.new)) }
{
    write_number(out, first, number)?;
    write_all(out, last)?;
    write_all(out, b"\n")?;
    Ok(())
}
