//! The command `big`: a job that is made from a number, carried out by routers.

ghost use Rattle.std.specs.Prelude.{◌≡◌, ◌≤◌, [], ◌++◌, IfOk, OnOk, count_by};
ghost use Rattle.fault_lines.specs.Lines.{numbered};
ghost use Rattle.fault_lines.specs.Sinks.{writing};
ghost use Rattle.rotation_list.specs.Needs.{is_rotation};
ghost use Rattle.tool_words.specs.Commands.{AreRouters};
ghost use Rattle.tool_words.specs.Commands as words;
ghost use Rattle.job_read.specs.Shelves.{Shelved};
ghost use Rattle.run_top.specs.Big.{heading};
ghost use Rattle.run_top.specs.Ends.{Ends};
ghost use Rattle.run_top.specs.Told.{Accepts};
ghost use Rattle.run_top.specs.inside.Told.{IsDone};

use crate::carry::carry_out;
use crate::fault::RunFault;
use board_write::write_board_bits;
use job_read::make_job;
use patch_base::{Memory, Sink, put_decimal};
use source_model::{Kind, Static};
use std::alloc::Global;
use std::thread::Threads;

/// Makes a job from a number, has it carried out by k routers, and writes how many products and rotations it has, and its
/// bits.
pub fn run_big<T: Threads + Sync, O: Sink>(
    rt: &T,
    alloc: Global,
    n: u32,
    k: u32,
    out: &mut O,
) -> Result<(), RunFault>
    requires size { n ≤ 4000 }
    requires routers { AreRouters k }
    ensures out_counts { O.faults out.old ≤ O.faults out.new }
    ensures ends { let w = writing O.taken O.faults out.old out.new in
        (r : Shelved) → Ends r w (words.big n k) result }
    ensures complete { (r : Shelved) → Accepts r (words.big n k) → IsDone result }
{
    let job = make_job(alloc, n)?;
    let heading = heading(alloc, n, job.products.as_slice())?;
    let done = carry_out(rt, alloc, job, k)?;
    write_board_bits(alloc, &heading, &done.circuit, &done.board, out)?;
    Ok(())
}

// The lines before the bits: the number that a job is made from, and how many products and rotations it has.
fn heading(alloc: Global, n: u32, products: &[Static]) -> Result<Vec<u8>, Memory>
    ensures { IfOk result (λ text. text.items ≡ heading n products.now) }
{
    let mut text = Vec::new(alloc);
    put_line(b"big ", u64::from(n), &mut text)?;
    put_line(b"products ", products.len() as u64, &mut text)?;
    put_line(b"rotations ", rotations(products) as u64, &mut text)?;
    Ok(text)
}

// A line of a word and a number.
fn put_line(word: &[u8], number: u64, into: &mut Vec<u8>) -> Result<(), Memory>
    ensures { OnOk result (into.new.items ≡ into.old.items ++ numbered word.now number []) }
{
    into.extend_from_slice(word)?;
    put_decimal(number, into)?;
    into.push(b'\n')?;
    Ok(())
}

// How many of the products are rotations.
fn rotations(products: &[Static]) -> usize
    ensures { result ≡ count_by is_rotation products.now }
{
    products
        .iter()
        .filter(|product| is_rotation(product))
        .count()
}

fn is_rotation(product: &Static) -> bool
    ensures { result ≡ is_rotation product.now }
{
    matches!(product.kind, Kind::Rotation)
}
