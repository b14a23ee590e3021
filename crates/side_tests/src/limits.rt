//! The program by which each limit of a circuit is passed.

use crate::programs::join_texts;
use side_by_side::JoinFault;
use std::alloc::Global;
use std::process::Abort;
use std::test::Fail;

// Asserts by which of some programs a limit is passed, and that those before it are joined.
fn passes(rt: &impl Abort, alloc: Global, texts: &[&[u8]], program: u32) -> Result<(), Fail> {
    assert!(rt; texts.len() <= 8 && (program as usize) < texts.len() && 1 <= program);
    let refused = join_texts(alloc, texts)?;
    assert!(rt; matches!(refused, Err(JoinFault::TooMany { program: p }) if p == program));
    let before = join_texts(alloc, &texts[..program as usize])?;
    assert!(rt; before.is_ok());
    Ok(())
}

#[test]
fn two_programs_of_600_qubits(rt: HostRuntime) -> Result<(), Fail> {
    let wide = b"products 1 600\n".as_slice();
    passes(&rt, rt.alloc(), &[wide, wide], 1)
}

#[test]
fn a_qubit_past_1024(rt: HostRuntime) -> Result<(), Fail> {
    let texts = [
        b"products 1 1000\n".as_slice(),
        b"products 1 24\n".as_slice(),
        b"products 1 1\n".as_slice(),
    ];
    passes(&rt, rt.alloc(), &texts, 2)
}

#[test]
fn a_bit_past_16384(rt: HostRuntime) -> Result<(), Fail> {
    let texts = [
        b"products 1 1\nc a 16000\n".as_slice(),
        b"products 1 1\nc a 384\n".as_slice(),
        b"products 1 1\n".as_slice(),
        b"products 1 1\nc a 1\n".as_slice(),
    ];
    passes(&rt, rt.alloc(), &texts, 3)
}

// The text of a circuit, from its head on, with so many times the same line.
fn repeated(alloc: Global, head: &[u8], line: &[u8], times: u32) -> Result<Vec<u8>, Fail> {
    let mut text = Vec::from_slice(alloc, head)?;
    for _time in 0..times {
        text.extend_from_slice(line)?;
    }
    Ok(text)
}

#[test]
fn a_product_past_16384(rt: HostRuntime) -> Result<(), Fail> {
    let most = repeated(rt.alloc(), b"products 1 1\n", b"r +Z\n", 16_384)?;
    let one = b"products 1 1\nr +Z\n".as_slice();
    let none = b"products 1 1\n".as_slice();
    passes(&rt, rt.alloc(), &[none, &most, none, one], 3)
}

// A circuit with 32 registers, `r00` to `r31`.
const HALF: &[u8] = b"products 1 1\n\
    c r00 1\nc r01 1\nc r02 1\nc r03 1\nc r04 1\nc r05 1\nc r06 1\nc r07 1\n\
    c r08 1\nc r09 1\nc r10 1\nc r11 1\nc r12 1\nc r13 1\nc r14 1\nc r15 1\n\
    c r16 1\nc r17 1\nc r18 1\nc r19 1\nc r20 1\nc r21 1\nc r22 1\nc r23 1\n\
    c r24 1\nc r25 1\nc r26 1\nc r27 1\nc r28 1\nc r29 1\nc r30 1\nc r31 1\n";

#[test]
fn a_register_past_64(rt: HostRuntime) -> Result<(), Fail> {
    let one = b"products 1 1\nc a 1\n".as_slice();
    passes(&rt, rt.alloc(), &[HALF, HALF, one], 2)
}
