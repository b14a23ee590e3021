//! Programs side by side.

use crate::call::{End, is_legal, sink, words_of};
use crate::job::Job;
use crate::texts::{Text, TextShelf};
use run_top::run_main;
use std::alloc::Global;
use std::process::Abort;
use std::test::Fail;
use std::thread::Threads;

// Two rotations and a measurement of one qubit.
const SIGNS: &[u8] = b"products 1 1\nc c 1\nr +Z\nr +X\nm +X c 0\n";

// Their outcomes, and others.
const RAISED: &[u8] = b"outcomes 1\nr 0 1 0\nr 1 0 0\nm 2 0\n";

const ZEROS: &[u8] = b"outcomes 1\nr 0 0 0\nr 1 0 0\nm 2 0\n";

// A measurement of one qubit, and its outcomes.
const ONE: &[u8] = b"products 1 1\nc c 1\nm +Z c 0\n";

const IS_ONE: &[u8] = b"outcomes 1\nm 0 1\n";

const IS_ZERO: &[u8] = b"outcomes 1\nm 0 0\n";

const ON_TWO: &[u8] = b"layout 1 2 6\npatch 0 7 h\npatch 1 9 h\nport 0 11 h 1\n";

// The texts of two programs, and of a layout for both.
const TWO: [Text<'static>; 7] = [
    ("a", SIGNS),
    ("b", RAISED),
    ("zeros", ZEROS),
    ("c", ONE),
    ("one", IS_ONE),
    ("zero", IS_ZERO),
    ("l", ON_TWO),
];

// How a command ends on these texts.
fn end_on<T: Threads + Sync>(
    rt: &T,
    alloc: Global,
    line: &str,
    texts: &[Text<'_>],
) -> Result<End, Fail> {
    let words = words_of(alloc, line)?;
    let mut shelf = TextShelf::of(texts);
    let mut output = sink(alloc, 100_000)?;
    let mut error = sink(alloc, 100)?;
    let status = run_main(rt, alloc, &words, &mut shelf, &mut output, &mut error);
    Ok(End {
        status,
        output,
        error,
    })
}

// Asserts that a command ends well on these texts, and with these lines.
fn ends_with<T: Threads + Sync + Abort>(
    rt: &T,
    alloc: Global,
    line: &str,
    texts: &[Text<'_>],
    last: &str,
) -> Result<End, Fail> {
    let end = end_on(rt, alloc, line, texts)?;
    assert_eq!(rt; end.error.bytes(), b"".as_slice(), "{line}");
    assert_eq!(rt; end.status, 0, "{line}");
    let text = String::from_utf8_lossy(alloc, end.output.bytes())?;
    assert!(rt; text.as_str().ends_with(last), "{line}");
    Ok(end)
}

#[test]
fn each_program_has_its_own_bits(rt: HostRuntime) -> Result<(), Fail> {
    let last = "bits p0_c 1\nbits p1_c 1\n";
    let _ = ends_with(&rt, rt.alloc(), "side - 2 a b c one", &TWO, last)?;
    let joined = Job {
        circuit: b"products 1 2\nc p0_c 1\nc p1_c 1\nr +ZI\nr +XI\nm +XI p0_c 0\nm +IZ p1_c 0\n",
        layout: ON_TWO,
        outcomes: b"outcomes 1\nr 0 1 0\nr 1 0 0\nm 2 0\nm 3 1\n",
    };
    let end = ends_with(&rt, rt.alloc(), "side l 2 a b c one", &TWO, last)?;
    is_legal(&rt, rt.alloc(), joined, end.output.bytes())
}

#[test]
fn other_outcomes_of_one_program_change_no_bit_of_the_other(rt: HostRuntime) -> Result<(), Fail> {
    let alloc = rt.alloc();
    let last = "bits p0_c 0\nbits p1_c 1\n";
    let _ = ends_with(&rt, alloc, "side - 2 a zeros c one", &TWO, last)?;
    let last = "bits p0_c 1\nbits p1_c 0\n";
    let _ = ends_with(&rt, alloc, "side - 2 a b c zero", &TWO, last)?;
    let last = "bits p0_c 1\nbits p1_c 1\n";
    let _ = ends_with(&rt, alloc, "side - 2 c one a b", &TWO, last)?;
    Ok(())
}

#[test]
fn one_program_stands_alone(rt: HostRuntime) -> Result<(), Fail> {
    let _ = ends_with(&rt, rt.alloc(), "side - 1 a b", &TWO, "bits p0_c 1\n")?;
    Ok(())
}

const ON_EIGHT: &[u8] =
    b"layout 1 2 18\npatch 0 19 h\npatch 1 21 h\npatch 2 23 h\npatch 3 25 h\npatch 4 27 h\npatch 5 29 h\npatch 6 31 h\npatch 7 33 h\n";

const EIGHT_JOINED: &[u8] = b"products 1 8\nc p0_c 1\nc p1_c 1\nc p2_c 1\nc p3_c 1\n\
    c p4_c 1\nc p5_c 1\nc p6_c 1\nc p7_c 1\nm +ZIIIIIII p0_c 0\nm +IZIIIIII p1_c 0\n\
    m +IIZIIIII p2_c 0\nm +IIIZIIII p3_c 0\nm +IIIIZIII p4_c 0\nm +IIIIIZII p5_c 0\n\
    m +IIIIIIZI p6_c 0\nm +IIIIIIIZ p7_c 0\n";

const EIGHT_OUTCOMES: &[u8] =
    b"outcomes 1\nm 0 1\nm 1 0\nm 2 1\nm 3 1\nm 4 0\nm 5 0\nm 6 0\nm 7 1\n";

#[test]
fn eight_programs_of_one_product_each(rt: HostRuntime) -> Result<(), Fail> {
    let texts = [("c", ONE), ("1", IS_ONE), ("0", IS_ZERO), ("l", ON_EIGHT)];
    let last =
        "bits p0_c 1\nbits p1_c 0\nbits p2_c 1\nbits p3_c 1\nbits p4_c 0\nbits p5_c 0\nbits p6_c 0\nbits p7_c 1\n";
    let line = "side l 4 c 1 c 0 c 1 c 1 c 0 c 0 c 0 c 1";
    let end = ends_with(&rt, rt.alloc(), line, &texts, last)?;
    let joined = Job {
        circuit: EIGHT_JOINED,
        layout: ON_EIGHT,
        outcomes: EIGHT_OUTCOMES,
    };
    is_legal(&rt, rt.alloc(), joined, end.output.bytes())
}

// Asserts that a command on these texts writes nothing but a line on standard error.
fn is_refused<T: Threads + Sync + Abort>(
    rt: &T,
    alloc: Global,
    line: &str,
    texts: &[Text<'_>],
    status: u8,
    error: &[u8],
) -> Result<(), Fail> {
    let end = end_on(rt, alloc, line, texts)?;
    assert_eq!(rt; end.status, status, "{line}");
    assert_eq!(rt; end.output.bytes(), b"".as_slice(), "{line}");
    assert_eq!(rt; end.error.bytes(), error, "{line}");
    Ok(())
}

#[test]
fn words_without_pairs(rt: HostRuntime) -> Result<(), Fail> {
    let lines = [
        "side",
        "side -",
        "side - 2",
        "side - 2 a",
        "side - 2 a b c",
        "side - 0 a b",
        "side - 17 a b",
        "side - 02 a b",
        "side 2 - a b",
        "Side - 2 a b",
        "side - 2 a b a b a b a b a b a b a b a b a b",
    ];
    for line in lines {
        is_refused(&rt, rt.alloc(), line, &TWO, 2, b"words\n")?;
    }
    Ok(())
}

#[test]
fn two_programs_of_600_qubits(rt: HostRuntime) -> Result<(), Fail> {
    let texts = [
        ("a", b"products 1 600\n".as_slice()),
        ("b", b"outcomes 1\n".as_slice()),
    ];
    let line = "side - 2 a b a b";
    is_refused(&rt, rt.alloc(), line, &texts, 3, b"circuit 0 TooMany\n")
}

#[test]
fn circuits_are_read_before_all_else(rt: HostRuntime) -> Result<(), Fail> {
    let alloc = rt.alloc();
    let line = "side absent 2 a b absent absent";
    is_refused(&rt, alloc, line, &TWO, 7, b"read absent\n")?;
    let line = "side absent 2 a absent b absent";
    is_refused(&rt, alloc, line, &TWO, 3, b"circuit 1 Version\n")?;
    let line = "side absent 2 a absent c absent";
    is_refused(&rt, alloc, line, &TWO, 7, b"read absent\n")?;
    let line = "side a 2 a absent c absent";
    is_refused(&rt, alloc, line, &TWO, 4, b"layout Form 1\n")
}

#[test]
fn outcomes_are_read_in_turn(rt: HostRuntime) -> Result<(), Fail> {
    let alloc = rt.alloc();
    let line = "side - 2 a b c other";
    is_refused(&rt, alloc, line, &TWO, 7, b"read other\n")?;
    let line = "side - 2 a one c other";
    is_refused(&rt, alloc, line, &TWO, 5, b"outcomes 2 Kind\n")?;
    let line = "side - 2 a b c b";
    is_refused(&rt, alloc, line, &TWO, 5, b"outcomes 2 Kind\n")
}

#[test]
fn failing_runs_stand_in_the_first_outcomes_alone(rt: HostRuntime) -> Result<(), Fail> {
    let alloc = rt.alloc();
    let texts = [
        ("a", SIGNS),
        ("b", RAISED),
        (
            "fails",
            b"outcomes 1\nf 0 0\nr 0 1 0\nr 1 0 0\nm 2 0\n".as_slice(),
        ),
    ];
    let last = "bits p0_c 1\nbits p1_c 1\n";
    let _ = ends_with(&rt, alloc, "side - 2 a fails a b", &texts, last)?;
    let line = "side - 2 a b a fails";
    is_refused(&rt, alloc, line, &texts, 5, b"outcomes 2 Factory\n")
}
