//! Tokens by value.

use TokenKind::{Quoted, Real, Symbol, Whole, Word};
use qasm_lex::{Token, TokenKind, tokens};
use std::alloc::Global;
use std::process::Abort;
use std::test::Fail;

// Whether a token has this kind, these bytes and this line.
fn is(token: &Token, text: &[u8], kind: TokenKind, bytes: &[u8], line: u32) -> bool {
    let place = token.start as usize..token.end as usize;
    token.kind == kind && token.line == line && text.get(place) == Some(bytes)
}

// Asserts that these are the tokens of a text, each by its kind, its bytes and its line.
fn reads(
    rt: &impl Abort,
    alloc: Global,
    text: &[u8],
    wanted: &[(TokenKind, &[u8], u32)],
) -> Result<(), Fail> {
    let found = tokens(alloc, text)?;
    assert_eq!(rt; found.len(), wanted.len());
    for (token, (kind, bytes, line)) in found.iter().zip(wanted) {
        assert!(rt; is(token, text, *kind, bytes, *line));
    }
    Ok(())
}

#[test]
fn gaps_make_no_token(rt: HostRuntime) -> Result<(), Fail> {
    let alloc = rt.alloc();
    reads(&rt, alloc, b"", &[])?;
    reads(&rt, alloc, b" \t\r\n\n", &[])?;
    reads(&rt, alloc, b"y //", &[(Word, b"y", 1)])?;
    reads(
        &rt,
        alloc,
        b"x//\x00\x0c\xff\" =.\r// y\n_Z9",
        &[(Word, b"x", 1), (Word, b"_Z9", 2)],
    )
}

#[test]
fn lines_are_counted(rt: HostRuntime) -> Result<(), Fail> {
    reads(
        &rt,
        rt.alloc(),
        b"OPENQASM 2.0;\r\nqreg q[2];",
        &[
            (Word, b"OPENQASM", 1),
            (Real, b"2.0", 1),
            (Symbol, b";", 1),
            (Word, b"qreg", 2),
            (Word, b"q", 2),
            (Symbol, b"[", 2),
            (Whole, b"2", 2),
            (Symbol, b"]", 2),
            (Symbol, b";", 2),
        ],
    )
}

#[test]
fn whole_numbers(rt: HostRuntime) -> Result<(), Fail> {
    reads(
        &rt,
        rt.alloc(),
        b"1e5 0 4294967295",
        &[
            (Whole, b"1", 1),
            (Word, b"e5", 1),
            (Whole, b"0", 1),
            (Whole, b"4294967295", 1),
        ],
    )
}

#[test]
fn reals(rt: HostRuntime) -> Result<(), Fail> {
    let alloc = rt.alloc();
    reads(
        &rt,
        alloc,
        b"00.5\n4294967296.0\n1.50E-07",
        &[
            (Real, b"00.5", 1),
            (Real, b"4294967296.0", 2),
            (Real, b"1.50E-07", 3),
        ],
    )?;
    reads(
        &rt,
        alloc,
        b"2.5e+q 1.5e1e",
        &[
            (Real, b"2.5", 1),
            (Word, b"e", 1),
            (Symbol, b"+", 1),
            (Word, b"q", 1),
            (Real, b"1.5e1", 1),
            (Word, b"e", 1),
        ],
    )
}

#[test]
fn symbols(rt: HostRuntime) -> Result<(), Fail> {
    let alloc = rt.alloc();
    reads(
        &rt,
        alloc,
        b"c==1-->====",
        &[
            (Word, b"c", 1),
            (Symbol, b"==", 1),
            (Whole, b"1", 1),
            (Symbol, b"-", 1),
            (Symbol, b"->", 1),
            (Symbol, b"==", 1),
            (Symbol, b"==", 1),
        ],
    )?;
    reads(
        &rt,
        alloc,
        b",(){}+*/^",
        &[
            (Symbol, b",", 1),
            (Symbol, b"(", 1),
            (Symbol, b")", 1),
            (Symbol, b"{", 1),
            (Symbol, b"}", 1),
            (Symbol, b"+", 1),
            (Symbol, b"*", 1),
            (Symbol, b"/", 1),
            (Symbol, b"^", 1),
        ],
    )
}

#[test]
fn quoted_texts(rt: HostRuntime) -> Result<(), Fail> {
    reads(
        &rt,
        rt.alloc(),
        b"\"\"\"a//\xff\r\";",
        &[
            (Quoted, b"\"\"", 1),
            (Quoted, b"\"a//\xff\r\"", 1),
            (Symbol, b";", 1),
        ],
    )
}
