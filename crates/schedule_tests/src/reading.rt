//! Entries read by value, in both versions.

use board_core::{Entry, Noted};
use pauli_product::Letter;
use schedule_text::read_entry;
use source_model::Given;
use std::test::Fail;

#[test]
fn reads_a_claim(rt: HostRuntime) -> Result<(), Fail> {
    let read = read_entry(rt.alloc(), b"63 C 7 -XZ 15 20 0 4 4095", 2)?;
    let Some(Noted { by, entry }) = read else {
        return Err(Fail::new("no entry"));
    };
    assert_eq!(rt; by, 63);
    let Entry::Claim {
        product,
        axis,
        port,
        state,
        cells,
    } = entry
    else {
        return Err(Fail::new("no claim"));
    };
    assert_eq!(rt; product, 7);
    assert!(rt; axis.sign() && axis.len() == 2);
    assert_eq!(rt; axis.letter(1), Letter::Z);
    assert!(rt; port == Some(15) && state == Some(20));
    assert_eq!(rt; cells.cells(), [0, 4, 4095].as_slice());
    Ok(())
}

#[test]
fn reads_a_delivery_of_the_first_version(rt: HostRuntime) -> Result<(), Fail> {
    let read = read_entry(rt.alloc(), b"D 10 1 0", 1)?;
    let Some(Noted { by, entry }) = read else {
        return Err(Fail::new("no entry"));
    };
    assert_eq!(rt; by, 0);
    let Entry::Deliver { product, given } = entry else {
        return Err(Fail::new("no delivery"));
    };
    assert_eq!(rt; product, 10);
    assert_eq!(rt;
        given,
        Given::Rotation {
            raw: true,
            x: false
        }
    );
    Ok(())
}

#[test]
fn reads_no_other_line(rt: HostRuntime) -> Result<(), Fail> {
    for (line, version) in [
        (b"64 S 0".as_slice(), 2u32),
        (b"0 S 00", 2),
        (b"0 R 4294967296", 2),
        (b"0 C 0 +Z 0 - 1", 2),
        (b"0 C 0 +Z - - 2 2", 2),
        (b"0 S 0", 1),
        (b"T 1 1", 1),
    ] {
        let read = read_entry(rt.alloc(), line, version)?;
        assert!(rt; read.is_none());
    }
    Ok(())
}
