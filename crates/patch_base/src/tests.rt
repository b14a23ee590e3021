use crate::{
    Failed, Line, Listed, MemoryShelf, MemorySink, Need, NeverFails, Pen, ReadFault, Shelf, Sink,
    Used, Words, bit, decimal, is_name, is_skipped, next_line, put_decimal, read_text, write_all,
};
use std::test::Fail;

#[test]
fn tells_decimals_from_other_words(rt: HostRuntime) {
    for (word, value) in [
        (b"0".as_slice(), Some(0)),
        (b"7".as_slice(), Some(7)),
        (b"4294967295".as_slice(), Some(4_294_967_295)),
        (b"4294967296".as_slice(), None),
        (b"00".as_slice(), None),
        (b"07".as_slice(), None),
        (b"".as_slice(), None),
        (b"-1".as_slice(), None),
        (b"+1".as_slice(), None),
        (b"1 ".as_slice(), None),
        (b"1e5".as_slice(), None),
    ] {
        assert_eq!(rt; decimal(word), value);
    }
    assert_eq!(rt; bit(b"0"), Some(false));
    assert_eq!(rt; bit(b"1"), Some(true));
    assert_eq!(rt; bit(b"01"), None);
}

#[test]
fn puts_decimals(rt: HostRuntime) -> Result<(), Fail> {
    let mut text = Vec::from_slice(rt.alloc(), b"n ")?;
    assert_eq!(rt; put_decimal(0, &mut text), Ok(()));
    assert_eq!(rt; put_decimal(u64::MAX, &mut text), Ok(()));
    assert_eq!(rt; text.as_slice(), b"n 018446744073709551615".as_slice());
    Ok(())
}

#[test]
fn cuts_lines_and_words(rt: HostRuntime) {
    let text = b"ab\n\nc";
    let first = Line {
        start: 0,
        end: 2,
        next: 3,
        whole: true,
    };
    let empty = Line {
        start: 3,
        end: 3,
        next: 4,
        whole: true,
    };
    let last = Line {
        start: 4,
        end: 5,
        next: 5,
        whole: false,
    };
    assert_eq!(rt; next_line(text, 0), Some(first));
    assert_eq!(rt; next_line(text, 3), Some(empty));
    assert_eq!(rt; next_line(text, 4), Some(last));
    assert_eq!(rt; next_line(text, 5), None);
    assert_eq!(rt; next_line(text, 9), None);
    assert!(rt; is_skipped(b""));
    assert!(rt; is_skipped(b"# r"));
    assert!(rt; !is_skipped(b" #"));
    let mut words = Words::of(b"r  1");
    assert_eq!(rt; words.next_word(), Some(b"r".as_slice()));
    assert_eq!(rt; words.next_word(), Some(b"".as_slice()));
    assert_eq!(rt; words.next_word(), Some(b"1".as_slice()));
    assert_eq!(rt; words.next_word(), None);
}

#[test]
fn tells_names(rt: HostRuntime) {
    for word in [
        b"q".as_slice(),
        b"_0".as_slice(),
        b"cX_9".as_slice(),
        b"barriers".as_slice(),
    ] {
        assert!(rt; is_name(word));
    }
    for word in [
        b"".as_slice(),
        b"Q".as_slice(),
        b"9q".as_slice(),
        b"a-b".as_slice(),
        b"include".as_slice(),
        b"qreg".as_slice(),
        b"creg".as_slice(),
        b"gate".as_slice(),
        b"opaque".as_slice(),
        b"measure".as_slice(),
        b"reset".as_slice(),
        b"barrier".as_slice(),
        b"if".as_slice(),
        b"pi".as_slice(),
        b"sin".as_slice(),
        b"cos".as_slice(),
        b"tan".as_slice(),
        b"exp".as_slice(),
        b"ln".as_slice(),
        b"sqrt".as_slice(),
    ] {
        assert!(rt; !is_name(word));
    }
}

#[test]
fn reads_whole_texts_and_their_first_bytes(rt: HostRuntime) -> Result<(), Fail> {
    let mut shelf = MemoryShelf::new(rt.alloc());
    assert_eq!(rt; shelf.add("a", b"seven words"), Ok(()));
    shelf.most(3);
    let whole = read_text(rt.alloc(), &mut shelf, "a", 11);
    assert!(rt; is_text(whole, b"seven words"));
    let more = read_text(rt.alloc(), &mut shelf, "a", 4);
    assert!(rt; is_text(more, b"seven"));
    let absent = read_text(rt.alloc(), &mut shelf, "b", 11);
    assert!(rt; matches!(absent, Err(ReadFault::Failed)));
    let mut always = NeverFails { bytes: b"xy" };
    let same = read_text(rt.alloc(), &mut always, "b", 100);
    assert!(rt; is_text(same, b"xy"));
    Ok(())
}

fn is_text(read: Result<Vec<u8>, ReadFault>, text: &[u8]) -> bool {
    match read {
        Ok(bytes) => bytes.as_slice() == text,
        Err(_fault) => false,
    }
}

#[test]
fn fails_at_listed_calls(rt: HostRuntime) -> Result<(), Fail> {
    let mut shelf = MemoryShelf::new(rt.alloc());
    assert_eq!(rt; shelf.add("a", b"xyz"), Ok(()));
    assert_eq!(rt; shelf.fail_at(1), Ok(()));
    let mut buffer = [0; 2];
    assert_eq!(rt; shelf.read_at("a", 1, &mut buffer), Ok(2));
    assert_eq!(rt; buffer.as_slice(), b"yz".as_slice());
    assert_eq!(rt; shelf.read_at("a", 0, &mut buffer), Err(Failed));
    assert_eq!(rt; shelf.read_at("b", 0, &mut buffer), Err(Failed));
    assert_eq!(rt; shelf.read_at("a", 3, &mut buffer), Ok(0));
    Ok(())
}

#[test]
fn writes_as_much_as_the_sink_takes(rt: HostRuntime) -> Result<(), Fail> {
    for (room, most, failing, written, held) in [
        (9, 4, None, Ok(()), b"schedule".as_slice()),
        (8, 1, Some(2), Err(Failed), b"sc".as_slice()),
        (3, 2, None, Err(Failed), b"sch".as_slice()),
    ] {
        let made = MemorySink::new(rt.alloc(), room, most);
        assert!(rt; made.is_ok());
        let Ok(mut sink) = made else {
            return Ok(());
        };
        if let Some(call) = failing {
            assert_eq!(rt; sink.fail_at(call), Ok(()));
        }
        assert_eq!(rt; write_all(&mut sink, b"schedule"), written);
        assert_eq!(rt; sink.bytes(), held);
        assert_eq!(rt; sink.write(b""), Ok(0));
    }
    Ok(())
}

#[test]
fn sends_what_a_pen_holds(rt: HostRuntime) -> Result<(), Fail> {
    for (length, room, written) in [
        (1, 9, Ok(())),
        (1, 8, Err(Failed)),
        (4_094, 4_102, Ok(())),
        (4_094, 2, Err(Failed)),
        (5_000, 5_008, Ok(())),
        (5_000, 6, Err(Failed)),
        (5_000, 4, Err(Failed)),
    ] {
        let piece = vec![in rt.alloc(); b'x'; length]?;
        let mut text = Vec::from_slice(rt.alloc(), b"b10\n")?;
        text.extend_from_slice(&piece)?;
        text.extend_from_slice(b".end")?;
        let made = MemorySink::new(rt.alloc(), room, 3);
        assert!(rt; made.is_ok());
        let Ok(mut sink) = made else {
            return Ok(());
        };
        assert_eq!(rt; write_by_pen(&piece, &mut sink), written);
        assert_eq!(rt; sink.bytes().len(), room);
        assert!(rt; text.starts_with(sink.bytes()));
    }
    Ok(())
}

fn write_by_pen(piece: &[u8], out: &mut MemorySink) -> Result<(), Failed> {
    let mut pen = Pen::new();
    pen.put(b"a");
    pen.clear();
    pen.put_byte(b'b');
    pen.put_decimal(10);
    pen.put(b"\n");
    pen.put_all(piece, out)?;
    pen.make_room(out)?;
    pen.put(b".end");
    pen.send(out)
}

#[test]
fn keeps_lists(rt: HostRuntime) -> Result<(), Fail> {
    let mut list = Listed::new(rt.alloc());
    list.push(5u32)?;
    list.push(7u32)?;
    list.set(0, 6);
    assert_eq!(rt; list.as_slice(), [6, 7].as_slice());
    list.copy_from(&[8, 9]);
    let items = list.into_vec();
    assert_eq!(rt; items.as_slice(), [8, 9].as_slice());
    assert_eq!(rt; Listed::of(items).as_slice(), [8, 9].as_slice());
    Ok(())
}

#[test]
fn gives_the_values_back(rt: HostRuntime) -> Result<(), Fail> {
    let need = Need {
        qubits: 2,
        used: Used::of(vec![in rt.alloc(); false, true]?),
        rotations: true,
    };
    assert_eq!(rt; need.used.as_slice(), [false, true].as_slice());
    assert_eq!(rt; need.used.into_vec().as_slice(), [false, true].as_slice());
    Ok(())
}
