ghost use Rattle.std.specs.Prelude.{◌≡◌, ◌∷◌, [], IfOk};

use node_log::{Log, Node};
use patch_base::Memory;
use std::alloc::Global;
use std::test::Fail;
use std::thread;

#[derive(Drop)]
struct Note {
    bytes: Vec<u8>,
}

fn three(alloc: Global) -> Result<Log<u32>, Memory> {
    let mut log = Log::new();
    log.push(Node::empty(alloc)?, 5);
    log.push(Node::empty(alloc)?, 5);
    log.push(Node::empty(alloc)?, 7);
    Ok(log)
}

#[test]
fn pushes_answer_places(rt: HostRuntime) -> Result<(), Fail> {
    let mut log = Log::<u32>::new();
    assert_eq!(rt; log.length(), 0);
    assert_eq!(rt; log.last().copied(), None);
    assert_eq!(rt; log.push(Node::empty(rt.alloc())?, 5), 0);
    assert_eq!(rt; log.push(Node::empty(rt.alloc())?, 5), 1);
    assert_eq!(rt; log.push(Node::empty(rt.alloc())?, 7), 2);
    assert_eq!(rt; log.length(), 3);
    assert_eq!(rt; log.last().copied(), Some(7));
    Ok(())
}

#[test]
fn gets_by_place(rt: HostRuntime) -> Result<(), Fail> {
    let log = three(rt.alloc())?;
    assert_eq!(rt; log.get(0).copied(), Some(5));
    assert_eq!(rt; log.get(2).copied(), Some(7));
    assert_eq!(rt; log.get(3).copied(), None);
    Ok(())
}

#[test]
fn walks_in_order(rt: HostRuntime) -> Result<(), Fail> {
    let log = three(rt.alloc())?;
    let seen: Vec<u32> = log.walk().copied().collect(rt.alloc())?;
    assert_eq!(rt; seen.as_slice(), [5, 5, 7].as_slice());
    Ok(())
}

#[test]
fn drops_a_long_log(rt: HostRuntime) -> Result<(), Fail> {
    let mut log = Log::<u32>::new();
    for i in 0..300_000 {
        log.push(Node::empty(rt.alloc())?, i);
    }
    assert_eq!(rt; log.length(), 300_000);
    assert_eq!(rt; log.get(299_999).copied(), Some(299_999));
    drop(log);
    Ok(())
}

#[test]
fn crosses_threads(rt: HostRuntime) -> Result<(), Fail> {
    let log = three(rt.alloc())?;
    let child = thread::spawn(&rt, move || log.walk().copied().max())?;
    assert_eq!(rt; child.join(&rt), Some(7));
    let spare: Node<u32> = Node::empty(rt.alloc())?;
    let child = thread::spawn(&rt, move || drop(spare))?;
    child.join(&rt);
    Ok(())
}

#[test]
fn owns_its_values(rt: HostRuntime) -> Result<(), Fail> {
    let mut log = Log::<Note>::new();
    for i in 0..3u8 {
        let mut bytes = Vec::new(rt.alloc());
        bytes.push(i)?;
        log.push(Node::empty(rt.alloc())?, Note { bytes });
    }
    let mut sum = 0usize;
    for note in log.walk() {
        assert_eq!(rt; note.bytes.len(), 1);
        sum = sum.wrapping_add(note.bytes.len());
    }
    assert_eq!(rt; sum, 3);
    Ok(())
}
