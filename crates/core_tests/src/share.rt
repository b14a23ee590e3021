ghost use Rattle.std.specs.Prelude.{◌≡◌, ◌≤◌, ◌++◌, ◌∷◌, [], IfOk};
ghost use Rattle.number_share.specs.Hands.{IsHandOf};

use number_share::{Hand, Share};
use patch_base::PRODUCTS;
use std::alloc::Global;
use std::test::Fail;
use std::thread::join;

fn pair(alloc: Global, numbers: u32) -> Result<(Share, Hand, Hand), Fail>
    requires { numbers ≤ PRODUCTS }
    ensures { IfOk result (λ r. (r.0.owners ≡ 2) × IsHandOf r.0 r.1 × IsHandOf r.0 r.2) }
{
    let (share, mut hands) = Share::new(alloc, numbers, 2)?;
    let second = hands.pop().ok_or("a hand")?;
    let first = hands.pop().ok_or("a hand")?;
    Ok((share, first, second))
}

fn gathered(alloc: Global, share: Share, first: Hand, second: Hand) -> Result<Vec<u32>, Fail>
    requires owners { share.owners ≡ 2 }
    requires first { IsHandOf share first }
    requires second { IsHandOf share second }
{
    let mut hands = Vec::with_capacity(alloc, 2)?;
    hands.push(first)?;
    hands.push(second)?;
    Ok(share.gather(alloc, hands)?)
}

fn expect(share: &Share, hand: &mut Hand, number: u32) -> Result<(), Fail>
    requires { IsHandOf share.now hand.old }
    ensures share { IsHandOf share.now hand.new }
    ensures held { IfOk result (λ _. hand.new.held ≡ hand.old.held ++ number ∷ []) }
{
    let taken = hand.take(share).ok_or("a number")?;
    if taken != number {
        return Err("another number".into());
    }
    Ok(())
}

// Hand 0 took 0 and 1, hand 1 took 2, and 0 was put back.
fn begun(alloc: Global) -> Result<(Share, Hand, Hand), Fail>
    ensures { IfOk result (λ r. (r.0.owners ≡ 2) × IsHandOf r.0 r.1 × IsHandOf r.0 r.2) }
{
    let (share, mut first, mut second) = pair(alloc, 5)?;
    expect(&share, &mut first, 0)?;
    expect(&share, &mut first, 1)?;
    expect(&share, &mut second, 2)?;
    first.put(0);
    Ok((share, first, second))
}

#[test]
fn gathers_what_is_left(rt: HostRuntime) -> Result<(), Fail> {
    let (share, first, second) = begun(rt.alloc())?;
    let left = gathered(rt.alloc(), share, first, second)?;
    assert_eq!(rt; left.as_slice(), [0, 3, 4].as_slice());
    Ok(())
}

#[test]
fn takes_again_what_was_put(rt: HostRuntime) -> Result<(), Fail> {
    let (share, mut first, mut second) = begun(rt.alloc())?;
    assert_eq!(rt; first.take(&share), Some(3));
    assert_eq!(rt; first.take(&share), Some(4));
    assert_eq!(rt; first.take(&share), Some(0));
    assert_eq!(rt; first.take(&share), None);
    assert_eq!(rt; second.take(&share), None);
    assert_eq!(rt; gathered(rt.alloc(), share, first, second)?.len(), 0);
    Ok(())
}

// Takes as often as there are numbers.
fn drain(share: &Share, mut hand: Hand) -> (Hand, u32)
    requires { IsHandOf share.now hand }
    ensures { IsHandOf share.now result.0 }
{
    let mut taken = 0u32;
    for _ in 0..1000u32 {
        if hand.take(share).is_some() {
            taken = taken.wrapping_add(1);
        }
    }
    (hand, taken)
}

#[test]
fn two_threads(rt: HostRuntime) -> Result<(), Fail> {
    let (share, first, second) = pair(rt.alloc(), 1000)?;
    let shared = &share;
    let (a, b) = join(
        &rt,
        || -> (Hand, u32)
            requires { IsHandOf shared.now first }
            ensures { IsHandOf shared.entry.now result.0 }
        { drain(shared, first) },
        || -> (Hand, u32)
            requires { IsHandOf shared.now second }
            ensures { IsHandOf shared.entry.now result.0 }
        { drain(shared, second) },
    );
    assert_eq!(rt; a.1.wrapping_add(b.1), 1000);
    assert_eq!(rt; gathered(rt.alloc(), share, a.0, b.0)?.len(), 0);
    Ok(())
}
