ghost use Rattle.std.specs.Prelude.{ℕ, ◌+◌, ◌≤◌, All, length};
ghost use Rattle.magic_pool.specs.Pooled.{HasFewer};
ghost use Rattle.magic_pool.specs.Makers.{AreDistinct, IsMaker};

use magic_pool::{Fail, Maker, Pool, StepRefused, Stepped};
use std::alloc::Global;
use std::process::Abort;

/// A call of a pool, and what it should answer.
enum Call {
    /// A whole run of a factory, and its last step's answer.
    Run(u32, Stepped),
    /// A step of a factory that is refused.
    Refused(u32, StepRefused),
    Take(u32, Option<u32>),
    Ready(u32, u32),
}

/// Asserts that ten steps go on, and gives the eleventh's answer.
fn run(rt: &impl Abort, pool: &mut Pool, f: u32) -> Result<Stepped, StepRefused>
    requires { HasFewer pool.old 4000 }
    ensures { (n : ℕ) → HasFewer pool.old n → HasFewer pool.new (n + 11) }
{
    for done in 0..10u32 {
        assert_eq!(rt; pool.step(f), Ok(Stepped::Running), "after {done}");
    }
    pool.step(f)
}

fn play(
    rt: &impl Abort,
    alloc: Global,
    makers: &[Maker],
    fails: &[Fail],
    calls: &[Call],
) -> Result<(), std::test::Fail>
    requires distinct { AreDistinct makers.now }
    requires makers { All IsMaker makers.now }
    requires fails { length fails.now ≤ 4096 }
    requires calls { length calls.now ≤ 100 }
{
    let mut pool = Pool::new(alloc, makers, fails)?;
    assert_eq!(rt; pool.fails(), fails);
    for call in calls {
        match call {
            Call::Run(f, last) => assert_eq!(rt; run(rt, &mut pool, *f), Ok(*last)),
            Call::Refused(f, why) => assert_eq!(rt; pool.step(*f), Err(*why)),
            Call::Take(f, state) => assert_eq!(rt; pool.take(*f), *state),
            Call::Ready(f, count) => assert_eq!(rt; pool.ready(*f), *count),
        }
    }
    Ok(())
}

#[test]
fn a_listed_run_fails(rt: HostRuntime) -> Result<(), std::test::Fail> {
    play(
        &rt,
        rt.alloc(),
        &[Maker {
            factory: 0,
            store: 1,
        }],
        &[Fail { factory: 0, run: 0 }],
        &[
            Call::Run(0, Stepped::Failed { run: 0 }),
            Call::Run(0, Stepped::Made { state: 0 }),
        ],
    )
}

#[test]
fn a_full_store_waits_for_a_take(rt: HostRuntime) -> Result<(), std::test::Fail> {
    play(
        &rt,
        rt.alloc(),
        &[Maker {
            factory: 3,
            store: 1,
        }],
        &[],
        &[
            Call::Refused(0, StepRefused::NoFactory),
            Call::Refused(16, StepRefused::NoFactory),
            Call::Take(3, None),
            Call::Run(3, Stepped::Made { state: 0 }),
            Call::Refused(3, StepRefused::Stocked { ready: 1 }),
            Call::Ready(3, 1),
            Call::Take(3, Some(0)),
            Call::Ready(3, 0),
            Call::Run(3, Stepped::Made { state: 1 }),
        ],
    )
}

#[test]
fn states_are_numbered_as_made(rt: HostRuntime) -> Result<(), std::test::Fail> {
    play(
        &rt,
        rt.alloc(),
        &[
            Maker {
                factory: 0,
                store: 2,
            },
            Maker {
                factory: 15,
                store: 2,
            },
        ],
        &[Fail { factory: 0, run: 1 }],
        &[
            Call::Run(15, Stepped::Made { state: 0 }),
            Call::Run(0, Stepped::Made { state: 1 }),
            Call::Run(15, Stepped::Made { state: 2 }),
            Call::Run(0, Stepped::Failed { run: 1 }),
            Call::Take(15, Some(0)),
            Call::Take(0, Some(1)),
            Call::Take(15, Some(2)),
        ],
    )
}
