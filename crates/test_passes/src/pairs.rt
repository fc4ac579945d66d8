// Two threads take and release one lock.
ghost use Rattle.std.specs.Prelude.{◌≡◌, [], IfOk};
ghost use Rattle.test_passes.specs.Ready.{IsReady, StaysPass, TakesLockCalls};

use crate::asked::{Asked, ask, is_done};
use crate::sharing::{end, share};
use sg_log::{Host, Pass, Shared};
use std::alloc::Global;
use std::process::Abort;
use std::sync::Wait;
use std::test::Fail;
use std::thread::{Threads, join};

/// How often each thread takes the lock and releases it.
const PAIRS: u32 = 50;

/// The only lock.
const LOCK: u64 = 1;

// A client takes the lock and releases it, again and again, and gives its pass back. Whether each call was done.
fn take_often<R: Wait, H: Host>(
    rt: &R,
    alloc: Global,
    shared: &Shared<H>,
    mut pass: Pass<H>,
) -> (Pass<H>, bool)
    requires may { TakesLockCalls H.may_offer }
    requires ready { IsReady shared.now 1 pass }
    ensures { StaysPass pass result.0 }
{
    let mut all = true;
    'pairs: for _pair in 0..PAIRS {
        let taken = ask(rt, alloc, shared, &mut pass, Asked::Take(LOCK));
        let released = ask(rt, alloc, shared, &mut pass, Asked::Release(LOCK));
        all &= is_done(taken) && is_done(released);
    }
    (pass, all)
}

/// The first client makes the lock; then each takes and releases it in a thread of its own.
pub fn in_pairs<R: Abort + Threads + Wait + Sync, H: Host + Send>(
    rt: &R,
    alloc: Global,
    host: H,
) -> Result<H, Fail>
    requires may { TakesLockCalls H.may_offer }
    requires clients { H.clients ≡ 2 }
    requires log { H.log host ≡ [] }
{
    let (shared, mut first, second) = share(alloc, host)?;
    let made = ask(rt, alloc, &shared, &mut first, Asked::Alloc);
    let lent = &shared;
    let (one, other) = join(
        rt,
        || -> (Pass<H>, bool)
            requires { TakesLockCalls H.may_offer × IsReady lent.now 1 first }
            ensures { StaysPass first result.0 }
        { take_often(rt, alloc, lent, first) },
        || -> (Pass<H>, bool)
            requires { TakesLockCalls H.may_offer × IsReady lent.now 1 second }
            ensures { StaysPass second result.0 }
        { take_often(rt, alloc, lent, second) },
    );
    let (first, first_all) = one;
    let (second, second_all) = other;
    assert!(rt; is_done(made) && first_all && second_all);
    Ok(end(alloc, shared, first, second)?)
}
