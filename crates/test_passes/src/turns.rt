// One thread makes the calls of two clients.
ghost use Rattle.std.specs.Prelude.{◌≡◌, [], ◌<◌, IfOk};
ghost use Rattle.test_passes.specs.Ready.{HasMade, IsNewPass, TakesLockCalls};

use crate::asked::{Asked, ask};
use crate::sharing::{end, share};
use sg_log::{Host, InvokeFault, Pass, Shared};
use std::alloc::Global;
use std::process::Abort;
use std::sync::Wait;
use std::test::Fail;
use test_world::{Reply, tells_reply};

/// A client's number, its call, and the reply that it is to get.
pub type Told = (u8, Asked, &'static str);

/// The calls, in their order. At the end each client owns a lock.
pub static CALLS: [Told; 10] = [
    (1, Asked::Alloc, "ok #1"),
    (2, Asked::Alloc, "ok #2"),
    (2, Asked::Take(1), "ok"),
    (1, Asked::Take(2), "ok"),
    (1, Asked::Release(2), "ok"),
    (2, Asked::Take(2), "ok"),
    (2, Asked::Release(1), "ok"),
    (1, Asked::Take(1), "ok"),
    (1, Asked::Take(1), "refused Held"),
    (2, Asked::Take(7), "refused NoDesc"),
];

// Makes the calls. Whether each got its reply.
fn make_all<R: Wait, H: Host>(
    rt: &R,
    alloc: Global,
    shared: &Shared<H>,
    first: &mut Pass<H>,
    second: &mut Pass<H>,
) -> bool
    requires may { TakesLockCalls H.may_offer }
    requires first { IsNewPass shared.now 1 first.old }
    requires second { IsNewPass shared.now 2 second.old }
    ensures first { HasMade 10 first.old first.new }
    ensures second { HasMade 10 second.old second.new }
{
    let mut all = true;
    'calls: for at in 0..CALLS.len() {
        let (client, asked, told) = CALLS[at];
        let got = if client == 1 {
            ask(rt, alloc, shared, first, asked)
        } else {
            ask(rt, alloc, shared, second, asked)
        };
        all &= matches!(got, Ok(reply) if tells_reply(told, &reply));
    }
    all
}

/// Two clients make their calls by turns; then the first leaves with a lock that it took, and the second waits for it.
pub fn by_turns<R: Abort + Wait, H: Host>(rt: &R, alloc: Global, host: H) -> Result<H, Fail>
    requires may { TakesLockCalls H.may_offer }
    requires clients { H.clients ≡ 2 }
    requires log { H.log host ≡ [] }
{
    let (shared, mut first, mut second) = share(alloc, host)?;
    let all = make_all(rt, alloc, &shared, &mut first, &mut second);
    let one = shared.progress(&mut first);
    let other = shared.progress(&mut second);
    shared.leave(rt, &mut first);
    let waits = ask(rt, alloc, &shared, &mut second, Asked::Take(1));
    assert!(rt; all);
    assert!(rt; one == other && one > 10);
    assert!(rt; matches!(waits, Err(InvokeFault::AllBlocked)));
    Ok(end(alloc, shared, first, second)?)
}
