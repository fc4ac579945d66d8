// A client goes on after want of memory.
ghost use Rattle.std.specs.Prelude.{◌≡◌, [], ◌<◌, length};
ghost use Rattle.sg_log.specs.sg_turn.Passes.{own_entries, standing_of};
ghost use Rattle.sg_log.specs.sg_turn.Told.{HasNoCall};
ghost use Rattle.test_passes.specs.Ready.{HasMade, TakesLockCalls};

use crate::asked::{Asked, ask, is_done};
use crate::sharing::{end, share};
use crate::short::Short;
use sg_log::{Host, InvokeFault, Pass, Shared};
use std::alloc::Global;
use std::process::Abort;
use std::sync::Wait;
use std::test::Fail;

// Makes a call, and makes it again where there was no memory for it. Whether it was done, and whether it was made again.
fn ask_again<R: Wait, H: Host>(
    rt: &R,
    alloc: Global,
    shared: &Shared<H>,
    pass: &mut Pass<H>,
    asked: Asked,
) -> (bool, bool)
    requires may { TakesLockCalls H.may_offer }
    requires turn { pass.old.turn ≡ shared.now.id }
    requires free { HasNoCall (standing_of pass.old) }
    requires few { length (own_entries pass.old) < 100 }
    ensures { HasMade 2 pass.old pass.new }
{
    let got = ask(rt, alloc, shared, pass, asked);
    if !matches!(got, Err(InvokeFault::NoMemory)) {
        return (is_done(got), false);
    }
    (is_done(ask(rt, alloc, shared, pass, asked)), true)
}

/// A client makes a lock, takes it and releases it, where there is no memory for the offer or step of a number, from 1. The call of it
/// is made again. So many are.
pub fn with_want<R: Abort + Wait, H: Host>(
    rt: &R,
    alloc: Global,
    host: H,
    at: u64,
    again: usize,
) -> Result<H, Fail>
    requires may { TakesLockCalls H.may_offer }
    requires clients { H.clients ≡ 2 }
    requires log { H.log host ≡ [] }
{
    let (shared, mut first, second) = share(alloc, Short::new(host, at))?;
    let made = ask_again(rt, alloc, &shared, &mut first, Asked::Alloc);
    let taken = ask_again(rt, alloc, &shared, &mut first, Asked::Take(1));
    let released = ask_again(rt, alloc, &shared, &mut first, Asked::Release(1));
    assert!(rt; made.0 && taken.0 && released.0, "at {at}");
    let Short { host, .. } = end(alloc, shared, first, second)?;
    let counted = usize::from(made.1) + usize::from(taken.1) + usize::from(released.1);
    assert_eq!(rt; counted, again, "at {at}");
    Ok(host)
}
