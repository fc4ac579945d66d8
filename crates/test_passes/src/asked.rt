// Calls on locks.
ghost use Rattle.std.specs.Prelude.{◌≡◌, ◌<◌, length};
ghost use Rattle.sg_log.specs.sg_turn.Passes.{own_entries, standing_of};
ghost use Rattle.sg_log.specs.sg_turn.Told.{HasNoCall};
ghost use Rattle.test_passes.specs.Ready.{HasMade, IsLockCall, TakesLockCalls};

use sg_log::{Args, Host, InvokeFault, Pass, Shared};
use std::alloc::Global;
use std::sync::Wait;
use test_world::Reply;

/// A call on locks.
#[derive(Clone, Copy, Debug)]
pub enum Asked {
    /// Makes a lock.
    Alloc,
    /// Takes the lock of an id.
    Take(u64),
    /// Releases the lock of an id.
    Release(u64),
}

impl Asked {
    /// The number of its function, and the lock, 0 for none.
    pub fn parts(self) -> (u8, u64)
        ensures { IsLockCall result.0 result.1 }
    {
        match self {
            Asked::Alloc => (1, 0),
            Asked::Take(desc) => (2, desc),
            Asked::Release(desc) => (3, desc),
        }
    }
}

/// Makes a call through a pass.
pub fn ask<R: Wait, H: Host>(
    rt: &R,
    alloc: Global,
    shared: &Shared<H>,
    pass: &mut Pass<H>,
    asked: Asked,
) -> Result<Reply, InvokeFault>
    requires may { TakesLockCalls H.may_offer }
    requires turn { pass.old.turn ≡ shared.now.id }
    requires free { HasNoCall (standing_of pass.old) }
    requires few { length (own_entries pass.old) < 1_000 }
    ensures { HasMade 1 pass.old pass.new }
{
    let (fun, desc) = asked.parts();
    shared.invoke(rt, alloc, pass, fun, desc, Args::new(alloc))
}

/// Whether a call was done.
pub fn is_done(got: Result<Reply, InvokeFault>) -> bool {
    matches!(got, Ok(Reply::Ok(_)))
}
