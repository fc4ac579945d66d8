// The input of a play of locks.
ghost use Rattle.std.specs.Prelude.{◌≡◌, IfOk};
ghost use Rattle.sg_edge.specs.Stops.{AscendsAbove};
ghost use Rattle.sg_lock.specs.LockFacts.{lock_facts};
ghost use Rattle.sg_sim.specs.sg_plain.Playing.Playable.{IsPlayable};

use sg_facts::Bytes;
use sg_input::{Accepted, Read, Script, read_input};
use sg_lock::LockService;
use std::alloc::Global;
use std::test::Fail;
use test_interfaces::LOCK;

/// The interface of locks, and the script of a text.
pub fn ready(alloc: Global, script: &[u8]) -> Result<(Accepted, Script), Fail>
    ensures service { IfOk result (λ r. r.0.facts ≡ lock_facts) }
    ensures playable { IfOk result (λ r. IsPlayable r.0 r.1) }
    ensures stops { IfOk result (λ r. AscendsAbove 0 r.1.stops) }
{
    let mut input = Bytes::from_slice(alloc, LOCK)?;
    input.extend_from_slice(script)?;
    match read_input(alloc, input.as_slice(), &[LockService::shape()])? {
        Read::Ready((accepted, script)) => Ok((accepted, script)),
        Read::Refused(_) => Err("refused")?,
    }
}
