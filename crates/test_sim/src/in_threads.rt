// A thread whose call wants memory gives it up, and the run ends in want of memory.
ghost use Rattle.std.specs.Prelude.{◌≡◌};
ghost use Rattle.sg_edge.specs.Stops.{AscendsAbove};
ghost use Rattle.sg_lock.specs.LockFacts.{lock_facts};
ghost use Rattle.sg_sim.specs.sg_plain.Playing.Playable.{IsPlayable};

use crate::ready::ready;
use crate::scarce::Scarce;
use sg_edge::OpenGate;
use sg_input::{Accepted, Script};
use sg_shared::share;
use std::alloc::Global;
use std::process::Abort;
use std::sync::Wait;
use std::test::Fail;
use std::thread::Threads;

// Scripts of which the second call wants memory in its step: the first call of a thread, the second of one, a call of one of two threads,
// and a call of the setup.
const SCRIPTS: [&[u8]; 4] = [
    b"%%\nsetup { lock_alloc(); }\nclient 1 { lock_take($1); lock_release($1); }\n",
    b"%%\nclient 2 { lock_alloc(); lock_take($1); lock_free($1); }\n",
    b"%%\nclient 1 { lock_alloc(); lock_alloc(); }\nclient 2 { lock_alloc(); }\n",
    b"%%\nsetup { lock_alloc(); lock_alloc(); }\nclient 1 { lock_take(1); }\n",
];

// Plays a script with threads, on locks that have no memory for their second call.
fn is_short<R: Threads + Wait + Sync>(
    rt: &R,
    alloc: Global,
    accepted: &Accepted,
    script: Script,
) -> bool
    requires service { accepted.now.facts ≡ lock_facts }
    requires playable { IsPlayable accepted.now script }
    requires stops { AscendsAbove 0 script.stops }
{
    share::<R, Scarce, OpenGate>(rt, alloc, (), accepted, script, &OpenGate).is_err()
}

#[test]
fn step_of_a_thread_without_memory_ends_the_run(rt: HostRuntime) -> Result<(), Fail> {
    let alloc = rt.alloc();
    'scripts: for script in SCRIPTS {
        let (accepted, script) = ready(alloc, script)?;
        assert!(rt; is_short(&rt, alloc, &accepted, script));
    }
    Ok(())
}
