// A script is played at once, and by hand in another order than the play without stops has.
ghost use Rattle.std.specs.Prelude.{◌≡◌};
ghost use Rattle.sg_lock.specs.LockFacts.{lock_facts};
ghost use Rattle.sg_sim.specs.sg_plain.Playing.Playable.{IsPlayable};

use crate::ready::ready;
use sg_edge::Never;
use sg_facts::{Bytes, NoMemory};
use sg_input::{Accepted, Script, compile};
use sg_lock::LockService;
use sg_report::text;
use sg_sim::{Play, play_script};
use std::alloc::Global;
use std::test::Fail;

const SCRIPT: &[u8] = b"%%\nclient 1 { lock_alloc(); lock_alloc(); }\nclient 2 { lock_alloc(); }\n";

const IN_TURN: &[u8] = b"c1.1 lock_alloc() = ok #1
c2.1 lock_alloc() = ok #2
c1.2 lock_alloc() = ok #3
client 1 done
client 2 done
calls 3 boots 1 replays 0
";

const FIRST_CLIENT_FIRST: &[u8] = b"c1.1 lock_alloc() = ok #1
c1.2 lock_alloc() = ok #2
c2.1 lock_alloc() = ok #3
client 1 done
client 2 done
calls 3 boots 1 replays 0
";

// Turns enough for the calls of one client.
const TURNS: usize = 64;

// The run of a script that is played at once, printed.
fn played(alloc: Global, accepted: &Accepted, script: Script) -> Result<Bytes, NoMemory>
    requires service { accepted.now.facts ≡ lock_facts }
    requires playable { IsPlayable accepted.now script }
{
    let tables = compile(alloc, accepted)?;
    let played = play_script::<LockService, Never>(alloc, (), tables, script, Never::new())?;
    text(alloc, accepted.interface(), played.ended(), false)
}

// The run of a script in which client 1 takes its turns first, and all others after that, printed.
fn played_by_hand(alloc: Global, accepted: &Accepted, script: Script) -> Result<Bytes, NoMemory>
    requires service { accepted.now.facts ≡ lock_facts }
    requires playable { IsPlayable accepted.now script }
{
    let tables = compile(alloc, accepted)?;
    let mut play = Play::<LockService, Never>::new(alloc, (), tables, script, Never::new())?;
    let taken = take_all(alloc, &mut play);
    let played = play.finish(alloc)?;
    taken?;
    text(alloc, accepted.interface(), played.ended(), false)
}

// Client 1 takes its turns, until it has no more calls.
fn take_all(alloc: Global, play: &mut Play<LockService, Never>) -> Result<(), NoMemory> {
    for _ in 0..TURNS {
        if !play.can_step(1) {
            return Ok(());
        }
        play.turn(alloc, 1)?;
    }
    Ok(())
}

#[test]
fn turns_are_taken_at_once_and_by_hand(rt: HostRuntime) -> Result<(), Fail> {
    let alloc = rt.alloc();
    let (accepted, script) = ready(alloc, SCRIPT)?;
    assert_eq!(rt; played(alloc, &accepted, script)?.as_slice(), IN_TURN);
    let (accepted, script) = ready(alloc, SCRIPT)?;
    let printed = played_by_hand(alloc, &accepted, script)?;
    assert_eq!(rt; printed.as_slice(), FIRST_CLIENT_FIRST);
    Ok(())
}
