// A play goes on after a step that wanted memory.
ghost use Rattle.std.specs.Prelude.{◌≡◌};
ghost use Rattle.sg_lock.specs.LockFacts.{lock_facts};
ghost use Rattle.sg_sim.specs.sg_plain.Playing.Playable.{IsPlayable};

use crate::ready::ready;
use crate::scarce::Scarce;
use sg_edge::Never;
use sg_facts::{Bytes, NoMemory};
use sg_input::{Accepted, Script, compile};
use sg_report::{EndList, Ended, text};
use sg_sim::Play;
use std::alloc::Global;
use std::test::Fail;

const SCRIPT: &[u8] =
    b"%%\nclient 1 { lock_alloc(); lock_take($1); lock_release($1); lock_free($1); }\n";

const PRINTED: &[u8] = b"c1.1 lock_alloc() = ok #1
c1.2 lock_take(1) = ok
c1.3 lock_release(1) = ok
c1.4 lock_free(1) = ok
calls 4 boots 1 replays 0
";

// What was done in a play that wanted memory in one step, and then went on, printed; None where it came to an end.
fn played_again(
    alloc: Global,
    accepted: &Accepted,
    script: Script,
) -> Result<Option<Bytes>, NoMemory>
    requires service { accepted.now.facts ≡ lock_facts }
    requires playable { IsPlayable accepted.now script }
{
    let tables = compile(alloc, accepted)?;
    let mut play = Play::<Scarce, Never>::new(alloc, (), tables, script, Never::new())?;
    let done = done_again(alloc, accepted, &mut play);
    play.abandon();
    done
}

// What was done in a play that wants memory in one step and goes on, printed; None where it comes to an end, as it never does after such
// a step.
fn done_again(
    alloc: Global,
    accepted: &Accepted,
    play: &mut Play<Scarce, Never>,
) -> Result<Option<Bytes>, NoMemory> {
    if play.play(alloc).is_ok() || play.play(alloc).is_ok() {
        return Ok(None);
    }
    let ended = Ended {
        history: play.world().history().copied(alloc)?,
        trace: play.world().trace().copied(alloc)?,
        ends: EndList::new(alloc),
    };
    Ok(Some(text(alloc, accepted.interface(), &ended, false)?))
}

#[test]
fn step_without_memory_is_made_again(rt: HostRuntime) -> Result<(), Fail> {
    let alloc = rt.alloc();
    let (accepted, script) = ready(alloc, SCRIPT)?;
    let printed = played_again(alloc, &accepted, script)?;
    assert!(rt; printed.is_some_and(|text| text.as_slice() == PRINTED));
    Ok(())
}
