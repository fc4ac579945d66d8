// Texts that tell no event, another reply, or what isn't seen: a play that has one fails.
use std::alloc::Global;
use std::process::Abort;
use std::test::Fail;
use test_world::tables::{LockService, lock_tables};
use test_world::{
    Bytes, Code, Event, Good, Judge, Never, Reply, Run, Service, Stops, Unmade, Words, judged,
    shows, tells_reply,
};

/// Lines that tell no event.
const NO_EVENTS: &str = "
step
step x served
jump 1
leave 1 2
withdraw 1 lock_alloc
offer 1
offer 1 lock_alloc
offer 1 lock_alloc x
offer 256 lock_alloc 0
";

#[test]
fn lines_tell_no_event(rt: HostRuntime) {
    for line in NO_EVENTS.lines() {
        assert!(rt; Event::read(line).is_none(), "{line}");
    }
}

/// Texts that don't tell that a lock is held.
const NOT_HELD: &str = "
ok
Held
refused
refused held
refused Gap
refused Held 1
";

#[test]
fn texts_tell_another_refusal(rt: HostRuntime) {
    let held = Reply::Refused(Code::Held);
    assert!(rt; tells_reply("refused Held", &held));
    for text in NOT_HELD.lines() {
        assert!(rt; !tells_reply(text, &held), "{text}");
    }
}

/// Texts that don't tell the first lock.
const NOT_THE_FIRST: &str = r#"
ok
ok 1
ok #
ok #2
ok #1 1
ok #1 x
ok #1 "a"
ok #1 "
served
refused Held
"#;

#[test]
fn texts_tell_another_ok(rt: HostRuntime) {
    let alloc = rt.alloc();
    let first = Reply::Ok(Good {
        desc: 1,
        words: Words::new(alloc),
        bytes: Bytes::new(alloc),
    });
    assert!(rt; tells_reply("ok #1", &first));
    for text in NOT_THE_FIRST.lines() {
        assert!(rt; !tells_reply(text, &first), "{text}");
    }
}

/// What isn't seen once the first lock was made.
const UNSEEN: &str = "
seen
down
up 1
ends
ends left
ends idle idle
seqs 2
marks 1 offer entry
marks 1 offer entry answer leave
marks 2 offer entry answer
withdrawn 1 1 0 idle
entries 0
points 0
refused 1
";

/// Lines that tell another event, another reply, or what isn't seen.
#[derive(Drop)]
struct Untrue<'a, R> {
    rt: &'a R,
}

impl<R: Abort, S: Service, T: Stops> Judge<S, T> for Untrue<'_, R> {
    type Said = Result<(), Fail>;

    fn judge(&self, alloc: Global, run: &mut Run<S, T>) -> Result<(), Fail> {
        let rt = self.rt;
        let made = run.make_all(alloc, "offer 1 lock_alloc 0\nstep\n");
        assert_eq!(rt; made, Err(Unmade::UnreadLine { at: 1 }));
        let made = run.make_all(alloc, "step 1 served\nstep 1 ok #2\n");
        assert_eq!(rt; made, Err(Unmade::Otherwise { at: 1 }));
        let made = run.make_all(alloc, "offer 1 lock_drop 1\n");
        assert_eq!(rt; made, Err(Unmade::Unread));
        for line in UNSEEN.lines() {
            assert!(rt; !shows(run, line), "{line}");
        }
        Ok(())
    }
}

#[test]
fn texts_tell_what_is_not_so(rt: HostRuntime) -> Result<(), Fail> {
    let alloc = rt.alloc();
    let untrue = Untrue { rt: &rt };
    judged::<LockService, _, _>(alloc, (), lock_tables(alloc)?, 1, Never::new(), &untrue)?
}
