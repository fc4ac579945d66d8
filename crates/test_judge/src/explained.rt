// What is explained of texts.
use crate::cases::{Base, changed};
use sg_judge::{Read, explain};
use std::alloc::Global;
use std::process::Abort;
use std::test::Fail;

/// A text that is made from another by putting something in the place of a piece; and what is explained of it.
#[derive(Clone, Copy, Debug)]
struct Explained {
    base: Base,
    piece: &'static str,
    instead: &'static str,
    told: &'static str,
}

static CASES: [Explained; 5] = [
    Explained {
        base: Base::Semaphore,
        piece: "",
        instead: "",
        told: "\
            accepted semaphore\n\
            made by sem_make, in the state sem_make, fields set: none; rebuilt by sem_make\n\
            made by sem_make, in the state sem_make, fields set: count; rebuilt by sem_make\n\
            sem_down waits where count is 0.\n\
            Else sem_down is done.\n",
    },
    Explained {
        base: Base::Semaphore,
        piece: "sm_wakeup(sem_up);",
        instead: "",
        told: "\
            interface refused at 28:5: Overtaken\n\
            \x20   wait if count is 0;\n\
            \x20   ^\n\
            A client that waits by the rule at `wait` may be let pass without a wake-up.\n\
            Usually sm_wakeup of the function below is missing: a client that is woken for nothing asks again.\n\
            it may be let pass by sem_up\n",
    },
    Explained {
        base: Base::Rwlock,
        piece: "sm_recover(rw_make, rw_owner);",
        instead: "sm_recover(rw_make, rw_owner);\nsm_recover(rw_make, rw_write);",
        told: "\
            interface refused at 53:5: Refusable\n\
            \x20   wait if readers above 0;\n\
            \x20   ^\n\
            The rule at `wait` may refuse or put off a replayed call.\n\
            Usually a function of its own for replays, which only sets fields and has no rules, is to be the recover step.\n\
            replay of rw_write after rw_make rw_readers; readers 0 to 64; writer 0\n",
    },
    Explained {
        base: Base::Semaphore,
        piece: "sm_block(sem_down);",
        instead: "sm_block(sem_down);\nsm_external(sem_make);",
        told: "\
            interface refused at 22:15: NoWalk\n\
            unsigned long sem_make(spdid_t spdid, unsigned long desc_data(count));\n\
            \x20             ^\n\
            A descriptor in the state `sem_make` can't always be rebuilt.\n\
            Usually a sm_recover is missing: one that leads to this state, or one that sets the fields.\n\
            it is sm_external: no walk begins with it\n",
    },
    Explained {
        base: Base::Semaphore,
        piece: "count is 0",
        instead: "cuont is 0",
        told: "\
            interface refused at 28:13: UnknownField\n\
            \x20   wait if cuont is 0;\n\
            \x20           ^\n\
            There is no field or function `cuont`.\n\
            Fields are what the desc_data words name; a function's name stands for the state that it leaves.\n",
    },
];

// This is explained of a text.
fn is_explained(rt: &impl Abort, alloc: Global, case: &Explained) -> Result<(), Fail> {
    let text = changed(
        alloc,
        case.base.text(),
        case.piece.as_bytes(),
        case.instead.as_bytes(),
    )?;
    let read = explain(alloc, text.as_slice(), &[])?;
    let said = match &read {
        Read::Ready(said) | Read::Refused(said) => said.as_slice(),
    };
    let said = String::from_utf8_lossy(alloc, said)?;
    assert_eq!(rt; said.as_str(), case.told, "with {case:?}");
    Ok(())
}

#[test]
fn each_is_explained_so(rt: HostRuntime) -> Result<(), Fail> {
    let alloc = rt.alloc();
    for case in &CASES {
        is_explained(&rt, alloc, case)?;
    }
    Ok(())
}
