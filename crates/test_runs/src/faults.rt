// Inputs with what is explained of them, byte by byte: each kind of fault, and inputs with which nothing is wrong.
use crate::asking::Edit::{As, Front, Nothing};
use crate::asking::{Edit, explained, lock_with};
use sg_top::Status::{self, Done, Refused};
use std::alloc::Global;
use std::process::Abort;
use std::test::Fail;

// An edit of the interface of locks, what stands after it, and the status and the output that these come to.
type Case = (Edit, &'static [u8], Status, &'static [u8]);

static CASES: [Case; 27] = [
    // no token begins with this byte
    (
        As(12, b"sm_block(lock_take)@;\n"),
        b"",
        Refused,
        b"interface refused at 12:20: Lex
sm_block(lock_take)@;
                   ^
No token can be read at `@`.
A token is a word, a number, a text between double quotes, or one of { } ( ) = , ; * $; a text or a comment may lack its end.
",
    ),
    // a bracket is missing
    (
        As(12, b"sm_block lock_take);\n"),
        b"",
        Refused,
        b"interface refused at 12:10: Syntax
sm_block lock_take);
         ^
Something else has to stand here than `lock_take`.
Usually a bracket, a comma or a semicolon is missing just before, or a word of the language stands where a name has to.
",
    ),
    // the text ends too early
    (
        As(
            25,
            b"int lock_free(spdid_t spdid, unsigned long desc(id))\n",
        ),
        b"",
        Refused,
        b"interface refused at 26:1: Syntax

^
Something else has to stand here than the end.
Usually a bracket, a comma or a semicolon is missing just before, or a word of the language stands where a name has to.
",
    ),
    (
        As(2, b"    service = lok,\n"),
        b"",
        Refused,
        b"interface refused at 2:15: UnknownService
    service = lok,
              ^
There is no service with the name `lok`.
Usually the name is misspelt; the services are those that the program has built in.
",
    ),
    (
        As(
            25,
            b"int lock_free(spdid_t spdid, unsigned long desc(id));\nint lock_take(spdid_t spdid);\n",
        ),
        b"",
        Refused,
        b"interface refused at 26:5: DuplicateName
int lock_take(spdid_t spdid);
    ^
The function `lock_take` has a prototype already.
A function has one prototype: usually this one is a copy, or another function is meant.
",
    ),
    (
        As(12, b"sm_block(lock_tak);\n"),
        b"",
        Refused,
        b"interface refused at 12:10: UnknownFunction
sm_block(lock_tak);
         ^
The service has no function `lock_tak`, or the text has no prototype of it.
Usually the name is misspelt, or the prototype was left out.
",
    ),
    (
        As(23, b"int lock_release(spdid_t spdid);\n"),
        b"",
        Refused,
        b"interface refused at 23:5: BadParams
int lock_release(spdid_t spdid);
    ^
The parameters of `lock_release` aren't those that the service has.
The first is the client; the others have the number, the order and the kinds of the service's, with desc and parent_desc where it has them.
",
    ),
    (
        As(6, b"    desc_block = false,\n"),
        b"",
        Refused,
        b"interface refused at 6:18: WrongFact
    desc_block = false,
                 ^
The service has another value here than `false`.
The facts at the head are those of the service, as they are: they can't be chosen.
",
    ),
    // the release wakes nobody
    (
        As(13, b""),
        b"",
        Refused,
        b"interface refused at 22:5: WrongFlag
int lock_release(spdid_t spdid, unsigned long desc(id));
    ^
The flags of `lock_release`, or the state that it leaves, aren't the service's.
Usually a statement on it is missing or too many: sm_creation, sm_terminal, sm_block, sm_wakeup, sm_query, sm_needs_all, resc_data, sm_state or sm_keep.
",
    ),
    // the release leaves the owner
    (
        As(24, b""),
        b"",
        Refused,
        b"interface refused at 23:5: WrongEffect
int lock_release(spdid_t spdid, unsigned long desc(id));
    ^
What `lock_release` does to fields isn't what the service's does.
Usually a desc_data word is missing or too many in its prototype or on it, or it names another field.
",
    ),
    (
        As(16, b"sm_transition(lock_free, lock_alloc);\n"),
        b"",
        Refused,
        b"interface refused at 16:15: ForeignTransition
sm_transition(lock_free, lock_alloc);
              ^
The service has no such transition from `lock_free`.
sm_transition(f, g) says that g may be called in the state f: usually the two are exchanged, or another state is meant.
",
    ),
    (
        As(20, b"sm_recover(lock_take, lock_alloc);\n"),
        b"",
        Refused,
        b"interface refused at 20:12: ForeignRecover
sm_recover(lock_take, lock_alloc);
           ^
The service has no such recover step from `lock_take`.
sm_recover(f, g) says that g may be replayed in the state f: usually the two are exchanged, or another state is meant.
",
    ),
    (
        Front(9),
        b"",
        Refused,
        b"interface refused at 1:1: NoCreation
service_global_info = {
^
In the text that begins with `service_global_info` no function makes a descriptor.
Usually the prototype of the function that makes descriptors was left out.
",
    ),
    (
        As(18, b""),
        b"",
        Refused,
        b"interface refused at 22:5: Unreached
int lock_release(spdid_t spdid, unsigned long desc(id));
    ^
The function `lock_release` can be called in no state that a descriptor can come to.
Usually a sm_transition to it is missing, or one on the way to it.
",
    ),
    (
        As(20, b""),
        b"",
        Refused,
        b"interface refused at 21:5: NoWalk
int lock_take(spdid_t desc_data(owner), unsigned long desc(id));
    ^
A descriptor in the state `lock_take` can't always be rebuilt.
Usually a sm_recover is missing: one that leads to this state, or one that sets the fields.
made by lock_alloc, in the state lock_take, fields set: owner; no walk of at most 8 calls rebuilds it
",
    ),
    // nothing is wrong
    (
        Nothing,
        b"",
        Done,
        b"accepted lock
made by lock_alloc, in the state lock_alloc, fields set: none; rebuilt by lock_alloc
made by lock_alloc, in the state lock_take, fields set: owner; rebuilt by lock_alloc lock_take
",
    ),
    // a semicolon is missing before
    (
        Nothing,
        b"%%\nclient 1 {\n\tlock_alloc()\n}\n",
        Refused,
        b"script refused at 3:1: Syntax
}
^
Something else has to stand here than `}`.
Usually a bracket, a comma or a semicolon is missing just before; a script has the parts setup, client, schedule and stop.
",
    ),
    // tabs and a space before the place
    (
        Nothing,
        b"%%\nclient 1 {\n\tlock_alloc();\n\t \tlock_tak($1);\n}\n",
        Refused,
        b"script refused at 3:4: UnknownFunction
\t \tlock_tak($1);
\t \t^
The interface declares no function `lock_tak`.
Usually the name is misspelt, or the interface has no prototype of it.
",
    ),
    // the last line has no end
    (
        Nothing,
        b"%%\nclient 1 { lock_alloc(); lock_take(); }",
        Refused,
        b"script refused at 1:26: BadArgs
client 1 { lock_alloc(); lock_take(); }
                         ^
The arguments of `lock_take` don't fit its parameters.
There is one for each parameter after the caller: a text for a text, and else a number, or $k for what the client's k-th call was given, a call before this one.
",
    ),
    // lines end with CR LF
    (
        Nothing,
        b"%%\nclient 1 { lock_alloc(); }\r\nclient 65 { }\r\n",
        Refused,
        b"script refused at 2:8: BadClient
client 65 { }
       ^
There is no client `65`.
Clients have the numbers 1 to 64.
",
    ),
    (
        Nothing,
        b"%%\nsetup { }\nsetup { lock_alloc(); }\n",
        Refused,
        b"script refused at 2:1: Twice
setup { lock_alloc(); }
^
The part `setup` is there already.
A script has one setup, one schedule, one stop and one part for each client: usually two parts are to be one, or another client is meant.
",
    ),
    (
        Nothing,
        b"%%\nstop 5 5;\n",
        Refused,
        b"script refused at 1:8: NotAscending
stop 5 5;
       ^
The stop `5` isn't above the one before it.
Stops are numbers of points, from 1 on, each above the one before.
",
    ),
    (
        Nothing,
        b"%%\nsetup { lock_alloc(); lock_take($1); }\n",
        Refused,
        b"script refused at 1:23: Blocking
setup { lock_alloc(); lock_take($1); }
                      ^
The function `lock_take` may block, and stands in setup.
Nobody could wake its caller during the setup: usually the call belongs to a client's part.
",
    ),
    (
        Nothing,
        b"%%\nstop 18446744073709551616;\n",
        Refused,
        b"script refused at 1:6: Limit
stop 18446744073709551616;
     ^
A limit is passed at `18446744073709551616`.
A number is at most 18446744073709551615, a text has at most 256 bytes, and a script has at most 65536 calls and 64 stops.
",
    ),
    // the calls of the setup are client 1's
    (
        Nothing,
        b"%%\nsetup { lock_alloc(); } client 2 { lock_take(1); } client 3 { } stop 3 9;",
        Done,
        b"accepted lock
made by lock_alloc, in the state lock_alloc, fields set: none; rebuilt by lock_alloc
made by lock_alloc, in the state lock_take, fields set: owner; rebuilt by lock_alloc lock_take
clients 2 calls 2 stops 2
",
    ),
    // an empty script
    (
        Nothing,
        b"%%\n",
        Done,
        b"accepted lock
made by lock_alloc, in the state lock_alloc, fields set: none; rebuilt by lock_alloc
made by lock_alloc, in the state lock_take, fields set: owner; rebuilt by lock_alloc lock_take
clients 0 calls 0 stops 0
",
    ),
    // of two texts the interface is refused first
    (
        Front(9),
        b"%%\nclient 65 { }",
        Refused,
        b"interface refused at 1:1: NoCreation
service_global_info = {
^
In the text that begins with `service_global_info` no function makes a descriptor.
Usually the prototype of the function that makes descriptors was left out.
",
    ),
];

// What is explained of a case is what is known.
fn try_case(rt: &impl Abort, alloc: Global, case: &Case) -> Result<(), Fail> {
    let (edit, script, status, said) = case;
    let input = lock_with(alloc, *edit, script)?;
    let (answer, text) = explained(alloc, &input)?;
    assert_eq!(rt; answer, *status, "{edit:?}");
    assert_eq!(rt; text.as_slice(), *said, "{edit:?}");
    Ok(())
}

#[test]
fn each_kind_has_its_words(rt: HostRuntime) -> Result<(), Fail> {
    for case in &CASES {
        try_case(&rt, rt.alloc(), case)?;
    }
    Ok(())
}
