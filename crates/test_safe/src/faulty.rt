// Services that can't be recovered.
ghost use Rattle.std.specs.Prelude.{◌≡◌, ◌≤◌, true, length};
ghost use Rattle.sg_safe.specs.sg_facts.Limits.{most_funs};
ghost use Rattle.sg_safe.specs.sg_described.Described.{described_of};
ghost use Rattle.sg_safe.specs.sg_described.Safe.{is_plain};

use crate::parts::{ARGUMENT, DONE, SINGLE};
use crate::services::{
    EVENT_SHAPE, GIVES, LOCK_ALLOC, LOCK_ANSWERS, LOCK_FREE, LOCK_SHAPE, LOCK_TAKE, SEM_ANSWERS,
    SEM_DOWN, SEM_FREE, SEM_MAKE, SEM_SHAPE, SEM_UP, WAITS,
};
use sg_safe::{
    AnswerShape, Code, Description, Effect, FunShape, Kind, Leaves, Operand, Relation, RuleShape,
    Shape, Term, Test, Verdict,
};

// ---- a replayed call that may be refused

const LIMIT_RULES: &[RuleShape] = &[RuleShape {
    tests: &[Test {
        left: ARGUMENT,
        relation: Relation::Above,
        right: Term::Only(Operand::Number(100)),
    }],
    verdict: Verdict::Refuse(Code::TooBig),
}];

const LIMITED_ANSWERS: &[AnswerShape] = &[
    DONE,
    WAITS,
    AnswerShape { rules: LIMIT_RULES },
    DONE,
    GIVES,
];

/// Events of which at most 100 are triggered at once: more may have come together when they are rebuilt.
pub fn limited_event() -> Description
    ensures few { length (described_of result).facts.funs ≤ most_funs }
    ensures plain { is_plain (described_of result) ≡ true }
{
    Description {
        shape: EVENT_SHAPE,
        most: &[65535],
        answers: LIMITED_ANSWERS,
    }
}

// ---- a replayed call without a client

const FORGETFUL_FUNS: &[FunShape] = &[
    LOCK_ALLOC,
    LOCK_TAKE,
    FunShape {
        name: b"lock_release",
        kinds: &[Kind::Desc],
        flags: FunShape::WAKEUP,
        leaves: Leaves::Same,
        effects: &[(0, Effect::Clear)],
    },
    LOCK_FREE,
];

/// Locks whose release clears the owner, and leaves the state of a lock that is taken.
pub fn forgetful_lock() -> Description
    ensures few { length (described_of result).facts.funs ≤ most_funs }
    ensures plain { is_plain (described_of result) ≡ true }
{
    Description {
        shape: Shape {
            funs: FORGETFUL_FUNS,
            ..LOCK_SHAPE
        },
        most: &[4294967295],
        answers: LOCK_ANSWERS,
    }
}

// ---- a missed wake-up

const MUTE_FUNS: &[FunShape] = &[
    SEM_MAKE,
    SEM_DOWN,
    FunShape {
        name: b"sem_up",
        kinds: &[Kind::Desc, Kind::Word],
        flags: 0,
        leaves: Leaves::Same,
        effects: &[(0, Effect::AddArg(0))],
    },
    SEM_FREE,
];

/// Semaphores whose up is no wake-up.
pub fn mute_semaphore() -> Description
    ensures few { length (described_of result).facts.funs ≤ most_funs }
    ensures plain { is_plain (described_of result) ≡ true }
{
    Description {
        shape: Shape {
            funs: MUTE_FUNS,
            ..SEM_SHAPE
        },
        most: &[65535],
        answers: SEM_ANSWERS,
    }
}

// ---- a field past its greatest number

const HEAP_FUNS: &[FunShape] = &[
    SEM_MAKE,
    FunShape {
        name: b"heap_add",
        kinds: &[Kind::Desc, Kind::Word],
        flags: 0,
        leaves: Leaves::Own,
        effects: &[(0, Effect::AddArg(0))],
    },
    FunShape {
        name: b"heap_clear",
        kinds: &[Kind::Desc],
        flags: 0,
        leaves: Leaves::Own,
        effects: &[(0, Effect::Clear)],
    },
    SEM_FREE,
];

const HEAP_MOVES: &[(u8, u8)] = &[(1, 2), (2, 3), (3, 2), (2, 4), (3, 4)];

const HEAP_STEPS: &[(u8, u8)] = &[(1, 2), (2, 3)];

const HEAP_ANSWERS: &[AnswerShape] = &[DONE, DONE, DONE, DONE];

/// Heaps that are made with a count, and to which another is added when they are rebuilt, too.
pub fn heap() -> Description
    ensures few { length (described_of result).facts.funs ≤ most_funs }
    ensures plain { is_plain (described_of result) ≡ true }
{
    Description {
        shape: Shape {
            name: b"heap",
            funs: HEAP_FUNS,
            moves: HEAP_MOVES,
            steps: HEAP_STEPS,
            ..SINGLE
        },
        most: &[65535],
        answers: HEAP_ANSWERS,
    }
}

const CRATE_FUNS: &[FunShape] = &[
    FunShape {
        name: b"crate_make",
        kinds: &[],
        flags: FunShape::CREATION,
        leaves: Leaves::Own,
        effects: &[(0, Effect::SetRet)],
    },
    FunShape {
        name: b"crate_empty",
        kinds: &[Kind::Desc],
        flags: 0,
        leaves: Leaves::Own,
        effects: &[(0, Effect::Clear)],
    },
    SEM_FREE,
];

const CRATE_MOVES: &[(u8, u8)] = &[(1, 2), (1, 3), (2, 3)];

const CRATE_STEPS: &[(u8, u8)] = &[(1, 2)];

const CRATE_RULES: &[RuleShape] = &[RuleShape {
    tests: &[],
    verdict: Verdict::Give(Term::Only(Operand::Number(70000))),
}];

const CRATE_ANSWERS: &[AnswerShape] = &[AnswerShape { rules: CRATE_RULES }, DONE, DONE];

/// Crates that are made with more than they may hold, and emptied when they are rebuilt.
pub fn crate_overfull() -> Description
    ensures few { length (described_of result).facts.funs ≤ most_funs }
    ensures plain { is_plain (described_of result) ≡ true }
{
    Description {
        shape: Shape {
            name: b"crate",
            funs: CRATE_FUNS,
            moves: CRATE_MOVES,
            steps: CRATE_STEPS,
            ..SINGLE
        },
        most: &[65535],
        answers: CRATE_ANSWERS,
    }
}

// ---- words that count

const TALLY_FUNS: &[FunShape] = &[
    SEM_MAKE,
    FunShape {
        name: b"tally_tick",
        kinds: &[Kind::Desc],
        flags: 0,
        leaves: Leaves::Same,
        effects: &[(0, Effect::AddRet)],
    },
    SEM_FREE,
];

const TALLY_MOVES: &[(u8, u8)] = &[(1, 2), (1, 3)];

const TICK_RULES: &[RuleShape] = &[RuleShape {
    tests: &[],
    verdict: Verdict::Give(Term::Only(Operand::Number(1))),
}];

const TALLY_ANSWERS: &[AnswerShape] = &[DONE, AnswerShape { rules: TICK_RULES }, DONE];

/// Tallies that may count to the end of their words.
pub fn tally() -> Description
    ensures few { length (described_of result).facts.funs ≤ most_funs }
    ensures plain { is_plain (described_of result) ≡ true }
{
    Description {
        shape: Shape {
            name: b"tally",
            funs: TALLY_FUNS,
            moves: TALLY_MOVES,
            ..SINGLE
        },
        most: &[18446744073709551615],
        answers: TALLY_ANSWERS,
    }
}

const COUNTER_FUNS: &[FunShape] = &[
    LOCK_ALLOC,
    SEM_UP,
    FunShape {
        name: b"counter_tick",
        kinds: &[Kind::Desc],
        flags: 0,
        leaves: Leaves::Same,
        effects: &[(0, Effect::AddRet)],
    },
    SEM_FREE,
];

const COUNTER_MOVES: &[(u8, u8)] = &[(1, 2), (1, 3), (1, 4)];

const COUNTER_STEPS: &[(u8, u8)] = &[(1, 2)];

const COUNTER_ANSWERS: &[AnswerShape] = &[DONE, DONE, AnswerShape { rules: TICK_RULES }, DONE];

/// Counters that are rebuilt by an addition.
pub fn counter() -> Description
    ensures few { length (described_of result).facts.funs ≤ most_funs }
    ensures plain { is_plain (described_of result) ≡ true }
{
    Description {
        shape: Shape {
            name: b"counter",
            funs: COUNTER_FUNS,
            moves: COUNTER_MOVES,
            steps: COUNTER_STEPS,
            ..SINGLE
        },
        most: &[65535],
        answers: COUNTER_ANSWERS,
    }
}
