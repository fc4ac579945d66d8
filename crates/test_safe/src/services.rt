// Services that can be recovered.
ghost use Rattle.std.specs.Prelude.{◌≡◌, ◌≤◌, true, length};
ghost use Rattle.sg_safe.specs.sg_facts.Limits.{most_funs};
ghost use Rattle.sg_safe.specs.sg_described.Described.{described_of};
ghost use Rattle.sg_safe.specs.sg_described.Safe.{is_plain};

use crate::parts::{CALLER, DONE, FIELD, SINGLE, WAIT_AT_ZERO, ZERO};
use sg_safe::{
    AnswerShape, Code, Description, Effect, FieldShape, FunShape, Kind, Leaves, Operand, Relation,
    RuleShape, Shape, Term, Test, Verdict,
};

// ---- locks

const OWNER: &[FieldShape] = &[FieldShape {
    name: b"owner",
    text: false,
}];

pub(crate) const LOCK_ALLOC: FunShape = FunShape {
    name: b"lock_alloc",
    kinds: &[],
    flags: FunShape::CREATION,
    leaves: Leaves::Own,
    effects: &[],
};

pub(crate) const LOCK_TAKE: FunShape = FunShape {
    name: b"lock_take",
    kinds: &[Kind::Desc],
    flags: FunShape::BLOCK,
    leaves: Leaves::Own,
    effects: &[(0, Effect::SetCaller)],
};

pub(crate) const LOCK_RELEASE: FunShape = FunShape {
    name: b"lock_release",
    kinds: &[Kind::Desc],
    flags: FunShape::WAKEUP,
    leaves: Leaves::Of(1),
    effects: &[(0, Effect::Clear)],
};

pub(crate) const LOCK_FREE: FunShape = FunShape {
    name: b"lock_free",
    kinds: &[Kind::Desc],
    flags: FunShape::TERMINAL,
    leaves: Leaves::Own,
    effects: &[],
};

const LOCK_FUNS: &[FunShape] = &[LOCK_ALLOC, LOCK_TAKE, LOCK_RELEASE, LOCK_FREE];

const LOCK_MOVES: &[(u8, u8)] = &[(1, 2), (1, 4), (2, 2), (2, 3), (2, 4)];

const LOCK_STEPS: &[(u8, u8)] = &[(1, 2)];

/// The facts of locks.
pub(crate) const LOCK_SHAPE: Shape = Shape {
    name: b"lock",
    block: true,
    fields: OWNER,
    funs: LOCK_FUNS,
    moves: LOCK_MOVES,
    steps: LOCK_STEPS,
    ..SINGLE
};

const TAKE_RULES: &[RuleShape] = &[
    RuleShape {
        tests: &[Test {
            left: FIELD,
            relation: Relation::Is,
            right: CALLER,
        }],
        verdict: Verdict::Refuse(Code::Held),
    },
    RuleShape {
        tests: &[Test {
            left: FIELD,
            relation: Relation::Above,
            right: ZERO,
        }],
        verdict: Verdict::Wait,
    },
];

const RELEASE_RULES: &[RuleShape] = &[RuleShape {
    tests: &[Test {
        left: FIELD,
        relation: Relation::IsNot,
        right: CALLER,
    }],
    verdict: Verdict::Refuse(Code::NotOwner),
}];

const FREE_RULES: &[RuleShape] = &[RuleShape {
    tests: &[Test {
        left: FIELD,
        relation: Relation::Above,
        right: ZERO,
    }],
    verdict: Verdict::Refuse(Code::Held),
}];

pub(crate) const LOCK_ANSWERS: &[AnswerShape] = &[
    DONE,
    AnswerShape { rules: TAKE_RULES },
    AnswerShape {
        rules: RELEASE_RULES,
    },
    AnswerShape { rules: FREE_RULES },
];

/// Locks.
pub fn lock() -> Description
    ensures few { length (described_of result).facts.funs ≤ most_funs }
    ensures plain { is_plain (described_of result) ≡ true }
{
    Description {
        shape: LOCK_SHAPE,
        most: &[4294967295],
        answers: LOCK_ANSWERS,
    }
}

// ---- events

pub(crate) const EVENT_FUNS: &[FunShape] = &[
    FunShape {
        name: b"evt_split",
        kinds: &[],
        flags: FunShape::CREATION,
        leaves: Leaves::Own,
        effects: &[],
    },
    FunShape {
        name: b"evt_wait",
        kinds: &[Kind::Desc],
        flags: FunShape::BLOCK,
        leaves: Leaves::Same,
        effects: &[(0, Effect::SubOne)],
    },
    FunShape {
        name: b"evt_trigger",
        kinds: &[Kind::Desc, Kind::Word],
        flags: FunShape::WAKEUP,
        leaves: Leaves::Same,
        effects: &[(0, Effect::AddArg(0))],
    },
    FunShape {
        name: b"evt_free",
        kinds: &[Kind::Desc],
        flags: FunShape::TERMINAL,
        leaves: Leaves::Own,
        effects: &[],
    },
    FunShape {
        name: b"evt_take",
        kinds: &[Kind::Desc, Kind::Word],
        flags: 0,
        leaves: Leaves::Same,
        effects: &[(0, Effect::SubRet)],
    },
];

const EVENT_MOVES: &[(u8, u8)] = &[(1, 2), (1, 3), (1, 4), (1, 5)];

const EVENT_STEPS: &[(u8, u8)] = &[(1, 3)];

/// The facts of events.
pub(crate) const EVENT_SHAPE: Shape = Shape {
    name: b"event",
    block: true,
    funs: EVENT_FUNS,
    moves: EVENT_MOVES,
    steps: EVENT_STEPS,
    ..SINGLE
};

const WAIT_RULES: &[RuleShape] = &[WAIT_AT_ZERO];

/// Waits while nothing was triggered.
pub(crate) const WAITS: AnswerShape = AnswerShape { rules: WAIT_RULES };

const GIVE_RULES: &[RuleShape] = &[RuleShape {
    tests: &[],
    verdict: Verdict::Give(Term::Least(Operand::Argument(0), Operand::Own(0))),
}];

/// Gives what there is, up to the argument.
pub(crate) const GIVES: AnswerShape = AnswerShape { rules: GIVE_RULES };

const EVENT_ANSWERS: &[AnswerShape] = &[DONE, WAITS, DONE, DONE, GIVES];

/// Events.
pub fn event() -> Description
    ensures few { length (described_of result).facts.funs ≤ most_funs }
    ensures plain { is_plain (described_of result) ≡ true }
{
    Description {
        shape: EVENT_SHAPE,
        most: &[65535],
        answers: EVENT_ANSWERS,
    }
}

// ---- semaphores

pub(crate) const SEM_MAKE: FunShape = FunShape {
    name: b"sem_make",
    kinds: &[Kind::Word],
    flags: FunShape::CREATION,
    leaves: Leaves::Own,
    effects: &[(0, Effect::SetArg(0))],
};

pub(crate) const SEM_DOWN: FunShape = FunShape {
    name: b"sem_down",
    kinds: &[Kind::Desc],
    flags: FunShape::BLOCK,
    leaves: Leaves::Same,
    effects: &[(0, Effect::SubOne)],
};

pub(crate) const SEM_UP: FunShape = FunShape {
    name: b"sem_up",
    kinds: &[Kind::Desc, Kind::Word],
    flags: FunShape::WAKEUP,
    leaves: Leaves::Same,
    effects: &[(0, Effect::AddArg(0))],
};

pub(crate) const SEM_FREE: FunShape = FunShape {
    name: b"sem_free",
    kinds: &[Kind::Desc],
    flags: FunShape::TERMINAL,
    leaves: Leaves::Own,
    effects: &[],
};

const SEM_FUNS: &[FunShape] = &[SEM_MAKE, SEM_DOWN, SEM_UP, SEM_FREE];

const SEM_MOVES: &[(u8, u8)] = &[(1, 2), (1, 3), (1, 4)];

/// The facts of semaphores.
pub(crate) const SEM_SHAPE: Shape = Shape {
    name: b"semaphore",
    block: true,
    funs: SEM_FUNS,
    moves: SEM_MOVES,
    ..SINGLE
};

pub(crate) const SEM_ANSWERS: &[AnswerShape] = &[DONE, WAITS, DONE, DONE];

/// Semaphores.
pub fn semaphore() -> Description
    ensures few { length (described_of result).facts.funs ≤ most_funs }
    ensures plain { is_plain (described_of result) ≡ true }
{
    Description {
        shape: SEM_SHAPE,
        most: &[65535],
        answers: SEM_ANSWERS,
    }
}
