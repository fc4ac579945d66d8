// What is wrong with texts by themselves, kind by kind.
use crate::cases::{Case, DATA, PARENTS, PLAIN, PRIVATE, VERSION_3, try_each};
use sg_shape::ShapeFaultKind;
use std::test::Fail;

// A private service whose descriptors may have parents of other clients.
const PRIVATE_CROSS: &str =
    "service_global_info = { service = own, desc_has_parent = @cross, desc_close = refuse, desc_is_global = false, desc_block = false, desc_has_data = false, resc_has_data = false };\n";

// A service that is said to block.
const BLOCK: &str =
    "service_global_info = { service = own, desc_has_parent = none, desc_close = refuse, desc_is_global = true, desc_block = @true, desc_has_data = false, resc_has_data = false };\n";

// A service whose rows are said to have data.
const DATA_MARKED: &str =
    "service_global_info = { service = own, desc_has_parent = none, desc_close = refuse, desc_is_global = true, desc_block = false, desc_has_data = @true, resc_has_data = false };\n";

// A service whose descriptors are said to have files.
const FILES: &str =
    "service_global_info = { service = own, desc_has_parent = none, desc_close = refuse, desc_is_global = true, desc_block = false, desc_has_data = false, resc_has_data = @true };\n";

// A service whose rows are said to have no data.
const PLAIN_MARKED: &str =
    "service_global_info = { service = own, desc_has_parent = none, desc_close = refuse, desc_is_global = true, desc_block = false, desc_has_data = @false, resc_has_data = false };\n";

// Texts with which nothing is wrong.
static ACCEPTED: [Case; 5] = [
    Case {
        head: PLAIN,
        statements: "",
        wrong: None,
    },
    Case {
        head: PLAIN,
        statements: "sm_creation(make);\nsm_terminal(free);\nsm_transition(make, free);\nlong make(spdid_t s);\nint free(spdid_t s, long desc(d));\n",
        wrong: None,
    },
    Case {
        head: DATA,
        statements: "sm_creation(make);\nlong make(componentid_t desc_data(maker), char *desc_data(name));\nint clear(spdid_t s, long desc(d));\ndesc_data_clear(clear, maker);\ndesc_data_clear(clear, maker);\n",
        wrong: None,
    },
    Case {
        head: PARENTS,
        statements: "sm_creation(make);\nsm_recover(make, set);\nlong make(spdid_t s, long parent_desc(p));\nint set(spdid_t s, long desc(d), long desc_data(level));\n",
        wrong: None,
    },
    Case {
        head: PLAIN,
        statements: "sm_state(back, make);\nsm_state(back, make);\nsm_creation(make);\nlong make(spdid_t s);\nint back(spdid_t s, long desc(d));\n",
        wrong: None,
    },
];

// Names in statements of version 3, which make no field.
static NEWER: [Case; 5] = [
    Case {
        head: VERSION_3,
        statements: "sm_creation(f);\nsm_external(f);\nint f(spdid_t s);\nsm_answer(f) { wait if x is 1; give 7; }\ndesc_data_most(x, 9);\ndesc_data_unique(x, y);\n",
        wrong: None,
    },
    Case {
        head: VERSION_3,
        statements: "sm_external(@f);\nsm_creation(g);\n",
        wrong: Some(ShapeFaultKind::UnknownFunction),
    },
    Case {
        head: VERSION_3,
        statements: "sm_answer(@f) { wait if g is 1; }\nsm_external(g);\n",
        wrong: Some(ShapeFaultKind::UnknownFunction),
    },
    Case {
        head: VERSION_3,
        statements: "sm_creation(f);\nint f(spdid_t s);\nsm_answer(f) { give 7; }\nsm_answer(@x) { give 7; }\ndesc_data_most(x, 9);\n",
        wrong: Some(ShapeFaultKind::UnknownFunction),
    },
    Case {
        head: VERSION_3,
        statements: "sm_answer(f) { give 7; }\nint f(spdid_t s);\nint @f(spdid_t s);\nsm_external(g);\n",
        wrong: Some(ShapeFaultKind::DuplicateName),
    },
];

// Names.
static NAMES: [Case; 6] = [
    Case {
        head: PLAIN,
        statements: "int f(spdid_t s, long desc(d));\nint @f(spdid_t s, long desc(d));\nint f(spdid_t s, long desc(d));\n",
        wrong: Some(ShapeFaultKind::DuplicateName),
    },
    Case {
        head: PLAIN,
        statements: "sm_creation(g);\nint f(spdid_t s, long desc(d));\nint @f(spdid_t s);\n",
        wrong: Some(ShapeFaultKind::DuplicateName),
    },
    Case {
        head: PLAIN,
        statements: "sm_creation(@f);\nsm_block(g);\n",
        wrong: Some(ShapeFaultKind::UnknownFunction),
    },
    Case {
        head: PLAIN,
        statements: "int f(spdid_t s, long desc(d));\nsm_state(f, @g);\n",
        wrong: Some(ShapeFaultKind::UnknownFunction),
    },
    Case {
        head: PLAIN,
        statements: "int f(spdid_t s, long desc(d));\nsm_transition(@g, f);\n",
        wrong: Some(ShapeFaultKind::UnknownFunction),
    },
    Case {
        head: DATA,
        statements: "desc_data_clear(@f, x);\n",
        wrong: Some(ShapeFaultKind::UnknownFunction),
    },
];

// Parameters.
static PARAMETERS: [Case; 8] = [
    Case {
        head: PLAIN,
        statements: "int @f(long a, long desc(d));\n",
        wrong: Some(ShapeFaultKind::BadParams),
    },
    Case {
        head: PLAIN,
        statements: "int @f(spdid_t *s, long desc(d));\n",
        wrong: Some(ShapeFaultKind::BadParams),
    },
    Case {
        head: PLAIN,
        statements: "int @f(spdid_t desc(d));\n",
        wrong: Some(ShapeFaultKind::BadParams),
    },
    Case {
        head: DATA,
        statements: "int @f(spdid_t desc_data_add(x), long desc(d));\n",
        wrong: Some(ShapeFaultKind::BadParams),
    },
    Case {
        head: PLAIN,
        statements: "int @f(spdid_t s, char *desc(d));\n",
        wrong: Some(ShapeFaultKind::BadParams),
    },
    Case {
        head: DATA,
        statements: "int @f(spdid_t s, long desc(d), char *desc_data_add(x));\n",
        wrong: Some(ShapeFaultKind::BadParams),
    },
    Case {
        head: PLAIN,
        statements: "int @f(spdid_t s, long desc(d), long desc(e));\n",
        wrong: Some(ShapeFaultKind::BadParams),
    },
    Case {
        head: PARENTS,
        statements: "int @f(spdid_t s, long desc(d), long parent_desc(p));\n",
        wrong: Some(ShapeFaultKind::BadParams),
    },
];

// Fields.
static FIELDS: [Case; 5] = [
    Case {
        head: DATA,
        statements: "sm_creation(f);\nsm_creation(g);\nint f(spdid_t s, char *desc_data(x));\nint g(spdid_t s, long desc_data(@x));\n",
        wrong: Some(ShapeFaultKind::MixedField),
    },
    Case {
        head: DATA,
        statements: "sm_creation(f);\nsm_creation(g);\ndesc_data_retval(long, @x) f(spdid_t s);\nint g(spdid_t s, char *desc_data(x));\n",
        wrong: Some(ShapeFaultKind::MixedField),
    },
    Case {
        head: DATA,
        statements: "desc_data_sub(f, @x);\nsm_creation(f);\nint f(spdid_t s, char *desc_data(x));\n",
        wrong: Some(ShapeFaultKind::MixedField),
    },
    Case {
        head: DATA,
        statements: "int @f(spdid_t desc_data(x), long desc(d), long desc_data(x));\n",
        wrong: Some(ShapeFaultKind::TwoEffects),
    },
    Case {
        head: DATA,
        statements: "int @f(spdid_t s, long desc(d));\ndesc_data_clear(f, x);\ndesc_data_sub(f, x);\n",
        wrong: Some(ShapeFaultKind::TwoEffects),
    },
];

// States.
static STATES: [Case; 3] = [
    Case {
        head: PLAIN,
        statements: "sm_keep(f);\nsm_state(f, g);\nint @f(spdid_t s, long desc(d));\nint g(spdid_t s, long desc(d));\n",
        wrong: Some(ShapeFaultKind::Contradiction),
    },
    Case {
        head: PLAIN,
        statements: "sm_state(f, f);\nsm_state(f, g);\nint @f(spdid_t s, long desc(d));\nint g(spdid_t s, long desc(d));\n",
        wrong: Some(ShapeFaultKind::Contradiction),
    },
    Case {
        head: PLAIN,
        statements: "sm_keep(g);\nsm_state(f, g);\nint @f(spdid_t s, long desc(d));\nint g(spdid_t s, long desc(d));\n",
        wrong: Some(ShapeFaultKind::StateOfOther),
    },
];

// What every shape keeps to.
static ALLOWED: [Case; 11] = [
    Case {
        head: PRIVATE_CROSS,
        statements: "",
        wrong: Some(ShapeFaultKind::PrivateLooksAround),
    },
    Case {
        head: PRIVATE,
        statements: "sm_needs_all(f);\nint @f(spdid_t s, long desc(d));\n",
        wrong: Some(ShapeFaultKind::PrivateLooksAround),
    },
    Case {
        head: PLAIN,
        statements: "sm_query(f);\nint @f(spdid_t s, long desc(d));\n",
        wrong: Some(ShapeFaultKind::QueryTakes),
    },
    Case {
        head: PLAIN,
        statements: "sm_query(f);\nresc_data(f);\nint @f(spdid_t s);\n",
        wrong: Some(ShapeFaultKind::FileWithoutDesc),
    },
    Case {
        head: DATA,
        statements: "int @f(spdid_t s, long desc(d), char *desc_data(x));\n",
        wrong: Some(ShapeFaultKind::TextChanged),
    },
    Case {
        head: PLAIN,
        statements: "sm_block(f);\nsm_terminal(f);\nint @f(spdid_t s, long desc(d));\n",
        wrong: Some(ShapeFaultKind::BlocksOrMakes),
    },
    Case {
        head: PLAIN,
        statements: "sm_creation(f);\nint @f(spdid_t s, long desc(d));\n",
        wrong: Some(ShapeFaultKind::MakesOn),
    },
    Case {
        head: PLAIN,
        statements: "sm_creation(f);\nsm_terminal(f);\nint @f(spdid_t s);\n",
        wrong: Some(ShapeFaultKind::MakesOn),
    },
    Case {
        head: PLAIN,
        statements: "int @f(spdid_t s);\n",
        wrong: Some(ShapeFaultKind::ActsOnNone),
    },
    Case {
        head: PARENTS,
        statements: "int @f(spdid_t s, long parent_desc(p));\n",
        wrong: Some(ShapeFaultKind::ActsOnNone),
    },
    Case {
        head: PLAIN,
        statements: "sm_creation(f);\nint @f(spdid_t s, long parent_desc(p));\n",
        wrong: Some(ShapeFaultKind::NoParents),
    },
];

// What is replayed.
static REPLAYED: [Case; 4] = [
    Case {
        head: PLAIN,
        statements: "sm_creation(f);\nsm_recover(f, g);\nresc_data(g);\nint f(spdid_t s);\nint @g(spdid_t s, long desc(d), char *bytes);\n",
        wrong: Some(ShapeFaultKind::ReplayWrites),
    },
    Case {
        head: PLAIN,
        statements: "sm_creation(f);\nint @f(spdid_t s, long a);\n",
        wrong: Some(ShapeFaultKind::ArgumentLost),
    },
    Case {
        head: PARENTS,
        statements: "sm_creation(f);\ndesc_data_retval(long, x) @f(spdid_t s, long parent_desc(p));\n",
        wrong: Some(ShapeFaultKind::ReplayUnknown),
    },
    Case {
        head: PLAIN,
        statements: "sm_creation(f);\nsm_recover(f, f);\nint @f(spdid_t s);\n",
        wrong: Some(ShapeFaultKind::RecoverMakes),
    },
];

// Facts at the head.
static HEADS: [Case; 4] = [
    Case {
        head: BLOCK,
        statements: "",
        wrong: Some(ShapeFaultKind::WrongFact),
    },
    Case {
        head: DATA_MARKED,
        statements: "",
        wrong: Some(ShapeFaultKind::WrongFact),
    },
    Case {
        head: FILES,
        statements: "",
        wrong: Some(ShapeFaultKind::WrongFact),
    },
    Case {
        head: PLAIN_MARKED,
        statements: "int f(spdid_t s, long desc(d), long desc_data(x));\n",
        wrong: Some(ShapeFaultKind::WrongFact),
    },
];

#[test]
fn accepted_are_told(rt: HostRuntime) -> Result<(), Fail> {
    try_each(&rt, rt.alloc(), &ACCEPTED)
}

#[test]
fn newer_are_told(rt: HostRuntime) -> Result<(), Fail> {
    try_each(&rt, rt.alloc(), &NEWER)
}

#[test]
fn names_are_told(rt: HostRuntime) -> Result<(), Fail> {
    try_each(&rt, rt.alloc(), &NAMES)
}

#[test]
fn parameters_are_told(rt: HostRuntime) -> Result<(), Fail> {
    try_each(&rt, rt.alloc(), &PARAMETERS)
}

#[test]
fn fields_are_told(rt: HostRuntime) -> Result<(), Fail> {
    try_each(&rt, rt.alloc(), &FIELDS)
}

#[test]
fn states_are_told(rt: HostRuntime) -> Result<(), Fail> {
    try_each(&rt, rt.alloc(), &STATES)
}

#[test]
fn allowed_are_told(rt: HostRuntime) -> Result<(), Fail> {
    try_each(&rt, rt.alloc(), &ALLOWED)
}

#[test]
fn replayed_are_told(rt: HostRuntime) -> Result<(), Fail> {
    try_each(&rt, rt.alloc(), &REPLAYED)
}

#[test]
fn heads_are_told(rt: HostRuntime) -> Result<(), Fail> {
    try_each(&rt, rt.alloc(), &HEADS)
}
