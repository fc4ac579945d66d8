// Large services and long texts. No proof speaks of time, nor of memory that there is.
ghost use Rattle.std.specs.Prelude.{◌≡◌, false, true};
ghost use Rattle.sg_input.specs.sg_facts.Facts.{facts_of};
ghost use Rattle.sg_input.specs.sg_check_statements.Shapes.{is_shape};

use crate::answers::{Answer, accepted, answer};
use sg_input::CheckKind::NoWalk;
use sg_input::{Effect, FieldShape, FunShape, Kind, Leaves, Parents, Shape, compile};
use sg_load::kind::LockService;
use std::alloc::{AllocError, Global};
use std::test::Fail;
use test_interfaces::LOCK;

// All pairs of functions.
macro_rules! pairs {
    ([$($done:tt)*]) => {
        [$($done)*]
    };
    ([$($done:tt)*] $f:tt $($rest:tt)*) => {
        pairs!([$($done)* ($f, 1), ($f, 2), ($f, 3), ($f, 4), ($f, 5), ($f, 6), ($f, 7), ($f, 8), ($f, 9), ($f, 10), ($f, 11), ($f, 12), ($f, 13), ($f, 14), ($f, 15), ($f, 16), ($f, 17), ($f, 18), ($f, 19), ($f, 20), ($f, 21), ($f, 22), ($f, 23), ($f, 24), ($f, 25), ($f, 26), ($f, 27), ($f, 28), ($f, 29), ($f, 30), ($f, 31), ($f, 32),] $($rest)*)
    };
}

static PAIRS: [(u8, u8); 1024] =
    pairs!([] 1 2 3 4 5 6 7 8 9 10 11 12 13 14 15 16 17 18 19 20 21 22 23 24 25 26 27 28 29 30 31 32);

// A function that is called on a descriptor with a word.
macro_rules! fun {
    ($name:expr, $effects:expr) => {
        FunShape {
            name: $name,
            kinds: &[Kind::Desc, Kind::Word],
            flags: 0,
            leaves: Leaves::Own,
            effects: $effects,
        }
    };
}

// The function that makes a descriptor.
macro_rules! creation {
    () => {
        FunShape {
            name: b"f01",
            kinds: &[],
            flags: FunShape::CREATION,
            leaves: Leaves::Own,
            effects: &[],
        }
    };
}

static PLAIN: [FunShape; 32] = [
    creation!(),
    fun!(b"f02", &[]),
    fun!(b"f03", &[]),
    fun!(b"f04", &[]),
    fun!(b"f05", &[]),
    fun!(b"f06", &[]),
    fun!(b"f07", &[]),
    fun!(b"f08", &[]),
    fun!(b"f09", &[]),
    fun!(b"f10", &[]),
    fun!(b"f11", &[]),
    fun!(b"f12", &[]),
    fun!(b"f13", &[]),
    fun!(b"f14", &[]),
    fun!(b"f15", &[]),
    fun!(b"f16", &[]),
    fun!(b"f17", &[]),
    fun!(b"f18", &[]),
    fun!(b"f19", &[]),
    fun!(b"f20", &[]),
    fun!(b"f21", &[]),
    fun!(b"f22", &[]),
    fun!(b"f23", &[]),
    fun!(b"f24", &[]),
    fun!(b"f25", &[]),
    fun!(b"f26", &[]),
    fun!(b"f27", &[]),
    fun!(b"f28", &[]),
    fun!(b"f29", &[]),
    fun!(b"f30", &[]),
    fun!(b"f31", &[]),
    fun!(b"f32", &[]),
];

// A field that is a word.
macro_rules! field {
    ($name:expr) => {
        FieldShape {
            name: $name,
            text: false,
        }
    };
}

static FIELDS: [FieldShape; 4] = [field!(b"a"), field!(b"b"), field!(b"c"), field!(b"d")];

static EIGHT_FIELDS: [FieldShape; 8] = [
    field!(b"a"),
    field!(b"b"),
    field!(b"c"),
    field!(b"d"),
    field!(b"e"),
    field!(b"f"),
    field!(b"g"),
    field!(b"h"),
];

static NINE_FIELDS: [FieldShape; 9] = [
    field!(b"a"),
    field!(b"b"),
    field!(b"c"),
    field!(b"d"),
    field!(b"e"),
    field!(b"f"),
    field!(b"g"),
    field!(b"h"),
    field!(b"i"),
];

// A function that makes a descriptor and sets all of its eight fields.
macro_rules! setting_eight {
    ($name:expr) => {
        FunShape {
            name: $name,
            kinds: &[
                Kind::Word,
                Kind::Word,
                Kind::Word,
                Kind::Word,
                Kind::Word,
                Kind::Word,
                Kind::Word,
                Kind::Word,
            ],
            flags: FunShape::CREATION,
            leaves: Leaves::Own,
            effects: &[
                (0, Effect::SetArg(0)),
                (1, Effect::SetArg(1)),
                (2, Effect::SetArg(2)),
                (3, Effect::SetArg(3)),
                (4, Effect::SetArg(4)),
                (5, Effect::SetArg(5)),
                (6, Effect::SetArg(6)),
                (7, Effect::SetArg(7)),
            ],
        }
    };
}

static SETTING_EIGHT: [FunShape; 2] = [setting_eight!(b"f01"), setting_eight!(b"f02")];

static FOUR_PAIRS: [(u8, u8); 4] = [(1, 1), (1, 2), (2, 1), (2, 2)];

static MARKING: [FunShape; 32] = [
    creation!(),
    fun!(b"f02", &[(0, Effect::SetArg(0))]),
    fun!(b"f03", &[(1, Effect::SetArg(0))]),
    fun!(b"f04", &[(0, Effect::SetRet)]),
    fun!(b"f05", &[]),
    fun!(b"f06", &[]),
    fun!(b"f07", &[]),
    fun!(b"f08", &[]),
    fun!(b"f09", &[]),
    fun!(b"f10", &[]),
    fun!(b"f11", &[]),
    fun!(b"f12", &[]),
    fun!(b"f13", &[]),
    fun!(b"f14", &[]),
    fun!(b"f15", &[]),
    fun!(b"f16", &[]),
    fun!(b"f17", &[]),
    fun!(b"f18", &[]),
    fun!(b"f19", &[]),
    fun!(b"f20", &[]),
    fun!(b"f21", &[]),
    fun!(b"f22", &[]),
    fun!(b"f23", &[]),
    fun!(b"f24", &[]),
    fun!(b"f25", &[]),
    fun!(b"f26", &[]),
    fun!(b"f27", &[]),
    fun!(b"f28", &[]),
    fun!(b"f29", &[]),
    fun!(b"f30", &[]),
    fun!(b"f31", &[]),
    fun!(b"f32", &[]),
];

// A function that makes a descriptor and sets all of its fields.
macro_rules! setting {
    ($name:expr) => {
        FunShape {
            name: $name,
            kinds: &[Kind::Word, Kind::Word, Kind::Word, Kind::Word],
            flags: FunShape::CREATION,
            leaves: Leaves::Own,
            effects: &[
                (0, Effect::SetArg(0)),
                (1, Effect::SetArg(1)),
                (2, Effect::SetArg(2)),
                (3, Effect::SetArg(3)),
            ],
        }
    };
}

static SETTING: [FunShape; 32] = [
    setting!(b"f01"),
    setting!(b"f02"),
    setting!(b"f03"),
    setting!(b"f04"),
    setting!(b"f05"),
    setting!(b"f06"),
    setting!(b"f07"),
    setting!(b"f08"),
    setting!(b"f09"),
    setting!(b"f10"),
    setting!(b"f11"),
    setting!(b"f12"),
    setting!(b"f13"),
    setting!(b"f14"),
    setting!(b"f15"),
    setting!(b"f16"),
    setting!(b"f17"),
    setting!(b"f18"),
    setting!(b"f19"),
    setting!(b"f20"),
    setting!(b"f21"),
    setting!(b"f22"),
    setting!(b"f23"),
    setting!(b"f24"),
    setting!(b"f25"),
    setting!(b"f26"),
    setting!(b"f27"),
    setting!(b"f28"),
    setting!(b"f29"),
    setting!(b"f30"),
    setting!(b"f31"),
    setting!(b"f32"),
];

// A service of these fields and functions, which are joined by these transitions and recover steps.
macro_rules! joined {
    ($fields:expr, $funs:expr, $pairs:expr) => {
        Shape {
            name: b"large",
            parents: Parents::Never,
            subtree: false,
            global: true,
            block: false,
            has_data: true,
            resc_data: false,
            fields: $fields,
            funs: $funs,
            moves: $pairs,
            steps: $pairs,
        }
    };
}

// Of functions that do nothing to descriptors but move them on.
fn plain_shape() -> Shape
    ensures { is_shape (facts_of result) ≡ true }
{
    joined!(&[], &PLAIN, &PAIRS)
}

// Of four fields, two of which functions set, and one function by which the first can't be restored.
fn marking_shape() -> Shape
    ensures { is_shape (facts_of result) ≡ true }
{
    joined!(&FIELDS, &MARKING, &PAIRS)
}

// Of four fields, which each function sets, and each function makes descriptors.
fn setting_shape() -> Shape
    ensures { is_shape (facts_of result) ≡ true }
{
    joined!(&FIELDS, &SETTING, &PAIRS)
}

// Of eight fields, which both functions set, and both make descriptors.
fn eight_shape() -> Shape
    ensures { is_shape (facts_of result) ≡ true }
{
    joined!(&EIGHT_FIELDS, &SETTING_EIGHT, &FOUR_PAIRS)
}

/// Of nine fields, which are too many: no text may be checked against it.
pub fn nine_shape() -> Shape
    ensures { is_shape (facts_of result) ≡ false }
{
    joined!(&NINE_FIELDS, &SETTING_EIGHT, &FOUR_PAIRS)
}

const HEAD: &[u8] =
    b"service_global_info = { service = large, desc_has_parent = none, desc_close = refuse,\n\
desc_is_global = true, desc_block = false, desc_has_data = true, resc_has_data = false };\n";

const CREATION: &[u8] = b"sm_creation(f01);\n\
long f01(spdid_t s);\n";

// Adds the prototypes of functions without effects.
fn add_protos(text: &mut Vec<u8>, funs: &[FunShape]) -> Result<(), AllocError> {
    for fun in funs {
        text.extend_from_slice(b"int ")?;
        text.extend_from_slice(fun.name)?;
        text.extend_from_slice(b"(spdid_t s, long desc(id), long n);\n")?;
    }
    Ok(())
}

// Adds a pair of functions under a word.
fn add_pair(
    text: &mut Vec<u8>,
    word: &[u8],
    first: &FunShape,
    second: &FunShape,
) -> Result<(), AllocError> {
    text.extend_from_slice(word)?;
    text.extend_from_slice(first.name)?;
    text.extend_from_slice(b", ")?;
    text.extend_from_slice(second.name)?;
    text.extend_from_slice(b");\n")
}

// Adds all pairs of a function and one of others.
fn add_pairs(
    text: &mut Vec<u8>,
    word: &[u8],
    funs: &[FunShape],
    others: &[FunShape],
) -> Result<(), AllocError> {
    for first in funs {
        for second in others {
            add_pair(text, word, first, second)?;
        }
    }
    Ok(())
}

// The text of a service of these functions: some have their prototypes in the first lines, and the others have no effects.
fn large_text(
    alloc: Global,
    first: &[u8],
    others: &[FunShape],
    funs: &[FunShape],
) -> Result<Vec<u8>, Fail> {
    let mut text = Vec::new(alloc);
    text.extend_from_slice(HEAD)?;
    text.extend_from_slice(CREATION)?;
    text.extend_from_slice(first)?;
    add_protos(&mut text, others)?;
    let called = funs.get(1..).ok_or("no functions")?;
    add_pairs(&mut text, b"sm_transition(", funs, called)?;
    add_pairs(&mut text, b"sm_recover(", funs, called)?;
    Ok(text)
}

const MARKS: &[u8] = b"int f02(spdid_t s, long desc(id), long desc_data(a));\n\
int f03(spdid_t s, long desc(id), long desc_data(b));\n\
desc_data_retval(int, a) f04(spdid_t s, long desc(id), long n);\n";

const FOUR_PARAMS: &[u8] =
    b"(spdid_t s, long desc_data(a), long desc_data(b), long desc_data(c), long desc_data(d));\n";

const EIGHT_PARAMS: &[u8] =
    b"(spdid_t s, long desc_data(a), long desc_data(b), long desc_data(c), long desc_data(d),\n\
long desc_data(e), long desc_data(f), long desc_data(g), long desc_data(h));\n";

// The text of functions that set all fields by these parameters, with their transitions and recover steps.
fn setting_text(alloc: Global, funs: &[FunShape], params: &[u8]) -> Result<Vec<u8>, Fail> {
    let mut text = Vec::new(alloc);
    text.extend_from_slice(HEAD)?;
    for fun in funs {
        text.extend_from_slice(b"sm_creation(")?;
        text.extend_from_slice(fun.name)?;
        text.extend_from_slice(b");\nlong ")?;
        text.extend_from_slice(fun.name)?;
        text.extend_from_slice(params)?;
    }
    add_pairs(&mut text, b"sm_transition(", funs, funs)?;
    add_pairs(&mut text, b"sm_recover(", funs, funs)?;
    Ok(text)
}

// The number of lines of the tables of a text that is accepted for a shape.
fn lines_of(alloc: Global, text: &[u8], shape: Shape) -> Result<usize, Fail>
    requires { is_shape (facts_of shape) ≡ true }
{
    let accepted = accepted(alloc, text, &[shape])?;
    let tables = compile(alloc, &accepted)?;
    Ok(tables.lines().len())
}

// Locks, with a transition again and again, as many as there is room for in so many bytes.
fn long_text(alloc: Global, bytes: usize) -> Result<Vec<u8>, AllocError> {
    let mut text = Vec::new(alloc);
    text.extend_from_slice(LOCK)?;
    let line = b"sm_transition(lock_alloc, lock_take);\n";
    for _ in 0..bytes.saturating_sub(text.len()) / line.len() {
        text.extend_from_slice(line)?;
    }
    Ok(text)
}

// Whether such a text is accepted.
fn is_accepted(alloc: Global, bytes: usize) -> Result<bool, Fail> {
    let text = long_text(alloc, bytes)?;
    let given = answer(alloc, text.as_slice(), &[LockService::shape()])?;
    Ok(given.is_none())
}

// The answer on functions that do nothing to descriptors but move them on.
fn answer_on_plain(alloc: Global) -> Result<Answer, Fail> {
    let text = large_text(alloc, b"", &PLAIN[1..], &PLAIN)?;
    answer(alloc, text.as_slice(), &[plain_shape()])
}

// The answer on functions two of which set fields.
fn answer_on_marking(alloc: Global) -> Result<Answer, Fail> {
    let text = large_text(alloc, MARKS, &MARKING[4..], &MARKING)?;
    answer(alloc, text.as_slice(), &[marking_shape()])
}

// The number of lines where each of 32 functions makes descriptors and sets all four fields.
fn lines_of_setting(alloc: Global) -> Result<usize, Fail> {
    let text = setting_text(alloc, &SETTING, FOUR_PARAMS)?;
    lines_of(alloc, &text, setting_shape())
}

// The number of lines where each of two functions makes descriptors and sets all eight fields.
fn lines_of_eight(alloc: Global) -> Result<usize, Fail> {
    let text = setting_text(alloc, &SETTING_EIGHT, EIGHT_PARAMS)?;
    lines_of(alloc, &text, eight_shape())
}

#[test]
fn large_services_and_long_texts(rt: HostRuntime) -> Result<(), Fail> {
    let alloc = rt.alloc();
    assert_eq!(rt; answer_on_plain(alloc)?, None);
    assert_eq!(rt; answer_on_marking(alloc)?, Some((NoWalk, 7, 26)));
    // 32 creations, 32 states and 16 sets of fields; 2 creations, 2 states and 256 sets
    assert_eq!(rt; lines_of_setting(alloc)?, 16_384);
    assert_eq!(rt; lines_of_eight(alloc)?, 1_024);
    assert_eq!(rt; nine_shape().fields.len(), 9);
    for bytes in [16_384, 32_768, 65_536] {
        assert!(rt; is_accepted(alloc, bytes)?, "of {bytes} bytes");
    }
    Ok(())
}
