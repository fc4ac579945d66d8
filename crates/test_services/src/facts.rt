// What no clause says: that each call does its work where there is memory, and values from outside.
use sg_facts::{
    Args, Bytes, Call, Effect, Entry, FieldShape, Fields, FunShape, Good, Interface, Kind, Leaves,
    MOST_FIELDS, NoMemory, PairList, Parents, Patch, Path, Reply, Row, Shape, Text, TryCopy, Value,
    Walk, Words, close_word, flag_word, legal_from_the_front, parents_word,
};
use std::alloc::Global;
use std::fmt::Debug;
use std::process::Abort;
use std::test::Fail;

static FIELDS: [FieldShape; 2] = [
    FieldShape {
        name: b"name",
        text: true,
    },
    FieldShape {
        name: b"place",
        text: false,
    },
];

static FUNS: [FunShape; 4] = [
    FunShape {
        name: b"open",
        kinds: &[Kind::Text],
        flags: FunShape::CREATION,
        leaves: Leaves::Own,
        effects: &[(0, Effect::SetArg(0))],
    },
    FunShape {
        name: b"write",
        kinds: &[Kind::Desc, Kind::Text],
        flags: FunShape::DATA,
        leaves: Leaves::Of(1),
        effects: &[(1, Effect::AddRet)],
    },
    FunShape {
        name: b"close",
        kinds: &[Kind::Desc],
        flags: FunShape::TERMINAL,
        leaves: Leaves::Own,
        effects: &[],
    },
    FunShape {
        name: b"count",
        kinds: &[],
        flags: FunShape::QUERY + FunShape::ALL,
        leaves: Leaves::Own,
        effects: &[],
    },
];

static MOVES: [(u8, u8); 2] = [(1, 2), (1, 3)];

// A service of open files, in which a function stands for each case that is told apart.
fn files(global: bool) -> Shape {
    Shape {
        name: b"files",
        parents: Parents::Never,
        subtree: false,
        global,
        block: false,
        has_data: true,
        resc_data: true,
        fields: &FIELDS,
        funs: &FUNS,
        moves: &MOVES,
        steps: &[],
    }
}

fn interface(alloc: Global, global: bool, declared: u32) -> Result<Interface, NoMemory> {
    Ok(Interface {
        shape: files(global),
        declared,
        version: 1,
        eager: false,
        moves: PairList::from_slice(alloc, &MOVES)?,
        steps: PairList::new(alloc),
    })
}

// An interface declares these functions, and no others.
fn declare(rt: &impl Abort, iface: &Interface, cases: &[(u8, bool)]) {
    for (fun, want) in cases {
        assert_eq!(rt; iface.declares(*fun), *want, "function {fun}");
    }
}

// An interface moves on so.
fn move_on(rt: &impl Abort, iface: &Interface, cases: &[(u8, u8, bool)]) {
    for (state, fun, want) in cases {
        assert_eq!(rt; iface.moves_on(*state, *fun), *want, "{state} to {fun}");
    }
}

// Which of some functions are declared.
static DECLARED: [(u8, bool); 7] = [
    (0, false),
    (1, true),
    (2, true),
    (3, false),
    (4, true),
    (5, false),
    (255, false),
];

// Which are where all are.
static ALL_DECLARED: [(u8, bool); 4] = [(0, false), (1, true), (32, true), (33, false)];

// Which functions move a state on.
static MOVED: [(u8, u8, bool); 5] = [
    (1, 2, true),
    (1, 3, true),
    (2, 1, false),
    (1, 1, false),
    (0, 0, false),
];

#[test]
fn reads_declarations(rt: HostRuntime) -> Result<(), Fail> {
    let some = interface(rt.alloc(), false, 0b1011)?;
    declare(&rt, &some, &DECLARED);
    move_on(&rt, &some, &MOVED);
    Ok(())
}

#[test]
fn reads_that_all_are_declared(rt: HostRuntime) -> Result<(), Fail> {
    let all = interface(rt.alloc(), false, u32::MAX)?;
    declare(&rt, &all, &ALL_DECLARED);
    Ok(())
}

// Which functions are visible where descriptors are a client's own.
static VISIBLE: [(u8, bool); 7] = [
    (0, false),
    (1, true),
    (2, true),
    (3, false),
    (4, false),
    (5, false),
    (255, false),
];

#[test]
fn tells_visible_functions(rt: HostRuntime) -> Result<(), Fail> {
    let private = interface(rt.alloc(), false, 0b1111)?;
    for (fun, want) in &VISIBLE {
        assert_eq!(rt; private.visible(*fun), *want, "function {fun}");
    }
    Ok(())
}

#[test]
fn tells_that_all_are_visible(rt: HostRuntime) -> Result<(), Fail> {
    let global = interface(rt.alloc(), true, 0b1111)?;
    for (fun, _) in &VISIBLE {
        assert!(rt; global.visible(*fun), "function {fun}, seen by all");
    }
    Ok(())
}

// Whether a value is this text.
fn is_text(value: Option<Value>, text: &[u8]) -> bool {
    match value {
        Some(Value::Text(it)) => it.bytes() == text,
        Some(Value::Word(_)) | None => false,
    }
}

// Whether fields are one word.
fn is_one_word(alloc: Global, fields: &Fields, word: u64) -> Result<bool, NoMemory> {
    let one = Vec::from_array(alloc, [Value::Word(word)])?;
    Ok(*fields == Fields::from_vec(one))
}

// A word and a text are kept in an empty list, the text is taken away, and the word is changed.
fn keep_two(rt: &impl Abort, alloc: Global, fields: &mut Fields) -> Result<(), Fail> {
    assert!(rt; fields.is_empty());
    assert!(rt; fields.pop().is_none());
    fields.push(Value::Word(7))?;
    fields.push(Value::Text(Text::new(alloc, b"a")?))?;
    assert!(rt; !fields.is_empty());
    assert_eq!(rt; fields.len(), 2);
    assert_eq!(rt; fields.as_slice().len(), 2);
    assert!(rt; matches!(fields.get(0), Some(Value::Word(7))));
    assert!(rt; matches!(fields.get(1), Some(Value::Text(_))));
    assert!(rt; fields.get(2).is_none());
    assert!(rt; is_text(fields.pop(), b"a"));
    assert_eq!(rt; fields.len(), 1);
    fields.set(0, Value::Word(9));
    assert!(rt; is_one_word(alloc, fields, 9)?);
    Ok(())
}

#[test]
fn keeps_fields_in_order(rt: HostRuntime) -> Result<(), Fail> {
    let mut fields = Fields::new(rt.alloc());
    keep_two(&rt, rt.alloc(), &mut fields)
}

// A row with these words as its fields.
fn row(alloc: Global, words: &[u64]) -> Result<Row, NoMemory> {
    let mut fields = Fields::new(alloc);
    for word in words {
        fields.push(Value::Word(*word))?;
    }
    Ok(Row {
        id: 6,
        made: 1,
        creator: 3,
        parent: 2,
        state: 4,
        fields,
    })
}

// The set of these words, where they are a row's fields.
fn mask_of(alloc: Global, words: &[u64]) -> Result<u8, NoMemory> {
    let row = row(alloc, words)?;
    Ok(row.mask())
}

// Adds texts to a row's fields.
fn add_texts(alloc: Global, row: &mut Row, texts: &[&[u8]]) -> Result<(), Fail> {
    for text in texts {
        row.fields.push(Value::Text(Text::new(alloc, text)?))?;
    }
    Ok(())
}

#[test]
fn masks_the_fields_that_are_set(rt: HostRuntime) -> Result<(), Fail> {
    for (words, want) in [
        ([].as_slice(), 0),
        (&[1], 1),
        (&[0, u64::MAX], 2),
        (&[1, 0, 3], 5),
        (&[0, 0, 0, 0, 0, 0, 0, 9], 128),
        (&[1, 1, 1, 1, 1, 1, 1, 1], 255),
        (&[0, 0, 0, 0, 0, 0, 0, 0, 1], 0),
    ] {
        assert_eq!(rt; mask_of(rt.alloc(), words)?, want, "{words:?}");
    }
    Ok(())
}

#[test]
fn masks_no_empty_text(rt: HostRuntime) -> Result<(), Fail> {
    let mut texts = row(rt.alloc(), &[])?;
    add_texts(rt.alloc(), &mut texts, &[b"".as_slice(), b"a", b""])?;
    assert_eq!(rt; texts.mask(), 2, "an empty text isn't set");
    Ok(())
}

// Copies a value through the trait alone.
fn copies<T: TryCopy + PartialEq + Debug + Drop>(
    rt: &impl Abort,
    alloc: Global,
    value: &T,
) -> Result<(), NoMemory> {
    let copy = value.copy(alloc)?;
    assert_eq!(rt; copy, *value);
    Ok(())
}

fn entry(alloc: Global) -> Result<Entry, NoMemory> {
    Ok(Entry {
        call: Call {
            client: 3,
            seq: 4,
            fun: 5,
            desc: 6,
            args: Args::new(alloc),
        },
        reply: Reply::Ok(Good {
            desc: 0,
            words: Words::from_slice(alloc, &[5])?,
            bytes: Bytes::from_slice(alloc, b"hello")?,
        }),
    })
}

fn patch(alloc: Global) -> Result<Patch, NoMemory> {
    Ok(Patch {
        key: Path::from_slice(alloc, b"/a")?,
        from: 7,
        bytes: Bytes::from_slice(alloc, b"hello")?,
    })
}

// A row and its fields are copied.
fn copies_a_row(rt: &impl Abort, alloc: Global) -> Result<(), NoMemory> {
    let row = row(alloc, &[5, 0, 7])?;
    copies(rt, alloc, &row.fields)?;
    copies(rt, alloc, &row)
}

// An entry is copied.
fn copies_an_entry(rt: &impl Abort, alloc: Global) -> Result<(), NoMemory> {
    let entry = entry(alloc)?;
    copies(rt, alloc, &entry)
}

// A patch is copied.
fn copies_a_patch(rt: &impl Abort, alloc: Global) -> Result<(), NoMemory> {
    let patch = patch(alloc)?;
    copies(rt, alloc, &patch)
}

#[test]
fn copies_are_equal(rt: HostRuntime) -> Result<(), Fail> {
    copies_a_row(&rt, rt.alloc())?;
    copies_an_entry(&rt, rt.alloc())?;
    copies_a_patch(&rt, rt.alloc())?;
    Ok(())
}

// Whether fields fill the room that is taken for them.
fn fill_room(alloc: Global, fields: &Fields) -> Result<bool, NoMemory> {
    if fields.len() > MOST_FIELDS {
        return Ok(false);
    }
    let filled = Fields::room(alloc)?.fill(fields);
    Ok(filled == *fields)
}

// Whether a patch fills the room that is taken for it.
fn fills_room(alloc: Global, patch: &Patch) -> Result<bool, NoMemory> {
    if patch.key.len() > 256 || patch.bytes.len() > 256 {
        return Ok(false);
    }
    let filled = Patch::room(alloc)?.fill(patch);
    Ok(filled == *patch)
}

// Words and a text.
fn words_and_text(alloc: Global) -> Result<Fields, Fail> {
    let mut fields = row(alloc, &[5, 0, 7])?.fields;
    fields.push(Value::Text(Text::new(alloc, b"name")?))?;
    Ok(fields)
}

#[test]
fn fills_the_room_that_it_takes(rt: HostRuntime) -> Result<(), Fail> {
    let fields = words_and_text(rt.alloc())?;
    assert!(rt; fill_room(rt.alloc(), &fields)?);
    Ok(())
}

#[test]
fn fills_the_room_of_a_patch(rt: HostRuntime) -> Result<(), Fail> {
    let patch = patch(rt.alloc())?;
    assert!(rt; fills_room(rt.alloc(), &patch)?);
    Ok(())
}

#[test]
fn keeps_functions_in_order(rt: HostRuntime) -> Result<(), Fail> {
    let mut walk = Walk::new();
    assert!(rt; walk.is_empty());
    assert_eq!(rt; walk.pop(), None);
    walk.push(3)?;
    walk.push(0)?;
    walk.push(255)?;
    let copy = walk;
    assert_eq!(rt; walk.len(), 3);
    assert_eq!(rt; walk.as_slice(), [3, 0, 255].as_slice());
    assert_eq!(rt; walk.get(2), Some(&255));
    assert_eq!(rt; walk.get(3), None);
    assert_eq!(rt; walk.pop(), Some(255));
    assert_eq!(rt; walk.as_slice(), [3, 0].as_slice());
    assert_ne!(rt; walk, copy);
    walk.push(255)?;
    assert_eq!(rt; walk, copy);
    assert_eq!(rt; Walk::MOST, 8);
    Ok(())
}

#[test]
fn tells_flags(rt: HostRuntime) {
    assert!(rt; FUNS[0].is_creation() && !FUNS[0].is_terminal() && !FUNS[0].is_query());
    assert!(rt; !FUNS[2].is_creation() && FUNS[2].is_terminal() && !FUNS[2].is_query());
    assert!(rt; !FUNS[3].is_creation() && !FUNS[3].is_terminal() && FUNS[3].is_query());
}

// Which functions are recover steps of a state.
static STEPPED: [(u8, u8, bool); 4] = [(1, 2, true), (2, 2, true), (2, 1, false), (1, 1, false)];

// An interface steps on so.
fn step_on(rt: &impl Abort, iface: &Interface) {
    for (state, fun, want) in &STEPPED {
        assert_eq!(rt; iface.steps_on(*state, *fun), *want, "{state} to {fun}");
    }
}

#[test]
fn tells_recover_steps(rt: HostRuntime) -> Result<(), Fail> {
    let steps = PairList::from_slice(rt.alloc(), &[(1, 2), (2, 2)])?;
    let mut some = interface(rt.alloc(), false, 0b1011)?;
    assert!(rt; !some.steps_on(1, 2));
    some.steps = steps;
    step_on(&rt, &some);
    Ok(())
}

#[test]
fn states_its_law(_: HostRuntime) {
    legal_from_the_front();
}

#[test]
fn says_facts_in_words(rt: HostRuntime) {
    assert_eq!(rt; parents_word(Parents::Cross), b"cross".as_slice());
    assert_eq!(rt; close_word(true), b"subtree".as_slice());
    assert_eq!(rt; flag_word(false), b"false".as_slice());
}
