// Printed runs. No clause says that a run is printed where there is memory, nor what a whole report looks like.
use sg_facts::{
    Args, BootList, BootLog, Bytes, Call, Code, Entry, FunShape, Good, Interface, Item, ItemList,
    Kind, Leaves, NoMemory, Outcome, PairList, Parents, Path, Reply, Shape, Tag, Text, Trace,
    Value, Words,
};
use sg_report::{End, EndList, Ended, History, text};
use std::alloc::Global;
use std::test::Fail;

static FUNS: [FunShape; 5] = [
    FunShape {
        name: b"tsplit",
        kinds: &[Kind::Parent, Kind::Text],
        flags: 0,
        leaves: Leaves::Own,
        effects: &[],
    },
    FunShape {
        name: b"tread",
        kinds: &[Kind::Desc, Kind::Word],
        flags: FunShape::DATA,
        leaves: Leaves::Own,
        effects: &[],
    },
    FunShape {
        name: b"twrite",
        kinds: &[Kind::Desc, Kind::Text],
        flags: 0,
        leaves: Leaves::Own,
        effects: &[],
    },
    FunShape {
        name: b"tseek",
        kinds: &[Kind::Desc, Kind::Word],
        flags: 0,
        leaves: Leaves::Own,
        effects: &[],
    },
    FunShape {
        name: b"look",
        kinds: &[],
        flags: 0,
        leaves: Leaves::Own,
        effects: &[],
    },
];

// A service of files, as far as it is printed.
fn files(alloc: Global) -> Interface {
    Interface {
        shape: Shape {
            name: b"files",
            parents: Parents::Same,
            subtree: false,
            global: false,
            block: true,
            has_data: true,
            resc_data: true,
            fields: &[],
            funs: &FUNS,
            moves: &[],
            steps: &[],
        },
        declared: 31,
        version: 1,
        eager: false,
        moves: PairList::new(alloc),
        steps: PairList::new(alloc),
    }
}

// An argument of a call, beside its descriptor.
#[derive(Clone, Copy, Debug)]
enum Arg {
    Nothing,
    Word(u64),
    Text(&'static [u8]),
}

// The client of a call, its number, its function, its descriptor, and its other argument.
type CallOf = (u8, u32, u8, u64, Arg);

// What is replied: an Ok with a descriptor, words and bytes, or a refusal.
#[derive(Clone, Copy, Debug)]
enum ReplyOf {
    Ok(u64, &'static [u64], &'static [u8]),
    Refused(Code),
}

// What an item of the trace was asked for.
#[derive(Clone, Copy, Debug)]
enum Asked {
    Client { client: u8, seq: u32 },
    Walk { id: u64, k: u8, client: u8 },
    Load { key: &'static [u8], client: u8 },
}

// What became of it: an Ok with a descriptor, or none.
#[derive(Clone, Copy, Debug)]
enum Became {
    Replied(u64),
    Stopped,
    Blocked,
}

// A boot with one item, and its stop.
struct BootOf {
    asked: Asked,
    call: CallOf,
    became: Became,
    stop: Option<u64>,
}

// Entries of two clients, one of which waits.
static ENTRIES: [(CallOf, ReplyOf); 4] = [
    ((1, 1, 1, 0, Arg::Text(b"a")), ReplyOf::Ok(1, &[], b"")),
    ((2, 1, 2, 1, Arg::Word(16)), ReplyOf::Ok(0, &[5], b"hello")),
    ((1, 2, 3, 1, Arg::Text(b"x")), ReplyOf::Refused(Code::Gap)),
    (
        (1, 3, 5, 0, Arg::Nothing),
        ReplyOf::Ok(0, &[7, 8], b"unseen"),
    ),
];

// What client 2 waits for.
const WAITED: CallOf = (2, 2, 2, 1, Arg::Word(16));

// Boots of one item each: a call, a call of a walk that replied and one that stopped, a load, and a call that blocks. All but the last end
// by a stop.
static BOOTS: [BootOf; 5] = [
    BootOf {
        asked: Asked::Client { client: 1, seq: 1 },
        call: (1, 1, 1, 0, Arg::Text(b"a")),
        became: Became::Replied(1),
        stop: Some(10),
    },
    BootOf {
        asked: Asked::Walk {
            id: 1,
            k: 2,
            client: 2,
        },
        call: (1, 0, 4, 1, Arg::Word(5)),
        became: Became::Replied(0),
        stop: Some(11),
    },
    BootOf {
        asked: Asked::Walk {
            id: 1,
            k: 1,
            client: 1,
        },
        call: (1, 0, 1, 0, Arg::Text(b"a")),
        became: Became::Stopped,
        stop: Some(12),
    },
    BootOf {
        asked: Asked::Load {
            key: b"/a",
            client: 2,
        },
        call: (2, 0, 0, 0, Arg::Nothing),
        became: Became::Replied(0),
        stop: Some(13),
    },
    BootOf {
        asked: Asked::Client { client: 2, seq: 1 },
        call: (2, 1, 2, 1, Arg::Word(16)),
        became: Became::Blocked,
        stop: None,
    },
];

// Adds an argument, if there is one.
fn add_arg(alloc: Global, args: &mut Args, arg: Arg) -> Result<(), Fail> {
    match arg {
        Arg::Nothing => Ok(()),
        Arg::Word(word) => Ok(args.push(Value::Word(word))?),
        Arg::Text(text) => Ok(args.push(Value::Text(Text::new(alloc, text)?))?),
    }
}

// The call of a row.
fn call_of(alloc: Global, row: CallOf) -> Result<Call, Fail> {
    let (client, seq, fun, desc, arg) = row;
    let mut args = Args::new(alloc);
    add_arg(alloc, &mut args, arg)?;
    Ok(Call {
        client,
        seq,
        fun,
        desc,
        args,
    })
}

// An Ok with these words and bytes.
fn ok(alloc: Global, desc: u64, words: &[u64], bytes: &[u8]) -> Result<Reply, NoMemory> {
    let words = Words::from_slice(alloc, words)?;
    let bytes = Bytes::from_slice(alloc, bytes)?;
    Ok(Reply::Ok(Good { desc, words, bytes }))
}

// The reply of a row.
fn reply_of(alloc: Global, row: ReplyOf) -> Result<Reply, NoMemory> {
    match row {
        ReplyOf::Ok(desc, words, bytes) => ok(alloc, desc, words, bytes),
        ReplyOf::Refused(code) => Ok(Reply::Refused(code)),
    }
}

// Adds the entry of a row.
fn add_entry(
    alloc: Global,
    history: &mut History,
    call: CallOf,
    reply: ReplyOf,
) -> Result<(), Fail> {
    let call = call_of(alloc, call)?;
    let reply = reply_of(alloc, reply)?;
    Ok(history.push(Entry { call, reply })?)
}

// The history of the entries.
fn all_entries(alloc: Global) -> Result<History, Fail> {
    let mut history = History::new(alloc);
    for (call, reply) in &ENTRIES {
        add_entry(alloc, &mut history, *call, *reply)?;
    }
    Ok(history)
}

// Client 1 is done, and client 2 waits.
fn both_ends(alloc: Global) -> Result<EndList, Fail> {
    let waited = call_of(alloc, WAITED)?;
    let mut ends = EndList::new(alloc);
    ends.push((1, End::Done))?;
    ends.push((2, End::Blocked(waited)))?;
    Ok(ends)
}

// Who asked, by a row.
fn tag_of(alloc: Global, row: Asked) -> Result<Tag, NoMemory> {
    match row {
        Asked::Client { client, seq } => Ok(Tag::Client { client, seq }),
        Asked::Walk { id, k, client } => Ok(Tag::Walk { id, k, client }),
        Asked::Load { key, client } => Ok(Tag::Load {
            key: Path::from_slice(alloc, key)?,
            client,
        }),
    }
}

// What became of it, by a row.
fn outcome_of(alloc: Global, row: Became) -> Result<Outcome, NoMemory> {
    match row {
        Became::Replied(desc) => Ok(Outcome::Replied {
            reply: ok(alloc, desc, &[], b"")?,
            patch: None,
        }),
        Became::Stopped => Ok(Outcome::Stopped),
        Became::Blocked => Ok(Outcome::Blocks),
    }
}

// The item of a boot.
fn item_of(alloc: Global, row: &BootOf) -> Result<Item, Fail> {
    let tag = tag_of(alloc, row.asked)?;
    let shown = call_of(alloc, row.call)?;
    let outcome = outcome_of(alloc, row.became)?;
    Ok(Item {
        tag,
        real: shown.desc,
        shown,
        points: 0,
        outcome,
    })
}

// A list of that item.
fn items_of(alloc: Global, row: &BootOf) -> Result<ItemList, Fail> {
    let mut items = ItemList::new(alloc);
    items.reserve(1)?;
    items.add(item_of(alloc, row)?);
    Ok(items)
}

// Adds the boot of a row.
fn add_boot(alloc: Global, boots: &mut BootList, row: &BootOf) -> Result<(), Fail> {
    boots.reserve(1)?;
    let items = items_of(alloc, row)?;
    boots.add(BootLog {
        items,
        stop: row.stop,
    });
    Ok(())
}

// All boots.
fn all_boots(alloc: Global) -> Result<BootList, Fail> {
    let mut boots = BootList::new(alloc);
    for row in &BOOTS {
        add_boot(alloc, &mut boots, row)?;
    }
    Ok(boots)
}

// A run of these parts.
fn run(history: History, boots: BootList, ends: EndList) -> Ended {
    Ended {
        history,
        trace: Trace { boots, points: 33 },
        ends,
    }
}

// A run of the entries, without boots.
fn run_of_entries(alloc: Global) -> Result<Ended, Fail> {
    let history = all_entries(alloc)?;
    let ends = both_ends(alloc)?;
    Ok(run(history, BootList::new(alloc), ends))
}

// A run of the boots, without entries.
fn run_of_boots(alloc: Global) -> Result<Ended, Fail> {
    let boots = all_boots(alloc)?;
    Ok(run(History::new(alloc), boots, EndList::new(alloc)))
}

// A run of nothing.
fn run_of_nothing(alloc: Global) -> Ended {
    run(
        History::new(alloc),
        BootList::new(alloc),
        EndList::new(alloc),
    )
}

// Whether a run is printed so, with its trace or without.
fn prints(alloc: Global, ended: &Ended, with_trace: bool, wanted: &[u8]) -> Result<bool, NoMemory> {
    let iface = files(alloc);
    let printed = text(alloc, &iface, ended, with_trace)?;
    Ok(printed.as_slice() == wanted)
}

// The same of a run that is dropped then.
fn is_printed(
    alloc: Global,
    ended: Ended,
    with_trace: bool,
    wanted: &[u8],
) -> Result<bool, NoMemory> {
    prints(alloc, &ended, with_trace, wanted)
}

static REPLIES: &[u8] = b"c1.1 tsplit(0, \"a\") = ok #1
c2.1 tread(1, 16) = ok 5 \"hello\"
c1.2 twrite(1, \"x\") = refused Gap
c1.3 look() = ok 7 8
client 1 done
client 2 blocked tread(1, 16)
calls 4 boots 0 replays 0
";

static TRACE: &[u8] = b"calls 0 boots 5 replays 1
boot 1
call c1.1 tsplit(0, \"a\") replied
stop 10
boot 2
walk 1.2 for c2 by c1 tseek(1, 5) replied
stop 11
boot 3
walk 1.1 for c1 by c1 tsplit(0, \"a\") stopped
stop 12
boot 4
load /a for c2
stop 13
boot 5
call c2.1 tread(1, 16) blocked
points 33
";

static COUNTS: &[u8] = b"calls 0 boots 0 replays 0\npoints 33\n";

#[test]
fn prints_runs(rt: HostRuntime) -> Result<(), Fail> {
    let alloc = rt.alloc();
    assert!(rt; is_printed(alloc, run_of_entries(alloc)?, false, REPLIES)?);
    assert!(rt; is_printed(alloc, run_of_boots(alloc)?, true, TRACE)?);
    assert!(rt; is_printed(alloc, run_of_nothing(alloc), true, COUNTS)?);
    Ok(())
}
