// Copies of each kind of value, with memory and without.
ghost use Rattle.sg_base.specs.Reply.{FitsReplyRoom};

use sg_base::{
    Args, Bytes, Call, Code, Good, NoMemory, PairList, Reply, SpareReply, Text, TryCopy, Value,
    Words,
};
use std::alloc::Global;
use std::fmt::Debug;
use std::process::Abort;
use std::test::Fail;

// Copies a value through the trait alone.
fn copies<T: TryCopy + PartialEq + Debug + Drop>(
    rt: &impl Abort,
    alloc: Global,
    value: &T,
) -> Result<(), NoMemory> {
    let copy = value.copy(alloc)?;
    assert_eq!(rt; copy, *value);
    Ok(())
}

// Pairs are copied.
fn copies_pairs(rt: &impl Abort, alloc: Global) -> Result<(), NoMemory> {
    let pairs = PairList::from_slice(alloc, &[(1, 2), (2, 1)])?;
    copies(rt, alloc, &pairs)
}

// A word and a text.
fn word_and_text(alloc: Global) -> Result<Args, Fail> {
    let mut args = Args::new(alloc);
    args.push(Value::Word(12))?;
    args.push(Value::Text(Text::new(alloc, b"/log")?))?;
    Ok(args)
}

// A call is copied.
fn copies_a_call(rt: &impl Abort, alloc: Global) -> Result<(), Fail> {
    let args = word_and_text(alloc)?;
    let call = Call {
        client: 3,
        seq: 4,
        fun: 5,
        desc: 6,
        args,
    };
    Ok(copies(rt, alloc, &call)?)
}

#[test]
fn copies_are_equal(rt: HostRuntime) -> Result<(), Fail> {
    let alloc = rt.alloc();
    copies(&rt, alloc, &200u8)?;
    copies(&rt, alloc, &u64::MAX)?;
    copies_pairs(&rt, alloc)?;
    copies_a_call(&rt, alloc)
}

// Whether a reply fills the room that is taken for it.
fn fills(alloc: Global, reply: &Reply) -> Result<bool, NoMemory>
    requires { FitsReplyRoom reply.now }
{
    let filled = Reply::room(alloc)?.fill(reply);
    Ok(filled == *reply)
}

// A reply is copied, and fills the room that is taken for it.
fn copies_and_fills(rt: &impl Abort, alloc: Global, reply: &Reply) -> Result<(), NoMemory>
    requires { FitsReplyRoom reply.now }
{
    copies(rt, alloc, reply)?;
    assert!(rt; fills(alloc, reply)?);
    Ok(())
}

// Whether a refusal and the longest reply fill the same room, one after the other.
fn refusal_and_most_fill(alloc: Global, most: &Reply) -> Result<bool, NoMemory>
    requires { FitsReplyRoom most.now }
{
    let refusal = Reply::Refused(Code::Gap);
    let mut spare = SpareReply::new(alloc);
    spare.reserve(alloc)?;
    Ok(spare.fill(&refusal) == refusal && spare.fill(most) == *most)
}

// The longest reply.
fn fills_the_most(rt: &impl Abort, alloc: Global) -> Result<(), NoMemory> {
    let words = Words::from_slice(alloc, &[5, 6, 7, u64::MAX])?;
    let bytes = Bytes::from_slice(alloc, &[0xAB; 256])?;
    assert!(rt; words.len() == 4 && bytes.len() == 256);
    let most = Reply::Ok(Good {
        desc: 9,
        words,
        bytes,
    });
    copies_and_fills(rt, alloc, &most)?;
    assert!(rt; refusal_and_most_fill(alloc, &most)?);
    Ok(())
}

// Whether the longest text fills the room that is taken for it.
fn longest_text_fills(alloc: Global) -> Result<bool, Fail> {
    let text = Text::new(alloc, [b'z'; 256].as_slice())?;
    let filled = Text::room(alloc)?.fill(&text);
    Ok(filled == text)
}

// Whether the empty text is that of no bytes.
fn empty_text_is_empty(alloc: Global) -> Result<bool, Fail> {
    let text = Text::new(alloc, b"")?;
    Ok(Text::empty(alloc) == text)
}

#[test]
fn fills_the_room_of_the_longest_reply(rt: HostRuntime) -> Result<(), Fail> {
    let alloc = rt.alloc();
    fills_the_most(&rt, alloc)?;
    copies_and_fills(&rt, alloc, &Reply::Refused(Code::Gap))?;
    assert!(rt; longest_text_fills(alloc)?);
    assert!(rt; empty_text_is_empty(alloc)?);
    Ok(())
}

// Each refusal is printed by its number.
#[test]
fn numbers_the_codes(rt: HostRuntime) {
    for (code, number) in [
        (Code::NoDesc, 1),
        (Code::NoParent, 2),
        (Code::BadState, 3),
        (Code::HasChildren, 4),
        (Code::Full, 5),
        (Code::NotOwner, 6),
        (Code::Held, 7),
        (Code::Occupied, 8),
        (Code::NotFound, 9),
        (Code::Overflow, 10),
        (Code::Gap, 11),
        (Code::TooBig, 12),
        (Code::BadName, 13),
    ] {
        assert_eq!(rt; code as u8, number, "{code:?}");
    }
}
