// What no clause says: that calls on a file are answered where there is memory.
ghost use Rattle.std.specs.Prelude.{◌≡◌, ◌<◌, ◌≤◌, ◌^◌, [], ◌∷◌, IfOk, OnOk};
ghost use Rattle.test_asking.specs.sg_facts.sg_base.declared.value.Value.TheVariants.{Text as IsText, Word};
ghost use Rattle.test_asking.specs.sg_facts.Object.{empty_object};
ghost use Rattle.sg_ramfs.specs.RamfsObject.{ramfs_object};
ghost use Rattle.test_files.specs.OneFile.{IsMade, IsOneFile};

use sg_ramfs::RamfsService;
use std::alloc::Global;
use std::process::Abort;
use std::test::Fail;
use test_asking::facts::{Args, Call, Code, NoMemory, Outcome, Path, Reply, Service, Text, Value};
use test_asking::{Once, ask};

// The functions that are called on a descriptor.
const READ: u8 = 2;

const WRITE: u8 = 3;

const SEEK: u8 = 4;

// A call with a number.
fn with_word(alloc: Global, fun: u8, n: u64) -> Result<Call, NoMemory>
    ensures { IfOk result (λ call. call ≡ record { client = 1; seq = 1; fun = fun; desc = 1; args = Word n ∷ [] }) }
{
    let mut args = Args::new(alloc);
    args.push(Value::Word(n))?;
    Ok(Call {
        client: 1,
        seq: 1,
        fun,
        desc: 1,
        args,
    })
}

// A call with a text.
pub(crate) fn with_text(alloc: Global, fun: u8, desc: u64, text: Text) -> Result<Call, NoMemory>
    ensures { IfOk result (λ call. call ≡ record { client = 1; seq = 1; fun = fun; desc = desc; args = IsText text ∷ [] }) }
{
    let mut args = Args::new(alloc);
    args.push(Value::Text(text))?;
    Ok(Call {
        client: 1,
        seq: 1,
        fun,
        desc,
        args,
    })
}

// What is asked of a descriptor.
#[derive(Clone, Copy, Debug)]
enum Asked {
    Read(u64),
    Write(usize),
    Seek(u64),
}

// What is answered: an Ok with its word and the number of its bytes, or a refusal.
#[derive(Clone, Copy, Debug, PartialEq, Eq)]
pub(crate) enum Answer {
    Done(Option<u64>, usize),
    Refused(Code),
}

// The answer of an outcome.
fn answer_of(outcome: Outcome) -> Result<Answer, Outcome> {
    match outcome {
        Outcome::Replied { reply, .. } => Ok(answer_in(&reply)),
        other => Err(other),
    }
}

// The answer in a reply.
pub(crate) fn answer_in(reply: &Reply) -> Answer {
    match reply {
        Reply::Ok(good) => Answer::Done(good.words.get(0).copied(), good.bytes.len()),
        Reply::Refused(code) => Answer::Refused(*code),
    }
}

// A text of as many bytes.
pub(crate) fn text(alloc: Global, length: usize) -> Result<Text, NoMemory> {
    let mut bytes = Vec::new(alloc);
    for _ in 0..length {
        bytes.push(b'b')?;
    }
    match Text::new(alloc, bytes.as_slice()) {
        Ok(text) => Ok(text),
        Err(_) => Err(NoMemory),
    }
}

// The outcome of making a root of a name.
fn make(service: &mut RamfsService, alloc: Global, name: Text) -> Outcome
    requires { ramfs_object service.old ≡ empty_object }
    ensures { IsMade name result (ramfs_object service.new) }
{
    match with_text(alloc, 1, 0, name) {
        Ok(call) => ask(service, alloc, &mut Once::new(0), &call),
        Err(_) => Outcome::NoMemory,
    }
}

// A service with one descriptor, of a file of as many bytes.
fn one_file(alloc: Global, length: usize) -> Result<RamfsService, Outcome>
    ensures { IfOk result (λ service. IsOneFile (97 ∷ []) 0 (ramfs_object service)) }
{
    let name = match Text::new(alloc, b"a") {
        Ok(name) => name,
        Err(_) => return Err(Outcome::NoMemory),
    };
    let mut service = RamfsService::fresh(alloc, ());
    match make(&mut service, alloc, name) {
        Outcome::Replied {
            reply: Reply::Ok(_),
            ..
        } => match fill(&mut service, alloc, length) {
            Ok(()) => Ok(service),
            Err(_) => Err(Outcome::NoMemory),
        },
        other => Err(other),
    }
}

// Loads a file of as many bytes.
fn fill(service: &mut RamfsService, alloc: Global, length: usize) -> Result<(), NoMemory>
    requires { IsOneFile (97 ∷ []) 0 (ramfs_object service.old) }
    ensures { IsOneFile (97 ∷ []) 0 (ramfs_object service.new) }
{
    let mut bytes = Vec::new(alloc);
    for _ in 0..length {
        bytes.push(b'a')?;
    }
    let path = Path::from_slice(alloc, b"/a")?;
    service.load(alloc, &path, bytes.as_slice())
}

// Moves the one descriptor to a place.
fn move_to(service: &mut RamfsService, alloc: Global, place: u64) -> Result<(), Outcome>
    requires { IsOneFile (97 ∷ []) 0 (ramfs_object service.old) }
    ensures { OnOk result (IsOneFile (97 ∷ []) place (ramfs_object service.new)) }
{
    match with_word(alloc, SEEK, place) {
        Ok(call) => match ask(service, alloc, &mut Once::new(0), &call) {
            Outcome::Replied {
                reply: Reply::Ok(_),
                ..
            } => Ok(()),
            other => Err(other),
        },
        Err(_) => Err(Outcome::NoMemory),
    }
}

// The outcome of a call on the one descriptor, which is at a place.
fn outcome(service: &mut RamfsService, alloc: Global, place: u32, asked: Asked) -> Outcome
    requires { IsOneFile (97 ∷ []) place (ramfs_object service.old) }
{
    let call = match asked {
        Asked::Read(most) => with_word(alloc, READ, most),
        Asked::Write(length) => match text(alloc, length) {
            Ok(text) => with_text(alloc, WRITE, 1, text),
            Err(_) => Err(NoMemory),
        },
        Asked::Seek(place) => with_word(alloc, SEEK, place),
    };
    match call {
        Ok(call) => ask(service, alloc, &mut Once::new(0), &call),
        Err(_) => Outcome::NoMemory,
    }
}

// What a descriptor answers at a place in a file of as many bytes, and its place then.
fn answered(
    alloc: Global,
    length: usize,
    place: u32,
    asked: Asked,
) -> Result<(Answer, Option<u64>), Outcome> {
    let mut service = one_file(alloc, length)?;
    move_to(&mut service, alloc, u64::from(place))?;
    let answer = answer_of(outcome(&mut service, alloc, place, asked))?;
    Ok((answer, service.open_file(1).map(|file| file.place)))
}

// How long the file is, the place in it, what is asked there, what is answered, and the place then.
type Case = (usize, u32, Asked, Answer, u64);

// Compares what a descriptor answers with each case.
fn compare(rt: &impl Abort, alloc: Global, cases: &[Case]) -> Result<(), Fail> {
    for (length, place, asked, answer, then) in cases {
        let got = answered(alloc, *length, *place, *asked)?;
        assert_eq!(rt;
            got,
            (*answer, Some(*then)),
            "{asked:?} at {place} of {length}"
        );
    }
    Ok(())
}

const BIG: Answer = Answer::Refused(Code::TooBig);

#[test]
fn seeks_up_to_the_longest_file(rt: HostRuntime) -> Result<(), Fail> {
    let cases = [
        (0, 0, Asked::Seek(65_536), Answer::Done(None, 0), 65_536),
        (0, 7, Asked::Seek(65_537), BIG, 7),
    ];
    compare(&rt, rt.alloc(), &cases)
}

#[test]
fn reads_what_there_is(rt: HostRuntime) -> Result<(), Fail> {
    let none = Answer::Done(Some(0), 0);
    let cases = [
        (300, 0, Asked::Read(256), Answer::Done(Some(256), 256), 256),
        (300, 0, Asked::Read(257), BIG, 0),
        (300, 290, Asked::Read(256), Answer::Done(Some(10), 10), 300),
        (300, 300, Asked::Read(1), none, 300),
        (300, 65_536, Asked::Read(1), none, 65_536),
    ];
    compare(&rt, rt.alloc(), &cases)
}

#[test]
fn writes_without_a_gap(rt: HostRuntime) -> Result<(), Fail> {
    let gap = Answer::Refused(Code::Gap);
    let one = Answer::Done(Some(1), 0);
    let none = Answer::Done(Some(0), 0);
    let cases = [
        (0, 0, Asked::Write(1), one, 1),
        (0, 1, Asked::Write(0), gap, 1),
        (10, 11, Asked::Write(1), gap, 11),
        (10, 10, Asked::Write(3), Answer::Done(Some(3), 0), 13),
        (10, 4, Asked::Write(2), Answer::Done(Some(2), 0), 6),
        (10, 8, Asked::Write(256), Answer::Done(Some(256), 0), 264),
        (10, 3, Asked::Write(0), none, 3),
        (65_536, 65_535, Asked::Write(1), one, 65_536),
        (65_536, 65_536, Asked::Write(1), BIG, 65_536),
        (65_536, 65_536, Asked::Write(0), none, 65_536),
    ];
    compare(&rt, rt.alloc(), &cases)
}

// What making a root of a name answers.
fn named(alloc: Global, name: &[u8]) -> Result<Answer, Outcome> {
    match Text::new(alloc, name) {
        Ok(name) => answer_of(make(&mut RamfsService::fresh(alloc, ()), alloc, name)),
        Err(_) => Err(Outcome::NoMemory),
    }
}

#[test]
fn names_are_good(rt: HostRuntime) -> Result<(), Fail> {
    let bytes = [b'n'; 65];
    let cases: [(&[u8], Answer); 6] = [
        (b"", Answer::Refused(Code::BadName)),
        (&bytes[..1], Answer::Done(None, 0)),
        (&bytes[..64], Answer::Done(None, 0)),
        (&bytes, Answer::Refused(Code::BadName)),
        (b"/", Answer::Refused(Code::BadName)),
        (b"a/b", Answer::Refused(Code::BadName)),
    ];
    for (name, answer) in cases {
        assert_eq!(rt; named(rt.alloc(), name)?, answer);
    }
    Ok(())
}
