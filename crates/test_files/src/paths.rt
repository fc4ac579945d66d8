// What no clause says: that a descriptor is made whose path has as many bytes as a path may have, and none of a byte more.
ghost use Rattle.std.specs.Prelude.{◌≡◌, ◌+◌, ◌<◌, ◌^◌, true, IfOk, OnOk};
ghost use Rattle.sg_ramfs.specs.RamfsObject.{ramfs_object};
ghost use Rattle.test_files.specs.Few.{AreFew, IsMaking, may_be_below};

use crate::files::{Answer, answer_in, text, with_text};
use sg_ramfs::RamfsService;
use std::alloc::Global;
use std::process::Abort;
use std::test::Fail;
use test_asking::facts::{Call, Code, NoMemory, Outcome, Service};
use test_asking::{Once, ask};

// The function that makes a descriptor.
const SPLIT: u8 = 1;

// The call that makes a descriptor of a name of as many bytes: below another, or as a root where the parent is 0.
fn making(alloc: Global, parent: u64, length: usize) -> Result<Call, NoMemory>
    ensures { IfOk result (IsMaking parent) }
{
    let name = text(alloc, length)?;
    let call = with_text(alloc, SPLIT, parent, name)?;
    Ok(call)
}

// Makes it.
fn make(
    service: &mut RamfsService,
    alloc: Global,
    calls: u64,
    parent: u64,
    length: usize,
) -> Result<Answer, Outcome>
    requires few { calls < 2 ^ 32 }
    requires small { AreFew calls (ramfs_object service.old) }
    requires parent { may_be_below (ramfs_object service.old) parent ≡ true }
    ensures { OnOk result (AreFew (calls + 1) (ramfs_object service.new)) }
{
    match making(alloc, parent, length) {
        Ok(call) => match ask(service, alloc, &mut Once::new(0), &call) {
            Outcome::Replied { reply, .. } => Ok(answer_in(&reply)),
            other => Err(other),
        },
        Err(_) => Err(Outcome::NoMemory),
    }
}

// Makes a descriptor of a name of as many bytes below one that is there.
fn below(
    rt: &impl Abort,
    service: &mut RamfsService,
    alloc: Global,
    calls: u64,
    parent: u64,
    length: usize,
) -> Result<Answer, Outcome>
    requires few { calls < 2 ^ 32 }
    requires small { AreFew calls (ramfs_object service.old) }
    ensures { OnOk result (AreFew (calls + 1) (ramfs_object service.new)) }
{
    assert!(rt; service.open_file(parent).is_some());
    make(service, alloc, calls, parent, length)
}

// Makes a descriptor below three with the longest names, of a name of as many bytes.
fn fourth(rt: &impl Abort, alloc: Global, length: usize) -> Result<Answer, Outcome> {
    let mut service = RamfsService::fresh(alloc, ());
    make(&mut service, alloc, 0, 0, 64)?;
    below(rt, &mut service, alloc, 1, 1, 64)?;
    below(rt, &mut service, alloc, 2, 2, 64)?;
    below(rt, &mut service, alloc, 3, 3, length)
}

#[test]
fn a_path_has_256_bytes_at_most(rt: HostRuntime) -> Result<(), Fail> {
    let path_of_256 = fourth(&rt, rt.alloc(), 60)?;
    assert_eq!(rt; path_of_256, Answer::Done(None, 0));
    let path_of_257 = fourth(&rt, rt.alloc(), 61)?;
    assert_eq!(rt; path_of_257, Answer::Refused(Code::TooBig));
    Ok(())
}
