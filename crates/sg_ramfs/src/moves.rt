// How what was decided is done, part by part.
ghost use Rattle.std.specs.Prelude.{◌≡◌, ◌<◌, ◌≤◌, ◌^◌, ◌+◌, None, IsSome, length};
ghost use Rattle.sg_slots.specs.declared.decision.Decision.TheVariants.{Set};
ghost use Rattle.sg_facts.specs.Object.{file_at};
ghost use Rattle.sg_slots.specs.Carry.{IsAbout};
ghost use Rattle.sg_slots.specs.Slots.{entry_at};
ghost use Rattle.sg_ramfs.specs.Inside.RamfsDecision.{with_bytes, outcome_of, CarriesBytes, Moves, Overwrites, Puts, WritesFile};
ghost use Rattle.sg_ramfs.specs.RamfsFiles.{files_of, place_at, AreFilesIndexed};
ghost use Rattle.sg_ramfs.specs.Inside.RamfsPlans.{FitsWrite};
ghost use Rattle.sg_ramfs.specs.Inside.RamfsTree.{FitsTree};

use crate::OpenFile;
use crate::files::{OpenFiles, write_over};
use crate::plan::{ReadPlan, WritePlan};
use crate::tree::FileTree;
use sg_facts::{Bytes, FilePath, Good, Outcome, Patch, Point, Reply, Stops, TryCopy};
use sg_slots::Decision;
use std::alloc::Global;

/// What became of a descriptor that was to be set in the first of two parts.
#[derive(Debug, Drop)]
pub(crate) enum Moved {
    /// Both parts were asked, and the first is done.
    Done(Reply),
    /// It stopped at a part.
    Stopped,
    /// There was no memory; nothing changed.
    NoMemory,
}

// Sets a descriptor in the first of two parts, and asks the second. All memory is taken before.
fn move_first<T: Stops>(
    tree: &mut FileTree,
    alloc: Global,
    stops: &mut T,
    id: u64,
    entry: OpenFile,
    count: u64,
) -> Moved
    requires there { IsSome (entry_at tree.old.entries id) }
    requires fits { FitsTree tree.old id (Set entry None) }
    requires room { tree.old.given < 2 ^ 63 }
    ensures outcome { Moves tree.old id entry count
        (record { asked = T.asked stops.old; struck = T.struck stops.old }) result
        tree.new (record { asked = T.asked stops.new; struck = T.struck stops.new }) }
    ensures plan { T.plan stops.new ≡ T.plan stops.old }
    ensures test { T.test (T.asked stops.old) (T.struck stops.old) (T.plan stops.old)
        → T.test (T.asked stops.new) (T.struck stops.new) (T.plan stops.new) }
{
    let decision = Decision::Set {
        entry,
        word: Some(count),
    };
    match tree.apply(alloc, stops, id, decision) {
        Outcome::Replied { reply, .. } => {
            if stops.strikes(Point::Part(2)) {
                return Moved::Stopped;
            }
            Moved::Done(reply)
        }
        Outcome::Blocks => unreachable!(),
        Outcome::Stopped => Moved::Stopped,
        Outcome::NoMemory => Moved::NoMemory,
    }
}

/// Carries a read out: a descriptor is set, and the reply has the bytes.
pub(crate) fn carry_read<T: Stops>(
    tree: &mut FileTree,
    alloc: Global,
    stops: &mut T,
    id: u64,
    plan: ReadPlan,
) -> Outcome
    requires there { IsAbout tree.old id plan.decision }
    requires fits { FitsTree tree.old id plan.decision }
    requires room { tree.old.given < 2 ^ 63 }
    ensures outcome { CarriesBytes tree.old id plan.decision plan.bytes
        (record { asked = T.asked stops.old; struck = T.struck stops.old }) result
        tree.new (record { asked = T.asked stops.new; struck = T.struck stops.new }) }
    ensures plan { T.plan stops.new ≡ T.plan stops.old }
    ensures test { T.test (T.asked stops.old) (T.struck stops.old) (T.plan stops.old)
        → T.test (T.asked stops.new) (T.struck stops.new) (T.plan stops.new) }
{
    let ReadPlan { decision, bytes } = plan;
    match tree.apply(alloc, stops, id, decision) {
        Outcome::Replied { reply, patch } => Outcome::Replied {
            reply: with_bytes(reply, bytes),
            patch,
        },
        Outcome::Blocks => Outcome::Blocks,
        Outcome::Stopped => Outcome::Stopped,
        Outcome::NoMemory => Outcome::NoMemory,
    }
}

// A reply with bytes.
fn with_bytes(reply: Reply, bytes: Bytes) -> Reply
    ensures { result ≡ with_bytes reply bytes }
{
    match reply {
        Reply::Ok(Good { desc, words, .. }) => Reply::Ok(Good { desc, words, bytes }),
        Reply::Refused(code) => Reply::Refused(code),
    }
}

/// Carries a write out: a descriptor is set in the first part, and the bytes are written in the second.
pub(crate) fn carry_write<T: Stops>(
    tree: &mut FileTree,
    files: &mut OpenFiles,
    alloc: Global,
    stops: &mut T,
    id: u64,
    plan: WritePlan,
) -> Outcome
    requires there { IsSome (entry_at tree.old.entries id) }
    requires fits { FitsWrite tree.old (files_of files.old) id plan }
    requires room { tree.old.given < 2 ^ 63 }
    requires indexed { AreFilesIndexed (files_of files.old) files.old.index }
    ensures outcome { WritesFile tree.old (files_of files.old) id plan
        (record { asked = T.asked stops.old; struck = T.struck stops.old }) result
        tree.new (files_of files.new) (record { asked = T.asked stops.new; struck = T.struck stops.new }) }
    ensures indexed { AreFilesIndexed (files_of files.new) files.new.index }
    ensures plan { T.plan stops.new ≡ T.plan stops.old }
    ensures test { T.test (T.asked stops.old) (T.struck stops.old) (T.plan stops.old)
        → T.test (T.asked stops.new) (T.struck stops.new) (T.plan stops.new) }
{
    match plan {
        WritePlan::Refuse(code) => Outcome::Replied {
            reply: Reply::Refused(code),
            patch: None,
        },
        WritePlan::Move(entry) => replied(move_first(tree, alloc, stops, id, entry, 0)),
        WritePlan::Put { entry, patch } => put(tree, files, alloc, stops, id, entry, patch),
    }
}

// What became of a descriptor, where nothing is written.
fn replied(moved: Moved) -> Outcome
    ensures { result ≡ outcome_of moved }
{
    match moved {
        Moved::Done(reply) => Outcome::Replied { reply, patch: None },
        Moved::Stopped => Outcome::Stopped,
        Moved::NoMemory => Outcome::NoMemory,
    }
}

// Sets a descriptor, and writes a patch into its file.
fn put<T: Stops>(
    tree: &mut FileTree,
    files: &mut OpenFiles,
    alloc: Global,
    stops: &mut T,
    id: u64,
    entry: OpenFile,
    patch: Patch,
) -> Outcome
    requires there { IsSome (entry_at tree.old.entries id) }
    requires fits { FitsTree tree.old id (Set entry None) }
    requires room { tree.old.given < 2 ^ 63 }
    requires begins { patch.from ≤ length (file_at (files_of files.old) patch.key) }
    requires indexed { AreFilesIndexed (files_of files.old) files.old.index }
    ensures outcome { Puts tree.old (files_of files.old) id entry patch
        (record { asked = T.asked stops.old; struck = T.struck stops.old }) result
        tree.new (files_of files.new) (record { asked = T.asked stops.new; struck = T.struck stops.new }) }
    ensures indexed { AreFilesIndexed (files_of files.new) files.new.index }
    ensures plan { T.plan stops.new ≡ T.plan stops.old }
    ensures test { T.test (T.asked stops.old) (T.struck stops.old) (T.plan stops.old)
        → T.test (T.asked stops.new) (T.struck stops.new) (T.plan stops.new) }
{
    let path = match patch.key.copy(alloc) {
        Ok(key) => FilePath::new(key),
        Err(_) => return Outcome::NoMemory,
    };
    match files.find(&path) {
        Some(at) => overwrite(
            tree,
            &mut files.list[at].bytes,
            alloc,
            stops,
            id,
            entry,
            patch,
        ),
        None => put_new(tree, files, alloc, stops, id, entry, path, patch),
    }
}

// Sets a descriptor, and writes a patch over the bytes of its file. The room for it is taken first.
fn overwrite<T: Stops>(
    tree: &mut FileTree,
    file: &mut Vec<u8>,
    alloc: Global,
    stops: &mut T,
    id: u64,
    entry: OpenFile,
    patch: Patch,
) -> Outcome
    requires there { IsSome (entry_at tree.old.entries id) }
    requires fits { FitsTree tree.old id (Set entry None) }
    requires room { tree.old.given < 2 ^ 63 }
    requires begins { patch.from ≤ length file.old.items }
    ensures outcome { Overwrites tree.old file.old.items id entry patch
        (record { asked = T.asked stops.old; struck = T.struck stops.old }) result
        tree.new file.new.items (record { asked = T.asked stops.new; struck = T.struck stops.new }) }
    ensures plan { T.plan stops.new ≡ T.plan stops.old }
    ensures test { T.test (T.asked stops.old) (T.struck stops.old) (T.plan stops.old)
        → T.test (T.asked stops.new) (T.struck stops.new) (T.plan stops.new) }
{
    let count = patch.bytes.len();
    if file.reserve(count).is_err() {
        return Outcome::NoMemory;
    }
    match move_first(tree, alloc, stops, id, entry, count as u64) {
        Moved::Done(reply) => {
            write_over(file, patch.from as usize, patch.bytes.as_slice());
            Outcome::Replied {
                reply,
                patch: Some(patch),
            }
        }
        Moved::Stopped => Outcome::Stopped,
        Moved::NoMemory => Outcome::NoMemory,
    }
}

// Sets a descriptor, and writes a patch into a file that comes with it. The room for it is taken first.
fn put_new<T: Stops>(
    tree: &mut FileTree,
    files: &mut OpenFiles,
    alloc: Global,
    stops: &mut T,
    id: u64,
    entry: OpenFile,
    path: FilePath,
    patch: Patch,
) -> Outcome
    requires there { IsSome (entry_at tree.old.entries id) }
    requires fits { FitsTree tree.old id (Set entry None) }
    requires room { tree.old.given < 2 ^ 63 }
    requires path { path ≡ patch.key }
    requires new { place_at (files_of files.old) path ≡ None }
    requires begins { patch.from ≤ 0 }
    requires indexed { AreFilesIndexed (files_of files.old) files.old.index }
    ensures outcome { Puts tree.old (files_of files.old) id entry patch
        (record { asked = T.asked stops.old; struck = T.struck stops.old }) result
        tree.new (files_of files.new) (record { asked = T.asked stops.new; struck = T.struck stops.new }) }
    ensures indexed { AreFilesIndexed (files_of files.new) files.new.index }
    ensures plan { T.plan stops.new ≡ T.plan stops.old }
    ensures test { T.test (T.asked stops.old) (T.struck stops.old) (T.plan stops.old)
        → T.test (T.asked stops.new) (T.struck stops.new) (T.plan stops.new) }
{
    let bytes = match Vec::from_slice(alloc, patch.bytes.as_slice()) {
        Ok(bytes) => bytes,
        Err(_) => return Outcome::NoMemory,
    };
    if files.prepare(alloc, &path).is_err() {
        return Outcome::NoMemory;
    }
    match move_first(tree, alloc, stops, id, entry, patch.bytes.len() as u64) {
        Moved::Done(reply) => {
            files.add(path, bytes);
            Outcome::Replied {
                reply,
                patch: Some(patch),
            }
        }
        Moved::Stopped => {
            files.cancel(&path);
            Outcome::Stopped
        }
        Moved::NoMemory => {
            files.cancel(&path);
            Outcome::NoMemory
        }
    }
}
