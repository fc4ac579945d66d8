// What to do with a call.
ghost use Rattle.std.specs.Prelude.{◌≡◌, ◌<◌, ◌≤◌, ◌^◌, ◌==◌, ℕ, List, length, IfOk, IfSome, IsSome};
ghost use Rattle.std.specs.List.{list_any};
ghost use Rattle.sg_facts.specs.Object.{file_at, first_text, path_of};
ghost use Rattle.sg_facts.specs.Track.{arg_at, word_of};
ghost use Rattle.sg_slots.specs.Slots.{entry_at};
ghost use Rattle.sg_ramfs.specs.Inside.RamfsDecision.{on_open, on_read, on_write, on_seek};
ghost use Rattle.sg_ramfs.specs.RamfsFiles.{files_of, AreFilesIndexed};
ghost use Rattle.sg_ramfs.specs.RamfsTable.{is_bad_name};
ghost use Rattle.sg_ramfs.specs.Inside.RamfsTree.{tree_rows, IsTree};

use crate::OpenFile;
use crate::files::{OpenFiles, part_of};
use crate::tree::FileTree;
use sg_facts::{
    Args, Bytes, Call, Code, FilePath, LentArgs, LentValue, MOST_FILE, MOST_PATH, NoMemory, Patch,
    Value,
};
use sg_slots::Decision;
use std::alloc::Global;

/// The greatest number of bytes of a name.
const MOST_NAME: usize = 64;

/// The greatest number of bytes that a call reads.
const MOST_READ: u64 = 256;

/// The byte between names in a path.
const SLASH: u8 = b'/';

/// What to do with a read.
#[derive(Debug, Drop)]
pub(crate) struct ReadPlan {
    pub decision: Decision<OpenFile>,
    /// The bytes that were read.
    pub bytes: Bytes,
}

/// What to do with a write.
#[derive(Debug, Drop)]
pub(crate) enum WritePlan {
    /// Refuse it.
    Refuse(Code),
    /// Set the descriptor: there are no bytes to write.
    Move(OpenFile),
    /// Set the descriptor, and write the patch.
    Put { entry: OpenFile, patch: Patch },
}

/// The first text among arguments; empty where there is none.
pub(crate) fn first_text(args: &Args) -> &[u8]
    ensures value { result.now ≡ first_text args.now }
    ensures most { length result.now ≤ 256 }
{
    match args.lent() {
        LentArgs::Words(_) => &[],
        LentArgs::Values(values) => text_among(values),
    }
}

// The first text among values; empty where there is none.
fn text_among(values: &[Value]) -> &[u8]
    ensures value { result.now ≡ first_text values.now }
    ensures most { length result.now ≤ 256 }
{
    match values {
        [] => &[],
        [Value::Text(text), ..] => text.bytes(),
        [_, rest @ ..] => text_among(rest),
    }
}

/// The number that a call takes beside its descriptor; 0 where it takes none.
pub(crate) fn number(call: &Call) -> u64
    ensures { result ≡ word_of (arg_at call.now 0) }
{
    match call.args.get(0) {
        Some(LentValue::Word(number)) => number,
        _ => 0,
    }
}

// Whether a name is empty, too long, or has a slash.
fn is_bad_name(name: &[u8]) -> bool
    ensures { result ≡ is_bad_name name.now }
{
    name.is_empty() || name.len() > MOST_NAME || has_slash(name)
}

// Whether a name has a slash.
fn has_slash(name: &[u8]) -> bool
    ensures { result ≡ list_any (λ b. b == 47) name.now }
{
    name.iter().any(|byte| *byte == SLASH)
}

/// Makes a descriptor below that of the call, or as a root.
pub(crate) fn split(
    tree: &FileTree,
    alloc: Global,
    call: &Call,
) -> Result<Decision<OpenFile>, NoMemory>
    ensures decision { IfOk result (λ d. d ≡ on_open tree.now call.now) }
    ensures tree { IsTree tree.now }
{
    let path = tree.path(alloc, call.desc)?;
    let name = first_text(&call.args);
    if is_bad_name(name) {
        return Ok(Decision::Refuse(Code::BadName));
    }
    if path.len() >= MOST_PATH - name.len() {
        return Ok(Decision::Refuse(Code::TooBig));
    }
    Ok(Decision::Make {
        entry: OpenFile {
            creator: call.client,
            parent: call.desc,
            name: Bytes::from_slice(alloc, name)?,
            place: 0,
        },
        word: None,
    })
}

/// Reads at most so many bytes at the place of a descriptor.
pub(crate) fn read(
    tree: &FileTree,
    files: &OpenFiles,
    alloc: Global,
    id: u64,
    most: u64,
) -> Result<ReadPlan, NoMemory>
    requires there { IsSome (entry_at tree.now.entries id) }
    requires place { IfSome (entry_at tree.now.entries id) (λ f. f.place < 2 ^ 63) }
    requires indexed { AreFilesIndexed (files_of files.now) files.now.index }
    ensures plan { IfOk result (λ plan. IfSome (entry_at tree.now.entries id)
        (λ f. plan ≡ on_read f (file_at (files_of files.now) (path_of (tree_rows tree.now) id)) most)) }
    ensures tree { IsTree tree.now }
{
    match tree.get(id) {
        Some(file) => {
            let path = FilePath::new(tree.path(alloc, id)?);
            read_at(file, files.bytes_of(&path), alloc, most)
        }
        None => unreachable!(),
    }
}

// Reads at most so many bytes of a file at the place of its descriptor.
fn read_at(file: &OpenFile, bytes: &[u8], alloc: Global, most: u64) -> Result<ReadPlan, NoMemory>
    requires { file.now.place < 2 ^ 63 }
    ensures { IfOk result (λ plan. plan ≡ on_read file.now bytes.now most) }
{
    if most > MOST_READ {
        return Ok(ReadPlan {
            decision: Decision::Refuse(Code::TooBig),
            bytes: Bytes::new(alloc),
        });
    }
    let bytes = Bytes::from_slice(alloc, part_of(bytes, file.place, most))?;
    let count = bytes.len() as u64;
    let entry = file.moved(alloc, file.place + count)?;
    Ok(ReadPlan {
        decision: Decision::Set {
            entry,
            word: Some(count),
        },
        bytes,
    })
}

/// Writes bytes at the place of a descriptor.
pub(crate) fn write(
    tree: &FileTree,
    files: &OpenFiles,
    alloc: Global,
    id: u64,
    bytes: &[u8],
) -> Result<WritePlan, NoMemory>
    requires there { IsSome (entry_at tree.now.entries id) }
    requires place { IfSome (entry_at tree.now.entries id) (λ f. f.place < 2 ^ 63) }
    requires few { length bytes.now ≤ 256 }
    requires indexed { AreFilesIndexed (files_of files.now) files.now.index }
    ensures tree { IsTree tree.now }
    ensures plan { IfOk result (λ plan. IfSome (entry_at tree.now.entries id)
        (λ f. plan ≡ on_write f (path_of (tree_rows tree.now) id)
        (file_at (files_of files.now) (path_of (tree_rows tree.now) id)) bytes.now)) }
{
    match tree.get(id) {
        Some(file) => {
            let path = FilePath::new(tree.path(alloc, id)?);
            let size = files.bytes_of(&path).len() as u64;
            write_at(file, path, size, alloc, bytes)
        }
        None => unreachable!(),
    }
}

// Writes bytes into a file of a length, at the place of its descriptor.
fn write_at(
    file: &OpenFile,
    path: FilePath,
    size: u64,
    alloc: Global,
    bytes: &[u8],
) -> Result<WritePlan, NoMemory>
    requires place { file.now.place < 2 ^ 63 }
    requires few { length bytes.now ≤ 256 }
    ensures { (old : List ℕ) → size ≡ length old → IfOk result (λ plan. plan ≡ on_write file.now path old bytes.now) }
{
    if file.place > size {
        return Ok(WritePlan::Refuse(Code::Gap));
    }
    let end = file.place + bytes.len() as u64;
    if end > MOST_FILE {
        return Ok(WritePlan::Refuse(Code::TooBig));
    }
    let entry = file.moved(alloc, end)?;
    if bytes.is_empty() {
        return Ok(WritePlan::Move(entry));
    }
    Ok(WritePlan::Put {
        entry,
        patch: Patch {
            key: path.into_path(),
            from: file.place as u32,
            bytes: Bytes::from_slice(alloc, bytes)?,
        },
    })
}

/// Sets the place of a descriptor.
pub(crate) fn seek(
    tree: &FileTree,
    alloc: Global,
    id: u64,
    place: u64,
) -> Result<Decision<OpenFile>, NoMemory>
    requires { IsSome (entry_at tree.now.entries id) }
    ensures decision { IfOk result (λ d. IfSome (entry_at tree.now.entries id) (λ f. d ≡ on_seek f place)) }
    ensures tree { IsTree tree.now }
{
    match tree.get(id) {
        Some(file) => seek_to(file, alloc, place),
        None => unreachable!(),
    }
}

// Sets the place of a descriptor.
fn seek_to(file: &OpenFile, alloc: Global, place: u64) -> Result<Decision<OpenFile>, NoMemory>
    ensures { IfOk result (λ d. d ≡ on_seek file.now place) }
{
    if place > MOST_FILE {
        return Ok(Decision::Refuse(Code::TooBig));
    }
    Ok(Decision::Set {
        entry: file.moved(alloc, place)?,
        word: None,
    })
}
