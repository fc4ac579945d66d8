// Files.
ghost use Rattle.std.specs.Prelude.{◌≡◌, ◌≤◌, length, IfOk};
ghost use Rattle.test_tables.specs.sg_ramfs.RamfsFacts.{ramfs_facts};

use crate::calls::{call, done};
use sg_store::Storage;
use std::alloc::Global;
use std::process::Abort;
use std::test::Fail;
use test_tables::facts::{Bytes, NoMemory, Patch, Path, Tables};
use test_tables::ramfs_tables;

// Writes bytes into a file from a place on; false where the place is after the file's end, or too far.
fn write(
    alloc: Global,
    storage: &mut Storage,
    tables: &Tables,
    key: Path,
    from: u32,
    bytes: &[u8],
) -> Result<bool, NoMemory>
    requires files { tables.now.iface.facts ≡ ramfs_facts }
    requires few { length bytes.now ≤ 256 }
    requires client { 1 ≤ storage.old.clients }
    ensures { storage.new.clients ≡ storage.old.clients }
{
    storage.reserve(alloc, 1, Some(&key))?;
    if from > storage.len(&key) || from > 65_280 {
        return Ok(false);
    }
    let bytes = Bytes::from_slice(alloc, bytes)?;
    let patch = Patch { key, from, bytes };
    let twrite = call(alloc, 1, 1, 3, 1);
    storage.commit(tables, &twrite, done(alloc, 0), Some(patch));
    Ok(true)
}

// Writes bytes at the end of a file.
fn append(
    alloc: Global,
    storage: &mut Storage,
    tables: &Tables,
    key: Path,
    bytes: &[u8],
) -> Result<bool, NoMemory>
    requires files { tables.now.iface.facts ≡ ramfs_facts }
    requires few { length bytes.now ≤ 256 }
    requires client { 1 ≤ storage.old.clients }
    ensures { storage.new.clients ≡ storage.old.clients }
{
    let end = storage.len(&key);
    write(alloc, storage, tables, key, end, bytes)
}

// A file as a plain pair.
#[derive(Drop)]
struct Plain {
    key: Path,
    bytes: Vec<u8>,
}

// The path of a file by its number.
fn path(alloc: Global, file: u8) -> Result<Path, NoMemory> {
    Path::from_slice(alloc, &[b'/', b'a' + file % 16])
}

// The first three files, without bytes.
fn three_plain(alloc: Global) -> Result<Vec<Plain>, NoMemory> {
    let mut plain = Vec::new(alloc);
    for file in 0..3 {
        plain.push(Plain {
            key: path(alloc, file)?,
            bytes: Vec::new(alloc),
        })?;
    }
    Ok(plain)
}

// Adds bytes to the pair of a path.
fn add_plain(plain: &mut Vec<Plain>, key: &Path, bytes: &[u8]) -> Result<(), NoMemory> {
    for file in plain.iter_mut() {
        if file.key == *key {
            file.bytes.extend_from_slice(bytes)?;
        }
    }
    Ok(())
}

// The part of the buffer that the span of a file names.
fn in_buffer<'a>(storage: &'a Storage, key: &Path) -> &'a [u8] {
    match storage.span(key) {
        Some((place, len)) => &storage.buffer()[place..place + len],
        None => &[],
    }
}

// Whether a file is lent as in its pair, and stands so in the buffer.
fn is_stored(storage: &Storage, file: &Plain) -> bool {
    match storage.lend(&file.key, 0, storage.len(&file.key)) {
        Some(lent) => {
            lent == file.bytes.as_slice() && in_buffer(storage, &file.key) == file.bytes.as_slice()
        }
        None => false,
    }
}

// 256 times a byte.
fn filled(alloc: Global, byte: u8) -> Result<Vec<u8>, NoMemory>
    ensures { IfOk result (λ bytes. length bytes.items ≤ 256) }
{
    let mut bytes = Vec::new(alloc);
    bytes.resize(256, byte)?;
    Ok(bytes)
}

// Three files, written by turns in 200 commits of 256 bytes at the end of each.
fn by_turns(
    alloc: Global,
    storage: &mut Storage,
    tables: &Tables,
    plain: &mut Vec<Plain>,
) -> Result<(), NoMemory>
    requires files { tables.now.iface.facts ≡ ramfs_facts }
    requires client { 1 ≤ storage.old.clients }
{
    'turns: for turn in 0u8..200 {
        let key = path(alloc, turn % 3)?;
        let bytes = filled(alloc, turn)?;
        add_plain(plain, &key, bytes.as_slice())?;
        append(alloc, storage, tables, key, bytes.as_slice())?;
    }
    Ok(())
}

// Files that are written by turns are as plain pairs.
fn write_by_turns(
    rt: &impl Abort,
    alloc: Global,
    storage: &mut Storage,
    tables: &Tables,
) -> Result<(), Fail>
    requires files { tables.now.iface.facts ≡ ramfs_facts }
    requires client { 1 ≤ storage.old.clients }
{
    let mut plain = three_plain(alloc)?;
    by_turns(alloc, storage, tables, &mut plain)?;
    let lengths = [67 * 256, 67 * 256, 66 * 256];
    assert!(rt;
        plain
            .iter()
            .zip(lengths)
            .all(|(file, len)| storage.len(&file.key) == len)
    );
    assert!(rt; plain.iter().all(|file| is_stored(storage, file)));
    Ok(())
}

#[test]
fn files_by_turns_are_as_plain_pairs(rt: HostRuntime) -> Result<(), Fail> {
    let tables = ramfs_tables(rt.alloc())?;
    let mut storage = Storage::new(rt.alloc(), 1)?;
    write_by_turns(&rt, rt.alloc(), &mut storage, &tables)
}

// Whether a part of one file is that of another, both lent at once.
fn are_same(storage: &Storage, one: &Path, other: &Path, from: u32, to: u32) -> bool {
    match storage.lend(one, from, to) {
        Some(part) => match storage.lend(other, from, to) {
            Some(too) => part == too,
            None => false,
        },
        None => false,
    }
}

// Two files that begin alike and end differently.
fn lend_parts(
    rt: &impl Abort,
    alloc: Global,
    storage: &mut Storage,
    tables: &Tables,
) -> Result<(), Fail>
    requires files { tables.now.iface.facts ≡ ramfs_facts }
    requires client { 1 ≤ storage.old.clients }
{
    append(alloc, storage, tables, path(alloc, 0)?, b"same, one")?;
    append(alloc, storage, tables, path(alloc, 1)?, b"same, two")?;
    let one = path(alloc, 0)?;
    let two = path(alloc, 1)?;
    assert!(rt; are_same(storage, &one, &two, 0, 6));
    assert!(rt; !are_same(storage, &one, &two, 0, 9));
    assert!(rt; are_same(storage, &one, &one, 9, 9));
    assert!(rt; !are_same(storage, &one, &one, 9, 10));
    assert!(rt; !are_same(storage, &one, &one, 3, 2));
    Ok(())
}

#[test]
fn parts_of_two_files_are_lent_at_once(rt: HostRuntime) -> Result<(), Fail> {
    let tables = ramfs_tables(rt.alloc())?;
    let mut storage = Storage::new(rt.alloc(), 1)?;
    lend_parts(&rt, rt.alloc(), &mut storage, &tables)
}

// Whether a file has these bytes.
fn has(storage: &Storage, key: &Path, bytes: &[u8]) -> bool {
    match storage.lend(key, 0, storage.len(key)) {
        Some(lent) => lent == bytes,
        None => false,
    }
}

// A file is written at its end, in its middle, and over its end; room for more changes nothing.
fn write_over(
    rt: &impl Abort,
    alloc: Global,
    storage: &mut Storage,
    tables: &Tables,
) -> Result<(), Fail>
    requires files { tables.now.iface.facts ≡ ramfs_facts }
    requires client { 1 ≤ storage.old.clients }
{
    append(alloc, storage, tables, path(alloc, 0)?, b"abcdef")?;
    write(alloc, storage, tables, path(alloc, 0)?, 1, b"XY")?;
    write(alloc, storage, tables, path(alloc, 0)?, 4, b"Z12")?;
    let key = path(alloc, 0)?;
    assert!(rt; has(storage, &key, b"aXYdZ12"));
    storage.reserve(alloc, 1, Some(&key))?;
    assert!(rt; has(storage, &key, b"aXYdZ12"));
    Ok(())
}

#[test]
fn a_file_is_written_over(rt: HostRuntime) -> Result<(), Fail> {
    let tables = ramfs_tables(rt.alloc())?;
    let mut storage = Storage::new(rt.alloc(), 1)?;
    write_over(&rt, rt.alloc(), &mut storage, &tables)
}

// A file that was never written is empty, with room for it and without.
fn read_nothing(rt: &impl Abort, alloc: Global, storage: &mut Storage) -> Result<(), Fail> {
    let key = path(alloc, 0)?;
    assert!(rt; storage.buffer().is_empty() && storage.len(&key) == 0);
    assert!(rt; storage.span(&key).is_none() && has(storage, &key, b""));
    storage.reserve(alloc, 64, Some(&key))?;
    assert!(rt; storage.len(&key) == 0 && storage.lend(&key, 0, 1).is_none());
    assert!(rt; storage.span(&key).is_none() && has(storage, &key, b""));
    Ok(())
}

#[test]
fn a_file_that_was_never_written_is_empty(rt: HostRuntime) -> Result<(), Fail> {
    let mut storage = Storage::new(rt.alloc(), 64)?;
    read_nothing(&rt, rt.alloc(), &mut storage)
}
