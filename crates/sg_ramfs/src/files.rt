// The files, and an index of them by path.
ghost use Rattle.std.specs.Prelude.{◌≡◌, ◌<◌, ◌≤◌, ◌+◌, [], None, length, take, drop, OnOk, OnErr, vec_len, vec_capacity};
ghost use Rattle.sg_facts.specs.Object.{file_at, over, set_file};
ghost use Rattle.sg_ramfs.specs.RamfsFiles.{files_of, place_at, AreFilesIndexed, IsPrepared};

use sg_facts::{FilePath, NoMemory, TryCopy};
use std::alloc::Global;
use std::collections::BTreeMap;

/// A file.
#[derive(Debug, Drop)]
pub(crate) struct File {
    pub path: FilePath,
    pub bytes: Vec<u8>,
}

/// The files in the order in which they were first set, and the place of each by its path. A file is found by its path in
/// time that grows with the logarithm of the files.
#[derive(Debug, Drop)]
pub(crate) struct OpenFiles {
    pub list: Vec<File>,
    pub index: BTreeMap<FilePath, usize>,
}

impl OpenFiles {
    /// No file. It takes no memory.
    pub(crate) fn new(alloc: Global) -> OpenFiles
        ensures files { files_of result ≡ [] }
        ensures index { AreFilesIndexed (files_of result) result.index }
    {
        OpenFiles {
            list: Vec::new(alloc),
            index: BTreeMap::new(alloc),
        }
    }

    /// The place of the file of a path in the list; None where no file has it.
    pub(crate) fn find(&self, path: &FilePath) -> Option<usize>
        requires { AreFilesIndexed (files_of self.now) self.now.index }
        ensures { result ≡ place_at (files_of self.now) path.now }
    {
        self.index.get(path).copied()
    }

    /// The bytes of the file of a path; none where no file has it.
    pub(crate) fn bytes_of(&self, path: &FilePath) -> &[u8]
        requires { AreFilesIndexed (files_of self.now) self.now.index }
        ensures { result.now ≡ file_at (files_of self.now) path.now }
    {
        match self.find(path) {
            Some(at) => self.list[at].bytes.as_slice(),
            None => &[],
        }
    }

    /// Takes the memory for one more file, of a path that no file has yet. After `NoMemory` the files are as before.
    pub(crate) fn prepare(&mut self, alloc: Global, path: &FilePath) -> Result<(), NoMemory>
        requires { AreFilesIndexed (files_of self.old) self.old.index }
        ensures files { files_of self.new ≡ files_of self.old }
        ensures ok { OnOk result (IsPrepared (files_of self.old) self.new.index path.now) }
        ensures room { OnOk result (vec_len self.new.list < vec_capacity self.new.list) }
        ensures err { OnErr result (AreFilesIndexed (files_of self.old) self.new.index) }
    {
        self.list.reserve(1)?;
        self.index.insert(path.copy(alloc)?, self.list.len())?;
        Ok(())
    }

    /// Gives back what was taken for a file that doesn't come.
    pub(crate) fn cancel(&mut self, path: &FilePath)
        requires new { place_at (files_of self.old) path.now ≡ None }
        requires prepared { IsPrepared (files_of self.old) self.old.index path.now }
        ensures files { files_of self.new ≡ files_of self.old }
        ensures index { AreFilesIndexed (files_of self.new) self.new.index }
    {
        self.index.remove(path);
    }

    /// Adds the file for which memory was taken.
    pub(crate) fn add(&mut self, path: FilePath, bytes: Vec<u8>)
        requires new { place_at (files_of self.old) path ≡ None }
        requires prepared { IsPrepared (files_of self.old) self.old.index path }
        requires room { vec_len self.old.list < vec_capacity self.old.list }
        ensures files { files_of self.new ≡ set_file (files_of self.old) path bytes.items }
        ensures index { AreFilesIndexed (files_of self.new) self.new.index }
    {
        self.list.push_reserved(File { path, bytes });
    }

    /// Sets the file of a path whole. After `NoMemory` the files are as before.
    pub(crate) fn set(
        &mut self,
        alloc: Global,
        path: FilePath,
        bytes: &[u8],
    ) -> Result<(), NoMemory>
        requires { AreFilesIndexed (files_of self.old) self.old.index }
        ensures ok { OnOk result (files_of self.new ≡ set_file (files_of self.old) path bytes.now) }
        ensures err { OnErr result (files_of self.new ≡ files_of self.old) }
        ensures index { AreFilesIndexed (files_of self.new) self.new.index }
    {
        let bytes = Vec::from_slice(alloc, bytes)?;
        match self.find(&path) {
            Some(at) => self.list[at].bytes = bytes,
            None => {
                self.prepare(alloc, &path)?;
                self.add(path, bytes);
            }
        }
        Ok(())
    }
}

/// At most so many bytes of a file from a place on; none past its end.
pub(crate) fn part_of(file: &[u8], from: u64, most: u64) -> &[u8]
    ensures { result.now ≡ take most (drop from file.now) }
{
    if from >= file.len() as u64 {
        return &[];
    }
    let rest = &file[from as usize..];
    if most >= rest.len() as u64 {
        return rest;
    }
    &rest[..most as usize]
}

/// Writes bytes over a file from a place on, into the room that there is.
pub(crate) fn write_over(file: &mut Vec<u8>, from: usize, bytes: &[u8])
    requires from { from ≤ length file.old.items }
    requires room { from + length bytes.now ≤ vec_capacity file.old }
    ensures { file.new.items ≡ over file.old.items from bytes.now }
{
    let kept = bytes.len().min(file.len() - from);
    file[from..from + kept].copy_from_slice(&bytes[..kept]);
    match file.extend_from_slice(&bytes[kept..]) {
        Ok(()) => {}
        Err(_) => unreachable!(),
    }
}
