// The file service.
ghost use Rattle.std.specs.Prelude.{◌≡◌, ◌<◌, ◌≤◌, ◌^◌, ◌==◌, ◌||◌, IfSome, IsSome, Some, true, length};
ghost use Rattle.std.specs.Option.{option_map, option_copied};
ghost use Rattle.sg_facts.specs.Facts.{facts_of};
ghost use Rattle.sg_facts.specs.Object.{file_at, first_text, path_of};
ghost use Rattle.sg_facts.specs.Track.{arg_at, is_live, row_at, word_of};
ghost use Rattle.sg_slots.specs.Slots.{entry_at, row_with};
ghost use Rattle.sg_slots.specs.Carry.{Carries};
ghost use Rattle.sg_ramfs.specs.declared.open_file.OpenFile.{OpenFile as IsOpenFile};
ghost use Rattle.sg_ramfs.specs.Laws.RamfsAlikeLaw.{ramfs_answers_alike};
ghost use Rattle.sg_ramfs.specs.Laws.RamfsBlockedLaw.{ramfs_blocked_stays};
ghost use Rattle.sg_ramfs.specs.Inside.RamfsDecision.{on_open, on_read, on_seek, on_write, CarriesBytes, WritesFile};
ghost use Rattle.sg_ramfs.specs.RamfsFacts.{ramfs_facts};
ghost use Rattle.sg_ramfs.specs.RamfsFiles.{files_of, AreFilesIndexed};
ghost use Rattle.sg_ramfs.specs.RamfsObject.{ramfs_object};
ghost use Rattle.sg_ramfs.specs.RamfsRow.{file_body};
ghost use Rattle.sg_ramfs.specs.Laws.RamfsShapeLaw.{ramfs_shape_allows, ramfs_counts_slowly};
ghost use Rattle.sg_ramfs.specs.RamfsSound.{IsRamfsSound};
ghost use Rattle.sg_ramfs.specs.Laws.RamfsSoundLaw.{ramfs_answers_and_keeps};
ghost use Rattle.sg_ramfs.specs.RamfsTable.{ramfs_table, ramfs_parts};
ghost use Rattle.sg_ramfs.specs.Inside.RamfsTree.{tree_rows, IsTree};
ghost use Rattle.sg_ramfs.specs.Laws.RamfsWalkLaw.{ramfs_walk_goes_on};

use crate::files::OpenFiles;
use crate::functions::{READ, SEEK, SPLIT, WRITE};
use crate::moves::{carry_read, carry_write};
use crate::shape::ramfs_shape;
use crate::tree::FileTree;
use crate::{OpenFile, plan};
use sg_facts::{Call, FilePath, NoMemory, Outcome, Path, Service, Shape, Stops, TryCopy};
use sg_slots::Decision;
use std::alloc::Global;
use std::marker::Model;

/// The file service: it makes and ends descriptors, each below another or a root, and reads and writes the files of their
/// paths. Nobody waits.
#[derive(Debug, Drop)]
pub struct RamfsService {
    tree: FileTree,
    files: OpenFiles,
}

impl Model for RamfsService {
    ghost use Rattle.sg_ramfs.specs.RamfsObject.{Served};
    ghost use Rattle.sg_ramfs.specs.RamfsFiles.{files_of, AreFilesIndexed};

    ghost Value = { Served };

    ghost view = { λ s. record { tree = s.tree; files = files_of s.files } };

    ghost invariant = { λ s. AreFilesIndexed (files_of s.files) s.files.index };
}

impl RamfsService {
    /// The shape of the service.
    pub fn shape() -> Shape
        ensures { facts_of result ≡ ramfs_facts }
    {
        ramfs_shape()
    }

    /// The open file of an id, lent; None where no open file has it. Ids count from 1.
    pub fn open_file(&self, id: u64) -> Option<&OpenFile>
        ensures { row_at (ramfs_object self.now).rows id ≡ option_map (λ f. row_with id (file_body f)) (option_copied result) }
    {
        self.tree.get(id)
    }

    /// The number of open files.
    pub fn live(&self) -> usize
        ensures { result ≡ length (ramfs_object self.now).rows }
    {
        self.tree.len()
    }
}

impl Service for RamfsService {
    type Image = ();

    ghost facts = { ramfs_facts };

    ghost object = { ramfs_object };

    ghost ask = { ramfs_table };

    ghost parts = { ramfs_parts };

    ghost sound = { IsRamfsSound };

    ghost answers_and_keeps = { ramfs_answers_and_keeps };

    ghost answers_alike = { ramfs_answers_alike };

    ghost walk_goes_on = { ramfs_walk_goes_on };

    ghost blocked_stays = { ramfs_blocked_stays };

    ghost shape_allows = { ramfs_shape_allows };

    ghost counts_slowly = { ramfs_counts_slowly };

    fn fresh(alloc: Global, _: ()) -> Self {
        RamfsService {
            tree: FileTree::new(alloc),
            files: OpenFiles::new(alloc),
        }
    }

    fn invoke<T: Stops>(&mut self, alloc: Global, stops: &mut T, call: &Call) -> Outcome {
        match call.fun {
            SPLIT => split(&mut self.tree, alloc, stops, call),
            READ => read(&mut self.tree, &self.files, alloc, stops, call),
            WRITE => write(&mut self.tree, &mut self.files, alloc, stops, call),
            SEEK => seek(&mut self.tree, alloc, stops, call),
            _ => self.tree.apply(alloc, stops, call.desc, Decision::Remove),
        }
    }

    fn load(&mut self, alloc: Global, key: &Path, bytes: &[u8]) -> Result<(), NoMemory> {
        let path = FilePath::new(key.copy(alloc)?);
        self.files.set(alloc, path, bytes)
    }
}

// Makes a descriptor.
fn split<T: Stops>(tree: &mut FileTree, alloc: Global, stops: &mut T, call: &Call) -> Outcome
    requires parent { (is_live (tree_rows tree.old) call.now.desc || (call.now.desc == 0)) ≡ true }
    requires room { tree.old.given < 2 ^ 63 }
    ensures outcome { Carries tree.old call.now.desc (on_open tree.old call.now)
        (record { asked = T.asked stops.old; struck = T.struck stops.old }) result
        tree.new (record { asked = T.asked stops.new; struck = T.struck stops.new }) }
    ensures tree { IsTree tree.old }
    ensures plan { T.plan stops.new ≡ T.plan stops.old }
    ensures test { T.test (T.asked stops.old) (T.struck stops.old) (T.plan stops.old)
        → T.test (T.asked stops.new) (T.struck stops.new) (T.plan stops.new) }
{
    match plan::split(tree, alloc, call) {
        Ok(decision) => tree.apply(alloc, stops, call.desc, decision),
        Err(_) => Outcome::NoMemory,
    }
}

// Reads from the file of a descriptor.
fn read<T: Stops>(
    tree: &mut FileTree,
    files: &OpenFiles,
    alloc: Global,
    stops: &mut T,
    call: &Call,
) -> Outcome
    requires there { IsSome (entry_at tree.old.entries call.now.desc) }
    requires place { IfSome (entry_at tree.old.entries call.now.desc) (λ f. f.place < 2 ^ 63) }
    requires room { tree.old.given < 2 ^ 63 }
    requires indexed { AreFilesIndexed (files_of files.now) files.now.index }
    ensures outcome { (f : IsOpenFile) → entry_at tree.old.entries call.now.desc ≡ Some f → CarriesBytes tree.old call.now.desc
        (on_read f (file_at (files_of files.now) (path_of (tree_rows tree.old) call.now.desc)) (word_of (arg_at call.now 0))).decision
        (on_read f (file_at (files_of files.now) (path_of (tree_rows tree.old) call.now.desc)) (word_of (arg_at call.now 0))).bytes
        (record { asked = T.asked stops.old; struck = T.struck stops.old }) result
        tree.new (record { asked = T.asked stops.new; struck = T.struck stops.new }) }
    ensures tree { IsTree tree.old }
    ensures plan { T.plan stops.new ≡ T.plan stops.old }
    ensures test { T.test (T.asked stops.old) (T.struck stops.old) (T.plan stops.old)
        → T.test (T.asked stops.new) (T.struck stops.new) (T.plan stops.new) }
{
    match plan::read(tree, files, alloc, call.desc, plan::number(call)) {
        Ok(plan) => carry_read(tree, alloc, stops, call.desc, plan),
        Err(_) => Outcome::NoMemory,
    }
}

// Writes into the file of a descriptor.
fn write<T: Stops>(
    tree: &mut FileTree,
    files: &mut OpenFiles,
    alloc: Global,
    stops: &mut T,
    call: &Call,
) -> Outcome
    requires there { IsSome (entry_at tree.old.entries call.now.desc) }
    requires place { IfSome (entry_at tree.old.entries call.now.desc) (λ f. f.place < 2 ^ 63) }
    requires room { tree.old.given < 2 ^ 63 }
    requires indexed { AreFilesIndexed (files_of files.old) files.old.index }
    ensures outcome { (f : IsOpenFile) → entry_at tree.old.entries call.now.desc ≡ Some f → WritesFile tree.old (files_of files.old) call.now.desc
        (on_write f (path_of (tree_rows tree.old) call.now.desc)
        (file_at (files_of files.old) (path_of (tree_rows tree.old) call.now.desc)) (first_text call.now.args))
        (record { asked = T.asked stops.old; struck = T.struck stops.old }) result
        tree.new (files_of files.new) (record { asked = T.asked stops.new; struck = T.struck stops.new }) }
    ensures few { length (first_text call.now.args) ≤ 256 }
    ensures tree { IsTree tree.old }
    ensures indexed { AreFilesIndexed (files_of files.new) files.new.index }
    ensures plan { T.plan stops.new ≡ T.plan stops.old }
    ensures test { T.test (T.asked stops.old) (T.struck stops.old) (T.plan stops.old)
        → T.test (T.asked stops.new) (T.struck stops.new) (T.plan stops.new) }
{
    let bytes = plan::first_text(&call.args);
    match plan::write(tree, files, alloc, call.desc, bytes) {
        Ok(plan) => carry_write(tree, files, alloc, stops, call.desc, plan),
        Err(_) => Outcome::NoMemory,
    }
}

// Sets the place of a descriptor.
fn seek<T: Stops>(tree: &mut FileTree, alloc: Global, stops: &mut T, call: &Call) -> Outcome
    requires there { IsSome (entry_at tree.old.entries call.now.desc) }
    requires room { tree.old.given < 2 ^ 63 }
    ensures outcome { (f : IsOpenFile) → entry_at tree.old.entries call.now.desc ≡ Some f
        → Carries tree.old call.now.desc (on_seek f (word_of (arg_at call.now 0)))
        (record { asked = T.asked stops.old; struck = T.struck stops.old }) result
        tree.new (record { asked = T.asked stops.new; struck = T.struck stops.new }) }
    ensures tree { IsTree tree.old }
    ensures plan { T.plan stops.new ≡ T.plan stops.old }
    ensures test { T.test (T.asked stops.old) (T.struck stops.old) (T.plan stops.old)
        → T.test (T.asked stops.new) (T.struck stops.new) (T.plan stops.new) }
{
    match plan::seek(tree, alloc, call.desc, plan::number(call)) {
        Ok(decision) => tree.apply(alloc, stops, call.desc, decision),
        Err(_) => Outcome::NoMemory,
    }
}
