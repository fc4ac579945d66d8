// The open files under their service ids.
ghost use Rattle.std.specs.Prelude.{◌≡◌, ◌<◌, ◌^◌, [], length, IfOk};
ghost use Rattle.std.specs.Option.{option_copied};
ghost use Rattle.sg_facts.specs.Object.{path_of};
ghost use Rattle.sg_slots.specs.Slots.{entry_at};
ghost use Rattle.sg_slots.specs.Carry.{Carries, IsAbout};
ghost use Rattle.sg_ramfs.specs.Inside.RamfsTree.{IsTree, FitsTree, tree_rows};

use crate::OpenFile;
use sg_facts::{NoMemory, Outcome, Path, Stops};
use sg_slots::{Decision, Slots, carry_out};
use std::alloc::Global;
use std::marker::Model;

/// The open files, each under its service id, and the number of ids given. Each stands below one of a smaller id, or below
/// none, and has a path of at most 256 bytes. One is found, set and ended in time that grows with the logarithm of the
/// open files, and its path told in that of its ancestors too.
#[derive(Debug, Drop)]
pub(crate) struct FileTree {
    files: Slots<OpenFile>,
}

impl Model for FileTree {
    ghost use Rattle.sg_slots.specs.Slots.{Held};
    ghost use Rattle.sg_ramfs.specs.declared.open_file.OpenFile.{OpenFile as IsOpenFile};
    ghost use Rattle.sg_ramfs.specs.Inside.RamfsTree.{IsTree};

    ghost Value = { Held IsOpenFile };

    ghost view = { λ t. t.files };

    ghost invariant = { λ t. IsTree t.files };
}

impl FileTree {
    /// No open file, and no id given. It takes no memory.
    pub(crate) fn new(alloc: Global) -> Self
        ensures entries { result.entries ≡ [] }
        ensures given { result.given ≡ 0 }
    {
        FileTree {
            files: Slots::new(alloc),
        }
    }

    /// The open file of an id; None where no open file has it.
    pub(crate) fn get(&self, id: u64) -> Option<&OpenFile>
        ensures entry { option_copied result ≡ entry_at self.now.entries id }
        ensures tree { IsTree self.now }
    {
        self.files.get(id)
    }

    /// The number of open files.
    pub(crate) fn len(&self) -> usize
        ensures { result ≡ length self.now.entries }
    {
        self.files.len()
    }

    /// The path of an id: a slash and the name for each open file from the root to it; empty where no open file has it.
    pub(crate) fn path(&self, alloc: Global, id: u64) -> Result<Path, NoMemory>
        ensures path { IfOk result (λ path. path ≡ path_of (tree_rows self.now) id) }
        ensures tree { IsTree self.now }
    {
        match self.get(id) {
            Some(file) => {
                let mut path = self.path(alloc, file.parent)?;
                path.push(b'/')?;
                path.extend_from_slice(file.name.as_slice())?;
                Ok(path)
            }
            None => Ok(Path::new(alloc)),
        }
    }

    /// Carries a decision on the open file of an id out.
    pub(crate) fn apply<T: Stops>(
        &mut self,
        alloc: Global,
        stops: &mut T,
        id: u64,
        decision: Decision<OpenFile>,
    ) -> Outcome
        requires there { IsAbout self.old id decision }
        requires fits { FitsTree self.old id decision }
        requires room { self.old.given < 2 ^ 63 }
        ensures tree { IsTree self.old }
        ensures outcome { Carries self.old id decision
            (record { asked = T.asked stops.old; struck = T.struck stops.old }) result
            self.new (record { asked = T.asked stops.new; struck = T.struck stops.new }) }
        ensures plan { T.plan stops.new ≡ T.plan stops.old }
        ensures test { T.test (T.asked stops.old) (T.struck stops.old) (T.plan stops.old)
            → T.test (T.asked stops.new) (T.struck stops.new) (T.plan stops.new) }
    {
        match carry_out(&mut self.files, alloc, stops, id, decision) {
            Outcome::Replied { reply, patch } => Outcome::Replied { reply, patch },
            Outcome::Blocks => Outcome::Blocks,
            Outcome::NoMemory => Outcome::NoMemory,
            Outcome::Stopped => {
                // A stop takes all that was held: nothing is known of the open files now, so none is kept.
                *self = FileTree::new(alloc);
                Outcome::Stopped
            }
        }
    }
}
