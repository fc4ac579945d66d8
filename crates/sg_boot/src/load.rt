// The files that were loaded, for the items of loads.
ghost use Rattle.std.specs.Prelude.{◌≡◌, ◌↔◌, IfOk, IsTrue};
ghost use Rattle.std.specs.Arc.{arc_value};

use sg_facts::{Bytes, NoMemory, Patch, Path, TryCopy};
use std::alloc::Global;
use std::collections::BTreeMap;
use std::sync::Arc;

/// The last load of each file, by its path. A file that is loaded again with the same bytes is held once, by all its items.
#[derive(Debug, Drop)]
pub(crate) struct LoadedFiles {
    files: BTreeMap<Vec<u8>, Arc<Patch, Global>>,
}

impl LoadedFiles {
    /// No load. It takes no memory.
    pub(crate) fn new(alloc: Global) -> LoadedFiles {
        LoadedFiles {
            files: BTreeMap::new(alloc),
        }
    }

    /// A file as it is loaded: the patch of the whole file. It is that of the last load, where the bytes are still the same.
    pub(crate) fn file(
        &mut self,
        alloc: Global,
        key: &Path,
        bytes: &[u8],
    ) -> Result<Arc<Patch, Global>, NoMemory>
        ensures { IfOk result (λ file. arc_value file ≡ record { key = key.now; from = 0; bytes = bytes.now }) }
    {
        if let Some(file) = self.files.get(key.as_slice()) {
            if is_whole(file, key, bytes) {
                return Ok(Arc::try_clone(file)?);
            }
        }
        let file = Arc::new(alloc, whole_file(alloc, key, bytes)?)?;
        self.files.insert(
            Vec::from_slice(alloc, key.as_slice())?,
            Arc::try_clone(&file)?,
        )?;
        Ok(file)
    }
}

// Whether a patch is of the whole of a file with these bytes.
fn is_whole(patch: &Patch, key: &Path, bytes: &[u8]) -> bool
    ensures { IsTrue result ↔ (patch.now ≡ record { key = key.now; from = 0; bytes = bytes.now }) }
{
    patch.from == 0 && patch.key == *key && patch.bytes.as_slice() == bytes
}

// The patch of the whole of a file with these bytes.
fn whole_file(alloc: Global, key: &Path, bytes: &[u8]) -> Result<Patch, NoMemory>
    ensures { IfOk result (λ patch. patch ≡ record { key = key.now; from = 0; bytes = bytes.now }) }
{
    Ok(Patch {
        key: key.copy(alloc)?,
        from: 0,
        bytes: Bytes::from_slice(alloc, bytes)?,
    })
}
