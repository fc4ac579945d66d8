// Paths of files, in an order.
ghost use Rattle.std.specs.Prelude.{◌≡◌, IfOk};

use sg_base::{NoMemory, Path, TryCopy};
use std::alloc::Global;
use std::cmp::Ordering;
use std::marker::Model;

/// The path of a file as a key of maps, in the order of its bytes. Contracts see the bytes.
#[derive(Debug, PartialEq, Eq, Drop)]
pub struct FilePath {
    bytes: Path,
}

impl Model for FilePath {
    ghost use Rattle.std.specs.Prelude.{List, ℕ};

    ghost Value = { List ℕ };

    ghost view = { λ p. p.bytes };

    ghost inverse = { λ bytes. record { bytes = bytes } };
}

impl FilePath {
    /// A path of these bytes.
    pub fn new(bytes: Path) -> FilePath
        ensures { result ≡ bytes }
    {
        FilePath { bytes }
    }

    /// The bytes, lent.
    pub fn as_slice(&self) -> &[u8]
        ensures { result.now ≡ self.now }
    {
        self.bytes.as_slice()
    }

    /// The bytes.
    pub fn into_path(self) -> Path
        ensures { result ≡ self }
    {
        self.bytes
    }
}

impl TryCopy for FilePath {
    fn copy(&self, alloc: Global) -> Result<Self, NoMemory> {
        Ok(FilePath {
            bytes: self.bytes.copy(alloc)?,
        })
    }
}

impl PartialOrd for FilePath {
    ghost use Rattle.std.specs.Prelude.{Some};
    ghost use Rattle.std.specs.Ordering.{nat_cmp};
    ghost use Rattle.std.specs.Cmp.Lexicographic.{slice_cmp, texts_po};

    ghost partial_cmp = { λ x y. Some (slice_cmp nat_cmp x y) };

    ghost laws = { texts_po };

    fn partial_cmp(&self, other: &Self) -> Option<Ordering> {
        Some(self.cmp(other))
    }
}

impl Ord for FilePath {
    ghost use Rattle.std.specs.Prelude.{refl};
    ghost use Rattle.std.specs.Ordering.{nat_cmp};
    ghost use Rattle.std.specs.Cmp.Lexicographic.{slice_cmp, nat_list_cmp_total, texts_ties};

    ghost cmp = { slice_cmp nat_cmp };

    ghost total = { nat_list_cmp_total };

    ghost matches_partial_cmp = { λ x y. refl };

    ghost matches_eq = { texts_ties };

    fn cmp(&self, other: &Self) -> Ordering {
        self.bytes.as_slice().cmp(other.bytes.as_slice())
    }
}
