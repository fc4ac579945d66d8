// Where each file stands in the buffer, by its path.
ghost use Rattle.std.specs.Prelude.{◌≡◌, ℕ, List, None, Some, IsSome, OnOk, OnErr, if◌then◌else◌};
ghost use Rattle.std.specs.Str.{bytes_eq};
ghost use Rattle.sg_store.specs.Spans.{span_at};
ghost use Rattle.sg_store.specs.Inside.Places.{span_of, placed_span, spans_of};

use sg_facts::NoMemory;
use std::alloc::Global;
use std::collections::BTreeMap;

/// Where a file stands in the buffer.
#[derive(Clone, Copy, Debug)]
pub(crate) struct FilePlace {
    /// The place of its first byte, from 0.
    pub from: usize,
    /// The number of its bytes.
    pub len: usize,
    /// The number of bytes that it has room for.
    pub room: usize,
}

/// The place of each file. A path is looked up as its bytes, so that a look-up copies nothing.
pub(crate) type Places = BTreeMap<Vec<u8>, FilePlace>;

/// The place of a file; None where it has none.
pub(crate) fn place_of(places: &Places, key: &[u8]) -> Option<FilePlace>
    ensures { placed_span key.now result ≡ span_at (spans_of places.now.entries) key.now }
{
    places.get(key).copied()
}

/// Gives a place to a file, in the place of its last one where it has one. After `NoMemory` all places are as before.
pub(crate) fn add_place(
    places: &mut Places,
    alloc: Global,
    key: &[u8],
    place: FilePlace,
) -> Result<(), NoMemory>
    ensures ok { OnOk result ((k : List ℕ) → span_at (spans_of places.new.entries) k ≡ (if bytes_eq k key.now then Some (span_of key.now place) else span_at (spans_of places.old.entries) k)) }
    ensures err { OnErr result (spans_of places.new.entries ≡ spans_of places.old.entries) }
{
    places.insert(Vec::from_slice(alloc, key)?, place)?;
    Ok(())
}

/// Puts a file that has a place into another. It takes no memory.
pub(crate) fn set_place(places: &mut Places, key: &[u8], place: FilePlace)
    requires { IsSome (span_at (spans_of places.old.entries) key.now) }
    ensures { (k : List ℕ) → span_at (spans_of places.new.entries) k ≡ (if bytes_eq k key.now then Some (span_of key.now place) else span_at (spans_of places.old.entries) k) }
{
    match places.get_mut(key) {
        Some(old) => *old = place,
        None => unreachable!(),
    }
}
