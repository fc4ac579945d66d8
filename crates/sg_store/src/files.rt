// The files in one buffer.
ghost use Rattle.std.specs.Prelude.{◌≡◌, ◌≢◌, ◌+◌, ◌*◌, ◌≤◌, ℕ, List, [], None, Some, IsSome, IfSome, OnOk, length, min};
ghost use Rattle.sg_facts.specs.Limits.{most_file, most_written};
ghost use Rattle.sg_store.specs.Spans.{AreApart, FitsPatch, GrowsTwice, HasRoomIn, bytes_in, buffer_part, patched_at, room_in, shown_span, span_at, stand_in};
ghost use Rattle.sg_store.specs.Inside.Places.{HasSpan};

use crate::buffer::{add_copy, write_at};
use crate::places::{FilePlace, Places, add_place, place_of, set_place};
use sg_facts::{MOST_FILE, MOST_WRITTEN, NoMemory, Patch, Path};
use std::alloc::Global;
use std::collections::BTreeMap;
use std::marker::Model;

/// The files in one buffer, each in a room of its own that is no other's. Contracts see the buffer, and where each file stands
/// in it.
#[derive(Debug, Drop)]
pub(crate) struct Files {
    buffer: Vec<u8>,
    places: Places,
}

impl Model for Files {
    ghost use Rattle.sg_store.specs.Spans.{Filed};

    ghost Value = { Filed };

    ghost use Rattle.sg_store.specs.Inside.Places.{AreSpans, spans_of};

    ghost view = { λ f. record { buffer = f.buffer.items; spans = spans_of f.places.entries } };

    ghost invariant = { λ f. AreSpans f.buffer.items (spans_of f.places.entries) };
}

impl Files {
    /// No file, and an empty buffer. It takes no memory.
    pub(crate) fn new(alloc: Global) -> Files
        ensures buffer { result.buffer ≡ [] }
        ensures spans { result.spans ≡ [] }
    {
        Files {
            buffer: Vec::new(alloc),
            places: BTreeMap::new(alloc),
        }
    }

    /// The one buffer.
    pub(crate) fn buffer(&self) -> &[u8]
        ensures { result.now ≡ self.now.buffer }
    {
        self.buffer.as_slice()
    }

    /// The length of a file; 0 for one that was never written.
    pub(crate) fn len(&self, key: &Path) -> u32
        ensures { result ≡ length (bytes_in self.now key.now) }
    {
        match place_of(&self.places, key.as_slice()) {
            Some(place) => place.len as u32,
            None => 0,
        }
    }

    /// Place and length of a file in the buffer; None exactly where its length is 0.
    pub(crate) fn span(&self, key: &Path) -> Option<(usize, usize)>
        ensures place { result ≡ shown_span (span_at self.now.spans key.now) }
        ensures some { IfSome result (λ p. buffer_part self.now.buffer p.0 p.1 ≡ bytes_in self.now key.now) }
        ensures within { IfSome result (λ p. p.0 + p.1 ≤ length self.now.buffer) }
        ensures none { result ≡ None → bytes_in self.now key.now ≡ [] }
        ensures only_none { bytes_in self.now key.now ≡ [] → result ≡ None }
        ensures apart { AreApart self.now.spans }
    {
        let place = place_of(&self.places, key.as_slice())?;
        if place.len == 0 {
            return None;
        }
        Some((place.from, place.len))
    }

    /// The bytes of a file, lent from the buffer.
    pub(crate) fn bytes(&self, key: &Path) -> &[u8]
        ensures { result.now ≡ bytes_in self.now key.now }
    {
        match place_of(&self.places, key.as_slice()) {
            Some(place) => &self.buffer[place.from..place.from + place.len],
            None => &[],
        }
    }

    /// Makes room for a patch of a file. All files stay, and so does the room that there was, whatever the answer.
    pub(crate) fn reserve(&mut self, alloc: Global, key: &Path) -> Result<(), NoMemory>
        ensures files { (k : List ℕ) → bytes_in self.new k ≡ bytes_in self.old k }
        ensures room { OnOk result (HasRoomIn self.new key.now) }
        ensures rooms { (k : List ℕ) → HasRoomIn self.old k → HasRoomIn self.new k }
        ensures twice { (k : List ℕ) → GrowsTwice self.old.spans self.new.spans k }
        ensures stays { (k : List ℕ) → HasRoomIn self.old k → stand_in self.new.spans k ≡ stand_in self.old.spans k }
    {
        if place_of(&self.places, key.as_slice()).is_none() {
            self.add(alloc, key)?;
        }
        self.grow(key)
    }

    // Gives a place without room to a file that has none. After `NoMemory` nothing changed.
    fn add(&mut self, alloc: Global, key: &Path) -> Result<(), NoMemory>
        requires { span_at self.old.spans key.now ≡ None }
        ensures files { (k : List ℕ) → bytes_in self.new k ≡ bytes_in self.old k }
        ensures there { OnOk result (IsSome (span_at self.new.spans key.now)) }
        ensures rooms { (k : List ℕ) → room_in self.new.spans k ≡ room_in self.old.spans k }
        ensures others { (k : List ℕ) → k ≢ key.now → stand_in self.new.spans k ≡ stand_in self.old.spans k }
    {
        let place = FilePlace {
            from: 0,
            len: 0,
            room: 0,
        };
        add_place(&mut self.places, alloc, key.as_slice(), place)
    }

    // Moves a file to the end of the buffer, into at least twice the room, where its room doesn't hold a patch more.
    fn grow(&mut self, key: &Path) -> Result<(), NoMemory>
        requires { IsSome (span_at self.old.spans key.now) }
        ensures files { (k : List ℕ) → bytes_in self.new k ≡ bytes_in self.old k }
        ensures room { OnOk result (HasRoomIn self.new key.now) }
        ensures rooms { (k : List ℕ) → HasRoomIn self.old k → HasRoomIn self.new k }
        ensures twice { (k : List ℕ) → GrowsTwice self.old.spans self.new.spans k }
        ensures stays { (k : List ℕ) → HasRoomIn self.old k → stand_in self.new.spans k ≡ stand_in self.old.spans k }
    {
        match place_of(&self.places, key.as_slice()) {
            Some(place) => {
                let needed = needed_room(place.len);
                if place.room < needed {
                    self.move_to_end(key, place, needed.max(2 * place.room))?;
                }
                Ok(())
            }
            None => unreachable!(),
        }
    }

    // Moves a file to the end of the buffer, into a greater room.
    fn move_to_end(&mut self, key: &Path, place: FilePlace, room: usize) -> Result<(), NoMemory>
        requires there { HasSpan self.old.spans key.now place }
        requires twice { 2 * place.room ≤ room }
        requires enough { min (place.len + most_written) most_file ≤ room }
        ensures files { (k : List ℕ) → bytes_in self.new k ≡ bytes_in self.old k }
        ensures room { OnOk result (HasRoomIn self.new key.now) }
        ensures rooms { (k : List ℕ) → HasRoomIn self.old k → HasRoomIn self.new k }
        ensures twice { (k : List ℕ) → GrowsTwice self.old.spans self.new.spans k }
        ensures others { (k : List ℕ) → k ≢ key.now → stand_in self.new.spans k ≡ stand_in self.old.spans k }
    {
        let from = self.buffer.len();
        add_copy(&mut self.buffer, place.from, place.len, room)?;
        let moved = FilePlace {
            from,
            len: place.len,
            room,
        };
        set_place(&mut self.places, key.as_slice(), moved);
        Ok(())
    }

    /// Writes a patch into its file, within the room that the file has. It takes no memory.
    pub(crate) fn write(&mut self, patch: &Patch)
        requires { FitsPatch self.old patch.now }
        ensures files { (k : List ℕ) → bytes_in self.new k ≡ patched_at (Some patch.now) k (bytes_in self.old k) }
        ensures stands { (k : List ℕ) → stand_in self.new.spans k ≡ stand_in self.old.spans k }
    {
        let key = patch.key.as_slice();
        let bytes = patch.bytes.as_slice();
        let at = patch.from as usize;
        match place_of(&self.places, key) {
            Some(place) => {
                write_at(&mut self.buffer, place.from + at, bytes);
                let written = FilePlace {
                    from: place.from,
                    len: place.len.max(at + bytes.len()),
                    room: place.room,
                };
                set_place(&mut self.places, key, written);
            }
            None => unreachable!(),
        }
    }
}

// The room that a file needs to take one patch more.
fn needed_room(len: usize) -> usize
    requires { len ≤ most_file }
    ensures { result ≡ min (len + most_written) most_file }
{
    (len + MOST_WRITTEN).min(MOST_FILE as usize)
}

/// Writes a patch, where there is one.
pub(crate) fn write_patch(files: &mut Files, patch: Option<Patch>)
    requires { IfSome patch (FitsPatch files.old) }
    ensures files { (k : List ℕ) → bytes_in files.new k ≡ patched_at patch k (bytes_in files.old k) }
    ensures stands { (k : List ℕ) → stand_in files.new.spans k ≡ stand_in files.old.spans k }
{
    if let Some(patch) = patch {
        files.write(&patch);
    }
}
