// What `explain` prints of inputs, and texts that are made from the standard interface of locks.
use sg_top::{MemSink, MemSource, NoMemory, Status, serial};
use std::alloc::{AllocError, Global};
use test_interfaces::LOCK;

/// What a command came to: its status and what it printed.
pub type Said = (Status, Vec<u8>);

/// A change of a text, at the line of a number from 1.
#[derive(Clone, Copy, Debug)]
pub enum Edit {
    /// The text as it stands.
    Nothing,
    /// Another text stands in the place of the line and its end.
    As(usize, &'static [u8]),
    /// All lines after it are left out.
    Front(usize),
}

// The most bytes that one read gives and one write takes.
const MOST_READ: usize = 8_192;

/// What `explain` says of an input.
pub fn explained(alloc: Global, input: &[u8]) -> Result<Said, NoMemory> {
    let mut words = Vec::new(alloc);
    words.push("explain".to_string(alloc)?)?;
    let mut source = MemSource::new(alloc, input, MOST_READ, &[])?;
    let mut sink = MemSink::new(alloc, MOST_READ, &[])?;
    let answer = serial(alloc, &words, &mut source, &mut sink);
    Ok((answer.status, Vec::from_slice(alloc, sink.written())?))
}

/// The interface of locks with a change, and what stands after it.
pub fn lock_with(alloc: Global, edit: Edit, after: &[u8]) -> Result<Vec<u8>, AllocError> {
    let mut text = Vec::new(alloc);
    for (before, line) in LOCK.split_inclusive(|byte| *byte == b'\n').enumerate() {
        text.extend_from_slice(line_with(edit, before.saturating_add(1), line))?;
    }
    text.extend_from_slice(after)?;
    Ok(text)
}

// What becomes of the line of a number.
fn line_with(edit: Edit, number: usize, line: &[u8]) -> &[u8] {
    match edit {
        Edit::As(at, other) if at == number => other,
        Edit::Front(last) if last < number => b"",
        _ => line,
    }
}

/// So many spaces.
pub fn spaces(alloc: Global, count: usize) -> Result<Vec<u8>, AllocError> {
    vec![in alloc; b' '; count]
}
