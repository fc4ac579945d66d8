// Texts that are made from others, line by line, and laid out otherwise.
use std::alloc::{AllocError, Global};

/// A change of a text, at the line of a number from 1.
#[derive(Clone, Copy, Debug)]
pub enum Edit {
    /// The line is left out.
    Without(usize),
    /// The line stands twice.
    Twice(usize),
    /// Another stands in its place, or more.
    As(usize, &'static [u8]),
    /// Another follows it, or more.
    Then(usize, &'static [u8]),
    /// All lines after it are left out.
    Front(usize),
}

impl Edit {
    // Whether it changes the line of a number.
    fn is_at(&self, number: usize) -> bool {
        match self {
            Edit::Without(line) | Edit::Twice(line) | Edit::As(line, _) | Edit::Then(line, _) => {
                *line == number
            }
            Edit::Front(line) => *line < number,
        }
    }

    // Adds what becomes of a line, which has its line end.
    fn add(&self, text: &mut Vec<u8>, line: &[u8]) -> Result<(), AllocError> {
        match self {
            Edit::Without(_) | Edit::Front(_) => Ok(()),
            Edit::Twice(_) => {
                text.extend_from_slice(line)?;
                text.extend_from_slice(line)
            }
            Edit::As(_, other) => add_line(text, other),
            Edit::Then(_, other) => {
                text.extend_from_slice(line)?;
                add_line(text, other)
            }
        }
    }
}

// Adds a line that has no line end yet.
fn add_line(text: &mut Vec<u8>, line: &[u8]) -> Result<(), AllocError> {
    text.extend_from_slice(line)?;
    text.extend_from_slice(b"\n")
}

/// A text with these changes; of those of a line the first is made.
pub(crate) fn edited(alloc: Global, base: &[u8], edits: &[Edit]) -> Result<Vec<u8>, AllocError> {
    let mut text = Vec::new(alloc);
    for (before, line) in base.split_inclusive(|byte| *byte == b'\n').enumerate() {
        let number = before.saturating_add(1);
        match edits.iter().find(|edit| edit.is_at(number)) {
            Some(edit) => edit.add(&mut text, line)?,
            None => text.extend_from_slice(line)?,
        }
    }
    Ok(text)
}

/// How a text is laid out.
#[derive(Clone, Copy, Debug)]
pub enum Layout {
    /// As it is.
    Lines,
    /// With a carriage return before each line feed.
    Returns,
    /// On one line: with a blank for each line feed.
    OneLine,
}

impl Layout {
    /// A text, laid out so.
    pub fn of(self, alloc: Global, base: &[u8]) -> Result<Vec<u8>, AllocError> {
        let mut text = Vec::new(alloc);
        for byte in base {
            match (self, *byte) {
                (Layout::Returns, b'\n') => text.extend_from_slice(b"\r\n")?,
                (Layout::OneLine, b'\n') => text.push(b' ')?,
                (_, byte) => text.push(byte)?,
            }
        }
        Ok(text)
    }
}
