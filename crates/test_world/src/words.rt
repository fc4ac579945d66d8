// The words of texts, and values as they are written.

/// The first word of a line, and what stands after it.
pub fn first_word(line: &str) -> (&str, &str) {
    match line.split_once(' ') {
        Some(parts) => parts,
        None => (line, ""),
    }
}

/// What stands after a word on the first line of a text, and the other lines; None where another word stands there.
pub fn headed<'a>(text: &'a str, word: &str) -> Option<(&'a str, &'a str)> {
    let (line, lines) = text.split_once('\n')?;
    let (first, behind) = first_word(line);
    if first == word {
        Some((behind, lines))
    } else {
        None
    }
}

/// A value as it is written.
#[derive(Clone, Copy, Debug)]
pub enum Written<'a> {
    /// A descriptor, as `#1`.
    Desc(u64),
    /// A number.
    Word(u64),
    /// A text in double quotes.
    Text(&'a str),
}

impl<'a> Written<'a> {
    /// The value that a word writes; None where it writes none.
    pub fn read(word: &'a str) -> Option<Self> {
        if let Some(number) = word.strip_prefix('#') {
            return Some(Written::Desc(number.parse().ok()?));
        }
        if let Some(text) = word.strip_prefix('"') {
            return Some(Written::Text(text.strip_suffix('"')?));
        }
        Some(Written::Word(word.parse().ok()?))
    }
}
