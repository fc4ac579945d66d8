// Printable texts.
ghost use Rattle.std.specs.Prelude.{◌≡◌, ◌↔◌, ◌<◌, ◌≤◌, ℕ, [], length, position, IfOk, IsTrue};
ghost use Rattle.std.specs.List.{list_all};
ghost use Rattle.sg_base.specs.Text.{is_text_byte, is_bad_byte};

use crate::{Bytes, ListRoom, NoMemory, TryCopy};
use std::alloc::Global;
use std::marker::Model;
use thiserror::Error;

/// A text: at most 256 bytes of printable ASCII (0x20 to 0x7E) without the double quote. Contracts see its bytes.
#[derive(Debug, Drop)]
pub struct Text {
    bytes: Bytes,
}

/// Why bytes are no text.
#[derive(Debug, Drop, Error)]
pub enum TextFault {
    /// There was no memory for the text.
    #[error("no memory")]
    NoMemory,
    /// The byte at this place, counted from 0, is the first that no text has.
    #[error("byte {at} is not printable or is a double quote")]
    BadByte { at: usize },
    /// There are more than 256 bytes.
    #[error("longer than 256 bytes")]
    TooLong,
}

impl Model for Text {
    ghost use Rattle.std.specs.Prelude.{List, ℕ, ◌≤◌, ◌≡◌, true, length};
    ghost use Rattle.std.specs.List.{list_all};
    ghost use Rattle.sg_base.specs.Text.{is_text_byte};

    ghost Value = { List ℕ };

    ghost view = { λ t. t.bytes };

    ghost invariant = { λ t. (length t.bytes ≤ 256) × (list_all is_text_byte t.bytes ≡ true) };
}

impl Text {
    /// The greatest number of bytes of a text.
    pub const MOST: usize = 256;

    /// The text of these bytes. `TooLong` exactly above 256 bytes; else `BadByte` at the first byte that no text
    /// has, exactly where there is one.
    pub fn new(alloc: Global, bytes: &[u8]) -> Result<Text, TextFault>
        ensures text { IfOk result (λ text. text ≡ bytes.now) }
        ensures too_long { (result ≡ Err TextFault.TooLong) ↔ (256 < length bytes.now) }
        ensures bad_byte { (at : ℕ) → (result ≡ Err (TextFault.BadByte at))
            ↔ ((length bytes.now ≤ 256) × (position is_bad_byte bytes.now ≡ Some at)) }
    {
        if bytes.len() > Text::MOST {
            return Err(TextFault::TooLong);
        }
        if let Some(at) = first_bad_byte(bytes) {
            return Err(TextFault::BadByte { at });
        }
        match Bytes::from_slice(alloc, bytes) {
            Ok(bytes) => Ok(Text { bytes }),
            Err(_) => Err(TextFault::NoMemory),
        }
    }

    /// The empty text. It takes no memory.
    pub fn empty(alloc: Global) -> Text
        ensures { result ≡ [] }
    {
        Text {
            bytes: Bytes::new(alloc),
        }
    }

    /// Room for any text, taken ahead so that a copy needs no memory later.
    pub fn room(alloc: Global) -> Result<TextRoom, NoMemory>
        ensures { IfOk result (λ room. 256 ≤ room.bytes) }
    {
        Ok(TextRoom {
            bytes: ListRoom::new(alloc, Text::MOST)?,
        })
    }

    /// The bytes, lent.
    pub fn bytes(&self) -> &[u8]
        ensures value { result.now ≡ self.now }
        ensures most { length self.now ≤ 256 }
        ensures printable { IsTrue (list_all is_text_byte self.now) }
    {
        self.bytes.as_slice()
    }
}

/// Room for one text, which is used up when the text is made.
#[derive(Debug, Drop)]
pub struct TextRoom {
    pub bytes: ListRoom<u8>,
    ghost fits: { 256 ≤ bytes },
}

impl TextRoom {
    /// An equal text, without memory.
    pub fn fill(self, from: &Text) -> Text
        ensures { result ≡ from.now }
    {
        Text {
            bytes: self.bytes.fill(from.bytes()),
        }
    }
}

impl TryCopy for Text {
    fn copy(&self, alloc: Global) -> Result<Self, NoMemory> {
        Ok(Text {
            bytes: Bytes::from_slice(alloc, self.bytes.as_slice())?,
        })
    }
}

impl PartialEq for Text {
    ghost use Rattle.std.specs.Prelude.{nat_eq};
    ghost use Rattle.std.specs.Cmp.{partial_equiv_from_equiv};
    ghost use Rattle.std.specs.Cmp.Lexicographic.{pointwise, nat_list_eq_equiv};

    ghost eq = { pointwise nat_eq };

    ghost laws = { partial_equiv_from_equiv nat_list_eq_equiv };

    fn eq(&self, other: &Self) -> bool {
        self.bytes.as_slice() == other.bytes.as_slice()
    }
}

impl Eq for Text {
    ghost use Rattle.std.specs.Cmp.Lexicographic.{nat_list_eq_equiv};

    ghost laws = { nat_list_eq_equiv };
}

// The place of the first byte that no text has.
fn first_bad_byte(bytes: &[u8]) -> Option<usize>
    ensures { result ≡ position is_bad_byte bytes.now }
{
    bytes.iter().position(|byte| !is_text_byte(*byte))
}

/// Whether a text may have this byte.
pub fn is_text_byte(byte: u8) -> bool
    ensures { result ≡ is_text_byte byte }
{
    matches!(byte, 0x20..=0x7E) && byte != b'"'
}
