// A part of a text, with its place.
use sg_base::ListOf;
use std::marker::Model;

/// A word, a number or a text, as it is written. Contracts see its bytes and its place.
#[derive(Debug, Drop)]
pub struct Spelled<'a> {
    /// Its bytes, lent from what is read. Whether the quotes of a text are with it is said by what reads it.
    pub slice: &'a [u8],
    /// The place of its first byte in what is read, counted from 0.
    pub at: usize,
}

impl<'a> Model for Spelled<'a> {
    ghost use Rattle.sg_lex.specs.Lexeme.{Spelling};

    ghost Value = { Spelling };

    ghost view = { λ s. record { bytes = s.slice.now; at = s.at } };
}

/// Some of them, in their order.
pub type SpelledList<'a> = ListOf<Spelled<'a>>;
