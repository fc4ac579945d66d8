//! The tokens of a text: words, numbers, texts in quotes and marks. A token lends its bytes from the text and lives as
//! long as it; no memory is taken.
//!
//! - `token`: a token (`Token`, `TokenKind`), and a place at which no token begins (`LexFault`)
//! - `lexer`: what gives the tokens in order (`Lexer`), and the first of them (`first_token`)
//! - `reader`: what a parser takes them from, which looks at the next and leaves it where it isn't the one asked for
//!   (`Reader`)
//! - `token_test`: what a token is asked for (`TokenTest`, `IsKind`, `IsMark`, `IsWord`)
//! - `spelled`: a part of a text, with its place (`Spelled`)
//! - `front`: what stands at the front of a text, over `bytes`, the classes of bytes
//! - `numbers`: what digits stand for (`number_of_digits`)
//! - `laws`: tokens are slices, and the answers are the one reading of a text
#![tactic(auto)]

mod bytes;
mod front;
mod laws;
mod lexer;
mod numbers;
mod reader;
mod spelled;
mod token;
mod token_test;

pub use laws::{answers_are_the_reading, tokens_are_slices};
pub use lexer::{Lexer, first_token};
pub use numbers::number_of_digits;
pub use reader::Reader;
pub use spelled::{Spelled, SpelledList};
pub use token::{LexFault, Token, TokenKind};
pub use token_test::{IsKind, IsMark, IsWord, TokenTest};
