// Where the tokens of a text stand.
use sg_print::Lexer;
use std::alloc::{AllocError, Global};

/// The places of a text's tokens, each with its length, up to where the text has none.
pub fn token_places(alloc: Global, text: &[u8]) -> Result<Vec<(usize, usize)>, AllocError> {
    let mut places = Vec::new(alloc);
    for token in Lexer::new(text) {
        if let Ok(token) = token {
            places.push((token.at, token.slice.len()))?;
        }
    }
    Ok(places)
}
