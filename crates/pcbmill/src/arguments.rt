// The words of the command line.
use std::alloc::{AllocError, Global};
use std::env::FillError;
use std::rt::Env;

// No word of a command line is longer.
const MOST_BYTES: usize = 131_072;

// What stands for a word that is no text: it has no meaning in any place.
const NO_TEXT: &str = "\u{fffd}";

/// The words after the program's name. Bytes that are no UTF-8 become the replacement character, which
/// no word of a command holds.
pub fn words<R: Env>(rt: &R, alloc: Global) -> Result<Vec<String>, AllocError> {
    let mut buffer = vec![in alloc; 0u8; MOST_BYTES]?;
    let mut words = Vec::new(alloc);
    for i in 1..usize::MAX {
        match rt.arg(i, &mut buffer) {
            Ok(count) => words.push(String::from_utf8_lossy(alloc, &buffer[..count])?)?,
            Err(FillError::TooLong) => words.push(String::from_str(alloc, NO_TEXT)?)?,
            Err(FillError::NotPresent) => break,
        }
    }
    Ok(words)
}

#[cfg(test)]
mod tests;
