//! The words of the command line.

use line_text::Words;
use ports::Memory;
use std::env::{Env, FillError};

/// The most bytes that the system hands over as one word.
const MOST: usize = 131072;

/// What the command line asks for.
pub enum Asked {
    /// The help text.
    Help,
    /// The version.
    Version,
    /// What these words say.
    Words(Words),
    /// Memory ran out.
    Memory,
}

/// The text of a word's bytes. Where they are not UTF-8 it is empty, and fits no command.
fn text_of(bytes: &[u8]) -> &str {
    match str::from_utf8(bytes) {
        Ok(text) => text,
        Err(_) => "",
    }
}

/// The words behind the program's name.
fn read_all(rt: &HostRuntime) -> Result<Words, Memory> {
    let mut buffer = vec![in rt.alloc(); 0u8; MOST].map_err(|_| Memory)?;
    let mut words = Words::new(rt.alloc());
    for place in 1..usize::MAX {
        match rt.arg(place, buffer.as_mut_slice()) {
            Ok(length) => words.push(text_of(&buffer[..length]))?,
            Err(FillError::TooLong) => words.push("")?,
            Err(FillError::NotPresent) => return Ok(words),
        }
    }
    Ok(words)
}

/// What the words ask for. `--help` and `--version` are asked for where they stand alone.
pub fn words_of(rt: &HostRuntime) -> Asked {
    let Ok(words) = read_all(rt) else {
        return Asked::Memory;
    };
    match (words.len(), words.get(0)) {
        (1, Some("--help")) => Asked::Help,
        (1, Some("--version")) => Asked::Version,
        _ => Asked::Words(words),
    }
}
