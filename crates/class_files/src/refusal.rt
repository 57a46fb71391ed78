use linking::ProgramRefusal;
use thiserror::Error;

/// Why class files make no program. Each word names a file; the words count from 0 (docs/TEXTS.md, "Class files").
#[derive(Debug, Drop, Error)]
pub enum InputRefusal {
    /// The file could not be read.
    #[error("the file of word {word} can't be read")]
    ReadFault { word: usize },
    /// The file has more than 1048576 bytes.
    #[error("the file of word {word} is too long")]
    TooLong { word: usize },
    /// The file is no class file: the kind of its first fault, from 1 to 8, and its place.
    #[error("the file of word {word} is no class file, by its byte {place}")]
    Format { word: usize, kind: u8, place: u64 },
    /// The classes make no program.
    #[error("the classes make no program")]
    Program(ProgramRefusal),
    /// There is not enough memory.
    #[error("not enough memory")]
    Memory,
}
