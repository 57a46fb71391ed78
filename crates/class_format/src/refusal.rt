use thiserror::Error;

/// Why bytes are no class file of the profile, or want of memory.
#[derive(Debug, Drop, Error)]
pub enum FormatRefusal {
    /// The first fault from the front: its kind, from 1 to 8, and the place of the byte where it lies
    /// (docs/PROFILE.md, "Refusals of class files").
    #[error("the class file is refused with kind {kind} at byte {place}")]
    Refused { kind: u8, place: u64 },
    /// There is not enough memory.
    #[error("not enough memory")]
    Memory,
}
