use program::Name;
use thiserror::Error;

/// Why an instruction names nothing that the profile has.
#[derive(Debug, Drop, Error)]
pub enum Misnamed {
    /// The name is known nowhere; no name where the index names no entry of a tag that the instruction takes. A class is
    /// spelled by its name, a field as `C.n`, a method as `C.n` and its descriptor.
    #[error("an unknown name")]
    Unknown { name: Option<Name> },
    /// The profile has no such call, or makes no such object.
    #[error("a call that the profile does not have")]
    Forbidden { name: Name },
    /// The field is final.
    #[error("a final field")]
    Final,
    /// There is not enough memory.
    #[error("not enough memory")]
    Memory,
}
