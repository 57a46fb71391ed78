/// Why a file gives no bytes.
#[derive(Debug, Drop)]
pub(crate) enum FileRefusal {
    /// The file could not be read.
    ReadFault,
    /// The file has too many bytes.
    TooLong,
    /// Memory ran out.
    Memory,
}
