//! The bytes of files.

ghost use Rattle.std.specs.Prelude.{◌≡◌, ◌++◌, [], ◌∷◌, OnErr, OnOk};

use ports::Memory;
use std::alloc::Global;
use std::marker::Model;

/// The bytes of a file.
#[derive(Debug, Drop)]
pub(crate) struct FileBytes {
    bytes: Vec<u8>,
}

impl Model for FileBytes {
    ghost use Rattle.std.specs.Prelude.{List, ℕ};

    ghost Value = { List ℕ };

    ghost view = { λ file. file.bytes.items };
}

impl FileBytes {
    /// A file with these bytes.
    pub(crate) fn new(bytes: Vec<u8>) -> FileBytes
        ensures { result ≡ bytes.items }
    {
        FileBytes { bytes }
    }

    /// The bytes as a slice.
    pub(crate) fn as_slice(&self) -> &[u8]
        ensures { result.now ≡ self.now }
    {
        self.bytes.as_slice()
    }
}

/// Files, each seen as its bytes.
#[derive(Debug, Drop)]
pub(crate) struct FileList {
    files: Vec<FileBytes>,
}

impl Model for FileList {
    ghost use Rattle.std.specs.Prelude.{List, ℕ};

    ghost Value = { List (List ℕ) };

    ghost view = { λ list. list.files.items };
}

impl FileList {
    /// No file.
    pub(crate) fn new(alloc: Global) -> FileList
        ensures { result ≡ [] }
    {
        FileList {
            files: Vec::new(alloc),
        }
    }

    /// Adds a file at the end. Where memory is short, the list is unchanged.
    pub(crate) fn push(&mut self, file: FileBytes) -> Result<(), Memory>
        ensures ok { OnOk result (self.new ≡ self.old ++ file ∷ []) }
        ensures err { OnErr result (self.new ≡ self.old) }
    {
        self.files.push(file).map_err(|_| Memory)
    }

    /// All files.
    pub(crate) fn as_slice(&self) -> &[FileBytes]
        ensures { result.now ≡ self.now }
    {
        self.files.as_slice()
    }
}
