//! The files that words name, read in order.

ghost use Rattle.std.specs.Prelude.{◌≡◌, ◌<◌, ◌≤◌, ◌++◌, [], ◌∷◌, length, IfErr, IfOk, IfSome, OnOk};
ghost use Rattle.ports.specs.Growth.{SameContents};
ghost use Rattle.class_files.specs.Input.{IsInputRefusal, WhereTold};
ghost use Rattle.class_files.specs.SoFar.{AreFiles, IsRefusedFile, IsRefusedWord, IsShortFile};

use crate::file_list::{FileBytes, FileList};
use crate::file_refusal::FileRefusal;
use crate::refusal::InputRefusal;
use crate::whole_file::read_whole;
use line_text::Words;
use ports::{Files, Memory};
use std::alloc::Global;

/// The greatest number of bytes of a class file.
const LIMIT: usize = 1048576;

/// A file that is not too long. One byte more than the limit is read, and shows one that is.
fn read_file<F: Files>(alloc: Global, files: &mut F, name: &str) -> Result<FileBytes, FileRefusal>
    ensures file { IfOk result (λ file. IfSome (F.content files.old name.now) (IsShortFile file)) }
    ensures refused { IfErr result (IsRefusedFile (F.content files.old name.now) (F.read_faults files.old) (F.read_faults files.new)) }
    ensures contents { SameContents (F.content files.old) (F.content files.new) }
    ensures reads { F.read_faults files.old ≤ F.read_faults files.new }
    ensures writes { F.write_faults files.new ≡ F.write_faults files.old }
{
    let bytes = read_whole(alloc, files, name, LIMIT + 1)?;
    if bytes.len() > LIMIT {
        return Err(FileRefusal::TooLong);
    }
    Ok(FileBytes::new(bytes))
}

/// The file that a word names.
fn read_word<F: Files>(
    alloc: Global,
    words: &Words,
    word: usize,
    files: &mut F,
) -> Result<FileBytes, InputRefusal>
    requires { word < length words.now }
    ensures file { IfOk result (λ file. WhereTold words.now (F.content files.old) word (IsShortFile file)) }
    ensures refused { IfErr result (IsRefusedWord words.now (F.content files.old) (F.read_faults files.old) (F.read_faults files.new) word) }
    ensures contents { SameContents (F.content files.old) (F.content files.new) }
    ensures reads { F.read_faults files.old ≤ F.read_faults files.new }
    ensures writes { F.write_faults files.new ≡ F.write_faults files.old }
{
    let Some(name) = words.get(word) else {
        unreachable!()
    };
    match read_file(alloc, files, name) {
        Ok(file) => Ok(file),
        Err(FileRefusal::ReadFault) => Err(InputRefusal::ReadFault { word }),
        Err(FileRefusal::TooLong) => Err(InputRefusal::TooLong { word }),
        Err(FileRefusal::Memory) => Err(InputRefusal::Memory),
    }
}

/// Adds a file to those before it.
fn add_file(list: &mut FileList, file: FileBytes) -> Result<(), InputRefusal>
    ensures ok { OnOk result (list.new ≡ list.old ++ file ∷ []) }
    ensures memory { IfErr result (λ refusal. refusal ≡ InputRefusal.Memory) }
{
    match list.push(file) {
        Ok(()) => Ok(()),
        Err(Memory) => Err(InputRefusal::Memory),
    }
}

/// The files that the words from one on name, none of them too long.
pub(crate) fn read_files<F: Files>(
    alloc: Global,
    words: &Words,
    from: usize,
    files: &mut F,
) -> Result<FileList, InputRefusal>
    requires { from ≤ length words.now }
    ensures files { IfOk result (AreFiles words.now (F.content files.old) from (length words.now)) }
    ensures refused { IfErr result (IsInputRefusal words.now (F.content files.old) from (F.read_faults files.old) (F.read_faults files.new)) }
    ensures contents { SameContents (F.content files.old) (F.content files.new) }
    ensures reads { F.read_faults files.old ≤ F.read_faults files.new }
    ensures writes { F.write_faults files.new ≡ F.write_faults files.old }
{
    let mut list = FileList::new(alloc);
    for word in from..words.len() {
        let file = read_word(alloc, words, word, files)?;
        add_file(&mut list, file)?;
    }
    Ok(list)
}
