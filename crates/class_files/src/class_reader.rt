//! The classes of files.

ghost use Rattle.std.specs.Prelude.{◌≡◌, ◌<◌, ◌≤◌, ◌+◌, ◌++◌, [], ◌∷◌, length, IfErr, IfOk, OnOk};
ghost use Rattle.class_format.specs.ClassText.{ClassText, IsValid};
ghost use Rattle.class_files.specs.SoFar.{AreAllClassesOf, HasMisformed, IsMisformedFile};

use crate::file_list::FileBytes;
use crate::refusal::InputRefusal;
use class_format::{ClassRecord, FormatRefusal, read_class};
use linking::ClassList;
use ports::Memory;
use std::alloc::Global;

/// The class that a file is. A refusal names the word.
fn class_of(alloc: Global, bytes: &[u8], word: usize) -> Result<ClassRecord, InputRefusal>
    ensures class { IfOk result (λ class. ClassText class bytes.now) }
    ensures refused { IfErr result (IsMisformedFile bytes.now word) }
{
    match read_class(alloc, bytes) {
        Ok(class) => Ok(class),
        Err(FormatRefusal::Refused { kind, place }) => {
            Err(InputRefusal::Format { word, kind, place })
        }
        Err(FormatRefusal::Memory) => Err(InputRefusal::Memory),
    }
}

/// Adds a class to those before it.
fn add_class(classes: &mut ClassList, class: ClassRecord) -> Result<(), InputRefusal>
    requires text { IsValid class }
    requires few { length classes.old < 65535 }
    ensures ok { OnOk result (classes.new ≡ classes.old ++ class ∷ []) }
    ensures memory { IfErr result (λ refusal. refusal ≡ InputRefusal.Memory) }
{
    match classes.push(class) {
        Ok(()) => Ok(()),
        Err(Memory) => Err(InputRefusal::Memory),
    }
}

/// The classes of the files of the words from one on.
pub(crate) fn classes_of(
    alloc: Global,
    files: &[FileBytes],
    from: usize,
) -> Result<ClassList, InputRefusal>
    requires { from + length files.now ≤ 65535 }
    ensures classes { IfOk result (AreAllClassesOf files.now) }
    ensures refused { IfErr result (HasMisformed files.now from) }
{
    let mut classes = ClassList::new(alloc);
    for file in files {
        let word = from + classes.len();
        let class = class_of(alloc, file.as_slice(), word)?;
        add_class(&mut classes, class)?;
    }
    Ok(classes)
}
