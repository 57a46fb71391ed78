//! The way from words to the program.

ghost use Rattle.std.specs.Prelude.{◌≡◌, ◌≤◌, length, IfErr, IfOk};
ghost use Rattle.ports.specs.Growth.{SameContents};
ghost use Rattle.linking.specs.Linking.{IsProgramOf};
ghost use Rattle.class_files.specs.Input.{IsInputRefusal, IsLinked};
ghost use Rattle.class_files.specs.SoFar.{AreUnlinked};

use crate::class_reader::classes_of;
use crate::file_reader::read_files;
use crate::linked::Linked;
use crate::refusal::InputRefusal;
use line_text::Words;
use linking::{ClassList, ProgramRefusal, link};
use ports::Files;
use program::Program;
use std::alloc::Global;

/// The program that classes make.
fn link_classes(alloc: Global, classes: &ClassList) -> Result<Program, InputRefusal>
    ensures program { IfOk result (λ p. IsProgramOf classes.now p) }
    ensures refused { IfErr result (AreUnlinked classes.now) }
{
    match link(alloc, classes) {
        Ok(program) => Ok(program),
        Err(ProgramRefusal::Memory) => Err(InputRefusal::Memory),
        Err(refusal) => Err(InputRefusal::Program(refusal)),
    }
}

/// The classes of the files that the words from one on name, and the program that they make (docs/TEXTS.md, "Class files").
///
/// All files are read first, in order; then each is read as a class file; then the classes are linked. No file changes.
///
/// # Errors
///
/// The first thing that is wrong, in that order. `ReadFault` only where the count of read faults rose; `Memory` where memory is
/// short.
pub fn link_files<F: Files>(
    alloc: Global,
    words: &Words,
    from: usize,
    files: &mut F,
) -> Result<Linked, InputRefusal>
    requires within { from ≤ length words.now }
    requires few { length words.now ≤ 65535 }
    ensures linked { IfOk result (IsLinked words.now (F.content files.old) from) }
    ensures refused { IfErr result (IsInputRefusal words.now (F.content files.old) from (F.read_faults files.old) (F.read_faults files.new)) }
    ensures contents { SameContents (F.content files.old) (F.content files.new) }
    ensures reads { F.read_faults files.old ≤ F.read_faults files.new }
    ensures writes { F.write_faults files.new ≡ F.write_faults files.old }
{
    let list = read_files(alloc, words, from, files)?;
    let classes = classes_of(alloc, list.as_slice(), from)?;
    let program = link_classes(alloc, &classes)?;
    Ok(Linked { classes, program })
}
