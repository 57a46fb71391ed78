//! The program of the class files that the words name.

ghost use Rattle.std.specs.Prelude.{◌≡◌, ◌≤◌, ◌↔◌, IfErr, IfOk, IsTrue};
ghost use Rattle.class_files.specs.Input.{IsLinked};
ghost use Rattle.ports.specs.Growth.{SameContents};
ghost use Rattle.straight_check.specs.StraightProgram.{IsStraightProgram};
ghost use Rattle.verdict.specs.Commands.{NamesClasses};
ghost use Rattle.verdict.specs.Stops.{IsUnlinkedStop};

use crate::stop::Stop;
use class_files::{Linked, link_files};
use line_text::Words;
use ports::{Files, Memory};
use program::Program;
use std::alloc::Global;
use straight_check::is_straight;

/// The classes of the files from a word on, and the program that they make.
pub(crate) fn read_input<F: Files>(
    alloc: Global,
    words: &Words,
    from: usize,
    files: &mut F,
) -> Result<Linked, Stop>
    requires { NamesClasses words.now from }
    ensures linked { IfOk result (IsLinked words.now (F.content files.old) from) }
    ensures cause { IfErr result (IsUnlinkedStop words.now (F.content files.old) (F.read_faults files.old) (F.read_faults files.new)) }
    ensures contents { SameContents (F.content files.old) (F.content files.new) }
    ensures reads { F.read_faults files.old ≤ F.read_faults files.new }
    ensures writes { F.write_faults files.new ≡ F.write_faults files.old }
{
    match link_files(alloc, words, from, files) {
        Ok(linked) => Ok(linked),
        Err(refusal) => Err(Stop::Input(refusal)),
    }
}

/// Whether a program is straight and passes no limit of the graph.
pub(crate) fn test_straight(alloc: Global, program: &Program) -> Result<bool, Stop>
    ensures ok { IfOk result (λ straight. IsTrue straight ↔ IsStraightProgram program.now) }
    ensures memory { IfErr result (λ stop. stop ≡ Stop.Memory) }
{
    match is_straight(alloc, program) {
        Ok(straight) => Ok(straight),
        Err(Memory) => Err(Stop::Memory),
    }
}
