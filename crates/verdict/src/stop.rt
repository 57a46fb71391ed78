//! What ends a command before its answer.

ghost use Rattle.std.specs.Prelude.{◌≡◌};
ghost use Rattle.verdict.specs.Stops.{status_of_input, status_of_program, status_of_stop};

use crate::status::Status;
use class_files::InputRefusal;
use linking::ProgramRefusal;

/// Why a command has no answer.
#[derive(Debug, Drop)]
pub(crate) enum Stop {
    /// The word fits no command.
    Usage { word: usize },
    /// The class files make no program.
    Input(InputRefusal),
    /// The command is not built, or not for a program that is not straight.
    NotBuilt,
    /// SEQ could not be written.
    WriteFault,
    /// Memory ran out.
    Memory,
}

/// The status of classes that make no program.
fn status_of_program(refusal: &ProgramRefusal) -> Status
    ensures { result ≡ status_of_program refusal.now }
{
    match refusal {
        ProgramRefusal::Class { .. } => Status::Refused,
        ProgramRefusal::Code { .. } => Status::Refused,
        ProgramRefusal::Typing { .. } => Status::Refused,
        ProgramRefusal::Limit(_) => Status::Limit,
        ProgramRefusal::Memory => Status::Memory,
    }
}

/// The status of class files that make none.
fn status_of_input(refusal: &InputRefusal) -> Status
    ensures { result ≡ status_of_input refusal.now }
{
    match refusal {
        InputRefusal::ReadFault { .. } => Status::ReadFault,
        InputRefusal::TooLong { .. } => Status::Limit,
        InputRefusal::Format { .. } => Status::Refused,
        InputRefusal::Program(refusal) => status_of_program(refusal),
        InputRefusal::Memory => Status::Memory,
    }
}

/// The status of a stop.
pub(crate) fn status_of_stop(stop: &Stop) -> Status
    ensures { result ≡ status_of_stop stop.now }
{
    match stop {
        Stop::Usage { .. } => Status::Usage,
        Stop::Input(refusal) => status_of_input(refusal),
        Stop::NotBuilt => Status::Refused,
        Stop::WriteFault => Status::WriteFault,
        Stop::Memory => Status::Memory,
    }
}
