//! What the words ask for.

ghost use Rattle.std.specs.Prelude.{IfErr, IfOk};
ghost use Rattle.line_text.specs.CommandLine.{CommandLine};
ghost use Rattle.verdict.specs.Commands.{AsksFor};
ghost use Rattle.verdict.specs.Stops.{IsUnasked};

use crate::stop::Stop;
use line_text::bounds::Bounds;
use line_text::outcome::Outcome;
use line_text::{Command, Words, WordsRefusal, read_words};
use std::alloc::Global;

/// May this outcome be shown within these bounds? The budget is printed with the answer.
#[derive(Debug, Drop)]
pub(crate) struct Question {
    pub(crate) bounds: Bounds,
    pub(crate) budget: u64,
    pub(crate) outcome: Outcome,
}

/// What a command asks for.
#[derive(Debug, Drop)]
pub(crate) enum Request {
    /// The answer to a question about the class files from word 7 on.
    Decide(Question),
    /// The listing of the class files from word 1 on.
    Show,
    /// Another command, which is not built.
    Unbuilt,
}

/// What a command asks for.
fn request_of(words: &Words, command: Command) -> Request
    requires { CommandLine command words.now }
    ensures { AsksFor words.now result }
{
    match command {
        Command::Decide {
            bounds,
            budget,
            outcome,
            seq: _,
            refutation: _,
            classes: _,
        } => Request::Decide(Question {
            bounds,
            budget,
            outcome,
        }),
        Command::Show { classes: _ } => Request::Show,
        Command::CheckAllowed { .. } => Request::Unbuilt,
        Command::CheckForbidden { .. } => Request::Unbuilt,
        Command::Generate { .. } => Request::Unbuilt,
    }
}

/// What the words ask for.
pub(crate) fn read_request(alloc: Global, words: &Words) -> Result<Request, Stop>
    ensures ok { IfOk result (AsksFor words.now) }
    ensures refused { IfErr result (IsUnasked words.now) }
{
    match read_words(alloc, words) {
        Ok(command) => Ok(request_of(words, command)),
        Err(WordsRefusal::Usage { word }) => Err(Stop::Usage { word }),
        Err(WordsRefusal::Memory) => Err(Stop::Memory),
    }
}
