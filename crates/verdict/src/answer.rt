//! What the words ask for, found out.

ghost use Rattle.std.specs.Prelude.{◌≤◌, IfErr, IfOk};
ghost use Rattle.ports.specs.Growth.{SameContents};
ghost use Rattle.verdict.specs.Commands.{AsksNoDecide, AsksShow};
ghost use Rattle.verdict.specs.Stops.{IsStopped};
ghost use Rattle.verdict.specs.Verdicts.{AnswerLeaves, IsAnswer, SameButSeq};

use crate::decide::{Verdict, decide};
use crate::input::read_input;
use crate::request::{Question, Request, read_request};
use crate::stop::Stop;
use class_files::Linked;
use line_text::Words;
use ports::Files;
use std::alloc::Global;

/// What a command finds out.
#[derive(Debug, Drop)]
pub(crate) enum Answer {
    /// The verdict of `decide`.
    Decided(Verdict),
    /// The program that `show` lists.
    Shown(Linked),
}

/// The answer that the words ask for.
pub(crate) fn find_answer<F: Files>(
    alloc: Global,
    words: &Words,
    files: &mut F,
) -> Result<Answer, Stop>
    ensures ok { IfOk result (IsAnswer words.now (F.content files.old) (F.content files.new)) }
    ensures cause { IfErr result (IsStopped words.now (F.content files.old) (F.read_faults files.old) (F.read_faults files.new) (F.write_faults files.old) (F.write_faults files.new)) }
    ensures others { SameButSeq words.now (F.content files.old) (F.content files.new) }
    ensures untouched { AnswerLeaves result (F.content files.old) (F.content files.new) }
    ensures no_decide { AsksNoDecide words.now → SameContents (F.content files.old) (F.content files.new) }
    ensures reads { F.read_faults files.old ≤ F.read_faults files.new }
    ensures writes { F.write_faults files.old ≤ F.write_faults files.new }
{
    match read_request(alloc, words) {
        Ok(Request::Decide(question)) => match decide(alloc, words, question, files) {
            Ok(verdict) => Ok(Answer::Decided(verdict)),
            Err(stop) => Err(stop),
        },
        Ok(Request::Show) => match read_input(alloc, words, 1, files) {
            Ok(linked) => Ok(Answer::Shown(linked)),
            Err(stop) => Err(stop),
        },
        Ok(Request::Unbuilt) => Err(Stop::NotBuilt),
        Err(stop) => Err(stop),
    }
}
