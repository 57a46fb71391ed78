//! `decide`: from a question to the verdict.

ghost use Rattle.std.specs.Prelude.{◌≡◌, ◌≤◌, ◌↔◌, IfErr, IfOk, IsTrue};
ghost use Rattle.program.specs.Straight.{IsStraight};
ghost use Rattle.ports.specs.Growth.{SameElsewhere};
ghost use Rattle.straight_check.specs.StraightProgram.{IsStraightProgram};
ghost use Rattle.verdict.specs.Commands.{AsksDecide};
ghost use Rattle.verdict.specs.Stops.{IsStopped};
ghost use Rattle.verdict.specs.Verdicts.{DecideLeaves, IsVerdictOn, SameButSeq};

use crate::input::{read_input, test_straight};
use crate::judge::judge;
use crate::request::Question;
use crate::stop::Stop;
use line_text::Words;
use line_text::bounds::Bounds;
use ports::Files;
use std::alloc::Global;
use straight_executions::laws::straight_is_whole;

/// A verdict, and what is printed with it.
#[derive(Debug, Drop)]
pub(crate) struct Verdict {
    pub(crate) allowed: bool,
    pub(crate) bounds: Bounds,
    pub(crate) whole: bool,
    pub(crate) budget: u64,
}

/// Whether the bounds of a straight program leave nothing out: the ints have their whole width.
fn is_whole(width: u32) -> bool
    ensures { IsTrue result ↔ (width ≡ 32) }
{
    width == 32
}

/// The answer to a question about the class files from word 7 on.
pub(crate) fn decide<F: Files>(
    alloc: Global,
    words: &Words,
    question: Question,
    files: &mut F,
) -> Result<Verdict, Stop>
    requires { AsksDecide words.now question }
    ensures ok { IfOk result (IsVerdictOn words.now question (F.content files.old) (F.content files.new)) }
    ensures cause { IfErr result (IsStopped words.now (F.content files.old) (F.read_faults files.old) (F.read_faults files.new) (F.write_faults files.old) (F.write_faults files.new)) }
    ensures others { SameButSeq words.now (F.content files.old) (F.content files.new) }
    ensures untouched { DecideLeaves result (F.content files.old) (F.content files.new) }
    ensures reads { F.read_faults files.old ≤ F.read_faults files.new }
    ensures writes { F.write_faults files.old ≤ F.write_faults files.new }
{
    straight_is_whole();
    let linked = read_input(alloc, words, 7, files)?;
    let straight = test_straight(alloc, &linked.program)?;
    if !straight {
        return Err(Stop::NotBuilt);
    }
    let Some(seq) = words.get(5) else {
        unreachable!();
    };
    let allowed = judge(alloc, &linked.program, &question, files, seq)?;
    Ok(Verdict {
        allowed,
        whole: is_whole(question.bounds.width),
        bounds: question.bounds,
        budget: question.budget,
    })
}
