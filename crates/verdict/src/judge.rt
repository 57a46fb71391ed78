//! The answer to a question on a straight program.

ghost use Rattle.std.specs.Prelude.{◌≡◌, ◌≤◌, ◌↔◌, All, IfErr, IfOk, IsTrue, OnOk};
ghost use Rattle.line_text.specs.Bounds.{IsBounds};
ghost use Rattle.ports.specs.Faults.{HasCause};
ghost use Rattle.ports.specs.Growth.{IsTold, SameElsewhere};
ghost use Rattle.program.specs.Straight.{IsStraight};
ghost use Rattle.sequence_text.specs.SequenceText.{sequence_text};
ghost use Rattle.straight.specs.Runs.{IsRunOf};
ghost use Rattle.straight_sequence.specs.Steps.{IsSequenceOf};
ghost use Rattle.verdict.specs.Judging.{IsJudged, NamesMain, ShowsOutcome, Untouched};
ghost use Rattle.verdict.specs.Stops.{IsUnwritten};

use crate::request::Question;
use crate::stop::Stop;
use action_orders::{Execution, Sequence};
use line_text::Values;
use line_text::outcome::Outcome;
use ports::{Failed, FileSink, Files, Memory};
use program::Program;
use sequence_text::write_sequence;
use std::alloc::Global;
use straight::laws::straight_is_justified;
use straight::{StraightRun, run_straight};
use straight_executions::laws::straight_forbids;
use straight_sequence::committing_sequence;
use straight_trace::printed_within;

/// Whether the outcome names main alone, with these values.
fn names_main(outcome: &Outcome, printed: &Values) -> bool
    ensures { IsTrue result ↔ NamesMain outcome.now printed.now }
{
    for place in 0..outcome.len() {
        let Some(part) = outcome.get(place) else {
            unreachable!();
        };
        if part.thread != 0 || !part.values.same(printed) {
            return false;
        }
    }
    true
}

/// Writes SEQ anew.
fn write_seq<F: Files>(
    files: &mut F,
    seq: &str,
    execution: &Execution,
    sequence: &Sequence,
) -> Result<(), Failed>
    ensures text { OnOk result (IsTold (sequence_text execution.now sequence.now) (F.content files.new seq.now)) }
    ensures others { SameElsewhere seq.now (F.content files.old) (F.content files.new) }
    ensures cause { HasCause (F.write_faults files.old) (F.write_faults files.new) result }
    ensures reads { F.read_faults files.new ≡ F.read_faults files.old }
{
    files.start(seq)?;
    let mut sink = FileSink::new(files, seq);
    write_sequence(&mut sink, execution, sequence)
}

/// The run of a straight program.
fn run_of(alloc: Global, program: &Program) -> Result<StraightRun, Stop>
    requires { IsStraight program.now }
    ensures ok { IfOk result (IsRunOf program.now) }
    ensures memory { IfErr result (λ stop. stop ≡ Stop.Memory) }
{
    run_straight(alloc, program).map_err(|_| Stop::Memory)
}

/// The sequence that commits its execution.
fn sequence_of(alloc: Global, program: &Program) -> Result<Sequence, Stop>
    requires { IsStraight program.now }
    ensures ok { IfOk result (IsSequenceOf program.now) }
    ensures memory { IfErr result (λ stop. stop ≡ Stop.Memory) }
{
    committing_sequence(alloc, program).map_err(|_| Stop::Memory)
}

/// Whether the trace of main within the bounds prints what the outcome says.
fn shows(
    alloc: Global,
    program: &Program,
    question: &Question,
    run: &StraightRun,
) -> Result<bool, Stop>
    requires straight { IsStraight program.now }
    requires run { IsRunOf program.now run.now }
    requires bounds { IsBounds question.now.bounds }
    ensures ok { IfOk result (λ shown. IsTrue shown ↔ ShowsOutcome question.now run.now) }
    ensures memory { IfErr result (λ stop. stop ≡ Stop.Memory) }
{
    match printed_within(alloc, program, run, &question.bounds) {
        Ok(Some(printed)) => Ok(names_main(&question.outcome, &printed)),
        Ok(None) => Ok(false),
        Err(Memory) => Err(Stop::Memory),
    }
}

/// Whether the outcome is allowed; then SEQ holds an execution that shows it, with its sequence.
pub(crate) fn judge<F: Files>(
    alloc: Global,
    program: &Program,
    question: &Question,
    files: &mut F,
    seq: &str,
) -> Result<bool, Stop>
    requires straight { IsStraight program.now }
    requires bounds { IsBounds question.now.bounds }
    ensures judged { IfOk result (λ allowed. IsJudged program.now question.now allowed (F.content files.new seq.now)) }
    ensures cause { IfErr result (IsUnwritten (F.write_faults files.old) (F.write_faults files.new)) }
    ensures kept { F.write_faults files.old ≤ F.write_faults files.new }
    ensures reads { F.read_faults files.new ≡ F.read_faults files.old }
    ensures others { SameElsewhere seq.now (F.content files.old) (F.content files.new) }
    ensures untouched { Untouched result (F.content files.old) (F.content files.new) }
{
    straight_is_justified();
    straight_forbids();
    let run = run_of(alloc, program)?;
    let shown = shows(alloc, program, question, &run)?;
    if !shown {
        return Ok(false);
    }
    let sequence = sequence_of(alloc, program)?;
    match write_seq(files, seq, &run.execution, &sequence) {
        Ok(()) => Ok(true),
        Err(Failed) => Err(Stop::WriteFault),
    }
}
