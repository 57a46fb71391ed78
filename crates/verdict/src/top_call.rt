//! The top call.

ghost use Rattle.std.specs.Prelude.{◌≡◌, ◌⊎◌, [], true, false};
ghost use Rattle.ports.specs.Faults.{HasCause, Rose};
ghost use Rattle.ports.specs.Growth.{Grows, PutsAll};
ghost use Rattle.verdict.specs.Answers.{DecideGoesWell, IsAnswered, IsLimited, IsListingOrMemory, IsReadFault, IsRefused, IsShown, IsUsage, IsVerdictOrMemory, LeavesFiles, ShowGoesWell};
ghost use Rattle.verdict.specs.Reports.{PutsText, answer_text, status_of, status_of_answer, status_of_verdict, text_of};

use crate::answer::{Answer, find_answer};
use crate::lines::{put_stop, put_verdict};
use crate::status::Status;
use crate::stop::{Stop, status_of_stop};
use line_text::Words;
use ports::{Failed, Files, Sink};
use program_listing::put_listing;
use std::alloc::Global;

/// Puts the text of an answer.
fn put_answer<S: Sink>(out: &mut S, answer: &Answer) -> Result<(), Failed>
    ensures bytes { PutsAll (S.held out.old) (S.held out.new) result (answer_text answer.now) }
    ensures cause { HasCause (S.faults out.old) (S.faults out.new) result }
    ensures rest { S.same_rest out.old out.new }
{
    match answer {
        Answer::Decided(verdict) => put_verdict(out, verdict),
        Answer::Shown(linked) => put_listing(out, linked.classes.as_slice(), &linked.program),
    }
}

/// Puts the text of an answer, or why there is none.
fn put_text<S: Sink>(out: &mut S, found: &Result<Answer, Stop>) -> Result<(), Failed>
    ensures bytes { PutsAll (S.held out.old) (S.held out.new) result (text_of found.now) }
    ensures cause { HasCause (S.faults out.old) (S.faults out.new) result }
    ensures rest { S.same_rest out.old out.new }
{
    match found {
        Ok(answer) => put_answer(out, answer),
        Err(stop) => put_stop(out, stop),
    }
}

/// The status of a verdict.
fn status_of_verdict(allowed: bool) -> Status
    ensures { result ≡ status_of_verdict allowed }
{
    if allowed {
        Status::Allowed
    } else {
        Status::Forbidden
    }
}

/// The status of an answer.
fn status_of_answer(answer: &Answer) -> Status
    ensures { result ≡ status_of_answer answer.now }
{
    match answer {
        Answer::Decided(verdict) => status_of_verdict(verdict.allowed),
        Answer::Shown(_) => Status::Shown,
    }
}

/// The status of an answer, or of why there is none.
fn status_of(found: &Result<Answer, Stop>) -> Status
    ensures { result ≡ status_of found.now }
{
    match found {
        Ok(answer) => status_of_answer(answer),
        Err(stop) => status_of_stop(stop),
    }
}

/// Puts what was found out, and answers how the command ended.
fn report<S: Sink>(out: &mut S, found: &Result<Answer, Stop>) -> Status
    ensures put { PutsText (text_of found.now) (status_of found.now) result (S.held out.old) (S.held out.new) (S.faults out.old) (S.faults out.new) }
    ensures rest { S.same_rest out.old out.new }
{
    match put_text(out, found) {
        Ok(()) => status_of(found),
        Err(Failed) => Status::WriteFault,
    }
}

/// Does what the words say: `show`, and so far `decide` on straight programs. Word 0 is the command's name.
///
/// `Allowed` comes only after SEQ holds an execution that shows the outcome, with a sequence that commits it. `Forbidden` comes
/// only where no execution with a committing sequence of any length shows the outcome within the bounds. `Shown` comes only
/// after the listing was put. `Usage` comes only where the words are no command line; they are judged before any file is read.
/// `Refused` comes only where a class file is none, where the classes make no program, or where what is asked is not built;
/// `Limit` only where a class file is too long or the program passes a limit. `ReadFault` and `WriteFault` come only where a
/// count of faults rose, and want of memory at any time. No file changes but SEQ, and that only for `decide`, with `Allowed`
/// and with `WriteFault`.
pub fn run<F: Files, S: Sink>(alloc: Global, words: &Words, files: &mut F, out: &mut S) -> Status
    ensures allowed { result ≡ Status.Allowed → IsAnswered true words.now (F.content files.old) (F.content files.new) (S.held out.old) (S.held out.new) }
    ensures forbidden { result ≡ Status.Forbidden → IsAnswered false words.now (F.content files.old) (F.content files.new) (S.held out.old) (S.held out.new) }
    ensures shown { result ≡ Status.Shown → IsShown words.now (F.content files.old) (S.held out.old) (S.held out.new) }
    ensures usage { result ≡ Status.Usage → IsUsage words.now (S.held out.old) (S.held out.new) }
    ensures refused { result ≡ Status.Refused → IsRefused words.now (F.content files.old) (S.held out.old) (S.held out.new) }
    ensures limit { result ≡ Status.Limit → IsLimited words.now (F.content files.old) (S.held out.old) (S.held out.new) }
    ensures read_fault { result ≡ Status.ReadFault → IsReadFault words.now (F.content files.old) (F.read_faults files.old) (F.read_faults files.new) (S.held out.old) (S.held out.new) }
    ensures write_fault { result ≡ Status.WriteFault → Rose (F.write_faults files.old) (F.write_faults files.new) ⊎ Rose (S.faults out.old) (S.faults out.new) }
    ensures memory { result ≡ Status.Memory → Grows (S.held out.old) (S.held out.new) [] }
    ensures complete_decide { DecideGoesWell words.now (F.content files.old) (F.read_faults files.old) (F.read_faults files.new) (F.write_faults files.old) (F.write_faults files.new) (S.faults out.old) (S.faults out.new) → IsVerdictOrMemory result }
    ensures complete_show { ShowGoesWell words.now (F.content files.old) (F.read_faults files.old) (F.read_faults files.new) (F.write_faults files.old) (F.write_faults files.new) (S.faults out.old) (S.faults out.new) → IsListingOrMemory result }
    ensures files { LeavesFiles result words.now (F.content files.old) (F.content files.new) }
    ensures rest { S.same_rest out.old out.new }
{
    class_format::one_record();
    class_format::text_or_fault();
    linking::one_program();
    linking::program_or_refusal();
    let found = find_answer(alloc, words, files);
    report(out, &found)
}
