//! The lines of the output (docs/TEXTS.md, "Output").

ghost use Rattle.std.specs.Prelude.{◌≡◌};
ghost use Rattle.ports.specs.Faults.{HasCause};
ghost use Rattle.ports.specs.Growth.{PutsAll};
ghost use Rattle.verdict.specs.OutputText.{class_line, format_line, input_line, instruction_line, limit_line, numbered_line, program_line, verdict_line, whole_word};
ghost use Rattle.verdict.specs.Reports.{verdict_text};
ghost use Rattle.verdict.specs.Stops.{stop_line};

use crate::decide::Verdict;
use crate::kind_names::{
    greatest_of, name_of_class_kind, name_of_code_kind, name_of_limit_kind, name_of_type_kind,
};
use crate::pieces::Piece;
use crate::stop::Stop;
use class_files::InputRefusal;
use class_profile::ClassKind;
use linking::ProgramRefusal;
use ports::{Failed, Sink, put_all};
use program::MethodId;
use reached_methods::{CodeKind, Detail};
use sequence_text::put_each;
use typing::TypeKind;

/// The greatest number of bytes of a class file.
const CLASS_BYTES: u64 = 1048576;

/// The first line of a verdict.
fn verdict_line(allowed: bool) -> &'static [u8]
    ensures { result.now ≡ verdict_line allowed }
{
    if allowed {
        b"verdict allowed\n"
    } else {
        b"verdict forbidden\n"
    }
}

/// Whether bounds leave nothing out.
fn whole_word(whole: bool) -> &'static [u8]
    ensures { result.now ≡ whole_word whole }
{
    if whole { b"yes" } else { b"no" }
}

/// Puts the three lines of a verdict.
pub(crate) fn put_verdict<S: Sink>(out: &mut S, verdict: &Verdict) -> Result<(), Failed>
    ensures bytes { PutsAll (S.held out.old) (S.held out.new) result (verdict_text verdict.now) }
    ensures cause { HasCause (S.faults out.old) (S.faults out.new) result }
    ensures rest { S.same_rest out.old out.new }
{
    let pieces = [
        Piece::Word(verdict_line(verdict.allowed)),
        Piece::Word(b"bounds jumps "),
        Piece::Number(verdict.bounds.jumps as u64),
        Piece::Word(b" width "),
        Piece::Number(verdict.bounds.width as u64),
        Piece::Word(b" whole "),
        Piece::Word(whole_word(verdict.whole)),
        Piece::Word(b"\nbudget "),
        Piece::Number(verdict.budget),
        Piece::Word(b"\n"),
    ];
    put_each(out, &pieces)
}

/// Puts the line of a number behind words.
fn put_numbered<S: Sink>(out: &mut S, words: &[u8], number: usize) -> Result<(), Failed>
    ensures bytes { PutsAll (S.held out.old) (S.held out.new) result (numbered_line words.now number) }
    ensures cause { HasCause (S.faults out.old) (S.faults out.new) result }
    ensures rest { S.same_rest out.old out.new }
{
    let pieces = [
        Piece::Word(words),
        Piece::Number(number as u64),
        Piece::Word(b"\n"),
    ];
    put_each(out, &pieces)
}

/// Puts the line of a limit.
fn put_limit<S: Sink>(out: &mut S, name: &[u8], greatest: u64) -> Result<(), Failed>
    ensures bytes { PutsAll (S.held out.old) (S.held out.new) result (limit_line name.now greatest) }
    ensures cause { HasCause (S.faults out.old) (S.faults out.new) result }
    ensures rest { S.same_rest out.old out.new }
{
    let pieces = [
        Piece::Word(b"limit "),
        Piece::Word(name),
        Piece::Word(b" "),
        Piece::Number(greatest),
        Piece::Word(b"\n"),
    ];
    put_each(out, &pieces)
}

/// Puts the line of a file that is no class file.
fn put_format<S: Sink>(out: &mut S, word: usize, kind: u8, place: u64) -> Result<(), Failed>
    ensures bytes { PutsAll (S.held out.old) (S.held out.new) result (format_line word kind place) }
    ensures cause { HasCause (S.faults out.old) (S.faults out.new) result }
    ensures rest { S.same_rest out.old out.new }
{
    let pieces = [
        Piece::Word(b"refused format word "),
        Piece::Number(word as u64),
        Piece::Word(b" "),
        Piece::Fault(kind),
        Piece::Word(b" place "),
        Piece::Number(place),
        Piece::Word(b"\n"),
    ];
    put_each(out, &pieces)
}

/// Puts the line of classes that are not of the profile.
fn put_class<S: Sink>(out: &mut S, kind: ClassKind, class: Option<u32>) -> Result<(), Failed>
    ensures bytes { PutsAll (S.held out.old) (S.held out.new) result (class_line kind class) }
    ensures cause { HasCause (S.faults out.old) (S.faults out.new) result }
    ensures rest { S.same_rest out.old out.new }
{
    let pieces = [
        Piece::Word(b"refused program class "),
        Piece::Class(class),
        Piece::Word(b" method - pc - "),
        Piece::Word(name_of_class_kind(kind)),
        Piece::Word(b"\n"),
    ];
    put_each(out, &pieces)
}

/// Puts the line of an instruction.
fn put_instruction<'a, S: Sink>(
    out: &mut S,
    name: &'a [u8],
    method: MethodId,
    pc: u32,
    detail: &'a Detail,
) -> Result<(), Failed>
    ensures bytes { PutsAll (S.held out.old) (S.held out.new) result (instruction_line name.now method pc detail.now) }
    ensures cause { HasCause (S.faults out.old) (S.faults out.new) result }
    ensures rest { S.same_rest out.old out.new }
{
    let pieces = [
        Piece::Word(b"refused program class "),
        Piece::Number(method.class as u64),
        Piece::Word(b" method "),
        Piece::Number(method.method as u64),
        Piece::Word(b" pc "),
        Piece::Number(pc as u64),
        Piece::Word(b" "),
        Piece::Word(name),
        Piece::Detail(detail),
        Piece::Word(b"\n"),
    ];
    put_each(out, &pieces)
}

/// Puts the line of classes that make no program; nothing where memory is short.
fn put_program<S: Sink>(out: &mut S, refusal: &ProgramRefusal) -> Result<(), Failed>
    ensures bytes { PutsAll (S.held out.old) (S.held out.new) result (program_line refusal.now) }
    ensures cause { HasCause (S.faults out.old) (S.faults out.new) result }
    ensures rest { S.same_rest out.old out.new }
{
    match refusal {
        ProgramRefusal::Class { kind, class } => put_class(out, *kind, *class),
        ProgramRefusal::Code {
            kind,
            method,
            pc,
            detail,
        } => put_instruction(out, name_of_code_kind(*kind), *method, *pc, detail),
        ProgramRefusal::Typing { kind, method, pc } => put_instruction(
            out,
            name_of_type_kind(*kind),
            *method,
            *pc,
            &Detail::Nothing,
        ),
        ProgramRefusal::Limit(kind) => {
            put_limit(out, name_of_limit_kind(*kind), greatest_of(*kind))
        }
        ProgramRefusal::Memory => put_all(out, b""),
    }
}

/// Puts the line of class files that make no program; nothing where memory is short.
fn put_input<S: Sink>(out: &mut S, refusal: &InputRefusal) -> Result<(), Failed>
    ensures bytes { PutsAll (S.held out.old) (S.held out.new) result (input_line refusal.now) }
    ensures cause { HasCause (S.faults out.old) (S.faults out.new) result }
    ensures rest { S.same_rest out.old out.new }
{
    match refusal {
        InputRefusal::ReadFault { word } => put_numbered(out, b"read-fault word ", *word),
        InputRefusal::TooLong { word: _ } => put_limit(out, b"ClassBytes", CLASS_BYTES),
        InputRefusal::Format { word, kind, place } => put_format(out, *word, *kind, *place),
        InputRefusal::Program(refusal) => put_program(out, refusal),
        InputRefusal::Memory => put_all(out, b""),
    }
}

/// Puts the line of a stop; nothing after a fault of writing, and nothing where memory ran out.
pub(crate) fn put_stop<S: Sink>(out: &mut S, stop: &Stop) -> Result<(), Failed>
    ensures bytes { PutsAll (S.held out.old) (S.held out.new) result (stop_line stop.now) }
    ensures cause { HasCause (S.faults out.old) (S.faults out.new) result }
    ensures rest { S.same_rest out.old out.new }
{
    match stop {
        Stop::Usage { word } => put_numbered(out, b"usage word ", *word),
        Stop::Input(refusal) => put_input(out, refusal),
        Stop::NotBuilt => put_all(out, b"refused not-built\n"),
        Stop::WriteFault => put_all(out, b""),
        Stop::Memory => put_all(out, b""),
    }
}
