//! The pieces of the output's lines.

ghost use Rattle.std.specs.Fmt.{decimal};
ghost use Rattle.ports.specs.Faults.{HasCause};
ghost use Rattle.ports.specs.Growth.{PutsAll};
ghost use Rattle.verdict.specs.OutputText.{class_text, detail_text, fault_name};

use crate::kind_names::fault_name;
use line_text::put_number;
use ports::{Failed, Sink, put_all};
use program_listing::put_detail;
use reached_methods::Detail;
use sequence_text::{Text, put_each};

/// A piece of a line.
#[derive(Clone, Copy, Debug)]
pub(crate) enum Piece<'a> {
    /// Bytes as they stand.
    Word(&'a [u8]),
    /// A number, in decimal digits.
    Number(u64),
    /// The number of a class, or a dash where there is none.
    Class(Option<u32>),
    /// The name of a fault of a class file.
    Fault(u8),
    /// What a refusal names, behind a blank.
    Detail(&'a Detail),
}

/// Puts the number of a class.
fn put_class<S: Sink>(out: &mut S, class: Option<u32>) -> Result<(), Failed>
    ensures bytes { PutsAll (S.held out.old) (S.held out.new) result (class_text class) }
    ensures cause { HasCause (S.faults out.old) (S.faults out.new) result }
    ensures rest { S.same_rest out.old out.new }
{
    match class {
        Some(class) => put_number(out, class as i128),
        None => put_all(out, b"-"),
    }
}

/// Puts the name of a fault of a class file.
fn put_fault<S: Sink>(out: &mut S, kind: u8) -> Result<(), Failed>
    ensures bytes { PutsAll (S.held out.old) (S.held out.new) result (fault_name kind) }
    ensures cause { HasCause (S.faults out.old) (S.faults out.new) result }
    ensures rest { S.same_rest out.old out.new }
{
    match fault_name(kind) {
        Some(name) => put_all(out, name),
        None => put_number(out, kind as i128),
    }
}

/// A number or a name behind a blank.
#[derive(Clone, Copy, Debug)]
enum Named<'a> {
    Blank,
    Number(u8),
    Name(&'a [u8]),
}

impl Text for Named<'_> {
    ghost use Rattle.verdict.specs.Pieces.{named_text};

    ghost text = { named_text };

    fn put<S: Sink>(&self, out: &mut S) -> Result<(), Failed> {
        match self {
            Named::Blank => put_all(out, b" "),
            Named::Number(number) => put_number(out, *number as i128),
            Named::Name(bytes) => put_detail(out, bytes),
        }
    }
}

/// Puts what a refusal names, behind a blank.
fn put_named<S: Sink>(out: &mut S, detail: &Detail) -> Result<(), Failed>
    ensures bytes { PutsAll (S.held out.old) (S.held out.new) result (detail_text detail.now) }
    ensures cause { HasCause (S.faults out.old) (S.faults out.new) result }
    ensures rest { S.same_rest out.old out.new }
{
    match detail {
        Detail::Nothing => put_all(out, b""),
        Detail::Number(number) => put_each(out, &[Named::Blank, Named::Number(*number)]),
        Detail::Name(name) => put_each(out, &[Named::Blank, Named::Name(name.as_slice())]),
    }
}

impl Text for Piece<'_> {
    ghost use Rattle.verdict.specs.Pieces.{piece_text};

    ghost text = { piece_text };

    fn put<S: Sink>(&self, out: &mut S) -> Result<(), Failed> {
        match self {
            Piece::Word(bytes) => put_all(out, bytes),
            Piece::Number(number) => put_number(out, *number as i128),
            Piece::Class(class) => put_class(out, *class),
            Piece::Fault(kind) => put_fault(out, *kind),
            Piece::Detail(detail) => put_named(out, detail),
        }
    }
}
