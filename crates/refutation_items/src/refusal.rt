ghost use Rattle.std.specs.Prelude.{◌≡◌};
ghost use Rattle.refutation_items.specs.Refusals.{at_line};

use ports::Memory;
use thiserror::Error;
use token_reader::ReadRefusal;

/// What is wrong with a line of a refutation.
#[derive(Clone, Copy, Debug, PartialEq, Eq, Drop, Error)]
pub enum Reason {
    /// It is not of the grammar.
    #[error("the line is not of the grammar")]
    Form,
    /// It names no instance.
    #[error("the rule names no instance")]
    BadRule,
    /// A hinted clause is not as it is to be, or there is no hint.
    #[error("a hinted clause is not as it is to be")]
    HintNotUnit,
    /// A hint names no live clause.
    #[error("a hint names no live clause")]
    HintUnknown,
    /// The text ends without the clause without literals.
    #[error("the text ends without the empty clause")]
    NoEmptyClause,
}

/// Why a line is not taken.
#[derive(Clone, Copy, Debug, PartialEq, Eq, Drop, Error)]
pub enum LineRefusal {
    /// Something is wrong with it.
    #[error("the line is wrong")]
    Wrong(Reason),
    /// It could not be read.
    #[error("the line could not be read")]
    Unread(ReadRefusal),
}

impl From<ReadRefusal> for LineRefusal {
    ghost use Rattle.refutation_items.specs.declared.refusal.LineRefusal.TheVariants.{Unread};

    ghost from_gives = { λ refusal line. line ≡ Unread refusal };

    fn from(refusal: ReadRefusal) -> LineRefusal {
        LineRefusal::Unread(refusal)
    }
}

impl From<Memory> for LineRefusal {
    ghost use Rattle.refutation_items.specs.declared.refusal.LineRefusal.TheVariants.{Unread};
    ghost use Rattle.token_reader.specs.declared.bytes.ReadRefusal.TheVariants.{Memory as NoMemory};

    ghost from_gives = { λ _ line. line ≡ Unread NoMemory };

    fn from(_: Memory) -> LineRefusal {
        LineRefusal::Unread(ReadRefusal::Memory)
    }
}

/// Why a text is no refutation.
#[derive(Clone, Copy, Debug, PartialEq, Eq, Drop, Error)]
pub enum CheckRefusal {
    /// Something is wrong with a line; the lines are numbered from 1.
    #[error("a line is wrong")]
    NotRefuted { line: u64, reason: Reason },
    /// The text has more than 2^40 bytes.
    #[error("the text has more than 2^40 bytes")]
    Long,
    /// The source failed.
    #[error("the source failed")]
    Read,
    /// Memory ran out.
    #[error("memory ran out")]
    Memory,
}

impl LineRefusal {
    /// The refusal of the text whose line of this number is not taken.
    pub fn at_line(self, line: u64) -> CheckRefusal
        ensures { result ≡ at_line self line }
    {
        match self {
            LineRefusal::Wrong(reason) => CheckRefusal::NotRefuted { line, reason },
            LineRefusal::Unread(ReadRefusal::Long) => CheckRefusal::Long,
            LineRefusal::Unread(ReadRefusal::Failed) => CheckRefusal::Read,
            LineRefusal::Unread(ReadRefusal::Memory) => CheckRefusal::Memory,
        }
    }
}
