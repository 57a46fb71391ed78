ghost use Rattle.std.specs.Prelude.{◌≡◌, ◌≤◌, IfErr, IfOk, length, MatchBool, OnOk, Some};
ghost use Rattle.std.specs.Option.{IfSome};
ghost use Rattle.sources.specs.Leaving.{Takes};
ghost use Rattle.refutation_lines.specs.LineText.{header_text};
ghost use Rattle.refutation_items.specs.Refusals.{IsRefusedFor};
ghost use Rattle.refutation_words.specs.Fronts.{IsAtHand};
ghost use Rattle.refutation_words.specs.Parts.{IsClauseWord, IsFurther, IsGap, Lacks, LacksHeader, LacksText, TakesArgument, TakesClauseWord, TakesNumber};
ghost use Rattle.refutation_words.specs.Words.{IsArgumentWord, IsNumeral, IsWord};

use crate::words::{
    argument_of, clause_word, is_argument, is_line_end, is_numeral, is_word_byte, is_word_next,
    word_behind_blank, word_of,
};
use refutation_items::{LineRefusal, Reason};
use token_reader::{Bytes, ReadRefusal};
use var_names::{Arg, Lit, read_number};

/// A blank, the longest word, and one byte behind it.
const WORD: usize = 514;

/// A word of a clause before its hints.
#[derive(Clone, Copy, Debug, PartialEq, Eq, Drop)]
pub enum ClauseWord {
    /// A literal of the clause.
    Literal(Lit),
    /// What stands between the literals and the hints.
    Colon,
}

/// What follows a word of a line.
#[derive(Clone, Copy, Debug, PartialEq, Eq, Drop)]
pub enum Gap {
    /// A blank, and a further word.
    Word,
    /// The line feed.
    LineEnd,
    /// Neither; and whether a further word stands in the line, behind more blanks.
    Wrong(bool),
}

/// Has the next word at hand, behind a blank, and answers how long it is.
fn next_word<B: Bytes>(bytes: &mut B) -> Result<usize, LineRefusal>
    ensures at_hand { IfOk result (IsAtHand (B.front bytes.new) (B.left bytes.new)) }
    ensures left { B.left bytes.new ≡ B.left bytes.old }
    ensures refused { IfErr result (IsRefusedFor (B.causes bytes.old bytes.new) (B.left bytes.old) (Lacks IsWord)) }
    ensures moved { B.moves bytes.old bytes.new }
{
    bytes.want(WORD)?;
    match word_behind_blank(bytes.peek()) {
        Some(len) => Ok(len),
        None => Err(LineRefusal::Wrong(Reason::Form)),
    }
}

/// Takes a blank and a decimal number, and answers the number, or `None` where it has more than 64 bits.
///
/// # Errors
/// `Wrong(Form)` exactly where what is left begins with none; or the bytes can't be read.
pub fn take_number<B: Bytes>(bytes: &mut B) -> Result<Option<u64>, LineRefusal>
    ensures taken { IfOk result (TakesNumber (B.left bytes.old) (B.left bytes.new)) }
    ensures refused { IfErr result (IsRefusedFor (B.causes bytes.old bytes.new) (B.left bytes.old) (Lacks IsNumeral)) }
    ensures moved { B.moves bytes.old bytes.new }
{
    let len = next_word(bytes)?;
    let word = word_of(bytes.peek(), len);
    if !is_numeral(word) {
        return Err(LineRefusal::Wrong(Reason::Form));
    }
    let number = read_number(word);
    bytes.skip(len + 1);
    Ok(number)
}

/// Takes a blank and an argument of a rule, and answers it, or `None` where it is a number of more than 32 bits.
///
/// # Errors
/// `Wrong(Form)` exactly where what is left begins with none; or the bytes can't be read.
pub fn take_argument<B: Bytes>(bytes: &mut B) -> Result<Option<Arg>, LineRefusal>
    ensures taken { IfOk result (TakesArgument (B.left bytes.old) (B.left bytes.new)) }
    ensures refused { IfErr result (IsRefusedFor (B.causes bytes.old bytes.new) (B.left bytes.old) (Lacks IsArgumentWord)) }
    ensures moved { B.moves bytes.old bytes.new }
{
    let len = next_word(bytes)?;
    let word = word_of(bytes.peek(), len);
    if !is_argument(word) {
        return Err(LineRefusal::Wrong(Reason::Form));
    }
    let argument = argument_of(word);
    bytes.skip(len + 1);
    Ok(argument)
}

/// Takes a blank and a literal, or a blank and the colon behind the literals.
///
/// # Errors
/// `Wrong(Form)` exactly where what is left begins with neither; or the bytes can't be read.
pub fn take_clause_word<B: Bytes>(bytes: &mut B) -> Result<ClauseWord, LineRefusal>
    ensures taken { IfOk result (TakesClauseWord (B.left bytes.old) (B.left bytes.new)) }
    ensures refused { IfErr result (IsRefusedFor (B.causes bytes.old bytes.new) (B.left bytes.old) (Lacks IsClauseWord)) }
    ensures moved { B.moves bytes.old bytes.new }
{
    let len = next_word(bytes)?;
    let Some(word) = clause_word(word_of(bytes.peek(), len)) else {
        return Err(LineRefusal::Wrong(Reason::Form));
    };
    bytes.skip(len + 1);
    Ok(word)
}

/// Whether a further word stands in the line, behind blanks, which are taken.
fn has_further_word<B: Bytes>(bytes: &mut B) -> Result<bool, ReadRefusal>
    ensures further { IfOk result (λ further. IfSome (B.left bytes.old) (IsFurther further)) }
    ensures cause { IfErr result (B.causes bytes.old bytes.new) }
    ensures moved { B.moves bytes.old bytes.new }
{
    for _ in 0..u64::MAX {
        bytes.want(1)?;
        match bytes.peek().first().copied() {
            Some(b' ') => bytes.skip(1),
            Some(byte) => return Ok(is_word_byte(byte)),
            None => return Ok(false),
        }
    }
    Err(ReadRefusal::Memory)
}

/// Sees what follows a word of a line, and takes the line feed.
///
/// # Errors
/// Only where the bytes can't be read.
pub fn take_gap<B: Bytes>(bytes: &mut B) -> Result<Gap, ReadRefusal>
    ensures gap { IfOk result (IsGap (B.left bytes.old) (B.left bytes.new)) }
    ensures cause { IfErr result (B.causes bytes.old bytes.new) }
    ensures moved { B.moves bytes.old bytes.new }
{
    bytes.want(2)?;
    if is_line_end(bytes.peek()) {
        bytes.skip(1);
        return Ok(Gap::LineEnd);
    }
    if is_word_next(bytes.peek()) {
        return Ok(Gap::Word);
    }
    let further = has_further_word(bytes)?;
    Ok(Gap::Wrong(further))
}

/// Takes this text.
fn expect_text<B: Bytes>(bytes: &mut B, text: &[u8]) -> Result<(), LineRefusal>
    requires { length text.now ≤ 1024 }
    ensures taken { OnOk result (Takes (B.left bytes.old) (B.left bytes.new) text.now) }
    ensures refused { IfErr result (IsRefusedFor (B.causes bytes.old bytes.new) (B.left bytes.old) (LacksText text.now)) }
    ensures moved { B.moves bytes.old bytes.new }
{
    bytes.want(text.len())?;
    if !bytes.peek().starts_with(text) {
        return Err(LineRefusal::Wrong(Reason::Form));
    }
    bytes.skip(text.len());
    Ok(())
}

/// Whether a number is that of the steps.
fn is_steps(number: Option<u64>, steps: u32) -> bool
    ensures { MatchBool result (number ≡ Some steps) (¬ (number ≡ Some steps)) }
{
    number == Some(steps as u64)
}

/// Takes the first line of a refutation in words, of so many steps: `jmm-refutation 1 STEPS`.
///
/// # Errors
/// `Wrong(Form)` exactly where what is left does not begin so; or the bytes can't be read.
pub fn expect_header<B: Bytes>(bytes: &mut B, steps: u32) -> Result<(), LineRefusal>
    ensures taken { OnOk result (Takes (B.left bytes.old) (B.left bytes.new) (header_text steps)) }
    ensures refused { IfErr result (IsRefusedFor (B.causes bytes.old bytes.new) (B.left bytes.old) (LacksHeader steps)) }
    ensures moved { B.moves bytes.old bytes.new }
{
    expect_text(bytes, b"jmm-refutation 1")?;
    let number = take_number(bytes)?;
    if !is_steps(number, steps) {
        return Err(LineRefusal::Wrong(Reason::Form));
    }
    expect_text(bytes, b"\n")
}
