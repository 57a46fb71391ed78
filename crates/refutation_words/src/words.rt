//! Words at the front of bytes, and what they spell.

ghost use Rattle.std.specs.Prelude.{◌+◌, ◌<◌, ◌≡◌, ◌≤◌, ◌↔◌, ◌⊎◌, All, drop, IsTrue, length, MatchBool, MatchOption, take};
ghost use Rattle.var_names.specs.Readable.{AreArguments, IsArgument};
ghost use Rattle.refutation_words.specs.Fronts.{BeginsLineEnd, ReadsWord};
ghost use Rattle.refutation_words.specs.Parts.{BeginsWord, HasNone, IsClauseWord, IsClauseWordOf, SpellsArgument};
ghost use Rattle.refutation_words.specs.Words.{IsArgumentWord, IsDigit, IsEnded, IsNumeral, IsWord, IsWordByte};

use crate::parts::ClauseWord;
use var_names::{Arg, read_lit, read_number};

/// The most bytes that a word may have.
const LONGEST: usize = 512;

/// Whether a byte stands in a word: it is neither a blank nor a line feed.
pub(crate) fn is_word_byte(byte: u8) -> bool
    ensures { MatchBool result (IsWordByte byte) ((byte ≡ 32) ⊎ (byte ≡ 10)) }
{
    byte != b' ' && byte != b'\n'
}

/// Where the word at a text's front ends: at the first blank or line feed, or at the text's end.
fn word_end(text: &[u8]) -> usize
    ensures within { result ≤ length text.now }
    ensures word { All IsWordByte (take result text.now) }
    ensures rest { IsEnded (drop result text.now) }
{
    let mut at = 0;
    while at < text.len() && is_word_byte(text[at]) {
        at += 1;
    }
    at
}

/// How long the word is that begins a text behind a blank, or `None` where none does.
pub(crate) fn word_behind_blank(text: &[u8]) -> Option<usize>
    ensures { MatchOption result (HasNone IsWord text.now) (ReadsWord text.now) }
{
    let (first, rest) = text.split_first()?;
    if *first != b' ' {
        return None;
    }
    let len = word_end(rest);
    if len == 0 {
        return None;
    }
    if len > LONGEST {
        return None;
    }
    Some(len)
}

/// The word of this length behind the blank at a text's front.
pub(crate) fn word_of(text: &[u8], len: usize) -> &[u8]
    requires { len + 1 ≤ length text.now }
    ensures { result.now ≡ take len (drop 1 text.now) }
{
    &text[1..][..len]
}

/// Whether a byte is a decimal digit.
fn is_digit(byte: u8) -> bool
    ensures { MatchBool result (IsDigit byte) (¬ (IsDigit byte)) }
{
    byte.is_ascii_digit()
}

/// Whether all bytes of a word are digits.
fn are_digits(word: &[u8]) -> bool
    ensures { MatchBool result (All IsDigit word.now) (¬ (All IsDigit word.now)) }
{
    for byte in word {
        if !is_digit(*byte) {
            return false;
        }
    }
    true
}

/// Whether a word is a decimal number without leading zeros.
pub(crate) fn is_numeral(word: &[u8]) -> bool
    requires { length word.now ≤ 512 }
    ensures { MatchBool result (IsNumeral word.now) (¬ (IsNumeral word.now)) }
{
    match word.first() {
        None => false,
        Some(b'0') => word.len() == 1,
        Some(_) => are_digits(word),
    }
}

/// Whether a word is one of a rule's arguments.
pub(crate) fn is_argument(word: &[u8]) -> bool
    requires { length word.now ≤ 512 }
    ensures { MatchBool result (IsArgumentWord word.now) (¬ (IsArgumentWord word.now)) }
{
    if word == b"d".as_slice() {
        return true;
    }
    is_numeral(word)
}

/// The argument that a word spells, or `None` exactly where it spells none.
pub(crate) fn argument_of(word: &[u8]) -> Option<Arg>
    ensures { SpellsArgument word.now result }
{
    if word == b"d".as_slice() {
        return Some(Arg::D);
    }
    match u32::try_from(read_number(word)?) {
        Ok(number) => Some(Arg::Number(number)),
        Err(_) => None,
    }
}

/// An argument is a number of 32 bits, or the default write.
fn argument_fits(arg: Arg)
    ensures { IsArgument arg }
{
    match arg {
        Arg::Number(_number) => {}
        Arg::D => {}
    }
}

/// So is each of several.
pub fn arguments_fit(args: &[Arg])
    ensures { AreArguments args.now }
{
    for arg in args {
        argument_fits(*arg);
    }
}

/// Which word of a clause a word is, or `None` exactly where it is none.
pub(crate) fn clause_word(word: &[u8]) -> Option<ClauseWord>
    ensures { MatchOption result (¬ (IsClauseWord word.now)) (IsClauseWordOf word.now) }
{
    if word == b":".as_slice() {
        return Some(ClauseWord::Colon);
    }
    let literal = read_lit(word)?;
    arguments_fit(literal.var.args().as_slice());
    Some(ClauseWord::Literal(literal))
}

/// Whether a line feed comes next.
pub(crate) fn is_line_end(front: &[u8]) -> bool
    ensures { MatchBool result (BeginsLineEnd front.now) (¬ (BeginsLineEnd front.now)) }
{
    front.first() == Some(&b'\n')
}

/// Whether a blank and a byte of a word come next.
pub(crate) fn is_word_next(front: &[u8]) -> bool
    ensures { MatchBool result (BeginsWord front.now) (¬ (BeginsWord front.now)) }
{
    match front.split_first() {
        Some((b' ', [next, ..])) => is_word_byte(*next),
        _ => false,
    }
}
