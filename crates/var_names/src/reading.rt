//! Literals read from their texts in words.

ghost use Rattle.std.specs.Prelude.{All, Bool, IfNone, IfSome, ◌<◌, ◌≡◌, ◌≢◌, ◌≤◌, ◌↔◌, ◌^◌, ℕ, [], ◌∷◌, drop, IsTrue, length, MatchOption, take};
ghost use Rattle.std.specs.Fmt.{decimal};
ghost use Rattle.line_text.specs.Fields.{IsPlain};
ghost use Rattle.var_names.specs.declared.args.Arg.{Arg};
ghost use Rattle.var_names.specs.declared.family.Family.{Family};
ghost use Rattle.var_names.specs.declared.var.Lit.{Lit};
ghost use Rattle.var_names.specs.LiteralText.{argument_text, family_name, literal_text, sign_text};
ghost use Rattle.var_names.specs.Readable.{HasNoArgument, HasNoArguments, IsArgument, IsDotFree, IsDotted, IsLiteral, ReadsArgument, ReadsArguments};

use crate::args::{Arg, Args};
use crate::family::{FAMILIES, Family};
use crate::var::{Lit, Var};

/// Whether a text has neither a plus nor a leading zero.
fn is_plain(text: &[u8]) -> bool
    ensures { IsTrue result ↔ IsPlain text.now }
{
    match text.first() {
        Some(b'+') => false,
        Some(b'0') => text.len() == 1,
        _ => true,
    }
}

/// The number of 64 bits of which a text is the decimal text, without a sign or leading zeros.
pub fn read_number(text: &[u8]) -> Option<u64>
    ensures { MatchOption result ((number : ℕ) → number < 2 ^ 64 → text.now ≢ decimal number) (λ number. (number < 2 ^ 64) × (text.now ≡ decimal number)) }
{
    if !is_plain(text) {
        return None;
    }
    match std::str::from_utf8(text) {
        Ok(words) => match words.parse::<u64>() {
            Ok(number) => Some(number),
            Err(_) => None,
        },
        Err(_) => None,
    }
}

/// The argument of which a text is the text.
fn read_argument(text: &[u8]) -> Option<Arg>
    ensures { MatchOption result ((argument : Arg) → IsArgument argument → text.now ≢ argument_text argument)
        (λ argument. IsArgument argument × (text.now ≡ argument_text argument)) }
{
    if text == b"d".as_slice() {
        return Some(Arg::D);
    }
    match u32::try_from(read_number(text)?) {
        Ok(number) => Some(Arg::Number(number)),
        Err(_) => None,
    }
}

/// Where the word at a text's front ends: at its first point, or at its end.
fn word_end(text: &[u8]) -> usize
    ensures within { result ≤ length text.now }
    ensures word { IsDotFree (take result text.now) }
    ensures rest { IsDotted (drop result text.now) }
{
    let mut at = 0;
    while at < text.len() && text[at] != b'.' {
        at += 1;
    }
    at
}

/// The argument at a text's front, behind a point, and what follows it.
fn next_argument(text: &[u8]) -> Option<(Arg, &[u8])>
    ensures { MatchOption result (HasNoArgument text.now) (λ found. ReadsArgument text.now found.0 found.1.now) }
{
    let (first, rest) = text.split_first()?;
    if *first != b'.' {
        return None;
    }
    let end = word_end(rest);
    Some((read_argument(&rest[..end])?, &rest[end..]))
}

/// Arguments with a point before each, added to those before them.
fn read_arguments(text: &[u8], args: Args) -> Option<Args>
    ensures { MatchOption result (HasNoArguments text.now args) (ReadsArguments text.now args) }
{
    if text.is_empty() {
        return Some(args);
    }
    if args.len() == 5 {
        return None;
    }
    let (arg, rest) = next_argument(text)?;
    let mut args = args;
    args.push(arg);
    read_arguments(rest, args)
}

/// The first of these families of which a text is the word.
fn find_family(families: &[Family], text: &[u8]) -> Option<Family>
    ensures found { IfSome result (λ family. text.now ≡ family_name family) }
    ensures none { IfNone result (All (λ family. text.now ≢ family_name family) families.now) }
{
    for family in families {
        if family.name() == text {
            return Some(*family);
        }
    }
    None
}

/// The family of which a text is the word.
fn read_family(text: &[u8]) -> Option<Family>
    ensures { MatchOption result ((family : Family) → text.now ≢ family_name family) (λ family. text.now ≡ family_name family) }
{
    find_family(&FAMILIES, text)
}

/// Whether a byte is the sign of a literal, and which.
fn read_sign(byte: u8) -> Option<bool>
    ensures { MatchOption result ((positive : Bool) → byte ≢ sign_text positive) (λ positive. byte ≡ sign_text positive) }
{
    match byte {
        b'+' => Some(true),
        b'-' => Some(false),
        _ => None,
    }
}

/// The literal of which a text is the text in words, or `None` exactly where it is that of no literal.
pub fn read_lit(text: &[u8]) -> Option<Lit>
    ensures { MatchOption result ((lit : Lit) → IsLiteral lit → text.now ≢ literal_text lit) (λ lit. text.now ≡ literal_text lit) }
{
    let (sign, rest) = text.split_first()?;
    let positive = read_sign(*sign)?;
    let end = word_end(rest);
    let family = read_family(&rest[..end])?;
    let args = read_arguments(&rest[end..], Args::new())?;
    let var = Var::try_new(family, args)?;
    Some(Lit { var, positive })
}
