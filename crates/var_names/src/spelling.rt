//! The texts of literals, in words (version 1) and in bytes (version 2; docs/TEXTS.md).

ghost use Rattle.std.specs.Prelude.{◌+◌, ◌*◌, ◌≡◌, [], ◌∷◌};
ghost use Rattle.ports.specs.Faults.{HasCause};
ghost use Rattle.ports.specs.Growth.{PutsAll};
ghost use Rattle.var_names.specs.LiteralText.{argument_number, argument_text, family_name, family_number, literal_bytes, literal_text, sign_number, sign_text};

use crate::args::Arg;
use crate::family::Family;
use crate::var::Lit;
use line_text::put_number;
use ports::{Failed, Sink, put_all};
use texts::{Spelling, put_each, put_seven_bits};

impl Family {
    /// The word of the family.
    pub fn name(self) -> &'static [u8]
        ensures { result.now ≡ family_name self }
    {
        match self {
            Family::On => b"on",
            Family::Go => b"go",
            Family::Sl => b"sl",
            Family::Re => b"re",
            Family::Ca => b"ca",
            Family::Pr => b"pr",
            Family::Se => b"se",
            Family::So => b"so",
            Family::Hb => b"hb",
            Family::Vi => b"vi",
            Family::Id => b"id",
            Family::Co => b"co",
            Family::Hx => b"hx",
            Family::Ph => b"ph",
            Family::Sx => b"sx",
            Family::Ps => b"ps",
            Family::Wx => b"wx",
            Family::Pw => b"pw",
            Family::Pb => b"pb",
            Family::No => b"no",
            Family::Pa => b"pa",
            Family::Cn => b"cn",
            Family::Ss => b"ss",
            Family::Bt => b"bt",
            Family::Ne => b"ne",
            Family::Ox => b"ox",
            Family::Ob => b"ob",
        }
    }

    /// The number of the family, from 1 to 27.
    pub fn number(self) -> u8
        ensures { result ≡ family_number self }
    {
        match self {
            Family::On => 1,
            Family::Go => 2,
            Family::Sl => 3,
            Family::Re => 4,
            Family::Ca => 5,
            Family::Pr => 6,
            Family::Se => 7,
            Family::So => 8,
            Family::Hb => 9,
            Family::Vi => 10,
            Family::Id => 11,
            Family::Co => 12,
            Family::Hx => 13,
            Family::Ph => 14,
            Family::Sx => 15,
            Family::Ps => 16,
            Family::Wx => 17,
            Family::Pw => 18,
            Family::Pb => 19,
            Family::No => 20,
            Family::Pa => 21,
            Family::Cn => 22,
            Family::Ss => 23,
            Family::Bt => 24,
            Family::Ne => 25,
            Family::Ox => 26,
            Family::Ob => 27,
        }
    }
}

/// Arguments in words, each with a point before it.
#[derive(Clone, Copy, Debug, PartialEq, Eq, Drop)]
pub struct DottedArguments;

impl Spelling<Arg> for DottedArguments {
    ghost use Rattle.var_names.specs.LiteralText.{dotted};

    ghost text = { λ _ argument. dotted argument };

    fn put<S: Sink>(&self, out: &mut S, item: &Arg) -> Result<(), Failed> {
        put_all(out, b".")?;
        put_argument(out, item)
    }
}

/// Puts an argument in words: decimal digits, or `d`. Where it failed, a prefix of that was put.
///
/// # Errors
/// `Failed` only where the sink's count of faults rose.
pub fn put_argument<S: Sink>(out: &mut S, argument: &Arg) -> Result<(), Failed>
    ensures bytes { PutsAll (S.held out.old) (S.held out.new) result (argument_text argument.now) }
    ensures cause { HasCause (S.faults out.old) (S.faults out.new) result }
    ensures rest { S.same_rest out.old out.new }
{
    match argument {
        Arg::Number(number) => put_number(out, *number as i128),
        Arg::D => put_all(out, b"d"),
    }
}

/// Arguments in bytes.
#[derive(Clone, Copy, Debug, PartialEq, Eq, Drop)]
pub struct ArgumentBytes;

impl Spelling<Arg> for ArgumentBytes {
    ghost use Rattle.var_names.specs.LiteralText.{argument_bytes};

    ghost text = { λ _ argument. argument_bytes argument };

    fn put<S: Sink>(&self, out: &mut S, item: &Arg) -> Result<(), Failed> {
        put_seven_bits(out, argument_number(item))
    }
}

/// The number of an argument in bytes: one more than a number, or 0.
fn argument_number(argument: &Arg) -> u64
    ensures { result ≡ argument_number argument.now }
{
    match argument {
        Arg::Number(number) => *number as u64 + 1,
        Arg::D => 0,
    }
}

/// Puts a literal in words, as `+se.0.4.d`. Where it failed, a prefix of that was put.
///
/// # Errors
/// `Failed` only where the sink's count of faults rose.
pub fn put_lit<S: Sink>(out: &mut S, lit: &Lit) -> Result<(), Failed>
    ensures bytes { PutsAll (S.held out.old) (S.held out.new) result (literal_text lit.now) }
    ensures cause { HasCause (S.faults out.old) (S.faults out.new) result }
    ensures rest { S.same_rest out.old out.new }
{
    put_sign(out, lit.positive)?;
    put_all(out, lit.var.family().name())?;
    put_each(&DottedArguments, out, lit.var.args().as_slice())
}

/// Puts the sign of a literal.
fn put_sign<S: Sink>(out: &mut S, positive: bool) -> Result<(), Failed>
    ensures bytes { PutsAll (S.held out.old) (S.held out.new) result (sign_text positive ∷ []) }
    ensures cause { HasCause (S.faults out.old) (S.faults out.new) result }
    ensures rest { S.same_rest out.old out.new }
{
    put_all(out, if positive { b"+" } else { b"-" })
}

/// The first byte of a literal: twice the family's number, and 1 for `+`.
fn first_byte(lit: &Lit) -> u8
    ensures { result ≡ 2 * family_number lit.now.var.family + sign_number lit.now.positive }
{
    2 * lit.var.family().number() + lit.positive as u8
}

/// Puts a literal in bytes. Where it failed, a prefix of that was put.
///
/// # Errors
/// `Failed` only where the sink's count of faults rose.
pub fn put_lit_bytes<S: Sink>(out: &mut S, lit: &Lit) -> Result<(), Failed>
    ensures bytes { PutsAll (S.held out.old) (S.held out.new) result (literal_bytes lit.now) }
    ensures cause { HasCause (S.faults out.old) (S.faults out.new) result }
    ensures rest { S.same_rest out.old out.new }
{
    put_all(out, &[first_byte(lit)])?;
    put_each(&ArgumentBytes, out, lit.var.args().as_slice())
}

/// Literals in bytes.
#[derive(Clone, Copy, Debug, PartialEq, Eq, Drop)]
pub struct LiteralBytes;

impl Spelling<Lit> for LiteralBytes {
    ghost use Rattle.var_names.specs.LiteralText.{literal_bytes};

    ghost text = { λ _ lit. literal_bytes lit };

    fn put<S: Sink>(&self, out: &mut S, item: &Lit) -> Result<(), Failed> {
        put_lit_bytes(out, item)
    }
}
