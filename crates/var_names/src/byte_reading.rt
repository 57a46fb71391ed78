//! Literals read from bytes.

ghost use Rattle.std.specs.Prelude.{Bool, ◌+◌, ◌*◌, ◌<◌, ◌≡◌, ◌≢◌, ◌≤◌, [], ◌∷◌, length, MatchOption, take};
ghost use Rattle.var_names.specs.declared.family.Family.{Family};
ghost use Rattle.var_names.specs.LiteralText.{argument_bytes, argument_number, family_number, literal_bytes, sign_number};
ghost use Rattle.var_names.specs.Readable.{AreArguments, HasNoLiteral, HasNotSoMany, IsArgument, ReadsArgumentBytes, ReadsLiteral, ReadsMore};

use crate::args::{Arg, Args};
use crate::family::{FAMILIES, Family};
use crate::var::{Lit, Var};
use texts::read_seven_bits;

/// The argument of a number in bytes: one less, or the default write; `None` exactly where there is none.
pub fn argument_of(number: u128) -> Option<Arg>
    ensures { MatchOption result ((argument : Arg) → IsArgument argument → number ≢ argument_number argument)
        (λ argument. IsArgument argument × (number ≡ argument_number argument)) }
{
    if number == 0 {
        return Some(Arg::D);
    }
    match u32::try_from(number - 1) {
        Ok(number) => Some(Arg::Number(number)),
        Err(_) => None,
    }
}

/// So many arguments at the front of the bytes, added to those before them, and how many bytes they take.
fn read_arguments(bytes: &[u8], count: usize, args: Args) -> Option<(Args, usize)>
    requires { length args + count ≤ 5 }
    ensures { MatchOption result (HasNotSoMany bytes.now count) (λ found. ReadsMore bytes.now count args found.0 found.1) }
{
    if count == 0 {
        return Some((args, 0));
    }
    let (number, len) = read_seven_bits(bytes)?;
    let mut args = args;
    args.push(argument_of(number)?);
    let (all, more) = read_arguments(&bytes[len..], count - 1, args)?;
    Some((all, len + more))
}

/// The family and the sign of a literal's first byte.
fn family_and_sign(byte: u8) -> Option<(Family, bool)>
    ensures { MatchOption result ((family : Family) (positive : Bool) → byte ≢ 2 * family_number family + sign_number positive)
        (λ found. byte ≡ 2 * family_number found.0 + sign_number found.1) }
{
    let place = (byte / 2).checked_sub(1)?;
    let family = FAMILIES.get(place as usize)?;
    Some((*family, byte % 2 == 1))
}

/// The literal at the front of the bytes, and how many bytes it takes, or `None` exactly where they begin with no literal.
pub fn read_lit_bytes(bytes: &[u8]) -> Option<(Lit, usize)>
    ensures { MatchOption result (HasNoLiteral bytes.now) (λ found. ReadsLiteral bytes.now found.0 found.1) }
{
    let (first, rest) = bytes.split_first()?;
    let (family, positive) = family_and_sign(*first)?;
    let (args, len) = read_arguments(rest, family.arity(), Args::new())?;
    let var = Var::try_new(family, args)?;
    Some((Lit { var, positive }, len + 1))
}
