ghost use Rattle.std.specs.Prelude.{◌<◌, ◌≡◌, ◌^◌, [], ◌∷◌, IfErr, IfOk, OnOk};
ghost use Rattle.std.specs.Option.{IfSome, option_to_list};
ghost use Rattle.sources.specs.Leaving.{IsAtEnd, Takes};
ghost use Rattle.texts.specs.SevenBits.{seven_bits};
ghost use Rattle.var_names.specs.LiteralText.{literal_bytes};
ghost use Rattle.var_names.specs.Readable.{IsLiteral};
ghost use Rattle.refutation_lines.specs.LineText.{header_bytes};
ghost use Rattle.refutation_items.specs.Parts.{GoesOn, LacksByte, LacksHeader, LacksLiteral, LacksNumber};
ghost use Rattle.refutation_items.specs.Refusals.{IsRefusedFor};

use crate::refusal::{LineRefusal, Reason};
use texts::read_seven_bits;
use token_reader::{Bytes, ReadRefusal};
use var_names::{Lit, read_lit_bytes};

/// The most bytes that a literal takes.
const LITERAL: usize = 41;

/// Takes the next byte, or answers `None` at the end.
///
/// # Errors
/// Only where the bytes can't be read.
pub fn take_byte<B: Bytes>(bytes: &mut B) -> Result<Option<u8>, ReadRefusal>
    ensures taken { IfOk result (λ byte. Takes (B.left bytes.old) (B.left bytes.new) (option_to_list byte)) }
    ensures end { IfOk result (λ byte. byte ≡ None → IsAtEnd (B.left bytes.old)) }
    ensures cause { IfErr result (B.causes bytes.old bytes.new) }
    ensures moved { B.moves bytes.old bytes.new }
{
    bytes.want(1)?;
    let Some(byte) = bytes.peek().first().copied() else {
        return Ok(None);
    };
    bytes.skip(1);
    Ok(Some(byte))
}

/// Takes a number below 2^65 in groups of seven bits.
///
/// # Errors
/// `Wrong(Form)` exactly where what is left begins with none; or the bytes can't be read.
pub fn take_number<B: Bytes>(bytes: &mut B) -> Result<u128, LineRefusal>
    ensures few { IfOk result (λ number. number < 2 ^ 65) }
    ensures taken { IfOk result (λ number. Takes (B.left bytes.old) (B.left bytes.new) (seven_bits number)) }
    ensures refused { IfErr result (IsRefusedFor (B.causes bytes.old bytes.new) (B.left bytes.old) LacksNumber) }
    ensures moved { B.moves bytes.old bytes.new }
{
    bytes.want(10)?;
    let Some((number, len)) = read_seven_bits(bytes.peek()) else {
        return Err(LineRefusal::Wrong(Reason::Form));
    };
    bytes.skip(len);
    Ok(number)
}

/// Takes a literal in bytes.
///
/// # Errors
/// `Wrong(Form)` exactly where what is left begins with none; or the bytes can't be read.
pub fn take_literal<B: Bytes>(bytes: &mut B) -> Result<Lit, LineRefusal>
    ensures fits { IfOk result IsLiteral }
    ensures taken { IfOk result (λ literal. Takes (B.left bytes.old) (B.left bytes.new) (literal_bytes literal)) }
    ensures refused { IfErr result (IsRefusedFor (B.causes bytes.old bytes.new) (B.left bytes.old) LacksLiteral) }
    ensures moved { B.moves bytes.old bytes.new }
{
    bytes.want(LITERAL)?;
    let Some((literal, len)) = read_lit_bytes(bytes.peek()) else {
        return Err(LineRefusal::Wrong(Reason::Form));
    };
    bytes.skip(len);
    Ok(literal)
}

/// Takes this byte.
///
/// # Errors
/// `Wrong(Form)` exactly where what is left does not begin with it; or the bytes can't be read.
pub fn expect_byte<B: Bytes>(bytes: &mut B, expected: u8) -> Result<(), LineRefusal>
    ensures taken { OnOk result (Takes (B.left bytes.old) (B.left bytes.new) (expected ∷ [])) }
    ensures refused { IfErr result (IsRefusedFor (B.causes bytes.old bytes.new) (B.left bytes.old) (LacksByte expected)) }
    ensures moved { B.moves bytes.old bytes.new }
{
    bytes.want(1)?;
    match bytes.peek().first() {
        Some(byte) => {
            if *byte != expected {
                return Err(LineRefusal::Wrong(Reason::Form));
            }
        }
        None => return Err(LineRefusal::Wrong(Reason::Form)),
    }
    bytes.skip(1);
    Ok(())
}

/// Takes the beginning of a refutation in bytes, of so many steps: 4a 4d 52 32, and the number of steps.
///
/// # Errors
/// `Wrong(Form)` exactly where what is left does not begin so; or the bytes can't be read.
pub fn expect_header<B: Bytes>(bytes: &mut B, steps: u32) -> Result<(), LineRefusal>
    ensures taken { OnOk result (Takes (B.left bytes.old) (B.left bytes.new) (header_bytes steps)) }
    ensures refused { IfErr result (IsRefusedFor (B.causes bytes.old bytes.new) (B.left bytes.old) (LacksHeader steps)) }
    ensures moved { B.moves bytes.old bytes.new }
{
    expect_byte(bytes, b'J')?;
    expect_byte(bytes, b'M')?;
    expect_byte(bytes, b'R')?;
    expect_byte(bytes, b'2')?;
    let number = take_number(bytes)?;
    if number != steps as u128 {
        return Err(LineRefusal::Wrong(Reason::Form));
    }
    Ok(())
}

/// Sees that nothing is left.
///
/// # Errors
/// `Wrong(Form)` exactly where something is left; or the bytes can't be read.
pub fn expect_end<B: Bytes>(bytes: &mut B) -> Result<(), LineRefusal>
    ensures end { OnOk result (IsAtEnd (B.left bytes.new)) }
    ensures left { B.left bytes.new ≡ B.left bytes.old }
    ensures refused { IfErr result (IsRefusedFor (B.causes bytes.old bytes.new) (B.left bytes.old) GoesOn) }
    ensures moved { B.moves bytes.old bytes.new }
{
    bytes.want(1)?;
    if !bytes.peek().is_empty() {
        return Err(LineRefusal::Wrong(Reason::Form));
    }
    Ok(())
}
