//! Bytes as they are printed.

ghost use Rattle.std.specs.Prelude.{◌≡◌, IsTrue};
ghost use Rattle.ports.specs.Faults.{HasCause};
ghost use Rattle.ports.specs.Growth.{PutsAll};
ghost use Rattle.program_listing.specs.PrintableText.{is_printable, printable_byte, printable_text};

use ports::{Failed, Sink, put_all};

/// Whether a byte prints as it stands.
fn is_printable(byte: u8) -> bool
    ensures { result ≡ is_printable byte }
{
    (0x21..=0x7e).contains(&byte)
}

/// What prints for a byte.
fn printable_byte(byte: u8) -> u8
    ensures { result ≡ printable_byte byte }
{
    if is_printable(byte) { byte } else { b'?' }
}

/// Whether all bytes print as they stand.
fn are_printable(bytes: &[u8]) -> bool
    ensures { IsTrue result → printable_text bytes.now ≡ bytes.now }
{
    for byte in bytes {
        if !is_printable(*byte) {
            return false;
        }
    }
    true
}

/// Puts what prints for each byte, one after another.
fn put_each_byte<S: Sink>(out: &mut S, bytes: &[u8]) -> Result<(), Failed>
    ensures bytes { PutsAll (S.held out.old) (S.held out.new) result (printable_text bytes.now) }
    ensures cause { HasCause (S.faults out.old) (S.faults out.new) result }
    ensures rest { S.same_rest out.old out.new }
{
    for byte in bytes {
        put_all(out, &[printable_byte(*byte)])?;
    }
    Ok(())
}

/// Puts the bytes of a name, as a listing or a refusal tells it: of a class, of a field with its class, or of a method with
/// its class and its descriptor. A byte outside 21 to 7e hexadecimal prints as `?`. It takes no memory. Where it failed, a
/// prefix of the text was put.
///
/// # Errors
/// `Failed` only where the sink's count of faults rose.
pub fn put_detail<S: Sink>(out: &mut S, bytes: &[u8]) -> Result<(), Failed>
    ensures bytes { PutsAll (S.held out.old) (S.held out.new) result (printable_text bytes.now) }
    ensures cause { HasCause (S.faults out.old) (S.faults out.new) result }
    ensures rest { S.same_rest out.old out.new }
{
    if are_printable(bytes) {
        put_all(out, bytes)
    } else {
        put_each_byte(out, bytes)
    }
}
