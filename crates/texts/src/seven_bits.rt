//! Numbers in groups of seven bits.

ghost use Rattle.std.specs.Prelude.{◌+◌, ◌<◌, ◌≡◌, ◌≤◌, ◌^◌, length, MatchOption, take};
ghost use Rattle.ports.specs.Faults.{HasCause};
ghost use Rattle.ports.specs.Growth.{PutsAll};
ghost use Rattle.texts.specs.SevenBits.{HasNoNumber, ReadsNumber, seven_bits};

use crate::Spelling;
use ports::{Failed, Sink, put_all};

/// Numbers in groups of seven bits, the lowest first, with 128 added to every byte but the last.
#[derive(Clone, Copy, Debug, PartialEq, Eq, Drop)]
pub struct SevenBits;

/// Writes a number's groups at the front of the buffer, and answers how many bytes they take.
fn write_groups(buffer: &mut [u8], number: u64) -> usize
    requires { length buffer.old ≡ 10 }
    ensures within { result ≤ 10 }
    ensures bytes { take result buffer.new ≡ seven_bits number }
{
    let mut len = 0;
    let mut rest = number;
    while rest >= 128 {
        buffer[len] = 128 + (rest % 128) as u8;
        rest /= 128;
        len += 1;
    }
    buffer[len] = rest as u8;
    len + 1
}

/// Puts a number in groups of seven bits. Where it failed, a prefix of its bytes was put.
///
/// # Errors
/// `Failed` only where the sink's count of faults rose.
pub fn put_seven_bits<S: Sink>(out: &mut S, number: u64) -> Result<(), Failed>
    ensures bytes { PutsAll (S.held out.old) (S.held out.new) result (seven_bits number) }
    ensures cause { HasCause (S.faults out.old) (S.faults out.new) result }
    ensures rest { S.same_rest out.old out.new }
{
    let mut buffer = [0; 10];
    let len = write_groups(&mut buffer, number);
    put_all(out, &buffer[..len])
}

impl Spelling<u64> for SevenBits {
    ghost text = { λ _ number. seven_bits number };

    fn put<S: Sink>(&self, out: &mut S, item: &u64) -> Result<(), Failed> {
        put_seven_bits(out, *item)
    }
}

/// The number at the front of the bytes in one group and so many more at most, and how many bytes it takes.
fn read_groups(bytes: &[u8], more: u32) -> Option<(u128, usize)>
    requires { more < 10 }
    ensures { MatchOption result (HasNoNumber (128 ^ (more + 1)) bytes.now)
        (λ found. ReadsNumber (128 ^ (more + 1)) bytes.now found.0 found.1) }
{
    let (first, rest) = bytes.split_first()?;
    if *first < 128 {
        return Some((*first as u128, 1));
    }
    if more == 0 {
        return None;
    }
    let (high, len) = read_groups(rest, more - 1)?;
    if high == 0 {
        return None;
    }
    Some((*first as u128 - 128 + 128 * high, len + 1))
}

/// The number below 2^65 at the front of the bytes, and how many bytes it takes. Bytes may follow it.
pub fn read_seven_bits(bytes: &[u8]) -> Option<(u128, usize)>
    ensures { MatchOption result (HasNoNumber (2 ^ 65) bytes.now) (λ found. ReadsNumber (2 ^ 65) bytes.now found.0 found.1) }
{
    let (number, len) = read_groups(bytes, 9)?;
    if number >= 1 << 65 {
        return None;
    }
    Some((number, len))
}
