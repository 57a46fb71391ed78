ghost use Rattle.std.specs.Prelude.{◌%◌, ◌+◌, ◌<◌, ◌≡◌, ◌≤◌, drop, length, unsigned_abs};
ghost use Rattle.std.specs.Fmt.{decimal, signed_decimal};
ghost use Rattle.ports.specs.Faults.{HasCause};
ghost use Rattle.ports.specs.Growth.{PutsAll};

use ports::{Failed, Sink, put_all};

/// Puts the decimal text of a number, with a minus where it is negative. Where it failed, a prefix of that text was put.
///
/// # Errors
/// `Failed` only where the sink's count of faults rose.
pub fn put_number<S: Sink>(out: &mut S, value: i128) -> Result<(), Failed>
    ensures bytes { PutsAll (S.held out.old) (S.held out.new) result (signed_decimal value) }
    ensures cause { HasCause (S.faults out.old) (S.faults out.new) result }
    ensures rest { S.same_rest out.old out.new }
{
    let mut buffer = [0; 40];
    let place = write_digits(&mut buffer, value.unsigned_abs());
    let start = write_sign(&mut buffer, place, value);
    put_all(out, &buffer[start..])
}

/// Writes the decimal digits of a number at the end of the buffer, and answers where they begin.
fn write_digits(buffer: &mut [u8], value: u128) -> usize
    requires { length buffer.old ≡ 40 }
    ensures some { 0 < result }
    ensures within { result ≤ 40 }
    ensures digits { drop result buffer.new ≡ decimal value }
{
    let mut place = 39;
    buffer[place] = digit(value);
    let mut rest = value / 10;
    while rest > 0 {
        place -= 1;
        buffer[place] = digit(rest);
        rest /= 10;
    }
    place
}

/// The last decimal digit of a number.
fn digit(value: u128) -> u8
    ensures { result ≡ 48 + value % 10 }
{
    b'0' + (value % 10) as u8
}

/// Writes a minus before the digits of a negative number, and answers where the text begins.
fn write_sign(buffer: &mut [u8], place: usize, value: i128) -> usize
    requires some { 0 < place }
    requires within { place ≤ length buffer.old }
    requires digits { drop place buffer.old ≡ decimal (unsigned_abs value) }
    ensures within { result ≤ length buffer.new }
    ensures text { drop result buffer.new ≡ signed_decimal value }
{
    if value >= 0 {
        return place;
    }
    buffer[place - 1] = b'-';
    place - 1
}
