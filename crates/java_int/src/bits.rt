//! Bits of ints, and narrowings.

ghost use Rattle.std.specs.Prelude.{◌≡◌, ◌<◌, ◌↔◌, IsTrue};
ghost use Rattle.java_int.specs.JavaInt.{and_of, or_of, xor_of, bit_of, to_byte_of, to_char_of, to_short_of};

/// The bits that both ints have (JVMS 6.5, `iand`).
pub fn and(a: i32, b: i32) -> i32
    ensures { result ≡ and_of a b }
{
    a & b
}

/// The bits that either int has (JVMS 6.5, `ior`).
pub fn or(a: i32, b: i32) -> i32
    ensures { result ≡ or_of a b }
{
    a | b
}

/// The bits that one of the two ints has (JVMS 6.5, `ixor`).
pub fn xor(a: i32, b: i32) -> i32
    ensures { result ≡ xor_of a b }
{
    a ^ b
}

/// The number of a byte that is equal modulo 2^8 (JVMS 6.5, `i2b`).
pub fn to_byte(a: i32) -> i32
    ensures { result ≡ to_byte_of a }
{
    i32::from(((a.cast_unsigned() & 0xff) as u8).cast_signed())
}

/// The number of a char that is equal modulo 2^16 (JVMS 6.5, `i2c`).
pub fn to_char(a: i32) -> i32
    ensures { result ≡ to_char_of a }
{
    i32::from((a.cast_unsigned() & 0xffff) as u16)
}

/// The number of a short that is equal modulo 2^16 (JVMS 6.5, `i2s`).
pub fn to_short(a: i32) -> i32
    ensures { result ≡ to_short_of a }
{
    i32::from(((a.cast_unsigned() & 0xffff) as u16).cast_signed())
}

/// A bit of an int in two's complement, from the lowest, 0.
pub fn bit(a: i32, at: u32) -> bool
    requires { at < 32 }
    ensures { IsTrue result ↔ (bit_of a at ≡ 1) }
{
    (a.cast_unsigned() >> at) & 1 == 1
}
