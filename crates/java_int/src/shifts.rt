//! Shifts, by the low five bits of the distance.

ghost use Rattle.std.specs.Prelude.{◌≡◌};
ghost use Rattle.java_int.specs.JavaInt.{shl_of, shr_of, ushr_of};

/// The product by a power of two, modulo 2^32 (JVMS 6.5, `ishl`).
pub fn shl(a: i32, b: i32) -> i32
    ensures { result ≡ shl_of a b }
{
    a.wrapping_shl(b.cast_unsigned())
}

/// The quotient by a power of two, rounded down (JVMS 6.5, `ishr`).
pub fn shr(a: i32, b: i32) -> i32
    ensures { result ≡ shr_of a b }
{
    a.wrapping_shr(b.cast_unsigned())
}

/// The quotient of the unsigned number by a power of two (JVMS 6.5, `iushr`).
pub fn ushr(a: i32, b: i32) -> i32
    ensures { result ≡ ushr_of a b }
{
    let quotient = a.cast_unsigned().wrapping_shr(b.cast_unsigned());
    quotient.cast_signed()
}
