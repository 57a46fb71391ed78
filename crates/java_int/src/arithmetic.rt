//! Sums, differences, products, negations and comparisons.

ghost use Rattle.std.specs.Prelude.{◌≡◌, ◌≤◌, ◌<ℤ◌, ◌↔◌, IsTrue};
ghost use Rattle.java_int.specs.JavaInt.{add_of, sub_of, mul_of, neg_of, Fits};

/// The sum, modulo 2^32 (JVMS 6.5, `iadd`).
pub fn add(a: i32, b: i32) -> i32
    ensures { result ≡ add_of a b }
{
    a.wrapping_add(b)
}

/// The difference, modulo 2^32 (JVMS 6.5, `isub`).
pub fn sub(a: i32, b: i32) -> i32
    ensures { result ≡ sub_of a b }
{
    a.wrapping_sub(b)
}

/// The product, modulo 2^32 (JVMS 6.5, `imul`).
pub fn mul(a: i32, b: i32) -> i32
    ensures { result ≡ mul_of a b }
{
    a.wrapping_mul(b)
}

/// The negation, modulo 2^32 (JVMS 6.5, `ineg`).
pub fn neg(a: i32) -> i32
    ensures { result ≡ neg_of a }
{
    a.wrapping_neg()
}

/// Whether the first int is below the second (JVMS 6.5, `if_icmp<cond>`).
pub fn less(a: i32, b: i32) -> bool
    ensures { IsTrue result ↔ (a <ℤ b) }
{
    a < b
}

/// Whether an int has this many bits in two's complement.
pub fn fits(a: i32, width: u32) -> bool
    requires low { 2 ≤ width }
    requires high { width ≤ 32 }
    ensures { IsTrue result ↔ Fits width a }
{
    let high = a >> (width - 1);
    high == 0 || high == -1
}
