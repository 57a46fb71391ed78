//! Java's int operations on their edges.

use java_int::*;

#[test]
fn arithmetic(rt: HostRuntime) {
    assert_eq!(rt; add(i32::MAX, 1), i32::MIN);
    assert_eq!(rt; sub(i32::MIN, 1), i32::MAX);
    assert_eq!(rt; mul(65536, 65536), 0);
    assert_eq!(rt; mul(-3, 7), -21);
    assert_eq!(rt; neg(i32::MIN), i32::MIN);
    assert!(rt; less(-1, 0) && !less(0, -1) && !less(5, 5));
    assert!(rt; fits(127, 8) && !fits(128, 8) && fits(-128, 8) && !fits(-129, 8));
    assert!(rt; fits(i32::MIN, 32) && fits(-2, 2) && !fits(2, 2));
}

#[test]
fn bits(rt: HostRuntime) {
    assert_eq!(rt; and(-4, 7), 4);
    assert_eq!(rt; or(-4, 1), -3);
    assert_eq!(rt; xor(-1, 5), -6);
    assert_eq!(rt; to_byte(200), -56);
    assert_eq!(rt; to_char(-1), 65535);
    assert_eq!(rt; to_short(40000), -25536);
    assert!(rt; bit(-2, 31) && !bit(-2, 0) && bit(8, 3));
}

#[test]
fn shifts(rt: HostRuntime) {
    assert_eq!(rt; shl(1, 33), 2);
    assert_eq!(rt; shl(3, 31), i32::MIN);
    assert_eq!(rt; shr(-9, 1), -5);
    assert_eq!(rt; shr(9, -31), 4);
    assert_eq!(rt; ushr(-1, 28), 15);
    assert_eq!(rt; ushr(-1, 32), -1);
}
