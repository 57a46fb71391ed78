//! What the operations do to the bits of ints. A caller takes a law by calling its function, which does nothing.

ghost use Rattle.java_int.specs.BitLaws.{SumBits, DifferenceBits, NegationBits, LogicBits, LeftShiftBits, RightShiftBits, UnsignedShiftBits, NoHighBits, NarrowingBits, EqualBits, ProductBits, LessBits, FitsBits};

/// A bit of a sum is that of the bits and the carry.
pub fn sum_bits()
    ensures { SumBits }
{}

/// A difference is a sum with the opposite bits of the second int, and a carry into place 0.
pub fn difference_bits()
    ensures { DifferenceBits }
{}

/// A negation has the opposite bits, and a carry into place 0.
pub fn negation_bits()
    ensures { NegationBits }
{}

/// The bits of `and`, `or` and `xor`.
pub fn logic_bits()
    ensures { LogicBits }
{}

/// A shift to the left puts 0 below the distance, and above it the bits from 0 on.
pub fn left_shift_bits()
    ensures { LeftShiftBits }
{}

/// A shift to the right brings the bits from the distance on, and the sign's where there are none.
pub fn right_shift_bits()
    ensures { RightShiftBits }
{}

/// The unsigned shift brings the bits from the distance on.
pub fn unsigned_shift_bits()
    ensures { UnsignedShiftBits }
{}

/// An int has no bit from place 32 on.
pub fn no_high_bits()
    ensures { NoHighBits }
{}

/// A narrowing keeps the low bits, and repeats the sign's or puts 0 above them.
pub fn narrowing_bits()
    ensures { NarrowingBits }
{}

/// Ints with the same bits are equal.
pub fn equal_bits()
    ensures { EqualBits }
{}

/// A bit of a product is that of the rows up to it.
pub fn product_bits()
    ensures { ProductBits }
{}

/// An int is below another by the other bits where the signs are equal, and by its own sign else.
pub fn less_bits()
    ensures { LessBits }
{}

/// An int has a number of bits where all from the last of them on are equal.
pub fn fits_bits()
    ensures { FitsBits }
{}
