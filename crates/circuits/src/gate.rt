//! Gates: a bit as a function of others.

ghost use Rattle.std.specs.Prelude.{◌≡◌};
ghost use Rattle.circuits.specs.Gates.{of_three, of_two, rows};

/// A bit that an instruction's circuit speaks of.
#[derive(Clone, Copy, Debug, PartialEq, Eq)]
pub enum Wire {
    /// A bit of the lower of two operands on the stack.
    LowerBit(u32),
    /// A bit of the upper of two operands on the stack, or of the only one.
    UpperBit(u32),
    /// A bit of a local.
    LocalBit { local: u8, bit: u32 },
    /// An inner bit of the circuit.
    InnerBit(u32),
}

/// A bit, or its opposite.
#[derive(Clone, Copy, Debug, PartialEq, Eq)]
pub struct Input {
    pub wire: Wire,
    pub positive: bool,
}

/// A function of two bits.
#[derive(Clone, Copy, Debug, PartialEq, Eq)]
pub enum Pair {
    And,
    Or,
    Xor,
    Equal,
}

/// A function of three bits.
#[derive(Clone, Copy, Debug, PartialEq, Eq)]
pub enum Triple {
    /// An odd number of them is 1.
    Sum,
    /// Two or three of them are 1.
    Majority,
    /// The first is 1, and the others are equal.
    StillEqual,
    /// The first is 0 and the second 1, or these are equal and the third is 1.
    Less,
    /// The second where the first is 1, else the third.
    Choice,
}

/// A gate: a function of its inputs.
#[derive(Clone, Copy, Debug, PartialEq, Eq)]
pub enum Gate {
    Constant(bool),
    Same(Input),
    Two(Pair, Input, Input),
    Three(Triple, Input, Input, Input),
}

impl Pair {
    /// The function's value.
    pub fn of(self, p: bool, q: bool) -> bool
        ensures { result ≡ of_two self p q }
    {
        match self {
            Pair::And => p && q,
            Pair::Or => p || q,
            Pair::Xor => if p { !q } else { q },
            Pair::Equal => if p { q } else { !q },
        }
    }
}

impl Triple {
    /// The function's value.
    pub fn of(self, p: bool, q: bool, r: bool) -> bool
        ensures { result ≡ of_three self p q r }
    {
        match self {
            Triple::Sum => Pair::Xor.of(p, Pair::Xor.of(q, r)),
            Triple::Majority => (p && q) || (p && r) || (q && r),
            Triple::StillEqual => p && Pair::Equal.of(q, r),
            Triple::Less => (!p && q) || (Pair::Equal.of(p, q) && r),
            Triple::Choice => if p { q } else { r },
        }
    }
}

impl Gate {
    /// How many rows there are: one for each choice of the bits of the inputs.
    pub fn rows(self) -> u32
        ensures { result ≡ rows self }
    {
        match self {
            Gate::Constant(_) => 1,
            Gate::Same(_) => 2,
            Gate::Two(_, _, _) => 4,
            Gate::Three(_, _, _, _) => 8,
        }
    }
}
