//! The numbers of literals.

ghost use Rattle.std.specs.Prelude.{◌≡◌, ◌≢◌, ℕ, ◌*◌, ◌<◌, ◌^◌};
ghost use Rattle.literals.specs.Literal.{positive_of, negative_of, variable_of, opposite_of};
ghost use Rattle.literals.specs.Literal.{is_positive as has_positive};

/// The positive literal of a variable.
#[tactic(auto, unfolding(crate::specs::Literal::variable_of))]
pub fn positive(variable: u32) -> u32
    requires { variable < 2 ^ 31 }
    ensures literal { result ≡ positive_of variable }
    ensures variable { variable_of result ≡ variable }
{
    2 * variable
}

/// The negative literal of a variable.
#[tactic(auto, unfolding(crate::specs::Literal::variable_of))]
pub fn negative(variable: u32) -> u32
    requires { variable < 2 ^ 31 }
    ensures literal { result ≡ negative_of variable }
    ensures variable { variable_of result ≡ variable }
{
    2 * variable + 1
}

/// The variable of a literal.
#[tactic(auto, unfolding(crate::specs::Literal::variable_of))]
pub fn variable(literal: u32) -> u32
    ensures variable { result ≡ variable_of literal }
    ensures below { (count : ℕ) → literal < 2 * count → result < count }
{
    literal / 2
}

/// Whether the literal is the positive one of its variable.
#[tactic(auto, unfolding(crate::specs::Literal::is_positive))]
pub fn is_positive(literal: u32) -> bool
    ensures { result ≡ has_positive literal }
{
    literal % 2 == 0
}

/// The other literal of the same variable.
pub fn opposite(literal: u32) -> u32
    ensures opposite { result ≡ opposite_of literal }
    ensures back { opposite_of result ≡ literal }
    ensures other { result ≢ literal }
    ensures same_variable { variable_of result ≡ variable_of literal }
    ensures below { (count : ℕ) → literal < 2 * count → result < 2 * count }
{
    if literal % 2 == 0 {
        literal + 1
    } else {
        literal - 1
    }
}
