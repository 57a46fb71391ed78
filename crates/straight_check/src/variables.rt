//! The variables of a straight program.

ghost use Rattle.std.specs.Prelude.{◌≡◌, ◌↔◌, IsTrue, All, false};
ghost use Rattle.program.specs.Straight.{AreApart};
ghost use Rattle.straight_check.specs.Names.{HaveOneName, IsNameTaken};
ghost use Rattle.straight_check.specs.Parts.{ArePlain};

use program::Variable;

/// Whether two variables have one name of class and field.
fn have_one_name(a: &Variable, b: &Variable) -> bool
    ensures { IsTrue result ↔ HaveOneName a.now b.now }
{
    a.class.same(&b.class) && a.name.same(&b.name)
}

/// Whether a variable of a list has the name of another variable.
fn is_name_taken(others: &[Variable], variable: &Variable) -> bool
    ensures { IsTrue result ↔ IsNameTaken others.now variable.now }
{
    for other in others {
        if have_one_name(other, variable) {
            return true;
        }
    }
    false
}

/// Whether no two variables have one name.
fn are_apart(variables: &[Variable]) -> bool
    ensures { IsTrue result ↔ AreApart variables.now }
{
    for place in 0..variables.len() {
        if is_name_taken(&variables[..place], &variables[place]) {
            return false;
        }
    }
    true
}

/// Whether no variable is volatile.
fn is_none_volatile(variables: &[Variable]) -> bool
    ensures { IsTrue result ↔ All (λ v. v.volatile ≡ false) variables.now }
{
    variables.iter().all(|variable| !variable.volatile)
}

/// Whether no variable is volatile, and no two have one name.
pub fn are_plain(variables: &[Variable]) -> bool
    ensures { IsTrue result ↔ ArePlain variables.now }
{
    is_none_volatile(variables) && are_apart(variables)
}
