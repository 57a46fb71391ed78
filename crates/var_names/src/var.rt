ghost use Rattle.std.specs.Prelude.{◌≡◌, IsTrue, SomeIff};
ghost use Rattle.std.specs.List.{list_all};
ghost use Rattle.var_names.specs.Arguments.{is_number};
ghost use Rattle.var_names.specs.Variables.{is_variable};

use crate::args::{Arg, Args};
use crate::family::Family;
use std::marker::Model;

/// A variable of a formula: a family, and as many arguments as it takes. Only the last argument of `Se`, `Wx` and `Pw`
/// may be the default write.
#[derive(Clone, Copy, Debug, PartialEq, Eq, Hash, Drop)]
pub struct Var {
    family: Family,
    args: Args,
}

impl Model for Var {
    ghost use Rattle.std.specs.Prelude.{IsTrue};
    ghost use Rattle.var_names.specs.Variables.{is_variable, Variable};

    ghost Value = { Variable };

    ghost view = { λ var. record { family = var.family; args = var.args } };

    ghost invariant = { λ var. IsTrue (is_variable var.family var.args) };

    ghost inverse = { λ var. record { family = var.family; args = var.args } };
}

impl Var {
    /// The variable of a family with these arguments, on condition that there is one.
    pub fn new(family: Family, args: Args) -> Var
        requires { IsTrue (is_variable family args) }
        ensures { result ≡ record { family = family; args = args } }
    {
        Var { family, args }
    }

    /// The variable of a family with these arguments, or `None` where the family takes no such arguments.
    pub fn try_new(family: Family, args: Args) -> Option<Var>
        ensures { SomeIff result (IsTrue (is_variable family args)) (record { family = family; args = args }) }
    {
        if !is_variable(family, &args) {
            return None;
        }
        Some(Var::new(family, args))
    }

    /// What the variable says.
    pub fn family(&self) -> Family
        ensures { result ≡ self.now.family }
    {
        self.family
    }

    /// Its arguments.
    pub fn args(&self) -> &Args
        ensures args { result.now ≡ self.now.args }
        ensures variable { IsTrue (is_variable self.now.family self.now.args) }
    {
        &self.args
    }
}

/// The first variable of all, `on.0.0`.
impl Default for Var {
    fn default() -> Var {
        let mut args = Args::new();
        args.push(Arg::Number(0));
        args.push(Arg::Number(0));
        Var::new(Family::On, args)
    }
}

/// Whether all of these are numbers.
fn are_numbers(args: &[Arg]) -> bool
    ensures { result ≡ list_all is_number args.now }
{
    args.iter().all(|arg| arg.is_number())
}

/// Whether a family has a variable with these arguments.
pub fn is_variable(family: Family, args: &Args) -> bool
    ensures { result ≡ is_variable family args.now }
{
    if args.len() != family.arity() {
        return false;
    }
    let args = args.as_slice();
    if family.takes_default() {
        return are_numbers(&args[..args.len() - 1]);
    }
    are_numbers(args)
}

/// A variable, or its negation.
#[derive(Clone, Copy, Debug, Default, PartialEq, Eq, Hash, Drop)]
pub struct Lit {
    pub var: Var,
    pub positive: bool,
}
