//! The rules that name the instances of tables.

ghost use Rattle.std.specs.Prelude.{◌≡◌, ◌+◌, ◌<◌, ◌^◌, ℕ, IfNone, IfSome, List};
ghost use Rattle.rule_base.specs.Naming.{NamesEach, NamesOnce, NamesOnly, numbers};
ghost use Rattle.rule_base.specs.Naming as spec;

use crate::choices::Choices;
use crate::instances::Instance;
use var_names::{Arg, Args, Rule};

/// The choices that these arguments are, or `None` where one of them is the default write.
pub fn choices_of(args: &Args) -> Option<Choices>
    ensures some { IfSome result (λ choices. args.now ≡ numbers choices) }
    ensures none { IfNone result ((choices : List ℕ) → args.now ≡ numbers choices → ⊥) }
{
    let mut choices = Choices::new();
    for arg in args.as_slice() {
        match arg {
            Arg::Number(number) => choices.push(*number),
            Arg::D => return None,
        }
    }
    Some(choices)
}

/// The rule that names an instance of a table whose first rule has this number.
pub fn rule_of(first: u32, instance: &Instance) -> Rule
    requires { first + instance.now.place < 2 ^ 32 }
    ensures { result ≡ spec.rule_of first instance.now }
{
    let mut args = Args::new();
    for at in 0..instance.choices.len() {
        args.push(Arg::Number(instance.choices.at(at)));
    }
    Rule {
        number: first + instance.place as u32,
        args,
    }
}

/// Each instance of a table has its clause under the rule that names it, and no other rule has one.
pub fn instances_are_named()
    ensures each { NamesEach }
    ensures only { NamesOnly }
    ensures once { NamesOnce }
{}
