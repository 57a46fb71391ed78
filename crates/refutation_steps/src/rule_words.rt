//! What the words of a line name: a rule and its arguments.

ghost use Rattle.std.specs.Prelude.{◌++◌, ◌≡◌, ℕ, List, ◌∷◌, [], IfErr, OnOk};
ghost use Rattle.std.specs.Fmt.{decimal};
ghost use Rattle.var_names.specs.LiteralText.{argument_number, argument_text};
ghost use Rattle.refutation_steps.specs.Instances.{AddsInstance, IsNoInstance};
ghost use Rattle.refutation_steps.specs.RuleWords.{NamesArgument, NamesArguments, NamesNumber, NamesRule};
ghost use Rattle.refutation_steps.specs.Tables.{ready};

use crate::table::ClauseTable;
use std::alloc::Global;
use var_names::{Arg, Args, Rule, RuleRefusal, RuleSource};

/// These arguments and one more, or `None` where there is none or they are too many.
pub fn with_argument(args: Option<Args>, argument: Option<Arg>) -> Option<Args>
    ensures in_bytes { (words : List ℕ) (word : ℕ) → NamesArguments argument_number words args → NamesArgument argument_number word argument
        → NamesArguments argument_number (words ++ word ∷ []) result }
    ensures in_words { (words : List (List ℕ)) (word : List ℕ) → NamesArguments argument_text words args
        → NamesArgument argument_text word argument → NamesArguments argument_text (words ++ word ∷ []) result }
{
    let mut args = args?;
    let argument = argument?;
    if args.len() == 5 {
        return None;
    }
    args.push(argument);
    Some(args)
}

/// The rule of a number and arguments.
pub fn rule_of(number: Option<u32>, args: Option<Args>) -> Option<Rule>
    ensures in_bytes { (word : ℕ) (words : List ℕ) → NamesNumber (λ n. n) word number → NamesArguments argument_number words args
        → NamesRule (λ n. n) argument_number word words result }
    ensures in_words { (word : List ℕ) (words : List (List ℕ)) → NamesNumber decimal word number → NamesArguments argument_text words args
        → NamesRule decimal argument_text word words result }
{
    let number = number?;
    let args = args?;
    Some(Rule { number, args })
}

/// Adds the clause of the instance that a rule names.
///
/// # Errors
/// `BadRule` exactly where it names none, but for want of memory.
pub fn add_named<Q: RuleSource>(
    alloc: Global,
    rules: &Q,
    table: &mut ClauseTable,
    rule: Option<Rule>,
) -> Result<(), RuleRefusal>
    requires { table.old ≡ ready table.old.clauses }
    ensures ready { OnOk result (table.new ≡ ready table.new.clauses) }
    ensures added { OnOk result (AddsInstance (Q.instances rules.now) rule table.old.clauses table.new.clauses) }
    ensures wrong { IfErr result (IsNoInstance (Q.instances rules.now) rule) }
{
    let Some(rule) = rule else {
        return Err(RuleRefusal::BadRule);
    };
    let clause = rules.clause_of(alloc, &rule)?;
    table.add_instance(alloc, clause.as_slice())?;
    Ok(())
}
