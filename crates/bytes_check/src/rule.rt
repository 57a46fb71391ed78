//! The item of a rule.

ghost use Rattle.std.specs.Prelude.{◌≡◌, IfErr, IfOk, OnOk};
ghost use Rattle.refutation_items.specs.Refusals.{IsRefusedFor};
ghost use Rattle.refutation_steps.specs.RuleWords.{NamesNumber};
ghost use Rattle.refutation_steps.specs.Tables.{ready};
ghost use Rattle.bytes_check.specs.Items.{IsShort, IsWrongRule};
ghost use Rattle.bytes_check.specs.Refused.{IsRuleRefusal};
ghost use Rattle.bytes_check.specs.Taken.{LacksArguments, TakesArguments, TakesInstance};

use refutation_items::{LineRefusal, Reason, take_number};
use refutation_steps::{ClauseTable, add_named, rule_of, with_argument};
use std::alloc::Global;
use token_reader::{Bytes, ReadRefusal};
use var_names::{Args, RuleRefusal, RuleSource, argument_of};

/// Takes so many arguments, or `None` where they are no arguments of a rule.
fn take_arguments<B: Bytes>(bytes: &mut B, count: u128) -> Result<Option<Args>, LineRefusal>
    requires { IsShort count }
    ensures taken { IfOk result (TakesArguments (B.left bytes.old) (B.left bytes.new) count) }
    ensures refused { IfErr result (IsRefusedFor (B.causes bytes.old bytes.new) (B.left bytes.old) (LacksArguments count)) }
    ensures moved { B.moves bytes.old bytes.new }
{
    let mut args = Some(Args::new());
    let mut left = count;
    while left > 0 {
        let number = take_number(bytes)?;
        args = with_argument(args, argument_of(number));
        left -= 1;
    }
    Ok(args)
}

/// The number of a rule, where it is not too large.
fn rule_number(number: u128) -> Option<u32>
    ensures { NamesNumber (λ n. n) number result }
{
    u32::try_from(number).ok()
}

/// Why a rule adds no clause.
fn refused(refusal: RuleRefusal) -> LineRefusal
    ensures { IsRuleRefusal refusal result }
{
    match refusal {
        RuleRefusal::BadRule => LineRefusal::Wrong(Reason::BadRule),
        RuleRefusal::Memory => LineRefusal::Unread(ReadRefusal::Memory),
    }
}

/// Takes what follows the first byte of a rule's item, and adds the clause of its instance.
pub(crate) fn check_rule<Q: RuleSource, B: Bytes>(
    alloc: Global,
    rules: &Q,
    table: &mut ClauseTable,
    bytes: &mut B,
) -> Result<(), LineRefusal>
    requires { table.old ≡ ready table.old.clauses }
    ensures ready { OnOk result (table.new ≡ ready table.new.clauses) }
    ensures added { OnOk result (TakesInstance (Q.instances rules.now) (B.left bytes.old) (B.left bytes.new) table.old.clauses table.new.clauses) }
    ensures refused { IfErr result (IsRefusedFor (B.causes bytes.old bytes.new) (B.left bytes.old) (IsWrongRule (Q.instances rules.now))) }
    ensures moved { B.moves bytes.old bytes.new }
{
    let number = take_number(bytes)?;
    let count = take_number(bytes)?;
    let args = take_arguments(bytes, count)?;
    let rule = rule_of(rule_number(number), args);
    match add_named(alloc, rules, table, rule) {
        Ok(()) => Ok(()),
        Err(refusal) => Err(refused(refusal)),
    }
}
