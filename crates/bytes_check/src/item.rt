//! The next item of a refutation.

ghost use Rattle.std.specs.Prelude.{◌≡◌, IfErr, IfOk, OnOk};
ghost use Rattle.refutation_items.specs.Refusals.{IsRefusedFor};
ghost use Rattle.refutation_steps.specs.Tables.{ready};
ghost use Rattle.bytes_check.specs.Items.{IsWrongItem};
ghost use Rattle.bytes_check.specs.Taken.{TakesItem};

use crate::clause::check_clause;
use crate::deletion::check_deletion;
use crate::rule::check_rule;
use refutation_items::{LineRefusal, Reason, take_byte};
use refutation_steps::ClauseTable;
use std::alloc::Global;
use token_reader::Bytes;
use var_names::RuleSource;

/// Takes the next item of a refutation in bytes, and makes of the clauses what it makes of them. Answers whether it is the
/// clause without literals.
///
/// # Errors
/// `Wrong` with the reason of the first fault of the item, or `NoEmptyClause` at the end; or the bytes can't be read.
pub fn check_item<Q: RuleSource, B: Bytes>(
    alloc: Global,
    rules: &Q,
    table: &mut ClauseTable,
    bytes: &mut B,
) -> Result<bool, LineRefusal>
    requires { table.old ≡ ready table.old.clauses }
    ensures ready { OnOk result (table.new ≡ ready table.new.clauses) }
    ensures taken { IfOk result (TakesItem (Q.instances rules.now) (B.left bytes.old) (B.left bytes.new) table.old.clauses table.new.clauses) }
    ensures refused { IfErr result (IsRefusedFor (B.causes bytes.old bytes.new) (B.left bytes.old)
        (IsWrongItem (Q.instances rules.now) table.old.clauses)) }
    ensures moved { B.moves bytes.old bytes.new }
{
    let Some(head) = take_byte(bytes)? else {
        return Err(LineRefusal::Wrong(Reason::NoEmptyClause));
    };
    if head == 1 {
        check_rule(alloc, rules, table, bytes)?;
        return Ok(false);
    }
    if head == 2 {
        let empty = check_clause(alloc, table, bytes)?;
        return Ok(empty);
    }
    if head == 3 {
        check_deletion(table, bytes)?;
        return Ok(false);
    }
    Err(LineRefusal::Wrong(Reason::Form))
}
