//! The item of a clause.

ghost use Rattle.std.specs.Prelude.{◌≡◌, false, IfErr, IfOk, map, OnOk, true};
ghost use Rattle.refutation_lines.specs.Propagation.{negation};
ghost use Rattle.refutation_items.specs.Refusals.{IsRefusedFor};
ghost use Rattle.refutation_steps.specs.HintSteps.{Follows, IsFalsified};
ghost use Rattle.refutation_steps.specs.Tables.{ready};
ghost use Rattle.bytes_check.specs.Items.{IsShort, IsWrongClause};
ghost use Rattle.bytes_check.specs.Refused.{IsHintRefusal, IsRefusedHint};
ghost use Rattle.bytes_check.specs.Taken.{AreWrongHints, LacksLiterals, TakesClause, TakesHints, TakesLiterals};

use refutation_check::HintRefusal;
use refutation_items::{LineRefusal, Reason, take_literal, take_number};
use refutation_steps::ClauseTable;
use std::alloc::Global;
use token_reader::{Bytes, ReadRefusal};

/// Takes so many literals of a clause, no two of one variable.
fn take_literals<B: Bytes>(
    table: &mut ClauseTable,
    bytes: &mut B,
    count: u128,
) -> Result<(), LineRefusal>
    requires { table.old ≡ ready table.old.clauses }
    ensures clauses { OnOk result (table.new.clauses ≡ table.old.clauses) }
    ensures trues { OnOk result (table.new.trues ≡ map negation table.new.literals) }
    ensures taken { OnOk result (TakesLiterals (B.left bytes.old) (B.left bytes.new) count table.new.literals) }
    ensures refused { IfErr result (IsRefusedFor (B.causes bytes.old bytes.new) (B.left bytes.old) (LacksLiterals count)) }
    ensures moved { B.moves bytes.old bytes.new }
{
    let mut left = count;
    while left > 0 {
        let literal = take_literal(bytes)?;
        let new = table.read_literal(&literal)?;
        if !new {
            return Err(LineRefusal::Wrong(Reason::Form));
        }
        left -= 1;
    }
    Ok(())
}

/// Why a hint is not taken.
fn refused(refusal: HintRefusal) -> LineRefusal
    ensures { IsHintRefusal refusal result }
{
    match refusal {
        HintRefusal::NotUnit => LineRefusal::Wrong(Reason::HintNotUnit),
        HintRefusal::Unknown => LineRefusal::Wrong(Reason::HintUnknown),
        HintRefusal::Memory => LineRefusal::Unread(ReadRefusal::Memory),
    }
}

/// Follows a hint that is not the last.
fn follow_hint(table: &mut ClauseTable, hint: u128) -> Result<(), LineRefusal>
    ensures followed { OnOk result (Follows table.old.clauses table.old.trues hint table.new.trues) }
    ensures clauses { OnOk result (table.new.clauses ≡ table.old.clauses) }
    ensures literals { OnOk result (table.new.literals ≡ table.old.literals) }
    ensures wrong { IfErr result (IsRefusedHint table.old.clauses table.old.trues false hint) }
{
    match table.follow_hint(hint) {
        Ok(()) => Ok(()),
        Err(refusal) => Err(refused(refusal)),
    }
}

/// Follows the last hint.
fn end_hints(table: &ClauseTable, hint: u128) -> Result<(), LineRefusal>
    ensures falsified { OnOk result (IsFalsified table.now.clauses table.now.trues hint) }
    ensures wrong { IfErr result (IsRefusedHint table.now.clauses table.now.trues true hint) }
{
    match table.end_hints(hint) {
        Ok(()) => Ok(()),
        Err(refusal) => Err(refused(refusal)),
    }
}

/// Takes so many hints, and follows them.
fn follow_hints<B: Bytes>(
    table: &mut ClauseTable,
    bytes: &mut B,
    count: u128,
) -> Result<(), LineRefusal>
    ensures clauses { OnOk result (table.new.clauses ≡ table.old.clauses) }
    ensures literals { OnOk result (table.new.literals ≡ table.old.literals) }
    ensures taken { OnOk result (TakesHints (B.left bytes.old) (B.left bytes.new) count table.old.clauses table.old.trues) }
    ensures refused { IfErr result (IsRefusedFor (B.causes bytes.old bytes.new) (B.left bytes.old) (AreWrongHints count table.old.clauses table.old.trues)) }
    ensures moved { B.moves bytes.old bytes.new }
{
    if count == 0 {
        return Err(LineRefusal::Wrong(Reason::HintNotUnit));
    }
    let mut left = count;
    while left > 1 {
        let hint = take_number(bytes)?;
        follow_hint(table, hint)?;
        left -= 1;
    }
    let last = take_number(bytes)?;
    end_hints(table, last)?;
    Ok(())
}

/// Takes what follows the first byte of a clause's item, adds the clause, and answers whether it has no literals.
pub(crate) fn check_clause<B: Bytes>(
    alloc: Global,
    table: &mut ClauseTable,
    bytes: &mut B,
) -> Result<bool, LineRefusal>
    requires { table.old ≡ ready table.old.clauses }
    ensures ready { OnOk result (table.new ≡ ready table.new.clauses) }
    ensures taken { IfOk result (TakesClause (B.left bytes.old) (B.left bytes.new) table.old.clauses table.new.clauses) }
    ensures refused { IfErr result (IsRefusedFor (B.causes bytes.old bytes.new) (B.left bytes.old) (IsWrongClause table.old.clauses)) }
    ensures moved { B.moves bytes.old bytes.new }
{
    let count = take_number(bytes)?;
    take_literals(table, bytes, count)?;
    let hints = take_number(bytes)?;
    follow_hints(table, bytes, hints)?;
    let empty = table.finish_clause(alloc)?;
    Ok(empty)
}
