//! A whole refutation in bytes.

ghost use Rattle.std.specs.Prelude.{◌≡◌, IfErr, IfOk, OnOk};
ghost use Rattle.sources.specs.Leaving.{IsAtEnd, Takes};
ghost use Rattle.refutation_lines.specs.LineText.{header_bytes};
ghost use Rattle.refutation_items.specs.Parts.{GoesOn, LacksHeader};
ghost use Rattle.refutation_items.specs.Refusals.{IsNotRefutedFor};
ghost use Rattle.refutation_steps.specs.Tables.{ready};
ghost use Rattle.bytes_check.specs.Items.{IsWrongItem};
ghost use Rattle.bytes_check.specs.Taken.{TakesItem};
ghost use Rattle.bytes_check.specs.Texts.{AtLine, IsFirstFault, TakesRefutation};

use crate::item::check_item;
use refutation_items::{CheckRefusal, expect_end, expect_header};
use refutation_steps::ClauseTable;
use std::alloc::Global;
use token_reader::Bytes;
use var_names::RuleSource;

/// Takes the beginning, which is line 1.
fn expect_beginning<B: Bytes>(bytes: &mut B, steps: u32) -> Result<(), CheckRefusal>
    ensures taken { OnOk result (Takes (B.left bytes.old) (B.left bytes.new) (header_bytes steps)) }
    ensures refused { IfErr result (IsNotRefutedFor (B.causes bytes.old bytes.new) (B.left bytes.old) (AtLine 1 (LacksHeader steps))) }
    ensures moved { B.moves bytes.old bytes.new }
{
    match expect_header(bytes, steps) {
        Ok(()) => Ok(()),
        Err(refusal) => Err(refusal.at_line(1)),
    }
}

/// Takes the item of a line.
fn check_line<Q: RuleSource, B: Bytes>(
    alloc: Global,
    rules: &Q,
    table: &mut ClauseTable,
    bytes: &mut B,
    line: u64,
) -> Result<bool, CheckRefusal>
    requires { table.old ≡ ready table.old.clauses }
    ensures ready { OnOk result (table.new ≡ ready table.new.clauses) }
    ensures taken { IfOk result (TakesItem (Q.instances rules.now) (B.left bytes.old) (B.left bytes.new) table.old.clauses table.new.clauses) }
    ensures refused { IfErr result (IsNotRefutedFor (B.causes bytes.old bytes.new) (B.left bytes.old)
        (AtLine line (IsWrongItem (Q.instances rules.now) table.old.clauses))) }
    ensures moved { B.moves bytes.old bytes.new }
{
    match check_item(alloc, rules, table, bytes) {
        Ok(empty) => Ok(empty),
        Err(refusal) => Err(refusal.at_line(line)),
    }
}

/// Sees that there is no line of this number.
fn expect_no_line<B: Bytes>(bytes: &mut B, line: u64) -> Result<(), CheckRefusal>
    ensures end { OnOk result (IsAtEnd (B.left bytes.new)) }
    ensures left { B.left bytes.new ≡ B.left bytes.old }
    ensures refused { IfErr result (IsNotRefutedFor (B.causes bytes.old bytes.new) (B.left bytes.old) (AtLine line GoesOn)) }
    ensures moved { B.moves bytes.old bytes.new }
{
    match expect_end(bytes) {
        Ok(()) => Ok(()),
        Err(refusal) => Err(refusal.at_line(line)),
    }
}

/// Checks that the bytes are the text in version 2 of a refutation of the instances, of so many steps, up to their end.
///
/// # Errors
/// `NotRefuted` with the first line that is wrong, and why; or the bytes can't be read.
pub fn check_bytes<Q: RuleSource, B: Bytes>(
    alloc: Global,
    rules: &Q,
    steps: u32,
    bytes: &mut B,
) -> Result<(), CheckRefusal>
    ensures refuted { OnOk result (TakesRefutation (Q.instances rules.now) steps (B.left bytes.old) (B.left bytes.new)) }
    ensures refused { IfErr result (IsNotRefutedFor (B.causes bytes.old bytes.new) (B.left bytes.old) (IsFirstFault (Q.instances rules.now) steps)) }
    ensures moved { B.moves bytes.old bytes.new }
{
    expect_beginning(bytes, steps)?;
    let mut table = ClauseTable::new(alloc);
    let mut line = 2;
    while line < u64::MAX {
        let empty = check_line(alloc, rules, &mut table, bytes, line)?;
        line += 1;
        if empty {
            expect_no_line(bytes, line)?;
            return Ok(());
        }
    }
    Err(CheckRefusal::Memory)
}
