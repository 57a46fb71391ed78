//! The item of a deletion.

ghost use Rattle.std.specs.Prelude.{◌≡◌, IfErr, OnOk};
ghost use Rattle.refutation_items.specs.Refusals.{IsRefusedFor};
ghost use Rattle.refutation_steps.specs.Tables.{ready};
ghost use Rattle.bytes_check.specs.Items.{IsWrongDeletion};
ghost use Rattle.bytes_check.specs.Taken.{TakesDeletion};

use refutation_items::{LineRefusal, Reason, take_number};
use refutation_steps::ClauseTable;
use token_reader::Bytes;

/// Takes what follows the first byte of a deletion's item, and takes its clauses out.
pub(crate) fn check_deletion<B: Bytes>(
    table: &mut ClauseTable,
    bytes: &mut B,
) -> Result<(), LineRefusal>
    requires { table.old ≡ ready table.old.clauses }
    ensures ready { OnOk result (table.new ≡ ready table.new.clauses) }
    ensures taken { OnOk result (TakesDeletion (B.left bytes.old) (B.left bytes.new) table.old.clauses table.new.clauses) }
    ensures refused { IfErr result (IsRefusedFor (B.causes bytes.old bytes.new) (B.left bytes.old) (IsWrongDeletion table.old.clauses)) }
    ensures moved { B.moves bytes.old bytes.new }
{
    let mut left = take_number(bytes)?;
    while left > 0 {
        let number = take_number(bytes)?;
        let out = table.take_out(number);
        if !out {
            return Err(LineRefusal::Wrong(Reason::Form));
        }
        left -= 1;
    }
    Ok(())
}
