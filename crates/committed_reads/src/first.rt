//! Reads that were not committed before.

ghost use Rattle.std.specs.Prelude.{◌<◌, ◌↔◌, IfOk, IsTrue, length};
ghost use Rattle.action_orders.specs.Causality.{Condition1};
ghost use Rattle.step_members.specs.AtActions.{Condition6At, IsLeastAction};
ghost use Rattle.step_members.specs.Stages.{IsEarlier, IsStage, committed_of, program_of, step_of};
ghost use Rattle.committed_reads.specs.Early.{ReadsFirst, SeesFirst};

use crate::early::is_early;
use happens_before_reads::seen;
use least_break::noted;
use ports::Memory;
use step_members::{Earlier, Stage};
use writes_between::is_before;

/// Whether what the action at a place of the step's execution sees, if it is a read, happens before it.
fn sees_first(stage: &Stage, at: usize) -> Result<bool, Memory>
    requires stage { IsStage stage.now }
    requires inside { at < length stage.now.own.now.flat.entries.items }
    ensures { IfOk result (λ fits. IsTrue fits ↔ SeesFirst stage.now at) }
{
    let entry = stage.own.flat.entries[at];
    let Some(write) = seen(entry)? else {
        return Ok(true);
    };
    Ok(is_before(stage.own, &write, at))
}

/// Whether the action at a place of the step's execution was committed before, or what it sees, if it is a read, happens before
/// it.
fn reads_first(stage: &Stage, earlier: &Earlier, at: usize) -> Result<bool, Memory>
    requires stage { IsStage stage.now }
    requires earlier { IsEarlier stage.now earlier.now }
    requires present { Condition1 (program_of stage.now) (committed_of stage.now) (step_of stage.now) }
    requires inside { at < length stage.now.own.now.flat.entries.items }
    ensures { IfOk result (λ fits. IsTrue fits ↔ ReadsFirst stage.now earlier.now at) }
{
    if is_early(stage, earlier, at) {
        return Ok(true);
    }
    let fits = sees_first(stage, at)?;
    Ok(fits)
}

/// The least action that breaks the sixth condition on a step (JLS 17.4.8), by its identifier, or none where the step meets it:
/// the reads of the step's execution that were not committed before see writes that happen before them. It takes time in
/// proportion to the actions of the step's execution and the threads.
///
/// # Errors
///
/// `Memory` where an allocation fails.
pub fn check_uncommitted_reads(stage: &Stage, earlier: &Earlier) -> Result<Option<u64>, Memory>
    requires stage { IsStage stage.now }
    requires earlier { IsEarlier stage.now earlier.now }
    requires present { Condition1 (program_of stage.now) (committed_of stage.now) (step_of stage.now) }
    ensures { IfOk result (IsLeastAction (Condition6At (program_of stage.now) (committed_of stage.now) earlier.now.names.now (step_of stage.now))) }
{
    let mut least = None;
    for at in 0..stage.own.flat.entries.len() {
        let fits = reads_first(stage, earlier, at)?;
        least = noted(least, stage.own.flat.action(at).id, fits);
    }
    Ok(least)
}
