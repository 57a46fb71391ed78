//! Reads that are committed now.

ghost use Rattle.std.specs.Prelude.{◌≡◌, ◌<◌, ◌⊎◌, ◌↔◌, IfOk, IsTrue, length};
ghost use Rattle.action_orders.specs.Actions.{Act, name_of};
ghost use Rattle.action_orders.specs.Causality.{Condition1, IsIn};
ghost use Rattle.step_members.specs.AtActions.{Condition7At, IsLeastAction};
ghost use Rattle.step_members.specs.Members.{AreMembers, IsMember};
ghost use Rattle.step_members.specs.Stages.{IsEarlier, IsStage, committed_of, program_of, step_of};
ghost use Rattle.committed_reads.specs.Defaults.{AreDefaults};
ghost use Rattle.committed_reads.specs.Now.{IsActionOfEither, IsOneOf, ReadsCommitted, SeesCommitted};

use action_orders::ActionRef;
use happens_before_reads::seen;
use indexmap::IndexSet;
use least_break::noted;
use orders::Orders;
use ports::Memory;
use step_members::{Earlier, Member, Stage};

/// Whether the action with an identifier was committed before.
fn was_committed(stage: &Stage, earlier: &Earlier, id: u64) -> bool
    requires stage { IsStage stage.now }
    requires earlier { IsEarlier stage.now earlier.now }
    requires present { Condition1 (program_of stage.now) (committed_of stage.now) (step_of stage.now) }
    ensures { (x : Act) → IsActionOfEither stage.now x → name_of x ≡ ActionRef.Id id → IsTrue result ↔ IsIn (program_of stage.now) (committed_of stage.now) earlier.now.names.now x }
{
    if !earlier.has(id) {
        return false;
    }
    match stage.whole.place(id) {
        Some(_) => true,
        None => false,
    }
}

/// Whether the default write of the variable with a number was committed before.
fn was_default_committed(defaults: &IndexSet<usize>, number: Option<usize>) -> bool
    ensures { IsTrue result ↔ IsOneOf defaults.now.keys number }
{
    match number {
        Some(number) => defaults.get_index_of(&number).is_some(),
        None => false,
    }
}

/// Whether a write, by its name, was committed before.
fn was_write_committed(
    stage: &Stage,
    earlier: &Earlier,
    defaults: &IndexSet<usize>,
    write: &ActionRef,
) -> bool
    requires stage { IsStage stage.now }
    requires earlier { IsEarlier stage.now earlier.now }
    requires present { Condition1 (program_of stage.now) (committed_of stage.now) (step_of stage.now) }
    requires defaults { AreDefaults stage.now.whole.now earlier.now.names.now defaults.now.keys }
    ensures { (x : Act) → IsActionOfEither stage.now x → name_of x ≡ write.now → IsTrue result ↔ IsIn (program_of stage.now) (committed_of stage.now) earlier.now.names.now x }
{
    match write {
        ActionRef::Id(id) => was_committed(stage, earlier, *id),
        ActionRef::Default { class, name } => was_default_committed(
            defaults,
            stage.whole.variable_number(class, name),
        ),
    }
}

/// Whether what the action at a place of one of the two executions sees, if it is a read, was committed before.
fn sees_committed(
    stage: &Stage,
    earlier: &Earlier,
    defaults: &IndexSet<usize>,
    orders: &Orders,
    at: usize,
) -> Result<bool, Memory>
    requires stage { IsStage stage.now }
    requires earlier { IsEarlier stage.now earlier.now }
    requires present { Condition1 (program_of stage.now) (committed_of stage.now) (step_of stage.now) }
    requires defaults { AreDefaults stage.now.whole.now earlier.now.names.now defaults.now.keys }
    requires either { (orders.now ≡ stage.now.own.now) ⊎ (orders.now ≡ stage.now.whole.now) }
    requires inside { at < length orders.now.flat.entries.items }
    ensures { IfOk result (λ fits. IsTrue fits ↔ SeesCommitted stage.now earlier.now orders.now at) }
{
    let entry = orders.flat.entries[at];
    let Some(write) = seen(entry)? else {
        return Ok(true);
    };
    Ok(was_write_committed(stage, earlier, defaults, &write))
}

/// Whether a committed action, if it is a read that was not committed before, sees writes that were, in both executions.
fn reads_committed(
    stage: &Stage,
    earlier: &Earlier,
    defaults: &IndexSet<usize>,
    member: Member,
) -> Result<bool, Memory>
    requires stage { IsStage stage.now }
    requires earlier { IsEarlier stage.now earlier.now }
    requires present { Condition1 (program_of stage.now) (committed_of stage.now) (step_of stage.now) }
    requires defaults { AreDefaults stage.now.whole.now earlier.now.names.now defaults.now.keys }
    requires member { IsMember stage.now member }
    ensures { IfOk result (λ fits. IsTrue fits ↔ ReadsCommitted stage.now earlier.now member) }
{
    let id = stage.own.flat.action(member.own).id;
    if earlier.has(id) {
        return Ok(true);
    }
    if !sees_committed(stage, earlier, defaults, stage.own, member.own)? {
        return Ok(false);
    }
    let fits = sees_committed(stage, earlier, defaults, stage.whole, member.whole)?;
    Ok(fits)
}

/// The least action that breaks the seventh condition on a step (JLS 17.4.8), by its identifier, or none where the step meets it:
/// the reads that are committed now see, in the step's execution and in the execution that is committed, writes that were
/// committed before. It takes time in proportion to the committed actions.
///
/// # Errors
///
/// `Memory` where an allocation fails.
pub fn check_committed_now(
    stage: &Stage,
    earlier: &Earlier,
    defaults: &IndexSet<usize>,
    members: &[Member],
) -> Result<Option<u64>, Memory>
    requires stage { IsStage stage.now }
    requires earlier { IsEarlier stage.now earlier.now }
    requires present { Condition1 (program_of stage.now) (committed_of stage.now) (step_of stage.now) }
    requires defaults { AreDefaults stage.now.whole.now earlier.now.names.now defaults.now.keys }
    requires members { AreMembers stage.now (length stage.now.own.now.flat.entries.items) members.now }
    ensures { IfOk result (IsLeastAction (Condition7At (program_of stage.now) (committed_of stage.now) earlier.now.names.now (step_of stage.now))) }
{
    let mut least = None;
    for member in members {
        let fits = reads_committed(stage, earlier, defaults, *member)?;
        least = noted(least, stage.own.flat.action(member.own).id, fits);
    }
    Ok(least)
}
