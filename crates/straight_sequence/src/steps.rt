//! The steps of the sequence.

ghost use Rattle.std.specs.Prelude.{◌≡◌, ◌<◌, ◌++◌, [], ◌∷◌, All, IfOk, OnOk, IsTrue, length, false, if◌then◌else◌};
ghost use Rattle.std.specs.List.{list_any};
ghost use Rattle.program.specs.Straight.{IsStraight};
ghost use Rattle.program.specs.declared.method.Method.{Method};
ghost use Rattle.action_orders.specs.declared.execution.ThreadPart.{ThreadPart};
ghost use Rattle.action_orders.specs.Sequence.{Ascends};
ghost use Rattle.action_orders.specs.Spelling.{IsSpeltRef};
ghost use Rattle.straight.specs.Laws.{is_read};
ghost use Rattle.straight.specs.Meaning.{execution_of};
ghost use Rattle.straight_sequence.specs.Steps.{AreMainEntries, IsOpen, IsSequenceOf, ids_of, with_members};
ghost use Rattle.straight_sequence.specs.Defaults.{AreDefaultsInOrder};

use crate::defaults::default_writes;
use action_orders::{ActionRef, Entry, Execution, Sequence};
use ports::Memory;
use program::{Kind, Program};
use std::alloc::Global;
use straight::{StraightRun, run_straight};

/// The identifiers of these actions in program order, with those of the reads or without them.
fn ids(alloc: Global, entries: &[Entry], reads: bool) -> Result<Vec<ActionRef>, Memory>
    ensures { IfOk result (λ members. members.items ≡ ids_of reads entries.now) }
{
    let mut members = Vec::new(alloc);
    for entry in entries {
        if reads || !matches!(entry.action.kind, Kind::Read) {
            members
                .push(ActionRef::Id(entry.action.id))
                .map_err(|_| Memory)?;
        }
    }
    Ok(members)
}

/// The same name once more.
fn copy_of(member: &ActionRef) -> Result<ActionRef, Memory>
    ensures { IfOk result (λ copy. copy ≡ member.now) }
{
    member.clone().map_err(|_| Memory)
}

/// Commits these members to the last step.
fn commit_all(sequence: &mut Sequence, members: &[ActionRef]) -> Result<(), Memory>
    requires { IsOpen sequence.old members.now }
    ensures { OnOk result (sequence.new ≡ with_members sequence.old members.now) }
{
    for member in members {
        let member = copy_of(member)?;
        sequence.commit(member)?;
    }
    Ok(())
}

/// The actions of the one thread of an execution.
fn entries_of(execution: &Execution) -> &[Entry]
    requires { 0 < length execution.now.threads }
    ensures { (t : ThreadPart) → execution.now.threads ≡ t ∷ [] → result.now ≡ t.entries }
{
    execution.threads()[0].entries.as_slice()
}

/// Whether some action reads a variable.
fn reads_something(entries: &[Entry]) -> bool
    ensures { result ≡ list_any (λ n. is_read n.action.kind) entries.now }
{
    entries
        .iter()
        .any(|entry| matches!(entry.action.kind, Kind::Read))
}

/// The step that commits all but the reads, where something is read.
fn unread_step(
    alloc: Global,
    program: &Program,
    sequence: &mut Sequence,
    defaults: &[ActionRef],
    entries: &[Entry],
) -> Result<(), Memory>
    requires straight { IsStraight program.now }
    requires defaults { AreDefaultsInOrder program.now defaults.now }
    requires entries { AreMainEntries program.now entries.now }
    ensures { OnOk result ((m : Method) → program.now.methods ≡ m ∷ [] → sequence.new ≡ (if (list_any (λ n. is_read n.action.kind) entries.now) then sequence.old ++ record { set = defaults.now ++ ids_of false entries.now; execution = execution_of program.now m } ∷ [] else sequence.old)) }
{
    if reads_something(entries) {
        let unread = ids(alloc, entries, false)?;
        add_step(alloc, program, sequence, defaults, unread.as_slice())?;
    }
    Ok(())
}

/// A step with the program's execution, which commits these default writes and identifiers.
fn add_step(
    alloc: Global,
    program: &Program,
    sequence: &mut Sequence,
    defaults: &[ActionRef],
    ids: &[ActionRef],
) -> Result<(), Memory>
    requires straight { IsStraight program.now }
    requires increasing { Ascends (defaults.now ++ ids.now) }
    requires spelt_defaults { All IsSpeltRef defaults.now }
    requires spelt_ids { All IsSpeltRef ids.now }
    ensures { OnOk result ((m : Method) → program.now.methods ≡ m ∷ [] → sequence.new ≡ sequence.old ++ record { set = defaults.now ++ ids.now; execution = execution_of program.now m } ∷ []) }
{
    let StraightRun {
        execution,
        printed: _,
        ints: _,
    } = run_straight(alloc, program)?;
    sequence.step(execution)?;
    commit_all(sequence, defaults)?;
    commit_all(sequence, ids)?;
    Ok(())
}

/// The sequence that commits the program's execution: in two steps where something is read, else in one.
pub fn committing_sequence(alloc: Global, program: &Program) -> Result<Sequence, Memory>
    requires { IsStraight program.now }
    ensures { IfOk result (IsSequenceOf program.now) }
{
    let defaults = default_writes(alloc, program)?;
    let run = run_straight(alloc, program)?;
    let entries = entries_of(&run.execution);
    let mut sequence = Sequence::new(alloc);
    unread_step(alloc, program, &mut sequence, defaults.as_slice(), entries)?;
    let all = ids(alloc, entries, true)?;
    add_step(
        alloc,
        program,
        &mut sequence,
        defaults.as_slice(),
        all.as_slice(),
    )?;
    Ok(sequence)
}
