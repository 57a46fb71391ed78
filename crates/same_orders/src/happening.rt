//! Happens-before over committed actions.

ghost use Rattle.std.specs.Prelude.{◌≡◌, ◌<◌, ◌≤◌, ◌↔◌, IfOk, IsTrue, length, map};
ghost use Rattle.action_orders.specs.Causality.{Condition1};
ghost use Rattle.least_break.specs.Least.{IsScanned};
ghost use Rattle.step_members.specs.AtActions.{Condition2At, IsLeastAction};
ghost use Rattle.step_members.specs.Members.{AreMembers, IsMember, id_of};
ghost use Rattle.step_members.specs.Stages.{IsStage, committed_of, program_of, step_of};
ghost use Rattle.same_orders.specs.Happening.{AreDefaultsFirst, AreInRow, HappensAlikeIn, HappensBeforeLater, HappensBeforeNoEarlier, IsFirstAfter};
ghost use Rattle.same_orders.specs.Lines.{IsLine};
ghost use Rattle.same_orders.specs.Scanning.{AreAllAlikeAt};

use crate::line::Line;
use crate::threads::of_thread;
use clocks::THREADS;
use least_break::{lesser, noted};
use ports::Memory;
use std::alloc::Global;
use step_members::{Member, Stage};

/// The number of the first of a thread's committed actions that the action at a place of the step's execution happens before.
fn first_after(stage: &Stage, members: &[Member], at: usize) -> usize
    requires stage { IsStage stage.now }
    requires row { AreInRow stage.now members.now }
    requires inside { at < length stage.now.own.now.flat.entries.items }
    ensures { IsFirstAfter stage.now members.now at result }
{
    let mut low = 0;
    let mut high = members.len();
    while low < high {
        let middle = low + (high - low) / 2;
        if stage.own.happens_before(at, members[middle].own) {
            high = middle;
        } else {
            low = middle + 1;
        }
    }
    low
}

/// Whether the action at a place of the committed execution happens before all of a thread's committed actions from one on.
fn happens_before_later(stage: &Stage, line: &Line, at: usize, from: usize) -> bool
    requires stage { IsStage stage.now }
    requires line { IsLine line.now }
    requires row { AreInRow stage.now line.now.members.items }
    requires inside { at < length stage.now.whole.now.flat.entries.items }
    requires within { from ≤ length line.now.members.items }
    ensures { IsTrue result ↔ HappensBeforeLater stage.now line.now.members.items at from }
{
    match line.least_from(from) {
        Some(least) => stage.whole.happens_before(at, least),
        None => true,
    }
}

/// Whether the action at a place of the committed execution happens before one of a thread's committed actions before one.
fn happens_before_earlier(stage: &Stage, line: &Line, at: usize, below: usize) -> bool
    requires stage { IsStage stage.now }
    requires line { IsLine line.now }
    requires row { AreInRow stage.now line.now.members.items }
    requires inside { at < length stage.now.whole.now.flat.entries.items }
    requires within { below ≤ length line.now.members.items }
    ensures { (IsTrue result → ⊥) ↔ HappensBeforeNoEarlier stage.now line.now.members.items at below }
{
    match line.greatest_below(below) {
        Some(greatest) => stage.whole.happens_before(at, greatest),
        None => false,
    }
}

/// Whether a committed action happens before the same of a thread's committed actions in both executions.
fn happens_alike(stage: &Stage, line: &Line, member: Member) -> bool
    requires stage { IsStage stage.now }
    requires member { IsMember stage.now member }
    requires line { IsLine line.now }
    requires row { AreInRow stage.now line.now.members.items }
    ensures { IsTrue result ↔ HappensAlikeIn stage.now line.now.members.items member }
{
    let from = first_after(stage, &line.members, member.own);
    if happens_before_earlier(stage, line, member.whole, from) {
        return false;
    }
    happens_before_later(stage, line, member.whole, from)
}

/// The least committed action that doesn't happen before the same of a thread's committed actions in both executions.
fn scan(stage: &Stage, members: &[Member], line: &Line) -> Option<u64>
    requires stage { IsStage stage.now }
    requires members { AreMembers stage.now (length stage.now.own.now.flat.entries.items) members.now }
    requires line { IsLine line.now }
    requires row { AreInRow stage.now line.now.members.items }
    ensures { IsScanned (AreAllAlikeAt stage.now members.now line.now.members.items) (map (id_of stage.now) members.now) (length members.now) result }
{
    let mut least = None;
    for member in members {
        let id = stage.own.flat.action(member.own).id;
        least = noted(least, id, happens_alike(stage, line, *member));
    }
    least
}

/// The least action that breaks the second condition on a step (JLS 17.4.8), by its identifier, or none where the step meets it:
/// happens-before on the committed actions is that of the execution that is committed. The action is the first of a pair. The
/// first condition holds, and in both executions each default write happens before each action of a thread, as in those that are
/// well-formed. It takes time in proportion to the committed actions and the threads, with a logarithm.
///
/// # Errors
///
/// `Memory` where an allocation fails.
pub fn check_happens_before(
    alloc: Global,
    stage: &Stage,
    members: &[Member],
) -> Result<Option<u64>, Memory>
    requires stage { IsStage stage.now }
    requires present { Condition1 (program_of stage.now) (committed_of stage.now) (step_of stage.now) }
    requires members { AreMembers stage.now (length stage.now.own.now.flat.entries.items) members.now }
    requires first { AreDefaultsFirst (program_of stage.now) (committed_of stage.now) }
    requires own_first { AreDefaultsFirst (program_of stage.now) stage.now.own.now.flat.execution.now }
    ensures { IfOk result (IsLeastAction (Condition2At (program_of stage.now) (committed_of stage.now) (step_of stage.now))) }
{
    let mut least = None;
    for thread in 0..THREADS {
        let line = Line::new(alloc, of_thread(alloc, stage, members, thread)?)?;
        least = lesser(least, scan(stage, members, &line));
    }
    Ok(least)
}
