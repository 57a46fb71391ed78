//! Committing sequences (JLS 17.4.8): sets of actions with the executions that they are committed in.

ghost use Rattle.std.specs.Prelude.{◌≡◌, ◌<◌, [], length, OnOk, OnErr};
ghost use Rattle.action_orders.specs.Sequence.{IsSequence, IsNextMember, with_step, with_member};

use crate::action::ActionRef;
use crate::execution::Execution;
use crate::lists::ActionRefs;
use ports::Memory;
use std::alloc::Global;
use std::marker::Model;

/// A set of actions, as the increasing list of their names, and the execution that commits it.
#[derive(Debug, Drop)]
pub struct SequenceStep {
    pub set: ActionRefs,
    pub execution: Execution,
}

/// A list of steps. The members of each set increase strictly (default writes first, by the bytes of their names, then
/// identifiers), and the names in them can be written (docs/TEXTS.md, "Names").
#[derive(Debug, Drop)]
pub struct Sequence {
    steps: Vec<SequenceStep>,
}

impl Model for Sequence {
    ghost use Rattle.std.specs.Prelude.{List};
    ghost use Rattle.action_orders.specs.declared.sequence.SequenceStep.{SequenceStep};
    ghost use Rattle.action_orders.specs.Sequence.{IsSequence};

    ghost Value = { List SequenceStep };

    ghost view = { λ s. s.steps.items };

    ghost invariant = { λ s. IsSequence s.steps.items };
}

impl Sequence {
    /// A sequence without steps.
    pub fn new(alloc: Global) -> Sequence
        ensures { result ≡ [] }
    {
        Sequence {
            steps: Vec::new(alloc),
        }
    }

    /// The steps.
    pub fn steps(&self) -> &[SequenceStep]
        ensures value { result.now ≡ self.now }
        ensures kept { IsSequence self.now }
    {
        self.steps.as_slice()
    }

    /// Adds a step with the empty set. Where memory is short, nothing changed.
    pub fn step(&mut self, execution: Execution) -> Result<(), Memory>
        ensures ok { OnOk result (self.new ≡ with_step self.old execution) }
        ensures err { OnErr result (self.new ≡ self.old) }
    {
        let alloc = *self.steps.allocator();
        let step = SequenceStep {
            set: ActionRefs::new(alloc),
            execution,
        };
        self.steps.push(step).map_err(|_| Memory)
    }

    /// Adds a member, above the last one, to the last step's set. Where memory is short, nothing changed.
    pub fn commit(&mut self, member: ActionRef) -> Result<(), Memory>
        requires { IsNextMember self.old member }
        ensures ok { OnOk result (self.new ≡ with_member self.old member) }
        ensures err { OnErr result (self.new ≡ self.old) }
    {
        let last = self.steps.len() - 1;
        let step = &mut self.steps[last];
        step.set.push(member)?;
        Ok(())
    }
}
