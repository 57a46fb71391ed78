//! The way back.

ghost use Rattle.std.specs.Prelude.{◌≡◌, ◌-◌, ◌<◌, ◌∷◌, length};
ghost use Rattle.trail.specs.Steps.{level_of, with_step, without_newest, back_in};
ghost use Rattle.propagation.specs.Ready.{IsReady};
ghost use Rattle.search_steps.specs.States.{IsState, IsLastDecision};

use crate::state::State;
use literals::{is_positive, variable};
use trail::{Reason, Step};

/// Takes the newest step back. Its variable waits for a decision again, with the value that it had.
pub fn take_back(state: &mut State) -> Step
    requires state { IsState state.old }
    requires decided { 0 < level_of state.old.trail.steps }
    ensures state { IsState state.new }
    ensures newest { state.old.trail.steps ≡ result ∷ state.new.trail.steps }
    ensures trail { state.new.trail ≡ without_newest state.old.trail }
    ensures pool { state.new.pool ≡ state.old.pool }
{
    let step = state.trail.step(state.trail.len() - 1);
    state
        .order
        .put_back(variable(step.literal), is_positive(step.literal));
    state.trail.take_back();
    step
}

/// Takes the newest steps back until the level is no higher than this one.
pub fn unwind(state: &mut State, level: u32)
    requires { IsState state.old }
    ensures state { IsState state.new }
    ensures trail { state.new.trail ≡ back_in state.old.trail level }
    ensures pool { state.new.pool ≡ state.old.pool }
{
    while state.trail.level() > level {
        let _step = take_back(state);
    }
}

/// Takes the last decision back, and makes its opposite true, which is this literal: the decisions before
/// it exclude the last. Answers how many steps there are before the new one.
pub fn exclude_last(state: &mut State, literal: u32) -> usize
    requires state { IsState state.old }
    requires last { IsLastDecision state.old.trail.steps literal }
    ensures state { IsState state.new }
    ensures ready { IsReady state.new.pool state.new.trail result }
    ensures trail { state.new.trail ≡ with_step (back_in state.old.trail (level_of state.old.trail.steps - 1)) literal Reason.Decisions }
    ensures pool { state.new.pool ≡ state.old.pool }
{
    let level = state.trail.level();
    unwind(state, level - 1);
    let handled = state.trail.len();
    state.trail.assign(literal, Reason::Decisions);
    handled
}
