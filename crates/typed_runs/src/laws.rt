//! Laws of the runs of linked programs. A caller takes one by calling its function, which does nothing.

ghost use Rattle.typed_runs.specs.Laws.{RunsAreTyped, RunsGoOn, TracesAreLinked};

/// Along every run of a thread of a linked program, each frame's stack, locals and counts of monitors are those of the typed
/// state at its place.
pub fn runs_are_typed()
    ensures { RunsAreTyped }
{}

/// From every state of a run of a linked program that is not the end a step leads on, whatever a read reads.
pub fn runs_go_on()
    ensures { RunsGoOn }
{}

/// The trace of a thread of a linked program is never refused for want of a step.
pub fn traces_are_linked()
    ensures { TracesAreLinked }
{}
