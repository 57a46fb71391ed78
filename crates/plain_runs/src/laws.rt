//! A law of the runs of linked programs. A caller takes it by calling its function, which does nothing.

ghost use Rattle.plain_runs.specs.Laws.{RunsArePlain};

use linked_laws::laws::none_calls_itself;
use typed_runs::laws::runs_are_typed;

/// No state of a run of a linked program has two frames of one method.
pub fn runs_are_plain()
    ensures { RunsArePlain }
{
    runs_are_typed();
    none_calls_itself();
}
