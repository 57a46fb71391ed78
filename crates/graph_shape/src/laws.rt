//! Laws of the graph. A caller takes one by calling its function, which does nothing.

ghost use Rattle.graph_shape.specs.Laws.{StepsGoUp};

/// Each step along the code leads to a later spot, so the graph has no cycle.
pub fn steps_go_up()
    ensures { StepsGoUp }
{}
