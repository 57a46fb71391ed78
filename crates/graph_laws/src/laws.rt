//! Laws of graphs. A caller takes one by calling its function, which does nothing.

ghost use Rattle.graph_laws.specs.Laws.{LinkedAreFit, OneGraph, SlotsAreInts};

use linked_laws::laws::are_ordered;
use typed_runs::laws::runs_are_typed;

/// A linked program has the typed state of each of its instructions, and each method that is called.
pub fn linked_are_fit()
    ensures { LinkedAreFit }
{}

/// A program has at most one graph for its bounds.
pub fn one_graph()
    ensures { OneGraph }
{}

/// Where a thread of a linked program stands at a spot, each int slot of the spot holds an int.
pub fn slots_are_ints()
    ensures { SlotsAreInts }
{
    are_ordered();
    runs_are_typed();
}
