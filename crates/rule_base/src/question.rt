//! What rules speak of.

ghost use Rattle.std.specs.Prelude.{◌≡◌, ◌<◌, ◌^◌, IfOk, length};

use ports::Memory;
use program_graph::Graph;

/// What rules speak of: a graph, and the number of steps.
#[derive(Clone, Copy, Drop)]
pub struct Question<'a> {
    pub graph: &'a Graph,
    pub steps: u32,
    ghost few_steps: { steps < 2 ^ 31 },
    ghost few_nodes: { length graph.now.details < 2 ^ 31 },
    ghost few_spots: { length graph.now.spots < 2 ^ 31 },
    ghost few_edges: { length graph.now.edges < 2 ^ 31 },
}

const MOST: usize = 2147483648;

impl<'a> Question<'a> {
    /// What rules speak of.
    ///
    /// # Errors
    /// `Memory` where something of it numbers 2^31 or more.
    pub fn new(graph: &'a Graph, steps: u32) -> Result<Question<'a>, Memory>
        ensures graph { IfOk result (λ question. question.graph.now ≡ graph.now) }
        ensures steps { IfOk result (λ question. question.steps ≡ steps) }
    {
        let few = graph.details.len() < MOST
            && graph.spots.len() < MOST
            && graph.edges.len() < MOST;
        if !few || steps as usize >= MOST {
            return Err(Memory);
        }
        Ok(Question { graph, steps })
    }
}
