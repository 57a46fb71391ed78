//! What arguments of rules range over.

ghost use Rattle.std.specs.Prelude.{◌≡◌};
ghost use Rattle.rule_base.specs.Tables.{is_letter};

/// What an argument of a rule ranges over. A number in it is the place of an earlier argument of the same rule.
#[derive(Clone, Copy, Debug, PartialEq, Eq, Drop)]
pub enum Letter {
    /// A copy.
    Copy,
    /// A node.
    Node,
    /// A node, but for those where a thread begins.
    NodeNotBegin,
    /// A node, but for those where a thread ends.
    NodeNotEnd,
    /// The node where the thread with this number begins.
    BeginOfThread(u32),
    /// The node where an earlier argument, a thread, begins.
    BeginOf(usize),
    /// An edge.
    Edge,
    /// An edge after an earlier argument, from the same node.
    EdgeBeside(usize),
    /// An edge from an earlier argument.
    EdgeFrom(usize),
    /// An edge to an earlier argument.
    EdgeTo(usize),
    /// A thread that is started by others.
    LaterThread,
    /// A node that starts an earlier argument, a thread.
    StartOf(usize),
    /// The place of a bit in an int.
    Bit,
    /// Which of the two clauses of an equation.
    Sign,
    /// An edge from a conditional jump.
    JumpEdge,
    /// A slot that holds an int where an earlier argument, an edge, leads.
    IntSlotTo(usize),
    /// An inner bit of an earlier argument, a node.
    InnerBitOf(usize),
    /// A row of the gate of an inner bit: the node and the bit are earlier arguments.
    InnerRow(usize, usize),
    /// A node whose result has gates.
    GatedNode,
    /// A row of the gate of a bit of a result: the node and the bit are earlier arguments.
    ResultRow(usize, usize),
    /// A node with a result.
    ResultNode,
    /// The place of a bit that ints within the bounds don't need: from their width on.
    HighBit,
    /// Nothing: it fills up the rows of tables.
    Unused,
}

impl Letter {
    /// Whether it is one, and doesn't fill up a row.
    pub fn is_used(self) -> bool
        ensures { result ≡ is_letter self }
    {
        !matches!(self, Letter::Unused)
    }
}
