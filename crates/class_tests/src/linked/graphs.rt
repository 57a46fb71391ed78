//! The graphs of small programs, and why they have none.

ghost use Rattle.std.specs.Prelude.{IfOk};
ghost use Rattle.program_graph.specs.Limits.{IsWithin};

use super::{INIT, RETURN, Twist, classes};
use graph_laws::laws::linked_are_fit;
use line_text::bounds::Bounds;
use linking::link;
use program::Kind;
use program_graph::{ActionNode, Graph, GraphRefusal, steps_for, unroll, whole};
use std::test::Fail;

/// An action: its kind, its operand, and whether it is outermost.
type Action = (Kind, Option<u32>, bool);

/// The numbers of nodes and of edges, whether the bounds leave nothing out, the number of copies, and the actions in order.
#[derive(Drop)]
struct Shape {
    nodes: usize,
    edges: usize,
    whole: bool,
    steps: u32,
    actions: &'static [Action],
}

#[derive(Drop)]
enum Want {
    Graph(Shape),
    NeverEnds(u32),
    CodeNodes,
    ActionNodes,
    ReadNodes,
    Multiplications,
}

/// The codes of main and of T.run, the flags of M.a, the jumps that a thread may take, and the graph of their program.
#[derive(Drop)]
struct Row {
    main: &'static [u8],
    run: &'static [u8],
    flags: u8,
    jumps: u32,
    want: Want,
}

/// Starts T.
const STARTS: &[u8] = &[0xbb, 0, 6, 0x59, 0xb7, 0, 19, 0xb6, 0, 22, 0xb1];

const FIRST: Action = (Kind::First, None, false);

const LAST: Action = (Kind::Last, None, false);

const PRINT: Action = (Kind::Print, None, false);

const START: Action = (Kind::Start, Some(1), false);

/// Waits until x isn't 0, and prints y.
const WAITS: &[u8] = &[
    0xb2, 0, 29, 0x9a, 0, 6, 0xa7, 0xff, 0xfa, 0xb2, 0, 38, 0xb2, 0, 32, 0xb6, 0, 44, 0xb1,
];

const SEES_X: Action = (Kind::VolatileRead, Some(0), false);

const SEES_Y: Action = (Kind::Read, Some(1), false);

/// One write in each of so many turns.
const WRITES: &[u8] = &[0x04, 0xb3, 0, 32, 0x03, 0x99, 0xff, 0xfb, 0xb1];

/// One read in each turn.
const READS: &[u8] = &[0xb2, 0, 32, 0x9a, 0xff, 0xfd, 0xb1];

/// One multiplication in each turn.
const MULTIPLIES: &[u8] = &[0x04, 0x05, 0x68, 0x9a, 0xff, 0xfd, 0xb1];

/// Makes and starts T twice, and asks for each whether it is alive.
const TWO_ASKED: &[u8] = &[
    0xbb, 0, 6, 0x59, 0xb7, 0, 19, 0x59, 0xb6, 0, 22, 0xb6, 0, 89, 0x57, 0xbb, 0, 6, 0x59, 0xb7, 0,
    19, 0x59, 0xb6, 0, 22, 0xb6, 0, 89, 0x57, 0xb1,
];

const ROWS: [Row; 17] = [
    // y = 1; println(y)
    Row {
        main: &[
            0x04, 0xb3, 0, 32, 0xb2, 0, 38, 0xb2, 0, 32, 0xb6, 0, 44, 0xb1,
        ],
        run: RETURN,
        flags: 9,
        jumps: 4,
        want: Want::Graph(Shape {
            nodes: 8,
            edges: 7,
            whole: true,
            steps: 3,
            actions: &[
                FIRST,
                (Kind::Write, Some(0), false),
                (Kind::Read, Some(0), false),
                PRINT,
                LAST,
            ],
        }),
    },
    // a goto to itself
    Row {
        main: &[0xa7, 0, 0],
        run: RETURN,
        flags: 9,
        jumps: 4,
        want: Want::NeverEnds(0),
    },
    Row {
        main: STARTS,
        run: &[0xa7, 0, 0],
        flags: 9,
        jumps: 4,
        want: Want::NeverEnds(1),
    },
    // one action, read or multiplication too many, and too many nodes
    Row {
        main: WRITES,
        run: RETURN,
        flags: 9,
        jumps: 62,
        want: Want::ActionNodes,
    },
    Row {
        main: READS,
        run: RETURN,
        flags: 9,
        jumps: 24,
        want: Want::ReadNodes,
    },
    Row {
        main: MULTIPLIES,
        run: RETURN,
        flags: 9,
        jumps: 16,
        want: Want::Multiplications,
    },
    Row {
        main: WRITES,
        run: RETURN,
        flags: 9,
        jumps: 255,
        want: Want::CodeNodes,
    },
    // just within the limits
    Row {
        main: WRITES,
        run: RETURN,
        flags: 9,
        jumps: 61,
        want: Want::Graph(Shape {
            nodes: 312,
            edges: 372,
            whole: false,
            steps: 1,
            actions: &[],
        }),
    },
    Row {
        main: READS,
        run: RETURN,
        flags: 9,
        jumps: 23,
        want: Want::Graph(Shape {
            nodes: 74,
            edges: 96,
            whole: false,
            steps: 49,
            actions: &[],
        }),
    },
    Row {
        main: MULTIPLIES,
        run: RETURN,
        flags: 9,
        jumps: 15,
        want: Want::Graph(Shape {
            nodes: 82,
            edges: 96,
            whole: false,
            steps: 1,
            actions: &[],
        }),
    },
    // a wait with no, one and two jumps
    Row {
        main: STARTS,
        run: WAITS,
        flags: 9,
        jumps: 0,
        want: Want::Graph(Shape {
            nodes: 15,
            edges: 13,
            whole: false,
            steps: 5,
            actions: &[FIRST, START, LAST, FIRST, SEES_X, SEES_Y, PRINT, LAST],
        }),
    },
    Row {
        main: STARTS,
        run: WAITS,
        flags: 9,
        jumps: 1,
        want: Want::Graph(Shape {
            nodes: 22,
            edges: 21,
            whole: false,
            steps: 9,
            actions: &[
                FIRST, START, LAST, FIRST, SEES_X, SEES_Y, PRINT, SEES_X, SEES_Y, PRINT, LAST,
            ],
        }),
    },
    Row {
        main: STARTS,
        run: WAITS,
        flags: 9,
        jumps: 2,
        want: Want::Graph(Shape {
            nodes: 29,
            edges: 29,
            whole: false,
            steps: 13,
            actions: &[
                FIRST, START, LAST, FIRST, SEES_X, SEES_Y, PRINT, SEES_X, SEES_Y, PRINT, SEES_X,
                SEES_Y, PRINT, LAST,
            ],
        }),
    },
    // a method called from two places
    Row {
        main: &[0xb8, 0, 47, 0xb8, 0, 47, 0xb1],
        run: RETURN,
        flags: 9,
        jumps: 0,
        want: Want::Graph(Shape {
            nodes: 7,
            edges: 6,
            whole: true,
            steps: 1,
            actions: &[FIRST, LAST],
        }),
    },
    // a synchronized method within a block on the same monitor
    Row {
        main: &[0x12, 2, 0x59, 0x4c, 0xc2, 0xb8, 0, 47, 0x2b, 0xc3, 0xb1],
        run: RETURN,
        flags: 0x29,
        jumps: 0,
        want: Want::Graph(Shape {
            nodes: 11,
            edges: 10,
            whole: true,
            steps: 1,
            actions: &[
                FIRST,
                (Kind::Lock, Some(0), true),
                (Kind::Lock, Some(0), false),
                (Kind::Unlock, Some(0), false),
                (Kind::Unlock, Some(0), true),
                LAST,
            ],
        }),
    },
    // a conditional jump to the next place
    Row {
        main: &[0x03, 0x99, 0, 3, 0xb1],
        run: RETURN,
        flags: 9,
        jumps: 0,
        want: Want::Graph(Shape {
            nodes: 5,
            edges: 5,
            whole: true,
            steps: 1,
            actions: &[FIRST, LAST],
        }),
    },
    // two threads, each asked whether it is alive
    Row {
        main: TWO_ASKED,
        run: RETURN,
        flags: 9,
        jumps: 0,
        want: Want::Graph(Shape {
            nodes: 25,
            edges: 24,
            whole: true,
            steps: 1,
            actions: &[
                FIRST,
                START,
                (Kind::Detect, Some(1), false),
                (Kind::Start, Some(2), false),
                (Kind::Detect, Some(2), false),
                LAST,
                FIRST,
                LAST,
                FIRST,
                LAST,
            ],
        }),
    },
];

/// What a graph is like, but for its actions, or why there is none.
#[derive(Clone, Copy, Debug, PartialEq, Eq)]
enum Outline {
    Graph {
        nodes: usize,
        edges: usize,
        whole: bool,
        steps: u32,
    },
    NeverEnds(u32),
    CodeNodes,
    ActionNodes,
    ReadNodes,
    Multiplications,
    Memory,
}

/// What is wanted of a row.
fn wanted(want: &Want) -> Outline {
    match want {
        Want::Graph(shape) => Outline::Graph {
            nodes: shape.nodes,
            edges: shape.edges,
            whole: shape.whole,
            steps: shape.steps,
        },
        Want::NeverEnds(thread) => Outline::NeverEnds(*thread),
        Want::CodeNodes => Outline::CodeNodes,
        Want::ActionNodes => Outline::ActionNodes,
        Want::ReadNodes => Outline::ReadNodes,
        Want::Multiplications => Outline::Multiplications,
    }
}

/// What is found.
fn found(graph: &Result<Graph, GraphRefusal>) -> Outline
    requires { IfOk graph.now (λ g. IsWithin g.details g.actions) }
{
    match graph {
        Ok(graph) => Outline::Graph {
            nodes: graph.spots.len(),
            edges: graph.edges.len(),
            whole: whole(graph),
            steps: steps_for(graph),
        },
        Err(GraphRefusal::NeverEnds { thread }) => Outline::NeverEnds(*thread),
        Err(GraphRefusal::CodeNodes) => Outline::CodeNodes,
        Err(GraphRefusal::ActionNodes) => Outline::ActionNodes,
        Err(GraphRefusal::ReadNodes) => Outline::ReadNodes,
        Err(GraphRefusal::Multiplications) => Outline::Multiplications,
        Err(GraphRefusal::Memory) => Outline::Memory,
    }
}

/// Whether an action of a graph is this one.
fn is_action(found: &ActionNode, want: &Action) -> bool {
    let act = found.action.act;
    act.kind == want.0 && act.operand == want.1 && found.action.outermost == want.2
}

/// Whether a graph has these actions; none stands for any.
fn has_actions(graph: &Result<Graph, GraphRefusal>, want: &Want) -> bool {
    let (Ok(graph), Want::Graph(shape)) = (graph, want) else {
        return true;
    };
    let actions = graph.actions.as_slice();
    if shape.actions.is_empty() {
        return true;
    }
    if actions.len() != shape.actions.len() {
        return false;
    }
    for (place, action) in actions.iter().enumerate() {
        if !is_action(action, &shape.actions[place]) {
            return false;
        }
    }
    true
}

#[test]
fn draws(rt: HostRuntime) -> Result<(), Fail> {
    let alloc = rt.alloc();
    for (place, row) in ROWS.iter().enumerate() {
        let codes = [row.main, RETURN, RETURN, RETURN, RETURN, INIT, row.run];
        let classes = classes(alloc, Twist::Nothing, row.flags, &codes)?;
        let Ok(program) = link(alloc, &classes) else {
            assert_eq!(rt; place, ROWS.len());
            return Ok(());
        };
        linked_are_fit();
        let bounds = Bounds {
            jumps: row.jumps,
            width: 32,
        };
        let graph = unroll(alloc, &program, &bounds);
        assert_eq!(rt; (place, found(&graph)), (place, wanted(&row.want)));
        assert_eq!(rt; (place, has_actions(&graph, &row.want)), (place, true));
    }
    Ok(())
}
