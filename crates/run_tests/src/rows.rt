//! Programs, executions and what is said of them.

use crate::executions::{Item, Part, Written};
use thread_runs::Runs;

/// The codes of main and of run()V of the thread class, the bounds, an execution, and the answer.
#[derive(Clone, Copy)]
pub struct Row {
    pub main: &'static [u8],
    pub run: &'static [u8],
    pub jumps: u32,
    pub width: u32,
    pub execution: Written,
    pub want: Runs,
}

const RETURN: &[u8] = &[0xb1];

/// x = 5; println(x)
const WRITES: &[u8] = &[
    0x08, 0xb3, 0, 27, 0xb2, 0, 33, 0xb2, 0, 27, 0xb6, 0, 39, 0xb1,
];

/// x = 200; println(x)
const WRITES_WIDE: &[u8] = &[
    0x11, 0, 200, 0xb3, 0, 27, 0xb2, 0, 33, 0xb2, 0, 27, 0xb6, 0, 39, 0xb1,
];

/// while (x == 0);
const WAITS: &[u8] = &[0xb2, 0, 27, 0x99, 0xff, 0xfd, 0xb1];

/// new T()
const MAKES: &[u8] = &[0xbb, 0, 4, 0x59, 0xb7, 0, 17, 0x57, 0xb1];

/// t = new T(); t.start(); t.join()
const JOINS: &[u8] = &[
    0xbb, 0, 4, 0x59, 0xb7, 0, 17, 0x59, 0xb6, 0, 20, 0xb6, 0, 23, 0xb1,
];

/// t = new T(); t.start(); if (!t.isAlive()) println(x)
const ASKS: &[u8] = &[
    0xbb, 0, 4, 0x59, 0xb7, 0, 17, 0x59, 0xb6, 0, 20, 0xb6, 0, 43, 0x9a, 0, 12, 0xb2, 0, 33, 0xb2,
    0, 27, 0xb6, 0, 39, 0xb1,
];

/// 200 is pushed and dropped
const PUSHES_WIDE: &[u8] = &[0x11, 0, 200, 0x57, 0xb1];

const MAIN: Runs = Runs::Wrong { thread: 0 };

const ONE: Runs = Runs::Wrong { thread: 1 };

const MAIN_PAST: Runs = Runs::Past { thread: 0 };

/// Main writes 5 to x, reads what that write stored, and prints.
const FIVE: [(u64, Item); 5] = [
    (1, Item::First),
    (2, Item::Write(5)),
    (3, Item::Read(Some(2))),
    (4, Item::Print),
    (5, Item::Last),
];

/// The same with 6.
const SIX: [(u64, Item); 5] = [
    (1, Item::First),
    (2, Item::Write(6)),
    (3, Item::Read(Some(2))),
    (4, Item::Print),
    (5, Item::Last),
];

/// The same with 200.
const WIDE: [(u64, Item); 5] = [
    (1, Item::First),
    (2, Item::Write(200)),
    (3, Item::Read(Some(2))),
    (4, Item::Print),
    (5, Item::Last),
];

const SHORT: [(u64, Item); 2] = [(1, Item::First), (4, Item::Last)];

const STARTS: [(u64, Item); 4] = [
    (1, Item::First),
    (2, Item::Start(1)),
    (3, Item::Detect(1)),
    (4, Item::Last),
];

const OTHER: [(u64, Item); 2] = [(7, Item::First), (8, Item::Last)];

pub const ROWS: [Row; 20] = [
    // the run has exactly these actions
    Row {
        main: WRITES,
        run: RETURN,
        jumps: 0,
        width: 32,
        execution: Written {
            parts: &[Part {
                thread: 0,
                actions: &FIVE,
            }],
            so: &[1, 5],
        },
        want: Runs::Within,
    },
    // the write stores another value; nothing is written; main doesn't act; main has no action
    Row {
        main: WRITES,
        run: RETURN,
        jumps: 0,
        width: 32,
        execution: Written {
            parts: &[Part {
                thread: 0,
                actions: &SIX,
            }],
            so: &[1, 5],
        },
        want: MAIN,
    },
    Row {
        main: WRITES,
        run: RETURN,
        jumps: 0,
        width: 32,
        execution: Written {
            parts: &[Part {
                thread: 0,
                actions: &SHORT,
            }],
            so: &[1, 4],
        },
        want: MAIN,
    },
    Row {
        main: WRITES,
        run: RETURN,
        jumps: 0,
        width: 32,
        execution: Written {
            parts: &[],
            so: &[],
        },
        want: MAIN,
    },
    Row {
        main: WRITES,
        run: RETURN,
        jumps: 0,
        width: 32,
        execution: Written {
            parts: &[Part {
                thread: 0,
                actions: &[],
            }],
            so: &[],
        },
        want: MAIN,
    },
    // an int is too wide, whatever the actions are
    Row {
        main: WRITES_WIDE,
        run: RETURN,
        jumps: 0,
        width: 32,
        execution: Written {
            parts: &[Part {
                thread: 0,
                actions: &WIDE,
            }],
            so: &[1, 5],
        },
        want: Runs::Within,
    },
    Row {
        main: WRITES_WIDE,
        run: RETURN,
        jumps: 0,
        width: 8,
        execution: Written {
            parts: &[Part {
                thread: 0,
                actions: &WIDE,
            }],
            so: &[1, 5],
        },
        want: MAIN_PAST,
    },
    Row {
        main: WRITES_WIDE,
        run: RETURN,
        jumps: 0,
        width: 8,
        execution: Written {
            parts: &[Part {
                thread: 0,
                actions: &SIX,
            }],
            so: &[1, 5],
        },
        want: MAIN_PAST,
    },
    // the first jump back is too many; it is not, and the reads are used up
    Row {
        main: WAITS,
        run: RETURN,
        jumps: 0,
        width: 32,
        execution: Written {
            parts: &[Part {
                thread: 0,
                actions: &[(1, Item::First), (2, Item::Read(None)), (4, Item::Last)],
            }],
            so: &[1, 4],
        },
        want: MAIN_PAST,
    },
    Row {
        main: WAITS,
        run: RETURN,
        jumps: 1,
        width: 32,
        execution: Written {
            parts: &[Part {
                thread: 0,
                actions: &[(1, Item::First), (2, Item::Read(None)), (4, Item::Last)],
            }],
            so: &[1, 4],
        },
        want: MAIN,
    },
    // a thread is started and waited for; it doesn't act; it has no action
    Row {
        main: JOINS,
        run: RETURN,
        jumps: 0,
        width: 32,
        execution: Written {
            parts: &[
                Part {
                    thread: 0,
                    actions: &STARTS,
                },
                Part {
                    thread: 1,
                    actions: &OTHER,
                },
            ],
            so: &[1, 2, 7, 8, 3, 4],
        },
        want: Runs::Within,
    },
    Row {
        main: JOINS,
        run: RETURN,
        jumps: 0,
        width: 32,
        execution: Written {
            parts: &[Part {
                thread: 0,
                actions: &STARTS,
            }],
            so: &[1, 2, 3, 4],
        },
        want: ONE,
    },
    Row {
        main: JOINS,
        run: RETURN,
        jumps: 0,
        width: 32,
        execution: Written {
            parts: &[
                Part {
                    thread: 0,
                    actions: &STARTS,
                },
                Part {
                    thread: 1,
                    actions: &[],
                },
            ],
            so: &[1, 2, 3, 4],
        },
        want: ONE,
    },
    // a thread acts and isn't started; so does one that the program hasn't got
    Row {
        main: MAKES,
        run: RETURN,
        jumps: 0,
        width: 32,
        execution: Written {
            parts: &[
                Part {
                    thread: 0,
                    actions: &SHORT,
                },
                Part {
                    thread: 1,
                    actions: &OTHER,
                },
            ],
            so: &[1, 4, 7, 8],
        },
        want: ONE,
    },
    Row {
        main: MAKES,
        run: RETURN,
        jumps: 0,
        width: 32,
        execution: Written {
            parts: &[
                Part {
                    thread: 0,
                    actions: &SHORT,
                },
                Part {
                    thread: 2,
                    actions: &OTHER,
                },
            ],
            so: &[1, 4, 7, 8],
        },
        want: Runs::Wrong { thread: 2 },
    },
    // isAlive answers no where its thread detects the end, else yes
    Row {
        main: ASKS,
        run: RETURN,
        jumps: 0,
        width: 32,
        execution: Written {
            parts: &[
                Part {
                    thread: 0,
                    actions: &[
                        (1, Item::First),
                        (2, Item::Start(1)),
                        (3, Item::Detect(1)),
                        (4, Item::Read(None)),
                        (5, Item::Print),
                        (6, Item::Last),
                    ],
                },
                Part {
                    thread: 1,
                    actions: &OTHER,
                },
            ],
            so: &[1, 2, 7, 8, 3, 6],
        },
        want: Runs::Within,
    },
    Row {
        main: ASKS,
        run: RETURN,
        jumps: 0,
        width: 32,
        execution: Written {
            parts: &[
                Part {
                    thread: 0,
                    actions: &[(1, Item::First), (2, Item::Start(1)), (3, Item::Last)],
                },
                Part {
                    thread: 1,
                    actions: &OTHER,
                },
            ],
            so: &[1, 2, 3, 7, 8],
        },
        want: Runs::Within,
    },
    Row {
        main: ASKS,
        run: RETURN,
        jumps: 0,
        width: 32,
        execution: Written {
            parts: &[
                Part {
                    thread: 0,
                    actions: &[
                        (1, Item::First),
                        (2, Item::Start(1)),
                        (4, Item::Read(None)),
                        (5, Item::Print),
                        (6, Item::Last),
                    ],
                },
                Part {
                    thread: 1,
                    actions: &OTHER,
                },
            ],
            so: &[1, 2, 6, 7, 8],
        },
        want: MAIN,
    },
    // thread 1 alone leaves the bounds; it does and isn't started
    Row {
        main: JOINS,
        run: PUSHES_WIDE,
        jumps: 0,
        width: 8,
        execution: Written {
            parts: &[
                Part {
                    thread: 0,
                    actions: &STARTS,
                },
                Part {
                    thread: 1,
                    actions: &OTHER,
                },
            ],
            so: &[1, 2, 7, 8, 3, 4],
        },
        want: Runs::Past { thread: 1 },
    },
    Row {
        main: MAKES,
        run: PUSHES_WIDE,
        jumps: 0,
        width: 8,
        execution: Written {
            parts: &[
                Part {
                    thread: 0,
                    actions: &SHORT,
                },
                Part {
                    thread: 1,
                    actions: &OTHER,
                },
            ],
            so: &[1, 4, 7, 8],
        },
        want: ONE,
    },
];
