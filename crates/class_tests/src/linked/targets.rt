//! Threads that are made around targets.

use super::{INIT, Known, MAIN, RETURN, Row, Twist, Want};
use program::{MethodId, Operand};
use reached_methods::CodeKind;
use typing::TypeKind;

/// The code of the plain constructor of a target class.
const TARGET_INIT: &[u8] = &[0x2a, 0xb7, 0, 92, 0xb1];

/// The `run()V` of the target class.
const TARGET_RUN: MethodId = MethodId {
    class: 1,
    method: 1,
};

pub const TARGET_ROWS: [Row; 10] = [
    // a thread is made around a target, and started
    Row {
        twist: Twist::Target,
        flags: 9,
        codes: [
            &[
                0xbb, 0, 10, 0x59, 0xbb, 0, 4, 0x59, 0xb7, 0, 93, 0xb7, 0, 96, 0xb6, 0, 97, 0xb1,
            ],
            RETURN,
            RETURN,
            TARGET_INIT,
            RETURN,
            INIT,
            RETURN,
        ],
        want: Want::Linked {
            threads: &[MAIN, TARGET_RUN],
            volatile: &[],
            monitors: 0,
            methods: &[
                Known {
                    method: MAIN,
                    monitor: None,
                    operands: &[
                        Operand::Make(1),
                        Operand::Nothing,
                        Operand::Target(1),
                        Operand::Nothing,
                        Operand::Target(1),
                        Operand::Wrap(1),
                        Operand::Start(1),
                        Operand::Nothing,
                    ],
                },
                Known {
                    method: TARGET_RUN,
                    monitor: None,
                    operands: &[Operand::Nothing],
                },
            ],
        },
    },
    // what the target runs is reached
    Row {
        twist: Twist::Target,
        flags: 9,
        codes: [
            &[
                0xbb, 0, 10, 0x59, 0xbb, 0, 4, 0x59, 0xb7, 0, 93, 0xb7, 0, 96, 0x57, 0xb1,
            ],
            RETURN,
            RETURN,
            TARGET_INIT,
            &[0x6c],
            INIT,
            RETURN,
        ],
        want: Want::Code(CodeKind::Opcode, TARGET_RUN, 0),
    },
    // java/lang/Thread is made alone
    Row {
        twist: Twist::Target,
        flags: 9,
        codes: [
            &[0xbb, 0, 10, 0x57, 0xb1],
            RETURN,
            RETURN,
            TARGET_INIT,
            RETURN,
            INIT,
            RETURN,
        ],
        want: Want::Code(CodeKind::ForbiddenCall, MAIN, 0),
    },
    // the target is made alone
    Row {
        twist: Twist::Target,
        flags: 9,
        codes: [
            &[0xbb, 0, 4, 0x57, 0xb1],
            RETURN,
            RETURN,
            TARGET_INIT,
            RETURN,
            INIT,
            RETURN,
        ],
        want: Want::Code(CodeKind::ForbiddenCall, MAIN, 0),
    },
    // the target stands in a local first
    Row {
        twist: Twist::Target,
        flags: 9,
        codes: [
            &[
                0xbb, 0, 4, 0x59, 0xb7, 0, 93, 0x4c, 0xbb, 0, 10, 0x59, 0x2b, 0xb7, 0, 96, 0x57,
                0xb1,
            ],
            RETURN,
            RETURN,
            TARGET_INIT,
            RETURN,
            INIT,
            RETURN,
        ],
        want: Want::Code(CodeKind::ForbiddenCall, MAIN, 0),
    },
    // the class of the target isn't Runnable
    Row {
        twist: Twist::NotRunnable,
        flags: 9,
        codes: [
            &[
                0xbb, 0, 10, 0x59, 0xbb, 0, 4, 0x59, 0xb7, 0, 93, 0xb7, 0, 96, 0x57, 0xb1,
            ],
            RETURN,
            RETURN,
            TARGET_INIT,
            RETURN,
            INIT,
            RETURN,
        ],
        want: Want::Code(CodeKind::ForbiddenCall, MAIN, 0),
    },
    // the constructor of the target does more
    Row {
        twist: Twist::Target,
        flags: 9,
        codes: [
            &[
                0xbb, 0, 10, 0x59, 0xbb, 0, 4, 0x59, 0xb7, 0, 93, 0xb7, 0, 96, 0x57, 0xb1,
            ],
            RETURN,
            RETURN,
            &[0, 0x2a, 0xb7, 0, 92, 0xb1],
            RETURN,
            INIT,
            RETURN,
        ],
        want: Want::Code(CodeKind::ForbiddenCall, MAIN, 0),
    },
    // start() is called on the target's class
    Row {
        twist: Twist::Target,
        flags: 9,
        codes: [
            &[
                0xbb, 0, 10, 0x59, 0xbb, 0, 4, 0x59, 0xb7, 0, 93, 0xb7, 0, 96, 0xb6, 0, 98, 0xb1,
            ],
            RETURN,
            RETURN,
            TARGET_INIT,
            RETURN,
            INIT,
            RETURN,
        ],
        want: Want::Code(CodeKind::ForbiddenCall, MAIN, 14),
    },
    // a loop takes in the second half of a form
    Row {
        twist: Twist::Target,
        flags: 9,
        codes: [
            &[
                0xbb, 0, 10, 0x59, 0xbb, 0, 4, 0x59, 0xb7, 0, 93, 0xb7, 0, 96, 0x57, 0xa7, 0xff,
                0xf4,
            ],
            RETURN,
            RETURN,
            TARGET_INIT,
            RETURN,
            INIT,
            RETURN,
        ],
        want: Want::Code(CodeKind::ThreadInLoop, MAIN, 4),
    },
    // a thread around a target is started twice
    Row {
        twist: Twist::Target,
        flags: 9,
        codes: [
            &[
                0xbb, 0, 10, 0x59, 0xbb, 0, 4, 0x59, 0xb7, 0, 93, 0xb7, 0, 96, 0x59, 0xb6, 0, 97,
                0xb6, 0, 97, 0xb1,
            ],
            RETURN,
            RETURN,
            TARGET_INIT,
            RETURN,
            INIT,
            RETURN,
        ],
        want: Want::Typing(TypeKind::ThreadState, MAIN, 18),
    },
];
