//! The programs that small classes make, and why they make none.

ghost use Rattle.std.specs.Prelude.{◌≤◌, IfOk, length};
ghost use Rattle.class_format.specs.ClassText.{IsValid};

mod data;
mod graphs;
mod refused;
mod targets;

use class_format::{ClassRecord, read_class, valid_has_text};
use class_profile::ClassKind;
use data::{Field, Head, MORE, Part, class_bytes};
use linking::{ClassList, ProgramRefusal, link};
use program::{MethodId, Operand, Program};
use reached_methods::CodeKind;
use refused::{CLASS_ROWS, CODE_ROWS};
use std::alloc::{AllocError, Global};
use std::test::Fail;
use targets::TARGET_ROWS;
use typing::TypeKind;
use untyped_program::LimitKind;

/// A code that returns at once.
const RETURN: &[u8] = &[0xb1];

/// The code of a plain constructor of a thread class.
const INIT: &[u8] = &[0x2a, 0xb7, 0, 18, 0xb1];

const MAIN: MethodId = MethodId {
    class: 0,
    method: 0,
};

const A: MethodId = MethodId {
    class: 0,
    method: 1,
};

const B: MethodId = MethodId {
    class: 0,
    method: 2,
};

const C: MethodId = MethodId {
    class: 1,
    method: 0,
};

const D: MethodId = MethodId {
    class: 1,
    method: 1,
};

const RUN: MethodId = MethodId {
    class: 2,
    method: 1,
};

/// A method of a program: its monitor, and what its instructions name.
struct Known {
    method: MethodId,
    monitor: Option<u32>,
    operands: &'static [Operand],
}

enum Want {
    /// The methods that the threads run, which variables are volatile, the number of the monitors, and the methods.
    Linked {
        threads: &'static [MethodId],
        volatile: &'static [bool],
        monitors: usize,
        methods: &'static [Known],
    },
    Class(ClassKind, Option<u32>),
    Code(CodeKind, MethodId, u32),
    Typing(TypeKind, MethodId, u32),
    Limit(LimitKind),
}

/// What is other than usual in the classes.
#[derive(Clone, Copy)]
enum Twist {
    Nothing,
    /// N has the name of M.
    SameClass,
    /// M.main isn't static.
    NoMain,
    /// M.b is a class initializer.
    ClassInit,
    /// The second field of N isn't static.
    InstanceField,
    /// The second field of N is a PrintStream.
    FieldType,
    /// N is an interface.
    Interface,
    /// The second method of N has the name of the first.
    SameMethod,
    /// y of M is final.
    Final,
    /// M has sixteen more fields.
    MoreFields,
    /// N names java/lang/Runnable, and its methods are <init>()V and run()V; the stack of main is four high.
    Target,
    /// The same, but N names no interface.
    NotRunnable,
}

/// The codes of M.main, M.a, M.b, N.a, N.b, T.<init> and T.run.
type Codes = [&'static [u8]; 7];

/// The flags of M.a, the codes, and what comes of them.
struct Row {
    twist: Twist,
    flags: u8,
    codes: Codes,
    want: Want,
}

/// Programs, and refusals by types and limits.
const ROWS: [Row; 18] = [
    // a thread is made, started and waited for; it reads a volatile variable
    Row {
        twist: Twist::Nothing,
        flags: 9,
        codes: [
            &[
                0xbb, 0, 6, 0x59, 0xb7, 0, 19, 0x59, 0xb6, 0, 22, 0xb6, 0, 25, 0xb1,
            ],
            RETURN,
            RETURN,
            RETURN,
            RETURN,
            INIT,
            &[0xb2, 0, 29, 0x57, 0xb1],
        ],
        want: Want::Linked {
            threads: &[MAIN, RUN],
            volatile: &[true],
            monitors: 0,
            methods: &[
                Known {
                    method: MAIN,
                    monitor: None,
                    operands: &[
                        Operand::Make(1),
                        Operand::Nothing,
                        Operand::Make(1),
                        Operand::Nothing,
                        Operand::Start(1),
                        Operand::Join(1),
                        Operand::Nothing,
                    ],
                },
                Known {
                    method: RUN,
                    monitor: None,
                    operands: &[Operand::Variable(0), Operand::Nothing, Operand::Nothing],
                },
            ],
        },
    },
    // a monitor is entered and left, and a synchronized method called, which prints y
    Row {
        twist: Twist::Nothing,
        flags: 0x29,
        codes: [
            &[0x12, 2, 0x59, 0xc2, 0xc3, 0xb8, 0, 47, 0xb1],
            &[0xb2, 0, 38, 0xb2, 0, 32, 0xb6, 0, 44, 0xb1],
            RETURN,
            RETURN,
            RETURN,
            INIT,
            RETURN,
        ],
        want: Want::Linked {
            threads: &[MAIN],
            volatile: &[false],
            monitors: 1,
            methods: &[
                Known {
                    method: MAIN,
                    monitor: None,
                    operands: &[
                        Operand::Monitor(0),
                        Operand::Nothing,
                        Operand::Monitor(0),
                        Operand::Monitor(0),
                        Operand::Method(A),
                        Operand::Nothing,
                    ],
                },
                Known {
                    method: A,
                    monitor: Some(0),
                    operands: &[
                        Operand::Out,
                        Operand::Variable(0),
                        Operand::Print,
                        Operand::Nothing,
                    ],
                },
            ],
        },
    },
    // an unreached method may be anything
    Row {
        twist: Twist::Nothing,
        flags: 9,
        codes: [
            &[8, 0xb3, 0, 29, 0xb1],
            &[0x6c],
            RETURN,
            RETURN,
            RETURN,
            INIT,
            &[0x57],
        ],
        want: Want::Linked {
            threads: &[MAIN],
            volatile: &[true],
            monitors: 0,
            methods: &[Known {
                method: MAIN,
                monitor: None,
                operands: &[Operand::Constant(5), Operand::Variable(0), Operand::Nothing],
            }],
        },
    },
    // nothing is on the stack
    Row {
        twist: Twist::Nothing,
        flags: 9,
        codes: [
            &[0, 0x57, 0xb1],
            RETURN,
            RETURN,
            RETURN,
            RETURN,
            INIT,
            RETURN,
        ],
        want: Want::Typing(TypeKind::TypeMisfit, MAIN, 1),
    },
    // a stack of three
    Row {
        twist: Twist::Nothing,
        flags: 9,
        codes: [
            &[3, 3, 3, 0xb1],
            RETURN,
            RETURN,
            RETURN,
            RETURN,
            INIT,
            RETURN,
        ],
        want: Want::Typing(TypeKind::StackDepth, MAIN, 2),
    },
    // an int is locked
    Row {
        twist: Twist::Nothing,
        flags: 9,
        codes: [
            &[3, 0xc2, 0xb1],
            RETURN,
            RETURN,
            RETURN,
            RETURN,
            INIT,
            RETURN,
        ],
        want: Want::Typing(TypeKind::LockOperand, MAIN, 1),
    },
    // a return holds a monitor
    Row {
        twist: Twist::Nothing,
        flags: 9,
        codes: [
            &[0x12, 4, 0xc2, 0xb1],
            RETURN,
            RETURN,
            RETURN,
            RETURN,
            INIT,
            RETURN,
        ],
        want: Want::Typing(TypeKind::Unstructured, MAIN, 3),
    },
    // a thread is waited for that isn't started
    Row {
        twist: Twist::Nothing,
        flags: 9,
        codes: [
            &[0xbb, 0, 6, 0x59, 0xb7, 0, 19, 0xb6, 0, 25, 0xb1],
            RETURN,
            RETURN,
            RETURN,
            RETURN,
            INIT,
            RETURN,
        ],
        want: Want::Typing(TypeKind::ThreadState, MAIN, 7),
    },
    // a thread is asked whether it is alive
    Row {
        twist: Twist::Nothing,
        flags: 9,
        codes: [
            &[
                0xbb, 0, 6, 0x59, 0xb7, 0, 19, 0x59, 0xb6, 0, 22, 0xb6, 0, 89, 0x57, 0xb1,
            ],
            RETURN,
            RETURN,
            RETURN,
            RETURN,
            INIT,
            RETURN,
        ],
        want: Want::Linked {
            threads: &[MAIN, RUN],
            volatile: &[],
            monitors: 0,
            methods: &[
                Known {
                    method: MAIN,
                    monitor: None,
                    operands: &[
                        Operand::Make(1),
                        Operand::Nothing,
                        Operand::Make(1),
                        Operand::Nothing,
                        Operand::Start(1),
                        Operand::Alive(1),
                        Operand::Nothing,
                        Operand::Nothing,
                    ],
                },
                Known {
                    method: RUN,
                    monitor: None,
                    operands: &[Operand::Nothing],
                },
            ],
        },
    },
    // a thread is asked twice
    Row {
        twist: Twist::Nothing,
        flags: 9,
        codes: [
            &[
                0xbb, 0, 6, 0x59, 0xb7, 0, 19, 0x4c, 0x2b, 0xb6, 0, 22, 0x2b, 0xb6, 0, 89, 0x57,
                0x2b, 0xb6, 0, 89, 0x57, 0xb1,
            ],
            RETURN,
            RETURN,
            RETURN,
            RETURN,
            INIT,
            RETURN,
        ],
        want: Want::Typing(TypeKind::ThreadState, MAIN, 18),
    },
    // two methods can't be typed: the first by place, which is called last
    Row {
        twist: Twist::Nothing,
        flags: 9,
        codes: [
            &[0xb8, 0, 48, 0xb8, 0, 51, 0xb1],
            RETURN,
            &[0, 0, 0x57, 0xb1],
            &[0x57, 0xb1],
            RETURN,
            INIT,
            RETURN,
        ],
        want: Want::Typing(TypeKind::TypeMisfit, B, 2),
    },
    // eight threads
    Row {
        twist: Twist::Nothing,
        flags: 9,
        codes: [
            &[
                0xbb, 0, 6, 0x57, 0xbb, 0, 6, 0x57, 0xbb, 0, 6, 0x57, 0xbb, 0, 6, 0x57, 0xbb, 0, 6,
                0x57, 0xbb, 0, 6, 0x57, 0xbb, 0, 6, 0x57, 0xb1,
            ],
            RETURN,
            RETURN,
            RETURN,
            RETURN,
            INIT,
            RETURN,
        ],
        want: Want::Linked {
            threads: &[MAIN, RUN, RUN, RUN, RUN, RUN, RUN, RUN],
            volatile: &[],
            monitors: 0,
            methods: &[
                Known {
                    method: MAIN,
                    monitor: None,
                    operands: &[
                        Operand::Make(1),
                        Operand::Nothing,
                        Operand::Make(2),
                        Operand::Nothing,
                        Operand::Make(3),
                        Operand::Nothing,
                        Operand::Make(4),
                        Operand::Nothing,
                        Operand::Make(5),
                        Operand::Nothing,
                        Operand::Make(6),
                        Operand::Nothing,
                        Operand::Make(7),
                        Operand::Nothing,
                        Operand::Nothing,
                    ],
                },
                Known {
                    method: RUN,
                    monitor: None,
                    operands: &[Operand::Nothing],
                },
            ],
        },
    },
    // nine threads
    Row {
        twist: Twist::Nothing,
        flags: 9,
        codes: [
            &[
                0xbb, 0, 6, 0x57, 0xbb, 0, 6, 0x57, 0xbb, 0, 6, 0x57, 0xbb, 0, 6, 0x57, 0xbb, 0, 6,
                0x57, 0xbb, 0, 6, 0x57, 0xbb, 0, 6, 0x57, 0xbb, 0, 6, 0x57, 0xb1,
            ],
            RETURN,
            RETURN,
            RETURN,
            RETURN,
            INIT,
            RETURN,
        ],
        want: Want::Limit(LimitKind::Threads),
    },
    // nine threads, whose run can't be typed
    Row {
        twist: Twist::Nothing,
        flags: 9,
        codes: [
            &[
                0xbb, 0, 6, 0x57, 0xbb, 0, 6, 0x57, 0xbb, 0, 6, 0x57, 0xbb, 0, 6, 0x57, 0xbb, 0, 6,
                0x57, 0xbb, 0, 6, 0x57, 0xbb, 0, 6, 0x57, 0xbb, 0, 6, 0x57, 0xb1,
            ],
            RETURN,
            RETURN,
            RETURN,
            RETURN,
            INIT,
            &[0x57, 0xb1],
        ],
        want: Want::Typing(TypeKind::TypeMisfit, RUN, 0),
    },
    // seventeen variables
    Row {
        twist: Twist::MoreFields,
        flags: 9,
        codes: [
            &[
                0xb2, 0, 29, 0x57, 0xb2, 0, 32, 0x57, 0xb2, 0, 70, 0x57, 0xb2, 0, 71, 0x57, 0xb2,
                0, 72, 0x57, 0xb2, 0, 73, 0x57, 0xb2, 0, 74, 0x57, 0xb2, 0, 75, 0x57, 0xb2, 0, 76,
                0x57, 0xb2, 0, 77, 0x57, 0xb2, 0, 78, 0x57, 0xb2, 0, 79, 0x57, 0xb2, 0, 80, 0x57,
                0xb2, 0, 81, 0x57, 0xb2, 0, 82, 0x57, 0xb2, 0, 83, 0x57, 0xb2, 0, 84, 0x57, 0xb1,
            ],
            RETURN,
            RETURN,
            RETURN,
            RETURN,
            INIT,
            RETURN,
        ],
        want: Want::Limit(LimitKind::Variables),
    },
    // a chain of four calls holds sixteen ints
    Row {
        twist: Twist::Nothing,
        flags: 9,
        codes: [
            &[0xb8, 0, 47, 0xb1],
            &[0xb8, 0, 51, 0xb1],
            &[0xb8, 0, 48, 0xb1],
            RETURN,
            RETURN,
            INIT,
            RETURN,
        ],
        want: Want::Linked {
            threads: &[MAIN],
            volatile: &[],
            monitors: 0,
            methods: &[
                Known {
                    method: MAIN,
                    monitor: None,
                    operands: &[Operand::Method(A), Operand::Nothing],
                },
                Known {
                    method: A,
                    monitor: None,
                    operands: &[Operand::Method(B), Operand::Nothing],
                },
                Known {
                    method: B,
                    monitor: None,
                    operands: &[Operand::Method(C), Operand::Nothing],
                },
                Known {
                    method: C,
                    monitor: None,
                    operands: &[Operand::Nothing],
                },
            ],
        },
    },
    // a chain of five calls holds twenty
    Row {
        twist: Twist::Nothing,
        flags: 9,
        codes: [
            &[0xb8, 0, 47, 0xb1],
            &[0xb8, 0, 51, 0xb1],
            &[0xb8, 0, 48, 0xb1],
            &[0xb8, 0, 52, 0xb1],
            RETURN,
            INIT,
            RETURN,
        ],
        want: Want::Limit(LimitKind::FrameSlots),
    },
    // the same, and the last method can't be typed
    Row {
        twist: Twist::Nothing,
        flags: 9,
        codes: [
            &[0xb8, 0, 47, 0xb1],
            &[0xb8, 0, 51, 0xb1],
            &[0xb8, 0, 48, 0xb1],
            &[0xb8, 0, 52, 0xb1],
            &[0x57, 0xb1],
            INIT,
            RETURN,
        ],
        want: Want::Typing(TypeKind::TypeMisfit, D, 0),
    },
];

/// The record of a class file.
fn class(alloc: Global, bytes: &[u8]) -> Result<ClassRecord, Fail>
    ensures { IfOk result IsValid }
{
    valid_has_text();
    Ok(read_class(alloc, bytes)?)
}

const fn part(flags: u8, name: u8, descriptor: u8, code: &'static [u8]) -> Part {
    Part {
        flags,
        name,
        descriptor,
        code,
        stack: 2,
    }
}

/// The class M.
fn first_class(
    alloc: Global,
    twist: Twist,
    flags_of_a: u8,
    codes: &Codes,
) -> Result<Vec<u8>, AllocError> {
    let [main, a, b, ..] = *codes;
    let flags = if let Twist::NoMain = twist { 1 } else { 9 };
    let name = if let Twist::ClassInit = twist { 53 } else { 49 };
    let second = if let Twist::Final = twist { 0x18 } else { 8 };
    let more = if let Twist::MoreFields = twist {
        MORE.as_slice()
    } else {
        &[]
    };
    let stack = if matches!(twist, Twist::Target | Twist::NotRunnable) {
        4
    } else {
        2
    };
    let parts = [
        Part {
            stack,
            ..part(flags, 12, 13, main)
        },
        part(flags_of_a, 45, 15, a),
        part(9, name, 15, b),
    ];
    class_bytes(alloc, Head::new(2, 8), Field::new(second, 27), more, &parts)
}

/// The class N as a target class, or nearly.
fn target_class(alloc: Global, twist: Twist, codes: &Codes) -> Result<Vec<u8>, AllocError> {
    let [_, _, _, init, run, ..] = *codes;
    let head = Head {
        runnable: matches!(twist, Twist::Target),
        ..Head::new(4, 8)
    };
    let parts = [part(1, 16, 15, init), part(1, 14, 15, run)];
    class_bytes(alloc, head, Field::new(8, 27), &[], &parts)
}

/// The class N.
fn second_class(alloc: Global, twist: Twist, codes: &Codes) -> Result<Vec<u8>, AllocError> {
    if matches!(twist, Twist::Target | Twist::NotRunnable) {
        return target_class(alloc, twist, codes);
    }
    let [_, _, _, a, b, ..] = *codes;
    let name = if let Twist::SameClass = twist { 2 } else { 4 };
    let interface = matches!(twist, Twist::Interface);
    let flags = if let Twist::InstanceField = twist {
        0
    } else {
        8
    };
    let descriptor = if let Twist::FieldType = twist { 36 } else { 27 };
    let second = if let Twist::SameMethod = twist {
        45
    } else {
        49
    };
    let parts = [part(9, 45, 15, a), part(9, second, 15, b)];
    let head = Head {
        interface,
        ..Head::new(name, 8)
    };
    class_bytes(alloc, head, Field::new(flags, descriptor), &[], &parts)
}

/// The class T.
fn third_class(alloc: Global, codes: &Codes) -> Result<Vec<u8>, AllocError> {
    let [_, _, _, _, _, init, run] = *codes;
    let parts = [part(1, 16, 15, init), part(1, 14, 15, run)];
    class_bytes(alloc, Head::new(6, 10), Field::new(8, 27), &[], &parts)
}

/// The classes M, N and T.
fn classes(alloc: Global, twist: Twist, flags_of_a: u8, codes: &Codes) -> Result<ClassList, Fail> {
    let mut list = ClassList::new(alloc);
    list.push(class(alloc, &first_class(alloc, twist, flags_of_a, codes)?)?)?;
    list.push(class(alloc, &second_class(alloc, twist, codes)?)?)?;
    list.push(class(alloc, &third_class(alloc, codes)?)?)?;
    Ok(list)
}

/// Whether the program has exactly these methods.
fn has_methods(program: &Program, want: &[Known]) -> bool {
    for (place, id) in program.methods().iter().enumerate() {
        let method = program.method(*id);
        let Some(known) = want.get(place) else {
            return false;
        };
        if *id != known.method
            || method.frame.monitor != known.monitor
            || method.operands.as_slice() != known.operands
            || method.typed.len() != known.operands.len()
        {
            return false;
        }
    }
    program.methods().len() == want.len()
}

/// Whether the threads of the program run exactly these methods.
fn has_threads(program: &Program, want: &[MethodId]) -> bool {
    for thread in 0..program.threads() {
        if want.get(thread as usize) != Some(&program.entry(thread)) {
            return false;
        }
    }
    program.threads() as usize == want.len()
}

/// Whether exactly these variables are volatile.
fn has_variables(program: &Program, want: &[bool]) -> bool {
    let variables = program.variables();
    variables.len() == want.len() && variables.iter().zip(want).all(|(v, w)| v.volatile == *w)
}

/// Whether what the classes make is what is wanted.
fn is_wanted(alloc: Global, row: &Row) -> Result<bool, Fail> {
    let classes = classes(alloc, row.twist, row.flags, &row.codes)?;
    Ok(match (link(alloc, &classes), &row.want) {
        (
            Ok(program),
            Want::Linked {
                threads,
                volatile,
                monitors,
                methods,
            },
        ) => {
            has_threads(&program, threads)
                && has_variables(&program, volatile)
                && program.monitors().len() == *monitors
                && has_methods(&program, methods)
        }
        (Err(ProgramRefusal::Class { kind, class }), Want::Class(want, at)) => {
            kind == *want && class == *at
        }
        (
            Err(
                ProgramRefusal::Code {
                    kind,
                    method,
                    pc,
                    ..
                },
            ),
            Want::Code(want, at, place),
        ) => kind == *want && method == *at && pc == *place,
        (Err(ProgramRefusal::Typing { kind, method, pc }), Want::Typing(want, at, place)) => {
            kind == *want && method == *at && pc == *place
        }
        (Err(ProgramRefusal::Limit(kind)), Want::Limit(want)) => kind == *want,
        _ => false,
    })
}

#[test]
fn links(rt: HostRuntime) -> Result<(), Fail> {
    for (place, row) in ROWS.iter().enumerate() {
        assert_eq!(rt; (place, is_wanted(rt.alloc(), row)?), (place, true));
    }
    Ok(())
}

#[test]
fn refuses_classes(rt: HostRuntime) -> Result<(), Fail> {
    for (place, row) in CLASS_ROWS.iter().enumerate() {
        assert_eq!(rt; (place, is_wanted(rt.alloc(), row)?), (place, true));
    }
    Ok(())
}

#[test]
fn refuses_codes(rt: HostRuntime) -> Result<(), Fail> {
    for (place, row) in CODE_ROWS.iter().enumerate() {
        assert_eq!(rt; (place, is_wanted(rt.alloc(), row)?), (place, true));
    }
    Ok(())
}

#[test]
fn links_targets(rt: HostRuntime) -> Result<(), Fail> {
    for (place, row) in TARGET_ROWS.iter().enumerate() {
        assert_eq!(rt; (place, is_wanted(rt.alloc(), row)?), (place, true));
    }
    Ok(())
}
