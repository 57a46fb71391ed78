//! The methods that small programs reach, and what is wrong with them.

ghost use Rattle.std.specs.Prelude.{All, IfOk};
ghost use Rattle.class_format.specs.ClassText.{IsValid};

mod data;

use class_format::{ClassRecord, read_class, valid_has_text};
use data::{Part, class_bytes};
use program::MethodId;
use reached_methods::{CodeKind, CodeRefusal, Detail, find_code, reach};
use std::alloc::Global;
use std::test::Fail;

/// The codes of M.main, M.a, M.b, N.c, N.a and T.run.
struct Codes {
    main: &'static [u8],
    a: &'static [u8],
    b: &'static [u8],
    c: &'static [u8],
    other: &'static [u8],
    run: &'static [u8],
}

/// A code that returns at once.
const RETURN: &[u8] = &[0xb1];

const MAIN: MethodId = MethodId {
    class: 0,
    method: 0,
};

const A: MethodId = MethodId {
    class: 0,
    method: 1,
};

const C: MethodId = MethodId {
    class: 1,
    method: 0,
};

const RUN: MethodId = MethodId {
    class: 2,
    method: 1,
};

/// What a refusal names beside the place.
enum Named {
    Nothing,
    Number(u8),
    Name(&'static [u8]),
}

enum Want {
    /// Methods, with the number of their instructions.
    Reached(&'static [(MethodId, usize)]),
    Refused(CodeKind, MethodId, u32, Named),
}

/// Codes, and what comes of them.
struct Row {
    codes: Codes,
    want: Want,
}

const ROWS: [Row; 20] = [
    // main alone
    Row {
        codes: Codes {
            main: RETURN,
            a: RETURN,
            b: RETURN,
            c: RETURN,
            other: RETURN,
            run: RETURN,
        },
        want: Want::Reached(&[(MAIN, 1)]),
    },
    // a call; N.c is not reached
    Row {
        codes: Codes {
            main: &[0xb8, 0, 0x18, 0xb1],
            a: RETURN,
            b: RETURN,
            c: &[0x6c],
            other: RETURN,
            run: RETURN,
        },
        want: Want::Reached(&[(MAIN, 2), (A, 1)]),
    },
    // a thread is made
    Row {
        codes: Codes {
            main: &[0xbb, 0, 6, 0x57, 0xb1],
            a: RETURN,
            b: RETURN,
            c: RETURN,
            other: RETURN,
            run: RETURN,
        },
        want: Want::Reached(&[(MAIN, 3), (RUN, 1)]),
    },
    // no thread is made
    Row {
        codes: Codes {
            main: RETURN,
            a: RETURN,
            b: RETURN,
            c: RETURN,
            other: RETURN,
            run: &[0x6c],
        },
        want: Want::Reached(&[(MAIN, 1)]),
    },
    // a thread calls what main calls
    Row {
        codes: Codes {
            main: &[0xb8, 0, 0x1c, 0xbb, 0, 6, 0x57, 0xb1],
            a: RETURN,
            b: RETURN,
            c: RETURN,
            other: RETURN,
            run: &[0xb8, 0, 0x1c, 0xb1],
        },
        want: Want::Reached(&[(MAIN, 4), (C, 1), (RUN, 2)]),
    },
    // idiv
    Row {
        codes: Codes {
            main: &[8, 4, 0x6c],
            a: RETURN,
            b: RETURN,
            c: RETURN,
            other: RETURN,
            run: RETURN,
        },
        want: Want::Refused(CodeKind::Opcode, MAIN, 2, Named::Number(108)),
    },
    // a sipush without its second byte
    Row {
        codes: Codes {
            main: &[0, 0x11, 1],
            a: RETURN,
            b: RETURN,
            c: RETURN,
            other: RETURN,
            run: RETURN,
        },
        want: Want::Refused(CodeKind::CutInstruction, MAIN, 1, Named::Nothing),
    },
    // a nop that falls out of the code
    Row {
        codes: Codes {
            main: &[0],
            a: RETURN,
            b: RETURN,
            c: RETURN,
            other: RETURN,
            run: RETURN,
        },
        want: Want::Refused(CodeKind::JumpTarget, MAIN, 0, Named::Nothing),
    },
    // no such method
    Row {
        codes: Codes {
            main: &[0xb8, 0, 0x24, 0xb1],
            a: RETURN,
            b: RETURN,
            c: RETURN,
            other: RETURN,
            run: RETURN,
        },
        want: Want::Refused(CodeKind::UnknownName, MAIN, 0, Named::Name(b"M.c()V")),
    },
    // wait on a class object
    Row {
        codes: Codes {
            main: &[0x12, 2, 0xb6, 0, 0x1e, 0xb1],
            a: RETURN,
            b: RETURN,
            c: RETURN,
            other: RETURN,
            run: RETURN,
        },
        want: Want::Refused(
            CodeKind::ForbiddenCall,
            MAIN,
            2,
            Named::Name(b"java/lang/Object.wait()V"),
        ),
    },
    // a final field is read
    Row {
        codes: Codes {
            main: &[0xb2, 0, 0x20, 0x57, 0xb1],
            a: RETURN,
            b: RETURN,
            c: RETURN,
            other: RETURN,
            run: RETURN,
        },
        want: Want::Refused(CodeKind::FinalAccess, MAIN, 0, Named::Nothing),
    },
    // two faults in one method
    Row {
        codes: Codes {
            main: &[0, 0xb6, 0, 0x1e, 0x6c],
            a: RETURN,
            b: RETURN,
            c: RETURN,
            other: RETURN,
            run: RETURN,
        },
        want: Want::Refused(
            CodeKind::ForbiddenCall,
            MAIN,
            1,
            Named::Name(b"java/lang/Object.wait()V"),
        ),
    },
    // two faults in two methods
    Row {
        codes: Codes {
            main: &[0xb8, 0, 0x1c, 0xb8, 0, 0x18, 0xb1],
            a: &[0x6c],
            b: RETURN,
            c: &[0x6d],
            other: RETURN,
            run: RETURN,
        },
        want: Want::Refused(CodeKind::Opcode, A, 0, Named::Number(108)),
    },
    // two kinds at one place
    Row {
        codes: Codes {
            main: &[0xb6, 0, 0x1e],
            a: RETURN,
            b: RETURN,
            c: RETURN,
            other: RETURN,
            run: RETURN,
        },
        want: Want::Refused(CodeKind::JumpTarget, MAIN, 0, Named::Nothing),
    },
    // a call behind a fault leads to an earlier method
    Row {
        codes: Codes {
            main: &[0xb8, 0, 0x1c, 0xb1],
            a: &[0x6c],
            b: RETURN,
            c: &[0xb6, 0, 0x1e, 0xb8, 0, 0x18, 0xb1],
            other: RETURN,
            run: RETURN,
        },
        want: Want::Refused(CodeKind::Opcode, A, 0, Named::Number(108)),
    },
    // a method calls itself
    Row {
        codes: Codes {
            main: &[0xb8, 0, 0x18, 0xb1],
            a: &[0, 0xb8, 0, 0x18, 0xb1],
            b: RETURN,
            c: RETURN,
            other: RETURN,
            run: RETURN,
        },
        want: Want::Refused(CodeKind::Recursion, A, 1, Named::Nothing),
    },
    // a cycle of three, and a call into it
    Row {
        codes: Codes {
            main: &[0xb8, 0, 0x18, 0xb1],
            a: &[0xb8, 0, 0x1a, 0xb1],
            b: &[0xb8, 0, 0x1c, 0xb1],
            c: &[0xb8, 0, 0x18, 0xb1],
            other: RETURN,
            run: RETURN,
        },
        want: Want::Refused(CodeKind::Recursion, A, 0, Named::Nothing),
    },
    // the first call is not on the cycle
    Row {
        codes: Codes {
            main: &[0xb8, 0, 0x18, 0xb1],
            a: &[0xb8, 0, 0x1c, 0xb8, 0, 0x1a, 0xb1],
            b: &[0xb8, 0, 0x18, 0xb1],
            c: RETURN,
            other: RETURN,
            run: RETURN,
        },
        want: Want::Refused(CodeKind::Recursion, A, 3, Named::Nothing),
    },
    // a thread is made in a loop
    Row {
        codes: Codes {
            main: &[0xbb, 0, 6, 0x57, 0xa7, 0xff, 0xfc],
            a: RETURN,
            b: RETURN,
            c: RETURN,
            other: RETURN,
            run: RETURN,
        },
        want: Want::Refused(CodeKind::ThreadInLoop, MAIN, 0, Named::Nothing),
    },
    // the loop leaves the code
    Row {
        codes: Codes {
            main: &[0xbb, 0, 6, 0x57, 0xa7, 0xff, 0xfb],
            a: RETURN,
            b: RETURN,
            c: RETURN,
            other: RETURN,
            run: RETURN,
        },
        want: Want::Refused(CodeKind::ThreadInLoop, MAIN, 0, Named::Nothing),
    },
];

/// The record of a class file.
fn class(alloc: Global, bytes: &[u8]) -> Result<ClassRecord, Fail>
    ensures { IfOk result IsValid }
{
    valid_has_text();
    Ok(read_class(alloc, bytes)?)
}

const fn part(flags: u8, name: u8, descriptor: u8, code: &'static [u8]) -> Part {
    Part {
        flags,
        name,
        descriptor,
        code,
    }
}

/// The classes M, N and T.
fn classes(alloc: Global, codes: &Codes) -> Result<[ClassRecord; 3], Fail>
    ensures { IfOk result (λ classes. All IsValid classes) }
{
    let m = class_bytes(
        alloc,
        2,
        8,
        &[
            part(9, 12, 13, codes.main),
            part(9, 16, 15, codes.a),
            part(9, 17, 15, codes.b),
        ],
    )?;
    let n = class_bytes(
        alloc,
        4,
        8,
        &[part(9, 18, 15, codes.c), part(9, 16, 15, codes.other)],
    )?;
    let t = class_bytes(
        alloc,
        6,
        10,
        &[part(1, 22, 15, RETURN), part(1, 14, 15, codes.run)],
    )?;
    let first = class(alloc, &m)?;
    let second = class(alloc, &n)?;
    let third = class(alloc, &t)?;
    Ok([first, second, third])
}

fn is_named(detail: &Detail, want: &Named) -> bool {
    match (detail, want) {
        (Detail::Nothing, Named::Nothing) => true,
        (Detail::Number(number), Named::Number(want)) => number == want,
        (Detail::Name(name), Named::Name(want)) => name.as_slice() == *want,
        _ => false,
    }
}

/// Whether what a program reaches is what is wanted.
fn is_wanted(alloc: Global, row: &Row) -> Result<bool, Fail> {
    let classes = classes(alloc, &row.codes)?;
    if find_code(&classes, MAIN).is_none() {
        return Ok(false);
    }
    Ok(match (reach(alloc, &classes, MAIN), &row.want) {
        (Ok(methods), Want::Reached(want)) => {
            let found = methods.as_slice();
            found.len() == want.len()
                && found.iter().zip(*want).all(|(m, w)| {
                    m.id == w.0 && m.listing.len() == w.1 && m.targets.len() == w.1
                })
        }
        (
            Err(
                CodeRefusal::Refused {
                    kind,
                    method,
                    pc,
                    detail,
                },
            ),
            Want::Refused(want_kind, want_method, want_pc, want),
        ) => {
            kind == *want_kind
                && method == *want_method
                && pc == *want_pc
                && is_named(&detail, want)
        }
        _ => false,
    })
}

#[test]
fn reached_methods(rt: HostRuntime) -> Result<(), Fail> {
    for (place, row) in ROWS.iter().enumerate() {
        assert_eq!(rt; (place, is_wanted(rt.alloc(), row)?), (place, true));
    }
    Ok(())
}
