//! What the instructions of small classes name.

ghost use Rattle.std.specs.Prelude.{◌≡◌, ◌≤◌, [], ◌∷◌, All, IfOk, length};
ghost use Rattle.class_format.specs.ClassText.{IsValid};

mod data;

use class_format::{ClassRecord, read_class, valid_has_text};
use data::SMALL;
use opcodes::{Instr, Listed};
use program::Name;
use resolution::{ClassIndex, Misnamed, Signature, Target, resolve, signature_of};
use std::alloc::Global;
use std::test::Fail;

#[test]
fn signatures(rt: HostRuntime) {
    let ints = |parameters, returns| Some(Signature {
        parameters,
        result: returns,
    });
    let rows: [(&[u8], Option<Signature>); 12] = [
        (b"()V", ints(0, false)),
        (b"()I", ints(0, true)),
        (b"()Z", ints(0, true)),
        (b"(I)V", ints(1, false)),
        (b"(IZI)Z", ints(3, true)),
        (b"(J)V", None),
        (b"(I)J", None),
        (b"(I)", None),
        (b"(I)VV", None),
        (b"I", None),
        (b"", None),
        (b"([Ljava/lang/String;)V", None),
    ];
    for (descriptor, want) in rows {
        assert_eq!(rt; signature_of(descriptor), want);
    }
}

/// What an instruction of the small class names.
enum Want {
    Names(Target),
    Unknown(Option<&'static [u8]>),
    Forbidden(&'static [u8]),
    Final,
}

/// Whether a name is spelled so.
fn is_spelled(name: &Option<Name>, want: &Option<&'static [u8]>) -> bool {
    match (name, want) {
        (Some(name), Some(want)) => name.as_slice() == *want,
        (None, None) => true,
        _ => false,
    }
}

/// Whether an answer is the one that is wanted.
fn is_wanted(found: &Result<Target, Misnamed>, want: &Want) -> bool {
    match (found, want) {
        (Ok(target), Want::Names(want)) => target == want,
        (Err(Misnamed::Unknown { name }), Want::Unknown(want)) => is_spelled(name, want),
        (Err(Misnamed::Forbidden { name }), Want::Forbidden(want)) => name.as_slice() == *want,
        (Err(Misnamed::Final), Want::Final) => true,
        _ => false,
    }
}

/// The record of a class file.
fn class(alloc: Global, bytes: &[u8]) -> Result<ClassRecord, Fail>
    ensures { IfOk result IsValid }
{
    valid_has_text();
    Ok(read_class(alloc, bytes)?)
}

/// The small class as a thread class named T, whose field is final.
fn thread_class() -> [u8; 272] {
    let mut bytes = SMALL;
    bytes[13] = b'T';
    bytes[30] = b'T';
    bytes[31] = b'h';
    bytes[32] = b'r';
    bytes[33] = b'e';
    bytes[34] = b'a';
    bytes[35] = b'd';
    bytes[221] = 0x18;
    bytes
}

/// The small class, and the thread class.
fn two_classes(alloc: Global) -> Result<[ClassRecord; 2], Fail>
    ensures { IfOk result (λ classes. All IsValid classes) }
{
    let small = class(alloc, &SMALL)?;
    let thread = class(alloc, &thread_class())?;
    Ok([small, thread])
}

/// An instruction of one of the two classes, in main or not, and what it names.
struct Row {
    of_thread: bool,
    main: bool,
    instr: Instr,
    want: Want,
}

const X: Target = Target::Field { class: 0, field: 0 };

const PRINTLN: &[u8] = b"java/io/PrintStream.println(I)V";

const ROWS: [Row; 22] = [
    Row {
        of_thread: false,
        main: true,
        instr: Instr::IconstM1,
        want: Want::Names(Target::Constant(-1)),
    },
    Row {
        of_thread: false,
        main: true,
        instr: Instr::Iconst5,
        want: Want::Names(Target::Constant(5)),
    },
    Row {
        of_thread: false,
        main: true,
        instr: Instr::Bipush { value: -7 },
        want: Want::Names(Target::Constant(-7)),
    },
    Row {
        of_thread: false,
        main: true,
        instr: Instr::Sipush { value: 300 },
        want: Want::Names(Target::Constant(300)),
    },
    Row {
        of_thread: false,
        main: true,
        instr: Instr::Getstatic { index: 8 },
        want: Want::Names(X),
    },
    Row {
        of_thread: false,
        main: true,
        instr: Instr::Putstatic { index: 8 },
        want: Want::Names(X),
    },
    Row {
        of_thread: false,
        main: true,
        instr: Instr::Getstatic { index: 14 },
        want: Want::Names(Target::Out),
    },
    Row {
        of_thread: false,
        main: true,
        instr: Instr::Putstatic { index: 14 },
        want: Want::Unknown(Some(b"java/lang/System.out")),
    },
    Row {
        of_thread: false,
        main: true,
        instr: Instr::Getstatic { index: 20 },
        want: Want::Unknown(None),
    },
    Row {
        of_thread: false,
        main: true,
        instr: Instr::Invokevirtual { index: 20 },
        want: Want::Names(Target::Print),
    },
    Row {
        of_thread: false,
        main: true,
        instr: Instr::Invokevirtual { index: 14 },
        want: Want::Unknown(None),
    },
    Row {
        of_thread: false,
        main: true,
        instr: Instr::Invokestatic { index: 20 },
        want: Want::Forbidden(PRINTLN),
    },
    Row {
        of_thread: false,
        main: true,
        instr: Instr::Invokespecial { index: 20 },
        want: Want::Forbidden(PRINTLN),
    },
    Row {
        of_thread: false,
        main: true,
        instr: Instr::New { index: 2 },
        want: Want::Forbidden(b"M"),
    },
    Row {
        of_thread: false,
        main: true,
        instr: Instr::New { index: 8 },
        want: Want::Unknown(None),
    },
    Row {
        of_thread: false,
        main: true,
        instr: Instr::Ldc { index: 2 },
        want: Want::Names(Target::Class(2)),
    },
    Row {
        of_thread: false,
        main: true,
        instr: Instr::Ldc { index: 1 },
        want: Want::Unknown(None),
    },
    Row {
        of_thread: false,
        main: true,
        instr: Instr::LdcW { index: 4 },
        want: Want::Names(Target::Class(4)),
    },
    Row {
        of_thread: false,
        main: true,
        instr: Instr::Iadd,
        want: Want::Names(Target::Nothing),
    },
    Row {
        of_thread: true,
        main: true,
        instr: Instr::New { index: 2 },
        want: Want::Names(Target::New(1)),
    },
    Row {
        of_thread: true,
        main: false,
        instr: Instr::New { index: 2 },
        want: Want::Forbidden(b"T"),
    },
    Row {
        of_thread: true,
        main: true,
        instr: Instr::Getstatic { index: 8 },
        want: Want::Final,
    },
];

#[test]
fn instructions(rt: HostRuntime) -> Result<(), Fail> {
    let classes = two_classes(rt.alloc())?;
    let index = ClassIndex::of(rt.alloc(), &classes)?;
    for (at, row) in ROWS.iter().enumerate() {
        let pool = if row.of_thread {
            &classes[1].pool
        } else {
            &classes[0].pool
        };
        let listing = [Listed {
            pc: 0,
            instr: row.instr,
        }];
        let found = resolve(rt.alloc(), &index, row.main, pool, &listing, &listing[0]);
        assert!(rt; is_wanted(&found, &row.want), "row {at}");
    }
    Ok(())
}
