//! Programs for tests, built by hand.

ghost use Rattle.std.specs.Prelude.{◌≡◌, ◌≢◌, Contains, IfOk, IsTrue};
ghost use Rattle.program.specs.Program.{HasOperands};
ghost use Rattle.program.specs.declared.method.Method.{Method};

use opcodes::{Instr, Listing};
use program::{Frame, Items, Method, MethodId, Name, Operand, Operands, Program, Variable};
use std::alloc::Global;
use std::process::Abort;
use std::test::Fail;

/// A method by its id and its instructions.
pub struct Code {
    pub id: MethodId,
    pub instructions: &'static [(u32, Instr)],
}

/// A program by its variables (class, name, and whether it is volatile), its monitors, the entries of its threads, and its
/// methods.
pub struct Parts {
    pub variables: &'static [(&'static [u8], &'static [u8], bool)],
    pub monitors: &'static [&'static [u8]],
    pub threads: &'static [MethodId],
    pub methods: &'static [Code],
}

const MAIN: MethodId = MethodId {
    class: 0,
    method: 0,
};

const CALLED: MethodId = MethodId {
    class: 0,
    method: 1,
};

const RUN: MethodId = MethodId {
    class: 1,
    method: 0,
};

/// Class M's main, which sets M.x to 5 and prints it.
pub const PRINTS_FIVE: Parts = Parts {
    variables: &[(b"M", b"x", false)],
    monitors: &[],
    threads: &[MAIN],
    methods: &[Code {
        id: MAIN,
        instructions: &[
            (0, Instr::Iconst5),
            (1, Instr::Putstatic { index: 8 }),
            (4, Instr::Getstatic { index: 14 }),
            (7, Instr::Getstatic { index: 8 }),
            (10, Instr::Invokevirtual { index: 20 }),
            (13, Instr::Return),
        ],
    }],
};

/// Class M's main, which starts a thread of class T, and the methods that they run.
pub const STARTS_A_THREAD: Parts = Parts {
    variables: &[(b"M", b"v", true), (b"T", b"w", false)],
    monitors: &[b"M", b"\x01\x7f"],
    threads: &[MAIN, RUN],
    methods: &[
        Code {
            id: MAIN,
            instructions: &[
                (0, Instr::New { index: 6 }),
                (3, Instr::Dup),
                (4, Instr::Invokespecial { index: 10 }),
                (7, Instr::Invokevirtual { index: 13 }),
                (10, Instr::Ldc { index: 14 }),
                (12, Instr::Istore1),
                (13, Instr::Iinc { slot: 1, delta: -1 }),
                (16, Instr::Ldc { index: 2 }),
                (18, Instr::Monitorenter),
                (19, Instr::Iload { slot: 1 }),
                (21, Instr::Ifne { distance: -8 }),
                (24, Instr::Bipush { value: -3 }),
                (26, Instr::Putstatic { index: 18 }),
                (29, Instr::Invokestatic { index: 21 }),
                (32, Instr::Sipush { value: -300 }),
                (35, Instr::LdcW { index: 14 }),
                (38, Instr::Astore { slot: 255 }),
                (40, Instr::Goto { distance: 3 }),
                (43, Instr::Return),
            ],
        },
        Code {
            id: CALLED,
            instructions: &[(0, Instr::Return)],
        },
        Code {
            id: RUN,
            instructions: &[
                (0, Instr::Getstatic { index: 10 }),
                (3, Instr::Pop),
                (4, Instr::Goto { distance: -4 }),
            ],
        },
    ],
};

/// A method of these instructions.
fn method(rt: &impl Abort, alloc: Global, code: &Code) -> Result<Method, Fail>
    ensures operands { IfOk result HasOperands }
    ensures id { IfOk result (λ m. m.id ≡ code.now.id) }
{
    let mut listing = Listing::new(alloc);
    let mut operands = Operands::new(alloc);
    for (pc, instr) in code.instructions {
        assert!(rt; listing.as_slice().iter().all(|listed| listed.pc < *pc));
        listing.push(*pc, *instr)?;
        operands.push(Operand::Nothing)?;
    }
    assert_eq!(rt; operands.len(), listing.len());
    Ok(Method {
        id: code.id,
        frame: Frame {
            max_locals: 2,
            max_stack: 2,
            parameters: 1,
            result: false,
            monitor: None,
        },
        listing,
        operands,
        typed: Items::new(alloc),
    })
}

fn add_variable(
    rt: &impl Abort,
    alloc: Global,
    program: &mut Program,
    class: &[u8],
    name: &[u8],
    volatile: bool,
) -> Result<(), Fail> {
    let class = Name::copied(alloc, class)?;
    let name = Name::copied(alloc, name)?;
    assert!(rt; class.can_be_written());
    assert!(rt; name.can_be_written());
    program.add_variable(Variable {
        class,
        name,
        volatile,
    })?;
    Ok(())
}

/// Whether the program has no method of this id.
fn is_new(program: &Program, id: MethodId) -> bool
    ensures { IsTrue result → (other : Method) → Contains program.now.methods other → other.id ≢ id }
{
    for known in program.methods() {
        if *known == id {
            return false;
        }
    }
    true
}

/// The program of these parts.
pub fn program_of(rt: &impl Abort, alloc: Global, parts: &Parts) -> Result<Program, Fail> {
    let mut program = Program::new(alloc);
    for (class, name, volatile) in parts.variables {
        add_variable(rt, alloc, &mut program, class, name, *volatile)?;
    }
    for class in parts.monitors {
        program.add_monitor(Name::copied(alloc, class)?)?;
    }
    for entry in parts.threads {
        assert!(rt; program.threads() < 64);
        program.add_thread(*entry)?;
    }
    for code in parts.methods {
        let method = method(rt, alloc, code)?;
        assert!(rt; is_new(&program, method.id));
        program.add_method(method)?;
    }
    Ok(program)
}
