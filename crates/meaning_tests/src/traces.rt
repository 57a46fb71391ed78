//! Traces of small programs that are built by hand.

ghost use Rattle.std.specs.Prelude.{◌≡◌, ◌<◌, ◌≤◌, IfOk, length};
ghost use Rattle.program.specs.Program.{HasOperands};

use line_text::bounds::Bounds;
use opcodes::{Instr, Listing};
use program::{Event, Frame, Items, Method, MethodId, Operand, Operands, Program};
use std::alloc::Global;
use std::process::Abort;
use std::test::Fail;
use thread_meaning::{Trace, TraceEnd, trace};

pub const MAIN: MethodId = MethodId {
    class: 0,
    method: 0,
};

pub const HELP: MethodId = MethodId {
    class: 0,
    method: 1,
};

const WIDE: Bounds = Bounds {
    jumps: 0,
    width: 32,
};

/// A frame of a method with this many parameters, synchronized on this monitor.
pub fn frame(parameters: u32, monitor: Option<u32>) -> Frame {
    Frame {
        max_locals: 3,
        max_stack: 4,
        parameters,
        result: false,
        monitor,
    }
}

/// A method of these instructions, one behind the other.
fn method(
    rt: &impl Abort,
    alloc: Global,
    id: MethodId,
    frame: Frame,
    code: &[(Instr, Operand)],
) -> Result<Method, Fail>
    ensures { IfOk result HasOperands }
{
    let mut listing = Listing::new(alloc);
    let mut operands = Operands::new(alloc);
    let mut pc: u32 = 0;
    for (instr, operand) in code {
        assert!(rt; listing.as_slice().iter().all(|listed| listed.pc < pc));
        listing.push(pc, *instr)?;
        operands.push(*operand)?;
        pc = pc.saturating_add(instr.length());
    }
    assert_eq!(rt; operands.len(), listing.len());
    Ok(Method {
        id,
        frame,
        listing,
        operands,
        typed: Items::new(alloc),
    })
}

/// A program whose threads all run main, which has this code.
pub fn alone(rt: &impl Abort, alloc: Global, code: &[(Instr, Operand)]) -> Result<Program, Fail>
    ensures { IfOk result (λ p. length p.threads ≡ 1) }
{
    let mut program = Program::new(alloc);
    program.add_thread(MAIN)?;
    program.add_method(method(rt, alloc, MAIN, frame(1, None), code)?)?;
    Ok(program)
}

/// A program whose main calls a method.
pub fn calling(
    rt: &impl Abort,
    alloc: Global,
    code: &[(Instr, Operand)],
    called: Frame,
    help: &[(Instr, Operand)],
) -> Result<Program, Fail>
    ensures { IfOk result (λ p. length p.threads ≡ 1) }
{
    let mut program = alone(rt, alloc, code)?;
    let method = method(rt, alloc, HELP, called, help)?;
    if program.methods().contains(&method.id) {
        assert!(rt; false, "the method is there");
    } else {
        program.add_method(method)?;
    }
    Ok(program)
}

/// The name of an end.
fn name(end: &TraceEnd) -> &'static str {
    match end {
        TraceEnd::ReadsShort => "short",
        TraceEnd::ReadsLeft { .. } => "left",
        TraceEnd::PastJumps => "jumps",
        TraceEnd::PastWidth => "width",
        TraceEnd::NotLinked => "none",
        TraceEnd::Memory => "memory",
    }
}

/// Whether a trace printed what these events print.
fn prints(trace: &Trace, events: &[Event]) -> bool {
    let mut count = 0usize;
    for event in events {
        if let Event::Print { value } = event {
            if trace.printed.get(count) != Some(value) {
                return false;
            }
            count = count.saturating_add(1);
        }
    }
    count == trace.printed.len()
}

/// The name of a refusal, or whether a trace has these events and printed what they print.
fn outcome(found: &Result<Trace, TraceEnd>, events: &[Event]) -> &'static str {
    match found {
        Ok(trace) => {
            if trace.events.as_slice() != events {
                "other events"
            } else if !prints(trace, events) {
                "other prints"
            } else {
                "ok"
            }
        }
        Err(end) => name(end),
    }
}

const OUT: (Instr, Operand) = (Instr::Getstatic { index: 1 }, Operand::Out);

const PRINT: (Instr, Operand) = (Instr::Invokevirtual { index: 2 }, Operand::Print);

const READ_X: (Instr, Operand) = (Instr::Getstatic { index: 3 }, Operand::Variable(0));

const READ_F: (Instr, Operand) = (Instr::Getstatic { index: 4 }, Operand::Variable(1));

const WRITE_X: (Instr, Operand) = (Instr::Putstatic { index: 3 }, Operand::Variable(0));

const CALL: (Instr, Operand) = (Instr::Invokestatic { index: 5 }, Operand::Method(HELP));

const RETURN: (Instr, Operand) = (Instr::Return, Operand::Nothing);

/// The push of an int.
fn push(value: i32) -> (Instr, Operand) {
    (Instr::Ldc { index: 9 }, Operand::Constant(value))
}

#[test]
fn reads_and_writes(rt: HostRuntime) -> Result<(), Fail> {
    let program = alone(
        &rt,
        rt.alloc(),
        &[push(5), WRITE_X, OUT, READ_X, PRINT, RETURN],
    )?;
    let events = [
        Event::First,
        Event::Write {
            variable: 0,
            value: 5,
        },
        Event::Read {
            variable: 0,
            value: 5,
        },
        Event::Print { value: 5 },
        Event::Last,
    ];
    let rows: [(&[i32], &str); 3] = [(&[5], "ok"), (&[], "short"), (&[5, 5], "left")];
    for (reads, want) in rows {
        let result = trace(rt.alloc(), &program, 0, reads, 0, &WIDE);
        assert_eq!(rt; outcome(&result, &events), want);
    }
    Ok(())
}

#[test]
fn waits(rt: HostRuntime) -> Result<(), Fail> {
    let back = (Instr::Ifeq { distance: -3 }, Operand::Nothing);
    let program = alone(&rt, rt.alloc(), &[READ_F, back, OUT, READ_X, PRINT, RETURN])?;
    let read = |value| Event::Read { variable: 1, value };
    let events = [
        Event::First,
        read(0),
        read(0),
        read(1),
        Event::Read {
            variable: 0,
            value: 0,
        },
        Event::Print { value: 0 },
        Event::Last,
    ];
    let rows: [(u32, &[i32], &str); 4] = [
        (2, &[0, 0, 1, 0], "ok"),
        (2, &[0, 0, 0], "jumps"),
        (1, &[0, 0, 1, 0], "jumps"),
        (2, &[0, 0], "short"),
    ];
    for (jumps, reads, want) in rows {
        let bounds = Bounds { jumps, width: 32 };
        let result = trace(rt.alloc(), &program, 0, reads, 0, &bounds);
        assert_eq!(rt; outcome(&result, &events), want);
    }
    Ok(())
}

#[test]
fn widths(rt: HostRuntime) -> Result<(), Fail> {
    let rows = [
        (200, 8, "width"),
        (200, 32, "ok"),
        (127, 8, "ok"),
        (-128, 8, "ok"),
        (-129, 8, "width"),
    ];
    for (value, width, want) in rows {
        let program = alone(
            &rt,
            rt.alloc(),
            &[push(value), WRITE_X, OUT, READ_X, PRINT, RETURN],
        )?;
        let events = [
            Event::First,
            Event::Write { variable: 0, value },
            Event::Read { variable: 0, value },
            Event::Print { value },
            Event::Last,
        ];
        let bounds = Bounds { jumps: 0, width };
        let result = trace(rt.alloc(), &program, 0, &[value], 0, &bounds);
        assert_eq!(rt; outcome(&result, &events), want);
    }
    Ok(())
}

#[test]
fn operations(rt: HostRuntime) -> Result<(), Fail> {
    let rows = [
        (7, 5, Instr::Iadd, 12),
        (7, 5, Instr::Isub, 2),
        (7, 5, Instr::Imul, 35),
        (7, 33, Instr::Ishl, 14),
        (-9, 1, Instr::Ishr, -5),
        (-1, 28, Instr::Iushr, 15),
        (6, 3, Instr::Iand, 2),
        (6, 3, Instr::Ior, 7),
        (6, 3, Instr::Ixor, 5),
    ];
    for (a, b, instr, value) in rows {
        let program = alone(
            &rt,
            rt.alloc(),
            &[
                OUT,
                push(a),
                push(b),
                (instr, Operand::Nothing),
                PRINT,
                RETURN,
            ],
        )?;
        let events = [Event::First, Event::Print { value }, Event::Last];
        let result = trace(rt.alloc(), &program, 0, &[], 0, &WIDE);
        assert_eq!(rt; outcome(&result, &events), "ok");
    }
    let rows = [
        (i32::MIN, Instr::Ineg, i32::MIN),
        (200, Instr::I2b, -56),
        (-1, Instr::I2c, 65535),
        (40000, Instr::I2s, -25536),
    ];
    for (a, instr, value) in rows {
        let program = alone(
            &rt,
            rt.alloc(),
            &[OUT, push(a), (instr, Operand::Nothing), PRINT, RETURN],
        )?;
        let events = [Event::First, Event::Print { value }, Event::Last];
        let result = trace(rt.alloc(), &program, 0, &[], 0, &WIDE);
        assert_eq!(rt; outcome(&result, &events), "ok");
    }
    Ok(())
}

#[test]
fn locals_and_stack(rt: HostRuntime) -> Result<(), Fail> {
    let iinc = Instr::Iinc { slot: 1, delta: -3 };
    let plain = |instr| (instr, Operand::Nothing);
    let program = alone(
        &rt,
        rt.alloc(),
        &[
            push(9),
            plain(Instr::Dup),
            plain(Instr::Istore1),
            plain(iinc),
            OUT,
            plain(Instr::Swap),
            plain(Instr::Iload { slot: 1 }),
            plain(Instr::Isub),
            PRINT,
            RETURN,
        ],
    )?;
    let events = [Event::First, Event::Print { value: 3 }, Event::Last];
    let result = trace(rt.alloc(), &program, 0, &[], 0, &WIDE);
    assert_eq!(rt; outcome(&result, &events), "ok");
    Ok(())
}

#[test]
fn jumps(rt: HostRuntime) -> Result<(), Fail> {
    let rows = [
        (Instr::IfIcmplt { distance: 4 }, 1, 2, true),
        (Instr::IfIcmplt { distance: 4 }, 2, 2, false),
        (Instr::IfIcmpge { distance: 4 }, 2, 2, true),
        (Instr::IfIcmpeq { distance: 4 }, 1, 2, false),
        (Instr::IfIcmpne { distance: 4 }, 1, 2, true),
        (Instr::IfIcmpgt { distance: 4 }, 3, 2, true),
        (Instr::IfIcmple { distance: 4 }, 3, 2, false),
        (Instr::IfIcmple { distance: -4 }, 3, 2, false),
    ];
    for (instr, a, b, taken) in rows {
        let program = alone(
            &rt,
            rt.alloc(),
            &[
                push(a),
                push(b),
                (instr, Operand::Nothing),
                RETURN,
                OUT,
                push(1),
                PRINT,
                RETURN,
            ],
        )?;
        let printed = [Event::First, Event::Print { value: 1 }, Event::Last];
        let silent = [Event::First, Event::Last];
        let events: &[Event] = if taken { &printed } else { &silent };
        let result = trace(rt.alloc(), &program, 0, &[], 0, &WIDE);
        assert_eq!(rt; outcome(&result, events), "ok");
    }
    Ok(())
}

#[test]
fn calls(rt: HostRuntime) -> Result<(), Fail> {
    let help = [
        (Instr::Iload0, Operand::Nothing),
        (Instr::Iload1, Operand::Nothing),
        (Instr::Isub, Operand::Nothing),
        (Instr::Ireturn, Operand::Nothing),
    ];
    let program = calling(
        &rt,
        rt.alloc(),
        &[OUT, push(7), push(5), CALL, PRINT, RETURN],
        frame(2, Some(3)),
        &help,
    )?;
    let events = [
        Event::First,
        Event::Lock { monitor: 3 },
        Event::Unlock { monitor: 3 },
        Event::Print { value: 2 },
        Event::Last,
    ];
    let result = trace(rt.alloc(), &program, 0, &[], 0, &WIDE);
    assert_eq!(rt; outcome(&result, &events), "ok");
    Ok(())
}

#[test]
fn refused_calls(rt: HostRuntime) -> Result<(), Fail> {
    let rows: [(&[(Instr, Operand)], u32, &[(Instr, Operand)]); 3] = [
        (&[push(7), CALL, RETURN], 2, &[RETURN]),
        (&[CALL, RETURN], 0, &[CALL, RETURN]),
        (&[CALL, RETURN], 0, &[(Instr::Ireturn, Operand::Nothing)]),
    ];
    for (code, parameters, help) in rows {
        let program = calling(&rt, rt.alloc(), code, frame(parameters, None), help)?;
        let result = trace(rt.alloc(), &program, 0, &[], 0, &WIDE);
        assert_eq!(rt; outcome(&result, &[]), "none");
    }
    Ok(())
}

#[test]
fn threads_and_monitors(rt: HostRuntime) -> Result<(), Fail> {
    let plain = |instr| (instr, Operand::Nothing);
    let call = Instr::Invokevirtual { index: 6 };
    let program = alone(
        &rt,
        rt.alloc(),
        &[
            (Instr::New { index: 7 }, Operand::Make(1)),
            plain(Instr::Dup),
            (Instr::Invokespecial { index: 8 }, Operand::Make(1)),
            plain(Instr::Astore1),
            plain(Instr::Aload1),
            (call, Operand::Start(1)),
            (Instr::Ldc { index: 9 }, Operand::Monitor(0)),
            plain(Instr::Dup),
            (Instr::Monitorenter, Operand::Monitor(0)),
            (Instr::Monitorexit, Operand::Monitor(0)),
            plain(Instr::Aload1),
            (call, Operand::Join(1)),
            RETURN,
        ],
    )?;
    let events = [
        Event::First,
        Event::Start { thread: 1 },
        Event::Lock { monitor: 0 },
        Event::Unlock { monitor: 0 },
        Event::Detect { thread: 1 },
        Event::Last,
    ];
    let result = trace(rt.alloc(), &program, 0, &[], 0, &WIDE);
    assert_eq!(rt; outcome(&result, &events), "ok");
    Ok(())
}

#[test]
fn nothing_there(rt: HostRuntime) -> Result<(), Fail> {
    let rows: [&[(Instr, Operand)]; 4] = [
        &[],
        &[(Instr::Pop, Operand::Nothing), RETURN],
        &[(Instr::Iload1, Operand::Nothing), RETURN],
        &[(Instr::Goto { distance: -1 }, Operand::Nothing)],
    ];
    for code in rows {
        let program = alone(&rt, rt.alloc(), code)?;
        let result = trace(rt.alloc(), &program, 0, &[], 0, &WIDE);
        assert_eq!(rt; outcome(&result, &[]), "none");
    }
    Ok(())
}

#[test]
fn long_runs(rt: HostRuntime) -> Result<(), Fail> {
    let adds = (Instr::Iinc { slot: 1, delta: 1 }, Operand::Nothing);
    let back = (Instr::Goto { distance: -12000 }, Operand::Nothing);
    let mut code = Vec::from_slice(rt.alloc(), &[push(0), (Instr::Istore1, Operand::Nothing)])?;
    for _ in 0..4000 {
        code.push(adds)?;
    }
    code.push(back)?;
    let program = alone(&rt, rt.alloc(), &code)?;
    let bounds = Bounds {
        jumps: 255,
        width: 32,
    };
    let found = trace(rt.alloc(), &program, 0, &[], 0, &bounds);
    assert_eq!(rt; outcome(&found, &[]), "jumps");
    Ok(())
}

const DOUBLE: (Instr, Operand) = (Instr::Dup, Operand::Nothing);

/// A `new` with this operand.
fn new(operand: Operand) -> (Instr, Operand) {
    (Instr::New { index: 6 }, operand)
}

/// A constructor's call with this operand.
fn construct(operand: Operand) -> (Instr, Operand) {
    (Instr::Invokespecial { index: 7 }, operand)
}

/// A call of an object's method with this operand.
fn call(operand: Operand) -> (Instr, Operand) {
    (Instr::Invokevirtual { index: 8 }, operand)
}

/// A main that starts thread 1 and prints x if that thread, asked so, is not alive.
fn asking(rt: &impl Abort, alloc: Global, asked: u32) -> Result<Program, Fail>
    ensures { IfOk result (λ p. length p.threads ≡ 1) }
{
    alone(
        rt,
        alloc,
        &[
            new(Operand::Make(1)),
            DOUBLE,
            construct(Operand::Make(1)),
            DOUBLE,
            call(Operand::Start(1)),
            call(Operand::Alive(asked)),
            (Instr::Ifne { distance: 12 }, Operand::Nothing),
            OUT,
            READ_X,
            PRINT,
            RETURN,
        ],
    )
}

// An answer 0 is a detection, an answer 1 no event.
#[test]
fn asks(rt: HostRuntime) -> Result<(), Fail> {
    let over = [
        Event::First,
        Event::Start { thread: 1 },
        Event::Detect { thread: 1 },
        Event::Read {
            variable: 0,
            value: 7,
        },
        Event::Print { value: 7 },
        Event::Last,
    ];
    let alive = [Event::First, Event::Start { thread: 1 }, Event::Last];
    let rows: [(u32, u8, &[i32], &[Event], &str); 8] = [
        (1, 2, &[7], &over, "ok"),
        (1, 255, &[7], &over, "ok"),
        (1, 0, &[], &alive, "ok"),
        (1, 253, &[], &alive, "ok"),
        (1, 2, &[], &[], "short"),
        (1, 0, &[7], &[], "left"),
        (2, 2, &[7], &[], "none"),
        (2, 4, &[], &[], "none"),
    ];
    for (asked, ended, reads, events, want) in rows {
        let program = asking(&rt, rt.alloc(), asked)?;
        let result = trace(rt.alloc(), &program, 0, reads, ended, &WIDE);
        assert_eq!(rt; outcome(&result, events), want);
    }
    Ok(())
}

// A thread that is made around its target: both constructors take the objects of one thread.
#[test]
fn targets(rt: HostRuntime) -> Result<(), Fail> {
    let started = [Event::First, Event::Start { thread: 1 }, Event::Last];
    let rows: [(Operand, Operand, Operand, &[Event], &str); 5] = [
        (
            Operand::Target(1),
            Operand::Target(1),
            Operand::Wrap(1),
            &started,
            "ok",
        ),
        (
            Operand::Target(1),
            Operand::Target(1),
            Operand::Wrap(2),
            &[],
            "none",
        ),
        (
            Operand::Target(2),
            Operand::Target(2),
            Operand::Wrap(1),
            &[],
            "none",
        ),
        (
            Operand::Target(1),
            Operand::Target(2),
            Operand::Wrap(1),
            &[],
            "none",
        ),
        (
            Operand::Make(1),
            Operand::Make(1),
            Operand::Wrap(1),
            &[],
            "none",
        ),
    ];
    for (made, constructed, wrapped, events, want) in rows {
        let program = alone(
            &rt,
            rt.alloc(),
            &[
                new(Operand::Make(1)),
                DOUBLE,
                new(made),
                DOUBLE,
                construct(constructed),
                construct(wrapped),
                call(Operand::Start(1)),
                RETURN,
            ],
        )?;
        let result = trace(rt.alloc(), &program, 0, &[], 0, &WIDE);
        assert_eq!(rt; outcome(&result, events), want);
    }
    Ok(())
}
