//! Small methods, built by hand.

ghost use Rattle.std.specs.Prelude.{◌≡◌, length, pos, true};
ghost use Rattle.typing.specs.Typing.{IsListed, AllReached};

use opcodes::{Instr, Listing};
use program::{Frame, HeldMonitor, Items, MethodId, TypedLocal, TypedState, ValueType};
use std::alloc::Global;
use std::test::Fail;
use typing::{Entry, Symbol, TypeKind, TypeRefusal, UntypedMethod, type_method};

mod reached;

use reached::is_reached;

const RETURN: (Instr, Symbol) = (Instr::Return, Symbol::Nothing);

const ONE: (Instr, Symbol) = (Instr::Iconst1, Symbol::Constant(1));

const ENTER: (Instr, Symbol) = (Instr::Monitorenter, Symbol::Nothing);

const LEAVE: (Instr, Symbol) = (Instr::Monitorexit, Symbol::Nothing);

const CLASS: (Instr, Symbol) = (Instr::Ldc { index: 1 }, Symbol::Monitor(5));

const NEW: (Instr, Symbol) = (Instr::New { index: 1 }, Symbol::Make(1));

const INIT: (Instr, Symbol) = (Instr::Invokespecial { index: 2 }, Symbol::Construct);

const START: (Instr, Symbol) = (Instr::Invokevirtual { index: 3 }, Symbol::Start);

const JOIN: (Instr, Symbol) = (Instr::Invokevirtual { index: 4 }, Symbol::Join);

const ASK: (Instr, Symbol) = (Instr::Invokevirtual { index: 5 }, Symbol::Alive);

const NEW_TARGET: (Instr, Symbol) = (Instr::New { index: 6 }, Symbol::MakeTarget(1));

const INIT_TARGET: (Instr, Symbol) = (Instr::Invokespecial { index: 7 }, Symbol::ConstructTarget);

const WRAP: (Instr, Symbol) = (Instr::Invokespecial { index: 8 }, Symbol::Wrap);

/// An instruction that names nothing.
fn plain(instr: Instr) -> (Instr, Symbol) {
    (instr, Symbol::Nothing)
}

/// A frame of this size.
fn frame(max_locals: u32, max_stack: u32, parameters: u32, leaves: bool) -> Frame {
    Frame {
        max_locals,
        max_stack,
        parameters,
        result: leaves,
        monitor: None,
    }
}

/// A method of these instructions, one behind the other.
fn method(
    alloc: Global,
    entry: Entry,
    frame: Frame,
    code: &[(Instr, Symbol)],
) -> Result<UntypedMethod, Fail> {
    let mut listing = Listing::new(alloc);
    let mut symbols = Items::new(alloc);
    let mut pc = 0u32;
    for (instr, symbol) in code {
        let Some(next) = pc.checked_add(instr.length()) else {
            break;
        };
        listing.push(pc, *instr)?;
        symbols.push(*symbol)?;
        pc = next;
    }
    Ok(UntypedMethod {
        id: MethodId {
            class: 0,
            method: 0,
        },
        entry,
        frame,
        listing,
        symbols,
    })
}

/// Whether the method is as the typing wants it.
fn is_fit(method: &UntypedMethod) -> bool
    ensures symbols { result ≡ true → length method.now.symbols ≡ length method.now.listing }
    ensures start { result ≡ true → IsListed method.now.listing (pos 0) }
    ensures reached { result ≡ true → AllReached method.now.listing }
{
    let listing = method.listing.as_slice();
    method.symbols.len() == listing.len()
        && !listing.is_empty()
        && listing[0].pc == 0
        && is_reached(listing)
}

/// The typed states of a method.
fn types(alloc: Global, method: &UntypedMethod) -> Result<Items<TypedState>, TypeRefusal> {
    if !is_fit(method) {
        return Err(TypeRefusal::Memory);
    }
    type_method(alloc, method)
}

/// The refusal of a method, if any.
fn refusal(alloc: Global, method: &UntypedMethod) -> Option<TypeRefusal> {
    match types(alloc, method) {
        Ok(_) => None,
        Err(refusal) => Some(refusal),
    }
}

/// A refusal of this kind.
fn refused(kind: TypeKind, pc: u32) -> Option<TypeRefusal> {
    Some(TypeRefusal::Refused { kind, pc })
}

#[test]
fn misfits(rt: HostRuntime) -> Result<(), Fail> {
    let small = frame(4, 4, 0, false);
    let misfit = |pc| refused(TypeKind::TypeMisfit, pc);
    let cases: [(&[(Instr, Symbol)], Option<TypeRefusal>); 9] = [
        (&[RETURN], None),
        // No operand, operands of another type, a return that doesn't fit.
        (&[plain(Instr::Iadd), RETURN], misfit(0)),
        (&[CLASS, plain(Instr::Istore0), RETURN], misfit(2)),
        (&[ONE, plain(Instr::Astore0), RETURN], misfit(1)),
        (&[ONE, plain(Instr::Ireturn)], misfit(1)),
        // A local without a type.
        (&[plain(Instr::Iload0), RETURN], misfit(0)),
        (
            &[plain(Instr::Iinc { slot: 0, delta: 1 }), RETURN],
            misfit(0),
        ),
        // A symbol that the instruction can't have.
        (
            &[ONE, (Instr::Putstatic { index: 1 }, Symbol::Print), RETURN],
            misfit(1),
        ),
        // What else is on the stack at a return is not looked at; pop, dup and swap take all types.
        (
            &[
                CLASS,
                ONE,
                plain(Instr::Swap),
                plain(Instr::Dup),
                plain(Instr::Pop),
                RETURN,
            ],
            None,
        ),
    ];
    for (code, want) in cases {
        let method = method(rt.alloc(), Entry::Static, small, code)?;
        assert_eq!(rt; refusal(rt.alloc(), &method), want);
    }
    Ok(())
}

#[test]
fn depths_and_monitors(rt: HostRuntime) -> Result<(), Fail> {
    let depth = |pc| refused(TypeKind::StackDepth, pc);
    let cases: [(Frame, &[(Instr, Symbol)], Option<TypeRefusal>); 9] = [
        (frame(1, 1, 0, false), &[ONE, RETURN], None),
        (frame(1, 1, 0, false), &[ONE, ONE, RETURN], depth(1)),
        (
            frame(1, 1, 0, false),
            &[ONE, plain(Instr::Istore1), RETURN],
            depth(1),
        ),
        // Parameters past the locals, and the instruction at the entry misfits besides.
        (frame(1, 1, 2, false), &[RETURN], depth(0)),
        (
            frame(1, 1, 2, false),
            &[plain(Instr::Pop), RETURN],
            refused(TypeKind::TypeMisfit, 0),
        ),
        // Monitors.
        (
            frame(1, 1, 0, false),
            &[CLASS, ENTER, CLASS, LEAVE, RETURN],
            None,
        ),
        (
            frame(1, 1, 0, false),
            &[ONE, ENTER, RETURN],
            refused(TypeKind::LockOperand, 1),
        ),
        (
            frame(1, 1, 0, false),
            &[CLASS, LEAVE, RETURN],
            refused(TypeKind::Unstructured, 2),
        ),
        (
            frame(1, 1, 0, false),
            &[CLASS, ENTER, RETURN],
            refused(TypeKind::Unstructured, 3),
        ),
    ];
    for (frame, code, want) in cases {
        let method = method(rt.alloc(), Entry::Static, frame, code)?;
        assert_eq!(rt; refusal(rt.alloc(), &method), want);
    }
    Ok(())
}

#[test]
fn threads(rt: HostRuntime) -> Result<(), Fail> {
    let dup = plain(Instr::Dup);
    let store = plain(Instr::Astore1);
    let load = plain(Instr::Aload1);
    let unready = |pc| refused(TypeKind::ThreadState, pc);
    let cases: [(&[(Instr, Symbol)], Option<TypeRefusal>); 5] = [
        // An older copy of the object is constructed too.
        (
            &[NEW, dup, store, INIT, load, START, load, JOIN, RETURN],
            None,
        ),
        (&[NEW, START, RETURN], refused(TypeKind::TypeMisfit, 3)),
        (&[NEW, dup, dup, INIT, JOIN, RETURN], unready(8)),
        (&[NEW, dup, dup, INIT, START, START, RETURN], unready(11)),
        // Started in one branch only.
        (
            &[
                NEW,
                dup,
                store,
                INIT,
                ONE,
                plain(Instr::Ifeq { distance: 7 }),
                load,
                START,
                load,
                JOIN,
                RETURN,
            ],
            unready(17),
        ),
    ];
    for (code, want) in cases {
        let method = method(rt.alloc(), Entry::Main, frame(2, 3, 1, false), code)?;
        assert_eq!(rt; refusal(rt.alloc(), &method), want);
    }
    Ok(())
}

#[test]
fn asked_threads(rt: HostRuntime) -> Result<(), Fail> {
    let dup = plain(Instr::Dup);
    let pop = plain(Instr::Pop);
    let store = plain(Instr::Astore1);
    let load = plain(Instr::Aload1);
    let unready = |pc| refused(TypeKind::ThreadState, pc);
    let misfit = |pc| refused(TypeKind::TypeMisfit, pc);
    let cases: [(&[(Instr, Symbol)], Option<TypeRefusal>); 8] = [
        // Asked once, waited for twice.
        (&[NEW, dup, dup, INIT, dup, START, ASK, pop, RETURN], None),
        (
            &[
                NEW, dup, store, INIT, load, START, load, JOIN, load, JOIN, RETURN,
            ],
            None,
        ),
        // Asked before the start, asked twice, asked and then waited for, waited for and then asked.
        (&[NEW, dup, dup, INIT, ASK, RETURN], unready(8)),
        (
            &[
                NEW, dup, store, INIT, load, START, load, ASK, pop, load, ASK, pop, RETURN,
            ],
            unready(18),
        ),
        (
            &[
                NEW, dup, store, INIT, load, START, load, ASK, pop, load, JOIN, RETURN,
            ],
            unready(18),
        ),
        (
            &[
                NEW, dup, store, INIT, load, START, load, JOIN, load, ASK, pop, RETURN,
            ],
            unready(17),
        ),
        // Waited for in one branch, and then in both; or asked then.
        (
            &[
                NEW,
                dup,
                store,
                INIT,
                load,
                START,
                ONE,
                plain(Instr::Ifeq { distance: 7 }),
                load,
                JOIN,
                load,
                JOIN,
                RETURN,
            ],
            None,
        ),
        (&[ONE, ASK, RETURN], misfit(1)),
    ];
    for (code, want) in cases {
        let method = method(rt.alloc(), Entry::Main, frame(2, 3, 1, false), code)?;
        assert_eq!(rt; refusal(rt.alloc(), &method), want);
    }
    Ok(())
}

#[test]
fn targets(rt: HostRuntime) -> Result<(), Fail> {
    let dup = plain(Instr::Dup);
    let store = plain(Instr::Astore1);
    let load = plain(Instr::Aload1);
    let other = (Instr::New { index: 1 }, Symbol::Make(2));
    let misfit = |pc| refused(TypeKind::TypeMisfit, pc);
    let cases: [(&[(Instr, Symbol)], Option<TypeRefusal>); 6] = [
        // A thread is made around its target, and started by an older copy.
        (
            &[
                NEW,
                dup,
                store,
                NEW_TARGET,
                dup,
                INIT_TARGET,
                WRAP,
                load,
                START,
                RETURN,
            ],
            None,
        ),
        // The target's constructor isn't called; the thread is of another number; the thread's own constructor is called.
        (&[NEW, NEW_TARGET, WRAP, RETURN], misfit(6)),
        (
            &[other, NEW_TARGET, dup, INIT_TARGET, WRAP, RETURN],
            misfit(10),
        ),
        (&[NEW_TARGET, INIT, RETURN], misfit(3)),
        // The target is started; the thread is started unmade.
        (&[NEW_TARGET, dup, INIT_TARGET, START, RETURN], misfit(7)),
        (&[NEW, START, RETURN], misfit(3)),
    ];
    for (code, want) in cases {
        let method = method(rt.alloc(), Entry::Main, frame(2, 4, 1, false), code)?;
        assert_eq!(rt; refusal(rt.alloc(), &method), want);
    }
    Ok(())
}

#[test]
fn paths_that_meet(rt: HostRuntime) -> Result<(), Fail> {
    let branch = plain(Instr::Ifeq { distance: 4 });
    let cases: [(&[(Instr, Symbol)], Option<TypeRefusal>); 8] = [
        // A local has a type on one path alone, and is loaded or not.
        (
            &[ONE, branch, ONE, plain(Instr::Istore0), RETURN],
            refused(TypeKind::TypeMisfit, 5),
        ),
        (
            &[
                ONE,
                plain(Instr::Ifeq { distance: 5 }),
                ONE,
                plain(Instr::Istore0),
                RETURN,
            ],
            None,
        ),
        (
            &[
                ONE,
                plain(Instr::Ifeq { distance: 5 }),
                ONE,
                plain(Instr::Istore0),
                plain(Instr::Iload0),
                RETURN,
            ],
            refused(TypeKind::TypeMisfit, 6),
        ),
        // The stacks of two paths differ where they meet.
        (
            &[ONE, branch, ONE, RETURN],
            refused(TypeKind::TypeMisfit, 5),
        ),
        // The same, and the paths have not the same number of steps.
        (
            &[
                ONE,
                plain(Instr::Ifeq { distance: 6 }),
                ONE,
                plain(Instr::Nop),
                plain(Instr::Nop),
                RETURN,
            ],
            refused(TypeKind::TypeMisfit, 7),
        ),
        // The stacks of two turns of a loop differ.
        (
            &[ONE, plain(Instr::Goto { distance: -1 })],
            refused(TypeKind::TypeMisfit, 0),
        ),
        // The monitors of two paths differ where they meet.
        (
            &[
                ONE,
                plain(Instr::Ifeq { distance: 6 }),
                CLASS,
                ENTER,
                plain(Instr::Nop),
                RETURN,
            ],
            refused(TypeKind::Unstructured, 7),
        ),
        // A loop.
        (&[ONE, plain(Instr::Ifeq { distance: -1 }), RETURN], None),
    ];
    for (code, want) in cases {
        let method = method(rt.alloc(), Entry::Static, frame(1, 2, 0, false), code)?;
        assert_eq!(rt; refusal(rt.alloc(), &method), want);
    }
    Ok(())
}

/// What is known of a frame: its locals, its stack with the lowest first, and its monitors.
type State = (
    &'static [TypedLocal],
    &'static [ValueType],
    &'static [HeldMonitor],
);

const ARGS: TypedLocal = TypedLocal {
    slot: 0,
    holds: ValueType::Args,
};

const INT: TypedLocal = TypedLocal {
    slot: 1,
    holds: ValueType::Int,
};

const HELD: HeldMonitor = HeldMonitor {
    monitor: 5,
    count: 1,
};

#[test]
fn states(rt: HostRuntime) -> Result<(), Fail> {
    let held: (&[(Instr, Symbol)], &[State]) = (
        &[
            ONE,
            plain(Instr::Istore1),
            CLASS,
            ENTER,
            ONE,
            CLASS,
            LEAVE,
            plain(Instr::Pop),
            RETURN,
        ],
        &[
            (&[ARGS], &[], &[]),
            (&[ARGS], &[ValueType::Int], &[]),
            (&[ARGS, INT], &[], &[]),
            (&[ARGS, INT], &[ValueType::Lock(5)], &[]),
            (&[ARGS, INT], &[], &[HELD]),
            (&[ARGS, INT], &[ValueType::Int], &[HELD]),
            (&[ARGS, INT], &[ValueType::Int, ValueType::Lock(5)], &[HELD]),
            (&[ARGS, INT], &[ValueType::Int], &[]),
            (&[ARGS, INT], &[], &[]),
        ],
    );
    // Counts down to 0.
    let counting: (&[(Instr, Symbol)], &[State]) = (
        &[
            ONE,
            plain(Instr::Istore1),
            plain(Instr::Iload1),
            plain(Instr::Ifeq { distance: 9 }),
            plain(Instr::Iinc { slot: 1, delta: -1 }),
            plain(Instr::Goto { distance: -7 }),
            RETURN,
        ],
        &[
            (&[ARGS], &[], &[]),
            (&[ARGS], &[ValueType::Int], &[]),
            (&[ARGS, INT], &[], &[]),
            (&[ARGS, INT], &[ValueType::Int], &[]),
            (&[ARGS, INT], &[], &[]),
            (&[ARGS, INT], &[], &[]),
            (&[ARGS, INT], &[], &[]),
        ],
    );
    // An int or a class object in a local that is never loaded.
    let two_types: (&[(Instr, Symbol)], &[State]) = (
        &[
            ONE,
            plain(Instr::Ifeq { distance: 8 }),
            ONE,
            plain(Instr::Istore1),
            plain(Instr::Goto { distance: 6 }),
            CLASS,
            plain(Instr::Astore1),
            RETURN,
        ],
        &[
            (&[ARGS], &[], &[]),
            (&[ARGS], &[ValueType::Int], &[]),
            (&[ARGS], &[], &[]),
            (&[ARGS], &[ValueType::Int], &[]),
            (&[ARGS, INT], &[], &[]),
            (&[ARGS], &[], &[]),
            (&[ARGS], &[ValueType::Lock(5)], &[]),
            (&[ARGS], &[], &[]),
        ],
    );
    for (code, want) in [held, counting, two_types] {
        let method = method(rt.alloc(), Entry::Main, frame(2, 2, 1, false), code)?;
        let typed = types(rt.alloc(), &method)?;
        assert_eq!(rt; typed.len(), want.len());
        for (state, (locals, stack, held)) in typed.as_slice().iter().zip(want) {
            assert_eq!(rt; state.locals.as_slice(), *locals);
            assert_eq!(rt; state.stack.as_slice(), *stack);
            assert_eq!(rt; state.held.as_slice(), *held);
        }
    }
    Ok(())
}
