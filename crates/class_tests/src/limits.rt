//! The limits at their edges, and signatures.

ghost use Rattle.std.specs.Prelude.{◌≡◌, IfOk};
ghost use Rattle.untyped_program.specs.Limits.{AreByPlace};

use opcodes::Listing;
use ports::Memory;
use program::{Frame, Items, MethodId, Name, Variable};
use std::alloc::Global;
use std::test::Fail;
use typing::{Entry, Symbol, UntypedMethod};
use untyped_program::{LimitKind, LimitRefusal, UntypedProgram, check_limits};

/// A method that calls the second one.
fn method(alloc: Global, place: u32, slots: u32) -> Result<UntypedMethod, Memory>
    ensures { IfOk result (λ m. m.id ≡ record { class = 0; method = place }) }
{
    let mut symbols = Items::new(alloc);
    symbols.push(Symbol::Call {
        method: MethodId {
            class: 0,
            method: 1,
        },
        parameters: 0,
        result: false,
    })?;
    Ok(UntypedMethod {
        id: MethodId {
            class: 0,
            method: place,
        },
        entry: Entry::Static,
        frame: Frame {
            max_locals: slots,
            max_stack: 0,
            parameters: 0,
            result: false,
            monitor: None,
        },
        listing: Listing::new(alloc),
        symbols,
    })
}

/// Two methods with so many slots; each calls the second one.
fn two_methods(alloc: Global, first: u32, second: u32) -> Result<Items<UntypedMethod>, Memory>
    ensures { IfOk result (λ methods. AreByPlace methods) }
{
    let mut methods = Items::new(alloc);
    methods.push(method(alloc, 0, first)?)?;
    methods.push(method(alloc, 1, second)?)?;
    Ok(methods)
}

/// A program with so many threads and variables.
fn program(
    alloc: Global,
    threads: u32,
    variables: u32,
    methods: Items<UntypedMethod>,
) -> Result<UntypedProgram, Memory>
    ensures { IfOk result (λ p. p.methods ≡ methods) }
{
    let mut runs = Items::new(alloc);
    for place in 0..threads {
        runs.push(MethodId {
            class: 0,
            method: place,
        })?;
    }
    let mut fields = Items::new(alloc);
    for _ in 0..variables {
        fields.push(Variable {
            class: Name::copied(alloc, b"M")?,
            name: Name::copied(alloc, b"x")?,
            volatile: false,
        })?;
    }
    Ok(UntypedProgram {
        variables: fields,
        monitors: Items::new(alloc),
        threads: runs,
        methods,
    })
}

/// The limit that a program passes, by the number of its kind; 0 where it passes none.
fn passed(outcome: Result<(), LimitRefusal>) -> u32 {
    match outcome {
        Ok(()) => 0,
        Err(LimitRefusal::Passed(LimitKind::Threads)) => 1,
        Err(LimitRefusal::Passed(LimitKind::Variables)) => 2,
        Err(LimitRefusal::Passed(LimitKind::FrameSlots)) => 3,
        Err(LimitRefusal::Memory) => 4,
    }
}

#[test]
fn limits(rt: HostRuntime) -> Result<(), Fail> {
    // threads, variables, slots of the first and of the second method, the limit
    let table = [
        (8, 16, 0, 0, 0),
        (9, 16, 0, 0, 1),
        (8, 17, 0, 0, 2),
        (9, 17, 17, 0, 1),
        (8, 17, 17, 0, 2),
        (1, 0, 16, 0, 0),
        (1, 0, 17, 0, 3),
        (1, 0, 0, 1, 3),
        (1, 0, 16, 1, 3),
    ];
    for (threads, variables, first, second, kind) in table {
        let methods = two_methods(rt.alloc(), first, second)?;
        let program = program(rt.alloc(), threads, variables, methods)?;
        assert_eq!(rt; passed(check_limits(rt.alloc(), &program)), kind);
    }
    Ok(())
}
