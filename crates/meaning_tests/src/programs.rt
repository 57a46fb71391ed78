//! Programs, their names and operands, built by hand.

use opcodes::Listing;
use program::{Frame, Items, Method, MethodId, Name, Operand, Operands, Program, Variable};
use std::test::Fail;

#[test]
fn operands(rt: HostRuntime) -> Result<(), Fail> {
    let mut operands = Operands::new(rt.alloc());
    operands.push(Operand::Constant(5))?;
    assert_eq!(rt; operands.as_slice(), [Operand::Constant(5)].as_slice());
    Ok(())
}

#[test]
fn names(rt: HostRuntime) -> Result<(), Fail> {
    let mut name = Name::copied(rt.alloc(), b"M")?;
    assert!(rt; name.can_be_written());
    name.push(b'.')?;
    assert!(rt; !name.can_be_written());
    assert!(rt; !Name::new(rt.alloc()).can_be_written());
    let copy = name.duplicate()?;
    assert!(rt; copy.same(&name));
    assert_eq!(rt; copy.as_slice(), b"M.".as_slice());
    Ok(())
}

const MAIN: MethodId = MethodId {
    class: 0,
    method: 3,
};

#[test]
fn builds(rt: HostRuntime) -> Result<(), Fail> {
    let mut program = Program::new(rt.alloc());
    let class = Name::copied(rt.alloc(), b"M")?;
    let name = Name::copied(rt.alloc(), b"x")?;
    assert!(rt; class.can_be_written());
    assert!(rt; name.can_be_written());
    program.add_variable(Variable {
        class,
        name,
        volatile: true,
    })?;
    program.add_monitor(Name::copied(rt.alloc(), b"M")?)?;
    program.add_thread(MAIN)?;
    program.add_method(Method {
        id: MAIN,
        frame: Frame {
            max_locals: 1,
            max_stack: 2,
            parameters: 1,
            result: false,
            monitor: None,
        },
        listing: Listing::new(rt.alloc()),
        operands: Operands::new(rt.alloc()),
        typed: Items::new(rt.alloc()),
    })?;
    assert_eq!(rt; program.threads(), 1);
    assert_eq!(rt; program.entry(0), MAIN);
    assert_eq!(rt; program.variables().len(), 1);
    assert!(rt; program.variables()[0].volatile);
    assert_eq!(rt; program.monitors().len(), 1);
    assert_eq!(rt; program.methods(), [MAIN].as_slice());
    assert_eq!(rt; program.frame(MAIN).max_stack, 2);
    assert!(rt; program.listing(MAIN).is_empty());
    Ok(())
}
