//! Executions and sequences that are built.

use action_orders::*;
use program::Kind;
use std::test::Fail;

#[test]
fn built(rt: HostRuntime) -> Result<(), Fail> {
    let mut execution = Execution::new(rt.alloc());
    execution.thread(0)?;
    let action = Action {
        thread: 0,
        id: 7,
        kind: Kind::First,
        operand: ActionOperand::Nothing,
    };
    assert!(rt; action.same(&action.clone()?));
    execution.entry(Entry {
        action,
        note: Note::Nothing,
    })?;
    execution.order(7)?;
    assert_eq!(rt; execution.threads().len(), 1);
    assert_eq!(rt; execution.so(), [7].as_slice());
    let mut sequence = Sequence::new(rt.alloc());
    sequence.step(execution)?;
    sequence.commit(ActionRef::Id(7))?;
    assert_eq!(rt; sequence.steps().len(), 1);
    Ok(())
}
