use ports::Memory;
use refutation_check::{HintRefusal, LiteralNumbers, LiveClauses, Marks, follow};
use std::alloc::Global;
use std::test::Fail;

fn clause(alloc: Global, numbers: &[u32]) -> Result<LiteralNumbers, Memory> {
    let mut clause = LiteralNumbers::new(alloc);
    for number in numbers {
        clause.push(*number)?;
    }
    Ok(clause)
}

#[test]
fn hints_up_to_a_conflict(rt: HostRuntime) -> Result<(), Fail> {
    let mut live = LiveClauses::new(rt.alloc());
    for numbers in [[0].as_slice(), &[1, 2], &[3], &[1, 2, 4]] {
        assert!(rt; live.count() < 9);
        live.push(clause(rt.alloc(), numbers)?)?;
    }
    let mut marks = Marks::new(rt.alloc());
    assert_eq!(rt; follow(&live, &mut marks, &[1, 2, 3]), Ok(()));
    marks.clear();
    assert_eq!(rt; follow(&live, &mut marks, &[]), Err(HintRefusal::NotUnit));
    assert_eq!(rt;
        follow(&live, &mut marks, &[1, 2]),
        Err(HintRefusal::NotUnit)
    );
    marks.clear();
    assert_eq!(rt;
        follow(&live, &mut marks, &[1, 4, 3]),
        Err(HintRefusal::NotUnit)
    );
    marks.clear();
    assert_eq!(rt;
        follow(&live, &mut marks, &[1, 1, 2, 3]),
        Err(HintRefusal::NotUnit)
    );
    marks.clear();
    assert_eq!(rt;
        follow(&live, &mut marks, &[1, 5]),
        Err(HintRefusal::Unknown)
    );
    assert_eq!(rt; follow(&live, &mut marks, &[0]), Err(HintRefusal::Unknown));
    Ok(())
}

#[test]
fn clauses_taken_out(rt: HostRuntime) -> Result<(), Fail> {
    let mut live = LiveClauses::new(rt.alloc());
    for numbers in [[0].as_slice(), &[1]] {
        assert!(rt; live.count() < 9);
        live.push(clause(rt.alloc(), numbers)?)?;
    }
    assert_eq!(rt; live.get(2).ok_or("second")?, [1].as_slice());
    assert!(rt; live.take_out(1));
    assert!(rt; !live.take_out(1));
    assert!(rt; !live.take_out(3));
    assert!(rt; live.get(1).is_none());
    assert_eq!(rt; live.count(), 2);
    let mut marks = Marks::new(rt.alloc());
    assert_eq!(rt;
        follow(&live, &mut marks, &[1, 2]),
        Err(HintRefusal::Unknown)
    );
    marks.mark(0)?;
    assert!(rt; marks.is_marked(0));
    assert_eq!(rt; follow(&live, &mut marks, &[2]), Ok(()));
    Ok(())
}
