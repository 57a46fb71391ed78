use ports::MemorySink;
use refutation_lines::{ClauseNumbers, Line, put_deletion, put_header, put_instance, put_line};
use std::test::Fail;
use var_names::{Arg, Args, Rule, RuleClause, read_lit};

/// The rule that the worked text of version 2 names.
fn rule_14() -> Rule {
    let mut args = Args::new();
    args.push(Arg::Number(5));
    Rule { number: 14, args }
}

#[test]
fn worked_text(rt: HostRuntime) -> Result<(), Fail> {
    let mut sink = MemorySink::open(rt.alloc(), 100, Vec::new(rt.alloc()))?;
    put_header(&mut sink, 3)?;
    put_instance(&mut sink, &rule_14())?;
    let mut hints = ClauseNumbers::new(rt.alloc());
    hints.push(1)?;
    assert_eq!(rt;
        (hints.len(), hints.get(0), hints.get(1)),
        (1, Some(1), None)
    );
    let empty = Line::Clause {
        literals: RuleClause::new(rt.alloc()),
        hints,
    };
    put_line(&mut sink, &empty)?;
    assert_eq!(rt;
        sink.bytes(),
        [74, 77, 82, 50, 3, 1, 14, 1, 6, 2, 0, 1, 1].as_slice()
    );
    Ok(())
}

#[test]
fn clauses_and_deletions(rt: HostRuntime) -> Result<(), Fail> {
    let mut sink = MemorySink::open(rt.alloc(), 100, Vec::new(rt.alloc()))?;
    let mut literals = RuleClause::new(rt.alloc());
    literals.push(read_lit(b"-on.0.7").ok_or("no literal")?)?;
    let mut hints = ClauseNumbers::new(rt.alloc());
    hints.push(300)?;
    hints.push(2)?;
    put_line(&mut sink, &Line::Clause { literals, hints })?;
    put_line(&mut sink, &Line::Instance(rule_14()))?;
    put_deletion(&mut sink, &[1, 200])?;
    assert_eq!(rt;
        sink.bytes(),
        [2, 1, 2, 1, 8, 2, 172, 2, 2, 1, 14, 1, 6, 3, 2, 1, 200, 1].as_slice()
    );
    Ok(())
}
