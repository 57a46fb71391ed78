use std::test::Fail;
use var_names::{Args, Assignment, Formula, Lit, Rule, RuleClause, read_lit};

fn named(text: &[u8]) -> Result<Lit, Fail> {
    Ok(read_lit(text).ok_or("no literal")?)
}

#[test]
fn numbers_by_first_appearance(rt: HostRuntime) -> Result<(), Fail> {
    let mut formula = Formula::new(rt.alloc(), 3);
    let texts: [(u32, &[u8]); 3] = [(1, b"-on.0.1"), (2, b"+go.0.1"), (3, b"+on.0.1")];
    for (number, text) in texts {
        let mut clause = RuleClause::new(rt.alloc());
        clause.push(named(text)?)?;
        assert!(rt; formula.variables() < 100);
        formula.push(
            clause,
            Rule {
                number,
                args: Args::new(),
            },
        )?;
    }
    assert_eq!(rt; formula.steps(), 3);
    assert_eq!(rt; (formula.variables(), formula.clauses()), (2, 3));
    assert_eq!(rt; formula.clause(0).ok_or("first")?, [1].as_slice());
    assert_eq!(rt; formula.clause(1).ok_or("second")?, [2].as_slice());
    assert_eq!(rt; formula.clause(2).ok_or("third")?, [0].as_slice());
    assert_eq!(rt; formula.rule(2).ok_or("third")?.number, 3);
    assert!(rt; formula.clause(3).is_none());
    assert!(rt; formula.variable(2).is_none());
    assert_eq!(rt; *formula.variable(1).ok_or("go")?, named(b"+go.0.1")?.var);
    Ok(())
}

#[test]
fn assignments(rt: HostRuntime) -> Result<(), Fail> {
    let mut values = Assignment::new(rt.alloc(), 3)?;
    assert_eq!(rt; values.len(), 3);
    values.set(1, true);
    assert_eq!(rt;
        (values.get(0), values.get(1), values.get(3)),
        (Some(false), Some(true), None)
    );
    Ok(())
}
