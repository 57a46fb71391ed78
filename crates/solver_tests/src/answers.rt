//! Answers to small formulas, for many words to learn and for none.

ghost use Rattle.std.specs.Prelude.{◌<◌, ◌^◌};

use crate::ruled::RuledFormula;
use crate::solved::{Ending, has_model, solve};
use std::alloc::Global;
use std::test::Fail;

/// The words for learned clauses in each round: none, a few, and enough for all.
const LEARN_WORDS: [u32; 3] = [0, 40, 100_000];

/// More clause lines than any search of these formulas has.
const AMPLE: u64 = 1 << 20;

/// The bytes of a log without lines: the mark, and the number of steps.
const HEADER: usize = 5;

fn formula_of(alloc: Global, clauses: &[&[i32]]) -> Result<RuledFormula, Fail> {
    let mut formula = RuledFormula::new(alloc);
    for clause in clauses {
        formula.push(alloc, clause)?;
    }
    Ok(formula)
}

#[test]
fn all_eight_clauses(rt: HostRuntime) -> Result<(), Fail> {
    let clauses: [&[i32]; 8] = [
        &[1, 2, 3],
        &[1, 2, -3],
        &[1, -2, 3],
        &[1, -2, -3],
        &[-1, 2, 3],
        &[-1, 2, -3],
        &[-1, -2, 3],
        &[-1, -2, -3],
    ];
    let formula = formula_of(rt.alloc(), &clauses)?;
    for learn_words in [0, 64] {
        let (ending, _) = solve(rt.alloc(), &formula, learn_words, 15)?;
        assert_eq!(rt; ending, Ending::Refuted, "{learn_words}");
        let (ending, bytes) = solve(rt.alloc(), &formula, learn_words, 0)?;
        assert_eq!(rt; ending, Ending::Spent, "{learn_words}");
        assert_eq!(rt; bytes, HEADER, "{learn_words}");
    }
    Ok(())
}

#[test]
fn clauses_of_few_literals(rt: HostRuntime) -> Result<(), Fail> {
    let rows: [(&[&[i32]], Ending); 7] = [
        (&[], Ending::Satisfied),
        (&[&[]], Ending::Refuted),
        (&[&[1, 2], &[]], Ending::Refuted),
        (&[&[1], &[-1]], Ending::Refuted),
        (&[&[1], &[2, 3], &[-1]], Ending::Refuted),
        (&[&[1], &[-1, 2], &[-2]], Ending::Refuted),
        (&[&[1], &[-1, 2], &[-2, 3]], Ending::Satisfied),
    ];
    for (clauses, ending) in rows {
        let formula = formula_of(rt.alloc(), clauses)?;
        for learn_words in LEARN_WORDS {
            let (found, _) = solve(rt.alloc(), &formula, learn_words, AMPLE)?;
            assert_eq!(rt; found, ending, "{clauses:?} {learn_words}");
        }
    }
    Ok(())
}

/// Numbers in a fixed order that looks like chance.
#[derive(Drop)]
struct Chance {
    state: u32,
}

impl Chance {
    /// A number below this one, which is not 0.
    fn below(&mut self, limit: u32) -> u32
        ensures { result < 2 ^ 16 }
    {
        self.state = self
            .state
            .wrapping_mul(1_664_525)
            .wrapping_add(1_013_904_223);
        (self.state >> 16).checked_rem(limit).unwrap_or(0)
    }

    /// A literal of one of six variables.
    fn literal(&mut self) -> i32 {
        let variable = match self.below(6) {
            0 => 1,
            1 => 2,
            2 => 3,
            3 => 4,
            4 => 5,
            _ => 6,
        };
        if self.below(2) == 0 {
            variable
        } else {
            -variable
        }
    }
}

/// A formula of so many clauses of two or three literals.
fn formula_by_chance(
    alloc: Global,
    chance: &mut Chance,
    clauses: u32,
) -> Result<RuledFormula, Fail> {
    let mut formula = RuledFormula::new(alloc);
    for _ in 0..clauses {
        let mut literals = [chance.literal(), chance.literal(), chance.literal()];
        literals.sort_unstable_by_key(|number| number.unsigned_abs());
        if chance.below(8) == 0 {
            formula.push(alloc, &literals[..2])?;
        } else {
            formula.push(alloc, &literals)?;
        }
    }
    Ok(formula)
}

#[test]
fn a_hundred_small_formulas(rt: HostRuntime) -> Result<(), Fail> {
    let mut chance = Chance { state: 1 };
    for round in 0..100 {
        let count = 15 + chance.below(25);
        let formula = formula_by_chance(rt.alloc(), &mut chance, count)?;
        let ending = if has_model(rt.alloc(), formula.formula())? {
            Ending::Satisfied
        } else {
            Ending::Refuted
        };
        for learn_words in LEARN_WORDS {
            let (found, _) = solve(rt.alloc(), &formula, learn_words, AMPLE)?;
            assert_eq!(rt; found, ending, "{round} {learn_words}");
        }
    }
    Ok(())
}
