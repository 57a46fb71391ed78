//! A run of some hundred calls, beside lists of numbers that are kept by plain means.

ghost use Rattle.std.specs.Prelude.{◌≡◌, ℕ, ◌+◌, ◌^◌, ◌<◌, length};

use clause_pool::Pool;
use std::alloc::{AllocError, Global};
use std::test::Fail;

const LITERALS: u32 = 12;

/// What becomes of a clause once it was put.
#[derive(Clone, Copy)]
enum Then {
    Stays,
    Goes,
    LeavesFirst,
    LeavesSecond,
}

/// Puts the clause of a literal and the next two, and says whether there was room.
fn put_three(pool: &mut Pool, a: u32, then: Then) -> bool
    requires in_range { a + 2 < length pool.old.watches }
    requires fits { a + 2 < 2 ^ 32 }
    ensures { length pool.new.watches ≡ length pool.old.watches }
{
    let Ok(clause) = pool.put(&[a, a + 1, a + 2]) else {
        return false;
    };
    match then {
        Then::Stays => {}
        Then::Goes => pool.forget(clause),
        Then::LeavesFirst => pool.swap_watch(clause, a, 2),
        Then::LeavesSecond => pool.swap_watch(clause, a + 1, 2),
    }
    true
}

/// The literals of the clauses in the list of a literal, mixed into one number.
fn walk(pool: &Pool, literal: u32) -> u32
    requires { literal < length pool.now.watches }
{
    let mut mix = 0u32;
    let mut at = pool.first_watch(literal);
    while let Some(clause) = at {
        mix = mixed(mix, pool.lits(clause));
        at = pool.next_watch(clause, literal);
    }
    mix
}

fn mixed(mix: u32, literals: &[u32]) -> u32 {
    let mut mix = mix;
    for literal in literals {
        mix = mix.wrapping_mul(31).wrapping_add(*literal);
    }
    mix
}

/// A clause of the plain lists.
#[derive(Clone, Copy)]
struct Plain {
    literals: [u32; 3],
}

/// The clause's literals after the call, the watched ones first.
fn plain_after(a: u32, then: Then) -> Plain
    requires { a + 2 < 2 ^ 32 }
{
    match then {
        Then::LeavesFirst => Plain {
            literals: [a + 2, a + 1, a],
        },
        Then::LeavesSecond => Plain {
            literals: [a, a + 2, a + 1],
        },
        _ => Plain {
            literals: [a, a + 1, a + 2],
        },
    }
}

/// The same number from the plain list: the latest clause comes first.
fn plain_walk(clauses: &[Plain], literal: u32) -> u32 {
    let mut mix = 0u32;
    for clause in clauses.iter().rev() {
        let [first, second, _] = clause.literals;
        if first == literal || second == literal {
            mix = mixed(mix, &clause.literals);
        }
    }
    mix
}

fn then_of(seed: u32) -> Then {
    match seed >> 30 {
        0 => Then::Goes,
        1 => Then::LeavesFirst,
        2 => Then::LeavesSecond,
        _ => Then::Stays,
    }
}

/// Puts the clauses of the script that find room into the pool and into the plain list.
fn play(alloc: Global, pool: &mut Pool) -> Result<Vec<Plain>, AllocError>
    requires { length pool.old.watches ≡ 12 }
    ensures { length pool.new.watches ≡ 12 }
{
    let mut clauses = Vec::new(alloc);
    let mut seed = 7u32;
    for round in 0..300u32 {
        seed = seed.wrapping_mul(1_664_525).wrapping_add(1_013_904_223);
        let a = (seed >> 8) % (LITERALS - 2);
        let then = then_of(seed);
        let put = put_three(pool, a, then);
        if put && !matches!(then, Then::Goes) {
            clauses.push(plain_after(a, then))?;
        }
        if round % 16 == 0 {
            pool.compact();
        }
    }
    Ok(clauses)
}

#[test]
fn is_a_map_of_lists(rt: HostRuntime) -> Result<(), Fail> {
    let mut pool = Pool::open(rt.alloc(), 1500, 200, LITERALS)?;
    let clauses = play(rt.alloc(), &mut pool)?;
    assert_eq!(rt; clauses.len(), 200);
    for literal in 0..LITERALS {
        assert_eq!(rt;
            walk(&pool, literal),
            plain_walk(clauses.as_slice(), literal)
        );
    }
    pool.compact();
    assert_eq!(rt; pool.used(), 1200);
    Ok(())
}
