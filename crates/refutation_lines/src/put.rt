//! Writing lines in version 2.

ghost use Rattle.std.specs.Prelude.{All, ◌*◌, ◌<◌, length, map};
ghost use Rattle.ports.specs.Faults.{HasCause};
ghost use Rattle.ports.specs.Growth.{PutsAll};
ghost use Rattle.texts.specs.SevenBits.{seven_bits};
ghost use Rattle.var_names.specs.LiteralNumbers.{lit_of};
ghost use Rattle.var_names.specs.LiteralText.{argument_bytes, literal_bytes};
ghost use Rattle.refutation_lines.specs.LineText.{clause_bytes, counted, header_bytes, line_bytes};

use crate::line::Line;
use ports::{Failed, Sink, put_all};
use texts::{SevenBits, Spelling, put_each, put_seven_bits};
use var_names::{ArgumentBytes, Formula, LiteralBytes, Rule, put_lit_bytes};

/// The literals of a formula by number, in bytes.
#[derive(Clone, Copy)]
pub struct NumberedLiterals<'a> {
    pub formula: &'a Formula,
}

impl Spelling<u32> for NumberedLiterals<'_> {
    ghost use Rattle.std.specs.Prelude.{◌*◌, ◌<◌, length};
    ghost use Rattle.var_names.specs.LiteralNumbers.{lit_of};
    ghost use Rattle.var_names.specs.LiteralText.{literal_bytes};

    ghost text = { λ spelling number. literal_bytes (lit_of spelling.formula.now.variables number) };

    ghost fits = { λ spelling number. number < 2 * length spelling.formula.now.variables };

    fn put<S: Sink>(&self, out: &mut S, item: &u32) -> Result<(), Failed> {
        put_lit_bytes(out, &self.formula.lit(*item))
    }
}

/// Puts how many items there are, and then their bytes. Where it failed, a prefix of that was put.
///
/// # Errors
/// `Failed` only where the sink's count of faults rose.
pub fn put_counted<X, W: Spelling<X>, S: Sink>(
    spelling: &W,
    out: &mut S,
    items: &[X],
) -> Result<(), Failed>
    requires { All (W.fits spelling.now) items.now }
    ensures bytes { PutsAll (S.held out.old) (S.held out.new) result (counted (W.text spelling.now) items.now) }
    ensures cause { HasCause (S.faults out.old) (S.faults out.new) result }
    ensures rest { S.same_rest out.old out.new }
{
    put_seven_bits(out, items.len() as u64)?;
    put_each(spelling, out, items)
}

/// Puts the line of a clause, its literals in some spelling.
fn put_clause<X, W: Spelling<X>, S: Sink>(
    spelling: &W,
    out: &mut S,
    literals: &[X],
    hints: &[u64],
) -> Result<(), Failed>
    requires { All (W.fits spelling.now) literals.now }
    ensures bytes { PutsAll (S.held out.old) (S.held out.new) result (clause_bytes (W.text spelling.now) literals.now hints.now) }
    ensures cause { HasCause (S.faults out.old) (S.faults out.new) result }
    ensures rest { S.same_rest out.old out.new }
{
    put_all(out, &[2])?;
    put_counted(spelling, out, literals)?;
    put_counted(&SevenBits, out, hints)
}

/// Puts the beginning of a refutation: 4a 4d 52 32, and the number of steps. Where it failed, a prefix of that was put.
///
/// # Errors
/// `Failed` only where the sink's count of faults rose.
pub fn put_header<S: Sink>(out: &mut S, steps: u32) -> Result<(), Failed>
    ensures bytes { PutsAll (S.held out.old) (S.held out.new) result (header_bytes steps) }
    ensures cause { HasCause (S.faults out.old) (S.faults out.new) result }
    ensures rest { S.same_rest out.old out.new }
{
    put_all(out, b"JMR2")?;
    put_seven_bits(out, steps as u64)
}

/// Puts the line that makes an instance the next clause. Where it failed, a prefix of that was put.
///
/// # Errors
/// `Failed` only where the sink's count of faults rose.
pub fn put_instance<S: Sink>(out: &mut S, rule: &Rule) -> Result<(), Failed>
    ensures bytes { PutsAll (S.held out.old) (S.held out.new) result (line_bytes (Line.Instance rule.now)) }
    ensures cause { HasCause (S.faults out.old) (S.faults out.new) result }
    ensures rest { S.same_rest out.old out.new }
{
    put_all(out, &[1])?;
    put_seven_bits(out, rule.number as u64)?;
    put_counted(&ArgumentBytes, out, rule.args.as_slice())
}

/// Puts the line of a clause of a formula's literals, by number, with its hints. Where it failed, a prefix of that was put.
///
/// # Errors
/// `Failed` only where the sink's count of faults rose.
pub fn put_numbered_clause<S: Sink>(
    out: &mut S,
    formula: &Formula,
    numbers: &[u32],
    hints: &[u64],
) -> Result<(), Failed>
    requires { All (λ n. n < 2 * length formula.now.variables) numbers.now }
    ensures bytes { PutsAll (S.held out.old) (S.held out.new) result
        (line_bytes (Line.Clause (map (lit_of formula.now.variables) numbers.now) hints.now)) }
    ensures cause { HasCause (S.faults out.old) (S.faults out.new) result }
    ensures rest { S.same_rest out.old out.new }
{
    put_clause(&NumberedLiterals { formula }, out, numbers, hints)
}

/// Puts the line that takes clauses out. Where it failed, a prefix of that was put.
///
/// # Errors
/// `Failed` only where the sink's count of faults rose.
pub fn put_deletion<S: Sink>(out: &mut S, numbers: &[u64]) -> Result<(), Failed>
    ensures bytes { PutsAll (S.held out.old) (S.held out.new) result (line_bytes (Line.Deletion numbers.now)) }
    ensures cause { HasCause (S.faults out.old) (S.faults out.new) result }
    ensures rest { S.same_rest out.old out.new }
{
    put_all(out, &[3])?;
    put_counted(&SevenBits, out, numbers)
}

/// Puts a line. Where it failed, a prefix of that was put.
///
/// # Errors
/// `Failed` only where the sink's count of faults rose.
pub fn put_line<S: Sink>(out: &mut S, line: &Line) -> Result<(), Failed>
    ensures bytes { PutsAll (S.held out.old) (S.held out.new) result (line_bytes line.now) }
    ensures cause { HasCause (S.faults out.old) (S.faults out.new) result }
    ensures rest { S.same_rest out.old out.new }
{
    match line {
        Line::Instance(rule) => put_instance(out, rule),
        Line::Clause { literals, hints } => put_clause(
            &LiteralBytes,
            out,
            literals.as_slice(),
            hints.as_slice(),
        ),
        Line::Deletion(numbers) => put_deletion(out, numbers.as_slice()),
    }
}
