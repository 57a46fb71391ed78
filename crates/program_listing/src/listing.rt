//! The listing of a program.

ghost use Rattle.std.specs.Prelude.{◌≡◌};
ghost use Rattle.std.specs.List.{flat_map};
ghost use Rattle.ports.specs.Faults.{HasCause};
ghost use Rattle.ports.specs.Growth.{PutsAll};
ghost use Rattle.program_listing.specs.ListingText.{count_text, counts_line, declarations_text, listing_text, monitor_line, thread_line, threads_text, variable_line, volatility_word};

use crate::method_names::method_with;
use crate::methods::put_methods;
use crate::piece::Piece;
use class_format::ClassRecord;
use ports::{Failed, Sink, put_all};
use program::{MethodId, Name, Program, Variable};
use sequence_text::put_each;

/// Puts a count behind its word.
fn put_count<S: Sink>(out: &mut S, word: &[u8], count: usize) -> Result<(), Failed>
    ensures bytes { PutsAll (S.held out.old) (S.held out.new) result (count_text word.now count) }
    ensures cause { HasCause (S.faults out.old) (S.faults out.new) result }
    ensures rest { S.same_rest out.old out.new }
{
    let pieces = [Piece::Word(word), Piece::Number(count as i128)];
    put_each(out, &pieces)
}

/// Puts how many threads, variables and monitors there are.
fn put_counts<S: Sink>(
    out: &mut S,
    threads: u32,
    variables: usize,
    monitors: usize,
) -> Result<(), Failed>
    ensures bytes { PutsAll (S.held out.old) (S.held out.new) result (counts_line threads variables monitors) }
    ensures cause { HasCause (S.faults out.old) (S.faults out.new) result }
    ensures rest { S.same_rest out.old out.new }
{
    put_count(out, b"threads ", threads as usize)?;
    put_count(out, b" variables ", variables)?;
    put_count(out, b" monitors ", monitors)?;
    put_all(out, b"\n")
}

/// The word that tells whether a variable is volatile.
fn volatility_word(volatile: bool) -> &'static [u8]
    ensures { result.now ≡ volatility_word volatile }
{
    if volatile { b"volatile" } else { b"plain" }
}

/// Puts the line of a variable.
fn put_variable<S: Sink>(out: &mut S, variable: &Variable) -> Result<(), Failed>
    ensures bytes { PutsAll (S.held out.old) (S.held out.new) result (variable_line variable.now) }
    ensures cause { HasCause (S.faults out.old) (S.faults out.new) result }
    ensures rest { S.same_rest out.old out.new }
{
    let line = [
        Piece::Word(b"variable "),
        Piece::Name(variable.class.as_slice()),
        Piece::Word(b"."),
        Piece::Name(variable.name.as_slice()),
        Piece::Word(b" "),
        Piece::Word(volatility_word(variable.volatile)),
        Piece::Word(b"\n"),
    ];
    put_each(out, &line)
}

/// Puts the lines of variables.
fn put_variables<S: Sink>(out: &mut S, variables: &[Variable]) -> Result<(), Failed>
    ensures bytes { PutsAll (S.held out.old) (S.held out.new) result (flat_map variable_line variables.now) }
    ensures cause { HasCause (S.faults out.old) (S.faults out.new) result }
    ensures rest { S.same_rest out.old out.new }
{
    for variable in variables {
        put_variable(out, variable)?;
    }
    Ok(())
}

/// Puts the line of a monitor, by its class's name.
fn put_monitor<S: Sink>(out: &mut S, class: &Name) -> Result<(), Failed>
    ensures bytes { PutsAll (S.held out.old) (S.held out.new) result (monitor_line class.now) }
    ensures cause { HasCause (S.faults out.old) (S.faults out.new) result }
    ensures rest { S.same_rest out.old out.new }
{
    let line = [
        Piece::Word(b"monitor "),
        Piece::Name(class.as_slice()),
        Piece::Word(b"\n"),
    ];
    put_each(out, &line)
}

/// Puts the lines of monitors.
fn put_monitors<S: Sink>(out: &mut S, monitors: &[Name]) -> Result<(), Failed>
    ensures bytes { PutsAll (S.held out.old) (S.held out.new) result (flat_map monitor_line monitors.now) }
    ensures cause { HasCause (S.faults out.old) (S.faults out.new) result }
    ensures rest { S.same_rest out.old out.new }
{
    for class in monitors {
        put_monitor(out, class)?;
    }
    Ok(())
}

/// Puts the line of a thread, with the method that it runs.
fn put_thread<S: Sink>(
    out: &mut S,
    classes: &[ClassRecord],
    thread: u32,
    entry: MethodId,
) -> Result<(), Failed>
    ensures bytes { PutsAll (S.held out.old) (S.held out.new) result (thread_line classes.now thread entry) }
    ensures cause { HasCause (S.faults out.old) (S.faults out.new) result }
    ensures rest { S.same_rest out.old out.new }
{
    let method = method_with(classes, entry);
    let line = [
        Piece::Word(b"thread "),
        Piece::Number(thread as i128),
        Piece::Word(b" "),
        Piece::Name(method.class),
        Piece::Word(b"."),
        Piece::Name(method.name),
        Piece::Name(method.descriptor),
        Piece::Word(b"\n"),
    ];
    put_each(out, &line)
}

/// Puts the lines of the threads of a program.
fn put_threads<S: Sink>(
    out: &mut S,
    classes: &[ClassRecord],
    program: &Program,
) -> Result<(), Failed>
    ensures bytes { PutsAll (S.held out.old) (S.held out.new) result (threads_text classes.now 0 program.now.threads) }
    ensures cause { HasCause (S.faults out.old) (S.faults out.new) result }
    ensures rest { S.same_rest out.old out.new }
{
    for thread in 0..program.threads() {
        put_thread(out, classes, thread, program.entry(thread))?;
    }
    Ok(())
}

/// Puts the lines of what a program has besides its methods.
fn put_declarations<S: Sink>(
    out: &mut S,
    classes: &[ClassRecord],
    program: &Program,
) -> Result<(), Failed>
    ensures bytes { PutsAll (S.held out.old) (S.held out.new) result (declarations_text classes.now program.now) }
    ensures cause { HasCause (S.faults out.old) (S.faults out.new) result }
    ensures rest { S.same_rest out.old out.new }
{
    put_counts(
        out,
        program.threads(),
        program.variables().len(),
        program.monitors().len(),
    )?;
    put_variables(out, program.variables())?;
    put_monitors(out, program.monitors())?;
    put_threads(out, classes, program)
}

/// Puts the listing of a program that these classes make: how many threads, variables and monitors it has, a line for each
/// of them, and its reached methods with a line for each instruction (docs/TEXTS.md, "Listings"). In a name a byte outside
/// 21 to 7e hexadecimal prints as `?`. A method that the classes do not have prints as `.`, and the instructions of a
/// method whose class they do not have are left out. It takes no memory. Where it failed, a prefix of the text was put.
///
/// # Errors
/// `Failed` only where the sink's count of faults rose.
pub fn put_listing<S: Sink>(
    out: &mut S,
    classes: &[ClassRecord],
    program: &Program,
) -> Result<(), Failed>
    ensures bytes { PutsAll (S.held out.old) (S.held out.new) result (listing_text classes.now program.now) }
    ensures cause { HasCause (S.faults out.old) (S.faults out.new) result }
    ensures rest { S.same_rest out.old out.new }
{
    put_declarations(out, classes, program)?;
    put_methods(out, classes, program)
}
