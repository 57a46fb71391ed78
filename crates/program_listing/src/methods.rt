//! The lines of reached methods and of their instructions.

ghost use Rattle.std.specs.Prelude.{◌≡◌, slice_get};
ghost use Rattle.std.specs.List.{flat_map};
ghost use Rattle.ports.specs.Faults.{HasCause};
ghost use Rattle.ports.specs.Growth.{PutsAll};
ghost use Rattle.program_listing.specs.Instructions.{instruction_head, instruction_line};
ghost use Rattle.program_listing.specs.ListingText.{instructions_text, method_line, method_lines};

use crate::instruction_names::name_of_instruction;
use crate::method_names::method_with;
use crate::operands::operands_of;
use crate::piece::Piece;
use class_format::{ClassRecord, PoolEntries};
use opcodes::{Listed, Listing};
use ports::{Failed, Sink, put_all};
use program::{Method, MethodId, Program};
use sequence_text::{Text, put_each};

/// Puts the place of an instruction and its name.
fn put_instruction_head<S: Sink>(out: &mut S, listed: &Listed) -> Result<(), Failed>
    ensures bytes { PutsAll (S.held out.old) (S.held out.new) result (instruction_head listed.now) }
    ensures cause { HasCause (S.faults out.old) (S.faults out.new) result }
    ensures rest { S.same_rest out.old out.new }
{
    let head = [
        Piece::Number(listed.pc as i128),
        Piece::Word(b" "),
        Piece::Word(name_of_instruction(&listed.instr)),
    ];
    put_each(out, &head)
}

/// Puts the line of an instruction of a class with this constant pool.
fn put_instruction<S: Sink>(out: &mut S, pool: &PoolEntries, listed: &Listed) -> Result<(), Failed>
    ensures bytes { PutsAll (S.held out.old) (S.held out.new) result (instruction_line pool.now listed.now) }
    ensures cause { HasCause (S.faults out.old) (S.faults out.new) result }
    ensures rest { S.same_rest out.old out.new }
{
    put_instruction_head(out, listed)?;
    operands_of(pool, listed.pc, &listed.instr).put(out)?;
    put_all(out, b"\n")
}

/// Puts the lines of instructions of a class with this constant pool.
fn put_each_instruction<S: Sink>(
    out: &mut S,
    pool: &PoolEntries,
    listing: &[Listed],
) -> Result<(), Failed>
    ensures bytes { PutsAll (S.held out.old) (S.held out.new) result (flat_map (instruction_line pool.now) listing.now) }
    ensures cause { HasCause (S.faults out.old) (S.faults out.new) result }
    ensures rest { S.same_rest out.old out.new }
{
    for listed in listing {
        put_instruction(out, pool, listed)?;
    }
    Ok(())
}

/// Puts the lines of the reached instructions of a method of the class at this place.
fn put_instructions<S: Sink>(
    out: &mut S,
    classes: &[ClassRecord],
    class: u32,
    listing: &Listing,
) -> Result<(), Failed>
    ensures bytes { PutsAll (S.held out.old) (S.held out.new) result (instructions_text (slice_get classes.now class) listing.now) }
    ensures cause { HasCause (S.faults out.old) (S.faults out.new) result }
    ensures rest { S.same_rest out.old out.new }
{
    match classes.get(class as usize) {
        Some(record) => put_each_instruction(out, &record.pool, listing.as_slice()),
        None => Ok(()),
    }
}

/// Puts the line that names a reached method.
fn put_method_line<S: Sink>(
    out: &mut S,
    classes: &[ClassRecord],
    id: MethodId,
) -> Result<(), Failed>
    ensures bytes { PutsAll (S.held out.old) (S.held out.new) result (method_line classes.now id) }
    ensures cause { HasCause (S.faults out.old) (S.faults out.new) result }
    ensures rest { S.same_rest out.old out.new }
{
    let method = method_with(classes, id);
    let line = [
        Piece::Word(b"method "),
        Piece::Name(method.class),
        Piece::Word(b"."),
        Piece::Name(method.name),
        Piece::Name(method.descriptor),
        Piece::Word(b"\n"),
    ];
    put_each(out, &line)
}

/// Puts the lines of a reached method.
fn put_method<S: Sink>(out: &mut S, classes: &[ClassRecord], method: &Method) -> Result<(), Failed>
    ensures bytes { PutsAll (S.held out.old) (S.held out.new) result (method_lines classes.now method.now) }
    ensures cause { HasCause (S.faults out.old) (S.faults out.new) result }
    ensures rest { S.same_rest out.old out.new }
{
    put_method_line(out, classes, method.id)?;
    put_instructions(out, classes, method.id.class, &method.listing)
}

/// Puts the lines of the reached methods of a program.
pub fn put_methods<S: Sink>(
    out: &mut S,
    classes: &[ClassRecord],
    program: &Program,
) -> Result<(), Failed>
    ensures bytes { PutsAll (S.held out.old) (S.held out.new) result (flat_map (method_lines classes.now) program.now.methods) }
    ensures cause { HasCause (S.faults out.old) (S.faults out.new) result }
    ensures rest { S.same_rest out.old out.new }
{
    for id in program.methods() {
        put_method(out, classes, program.method(*id))?;
    }
    Ok(())
}
