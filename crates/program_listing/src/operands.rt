//! The operands of instructions (JVMS 6.5).

ghost use Rattle.std.specs.Prelude.{◌≡◌, ◌+ℤ◌, pos};
ghost use Rattle.class_format.specs.Pool.{entry_at};
ghost use Rattle.class_names.specs.Names.{field_at, method_at};
ghost use Rattle.program_listing.specs.Instructions.{constant_operand, field_operand, method_operand, operands_text};
ghost use Rattle.program_listing.specs.Pieces.{shown_operands};

use crate::method_names::MethodName;
use crate::piece::Piece;
use class_format::{PoolEntries, PoolEntry, entry_at};
use class_names::{class_name_of, descriptor_of, member_name_of, text_of};
use opcodes::Instr;
use ports::{Failed, Sink};
use sequence_text::{Text, put_each};

/// What stands behind the name of an instruction.
#[derive(Clone, Copy, Debug)]
pub enum Operands<'a> {
    Nothing,
    /// A slot, a value, or the place that a jump goes to.
    Number(i64),
    /// The slot and the delta of an `iinc`.
    SlotAndDelta { slot: u8, delta: i8 },
    /// The name of a class.
    Class(&'a [u8]),
    Field { class: &'a [u8], name: &'a [u8] },
    Method(MethodName<'a>),
}

impl Text for Operands<'_> {
    ghost use Rattle.program_listing.specs.Pieces.{shown_operands};

    ghost text = { shown_operands };

    fn put<S: Sink>(&self, out: &mut S) -> Result<(), Failed> {
        match self {
            Operands::Nothing => Ok(()),
            Operands::Number(number) => put_each(
                out,
                &[Piece::Word(b" "), Piece::Number(*number as i128)],
            ),
            Operands::SlotAndDelta { slot, delta } => put_each(
                out,
                &[
                    Piece::Word(b" "),
                    Piece::Number(*slot as i128),
                    Piece::Word(b" "),
                    Piece::Number(*delta as i128),
                ],
            ),
            Operands::Class(name) => put_each(out, &[Piece::Word(b" "), Piece::Name(name)]),
            Operands::Field { class, name } => put_each(
                out,
                &[
                    Piece::Word(b" "),
                    Piece::Name(class),
                    Piece::Word(b"."),
                    Piece::Name(name),
                ],
            ),
            Operands::Method(method) => put_each(
                out,
                &[
                    Piece::Word(b" "),
                    Piece::Name(method.class),
                    Piece::Word(b"."),
                    Piece::Name(method.name),
                    Piece::Name(method.descriptor),
                ],
            ),
        }
    }
}

/// An int constant, or a class by its name.
fn constant_operand(pool: &PoolEntries, index: u16) -> Operands<'_>
    ensures { shown_operands result ≡ constant_operand pool.now (entry_at pool.now index) }
{
    match entry_at(pool, index) {
        Some(PoolEntry::Integer(bits)) => Operands::Number(bits.cast_signed() as i64),
        Some(PoolEntry::Class(name)) => Operands::Class(text_of(pool, *name)),
        _ => Operands::Nothing,
    }
}

/// The field that the Fieldref entry with this number names.
fn field_operand(pool: &PoolEntries, index: u16) -> Operands<'_>
    ensures { shown_operands result ≡ field_operand (field_at pool.now index) }
{
    match entry_at(pool, index) {
        Some(PoolEntry::Field(class, name_and_type)) => Operands::Field {
            class: class_name_of(pool, *class),
            name: member_name_of(pool, *name_and_type),
        },
        _ => Operands::Nothing,
    }
}

/// The method that the Methodref entry with this number names.
fn method_operand(pool: &PoolEntries, index: u16) -> Operands<'_>
    ensures { shown_operands result ≡ method_operand (method_at pool.now index) }
{
    match entry_at(pool, index) {
        Some(PoolEntry::Method(class, name_and_type)) => Operands::Method(MethodName {
            class: class_name_of(pool, *class),
            name: member_name_of(pool, *name_and_type),
            descriptor: descriptor_of(pool, *name_and_type),
        }),
        _ => Operands::Nothing,
    }
}

/// The place that a jump goes to, by its distance from the jump's own place.
fn target_of(pc: u32, distance: i16) -> i64
    ensures { result ≡ pos pc +ℤ distance }
{
    pc as i64 + distance as i64
}

/// The operands of the instruction at a place of the code of a class with this constant pool.
pub fn operands_of<'a>(pool: &'a PoolEntries, pc: u32, instr: &Instr) -> Operands<'a>
    ensures { shown_operands result ≡ operands_text pool.now pc instr.now }
{
    match instr {
        Instr::Bipush { value } => Operands::Number(*value as i64),
        Instr::Sipush { value } => Operands::Number(*value as i64),
        Instr::Ldc { index } => constant_operand(pool, *index as u16),
        Instr::LdcW { index } => constant_operand(pool, *index),
        Instr::Iload { slot }
        | Instr::Aload { slot }
        | Instr::Istore { slot }
        | Instr::Astore { slot } => Operands::Number(*slot as i64),
        Instr::Iinc { slot, delta } => Operands::SlotAndDelta {
            slot: *slot,
            delta: *delta,
        },
        Instr::Ifeq { distance }
        | Instr::Ifne { distance }
        | Instr::Iflt { distance }
        | Instr::Ifge { distance }
        | Instr::Ifgt { distance }
        | Instr::Ifle { distance }
        | Instr::IfIcmpeq { distance }
        | Instr::IfIcmpne { distance }
        | Instr::IfIcmplt { distance }
        | Instr::IfIcmpge { distance }
        | Instr::IfIcmpgt { distance }
        | Instr::IfIcmple { distance }
        | Instr::Goto { distance } => Operands::Number(target_of(pc, *distance)),
        Instr::Getstatic { index } | Instr::Putstatic { index } => field_operand(pool, *index),
        Instr::Invokevirtual { index }
        | Instr::Invokespecial { index }
        | Instr::Invokestatic { index } => method_operand(pool, *index),
        Instr::New { index } => Operands::Class(class_name_of(pool, *index)),
        _ => Operands::Nothing,
    }
}
