//! The instruction at a place of the code.

ghost use Rattle.std.specs.Prelude.{◌≡◌, ◌≢◌, ◌<◌, ◌≤◌, ◌+◌, length, slice_index, find, ◌==◌, IfSome, IfNone};
ghost use Rattle.std.specs.Option.{option_copied};
ghost use Rattle.std.specs.Int.{w8, w16, cast_signed};
ghost use Rattle.opcodes.specs.Instructions.{number_of, operands_of, length_of, two_bytes, AreOperands};

use crate::instruction::Instr;

/// An opcode and its instruction, with every operand 0.
struct Opcode(u8, Instr);

/// The opcodes of the profile (JVMS 6.5 and 7).
static OPCODES: [Opcode; 72] = [
    Opcode(0x00, Instr::Nop),
    Opcode(0x02, Instr::IconstM1),
    Opcode(0x03, Instr::Iconst0),
    Opcode(0x04, Instr::Iconst1),
    Opcode(0x05, Instr::Iconst2),
    Opcode(0x06, Instr::Iconst3),
    Opcode(0x07, Instr::Iconst4),
    Opcode(0x08, Instr::Iconst5),
    Opcode(0x10, Instr::Bipush { value: 0 }),
    Opcode(0x11, Instr::Sipush { value: 0 }),
    Opcode(0x12, Instr::Ldc { index: 0 }),
    Opcode(0x13, Instr::LdcW { index: 0 }),
    Opcode(0x15, Instr::Iload { slot: 0 }),
    Opcode(0x19, Instr::Aload { slot: 0 }),
    Opcode(0x1a, Instr::Iload0),
    Opcode(0x1b, Instr::Iload1),
    Opcode(0x1c, Instr::Iload2),
    Opcode(0x1d, Instr::Iload3),
    Opcode(0x2a, Instr::Aload0),
    Opcode(0x2b, Instr::Aload1),
    Opcode(0x2c, Instr::Aload2),
    Opcode(0x2d, Instr::Aload3),
    Opcode(0x36, Instr::Istore { slot: 0 }),
    Opcode(0x3a, Instr::Astore { slot: 0 }),
    Opcode(0x3b, Instr::Istore0),
    Opcode(0x3c, Instr::Istore1),
    Opcode(0x3d, Instr::Istore2),
    Opcode(0x3e, Instr::Istore3),
    Opcode(0x4b, Instr::Astore0),
    Opcode(0x4c, Instr::Astore1),
    Opcode(0x4d, Instr::Astore2),
    Opcode(0x4e, Instr::Astore3),
    Opcode(0x57, Instr::Pop),
    Opcode(0x59, Instr::Dup),
    Opcode(0x5f, Instr::Swap),
    Opcode(0x60, Instr::Iadd),
    Opcode(0x64, Instr::Isub),
    Opcode(0x68, Instr::Imul),
    Opcode(0x74, Instr::Ineg),
    Opcode(0x78, Instr::Ishl),
    Opcode(0x7a, Instr::Ishr),
    Opcode(0x7c, Instr::Iushr),
    Opcode(0x7e, Instr::Iand),
    Opcode(0x80, Instr::Ior),
    Opcode(0x82, Instr::Ixor),
    Opcode(0x84, Instr::Iinc { slot: 0, delta: 0 }),
    Opcode(0x91, Instr::I2b),
    Opcode(0x92, Instr::I2c),
    Opcode(0x93, Instr::I2s),
    Opcode(0x99, Instr::Ifeq { distance: 0 }),
    Opcode(0x9a, Instr::Ifne { distance: 0 }),
    Opcode(0x9b, Instr::Iflt { distance: 0 }),
    Opcode(0x9c, Instr::Ifge { distance: 0 }),
    Opcode(0x9d, Instr::Ifgt { distance: 0 }),
    Opcode(0x9e, Instr::Ifle { distance: 0 }),
    Opcode(0x9f, Instr::IfIcmpeq { distance: 0 }),
    Opcode(0xa0, Instr::IfIcmpne { distance: 0 }),
    Opcode(0xa1, Instr::IfIcmplt { distance: 0 }),
    Opcode(0xa2, Instr::IfIcmpge { distance: 0 }),
    Opcode(0xa3, Instr::IfIcmpgt { distance: 0 }),
    Opcode(0xa4, Instr::IfIcmple { distance: 0 }),
    Opcode(0xa7, Instr::Goto { distance: 0 }),
    Opcode(0xac, Instr::Ireturn),
    Opcode(0xb1, Instr::Return),
    Opcode(0xb2, Instr::Getstatic { index: 0 }),
    Opcode(0xb3, Instr::Putstatic { index: 0 }),
    Opcode(0xb6, Instr::Invokevirtual { index: 0 }),
    Opcode(0xb7, Instr::Invokespecial { index: 0 }),
    Opcode(0xb8, Instr::Invokestatic { index: 0 }),
    Opcode(0xbb, Instr::New { index: 0 }),
    Opcode(0xc2, Instr::Monitorenter),
    Opcode(0xc3, Instr::Monitorexit),
];

/// The row of an opcode.
fn row_of(number: u8) -> Option<&'static Opcode>
    ensures { option_copied result ≡ find (λ row. row.0 == number) OPCODES }
{
    OPCODES.iter().find(|row| row.0 == number)
}

/// The instruction with this opcode, with every operand 0.
#[tactic(auto, using(crate::proofs::Table::found_number, crate::proofs::Table::found_none))]
pub fn form_of(number: u8) -> Option<Instr>
    ensures some { IfSome result (λ form. number_of form ≡ number) }
    ensures none { IfNone result ((i : Instr) → number_of i ≢ number) }
{
    match row_of(number) {
        Some(row) => Some(row.1),
        None => None,
    }
}

/// The byte at a place.
fn byte_at(code: &[u8], at: usize) -> u8
    requires { at < length code.now }
    ensures { result ≡ slice_index code.now at }
{
    code[at]
}

/// The byte at a place, in two's complement.
fn signed_byte_at(code: &[u8], at: usize) -> i8
    requires { at < length code.now }
    ensures { result ≡ cast_signed w8 (slice_index code.now at) }
{
    code[at].cast_signed()
}

/// The two bytes at a place, the higher one first.
fn two_bytes_at(code: &[u8], at: usize) -> u16
    requires { at + 1 < length code.now }
    ensures { result ≡ two_bytes code.now at }
{
    u16::from_be_bytes([code[at], code[at + 1]])
}

/// The two bytes at a place, the higher one first, in two's complement.
fn signed_two_bytes_at(code: &[u8], at: usize) -> i16
    requires { at + 1 < length code.now }
    ensures { result ≡ cast_signed w16 (two_bytes code.now at) }
{
    two_bytes_at(code, at).cast_signed()
}

/// The instruction of this form with the operands that stand behind `pc`.
pub fn with_operands(form: Instr, code: &[u8], pc: usize) -> Instr
    requires { pc + length_of form ≤ length code.now }
    ensures number { number_of result ≡ number_of form }
    ensures length { length_of result ≡ length_of form }
    ensures operands { AreOperands code.now (pc + 1) (operands_of result) }
{
    match form {
        Instr::Bipush { .. } => Instr::Bipush {
            value: signed_byte_at(code, pc + 1),
        },
        Instr::Sipush { .. } => Instr::Sipush {
            value: signed_two_bytes_at(code, pc + 1),
        },
        Instr::Ldc { .. } => Instr::Ldc {
            index: byte_at(code, pc + 1),
        },
        Instr::LdcW { .. } => Instr::LdcW {
            index: two_bytes_at(code, pc + 1),
        },
        Instr::Iload { .. } => Instr::Iload {
            slot: byte_at(code, pc + 1),
        },
        Instr::Aload { .. } => Instr::Aload {
            slot: byte_at(code, pc + 1),
        },
        Instr::Istore { .. } => Instr::Istore {
            slot: byte_at(code, pc + 1),
        },
        Instr::Astore { .. } => Instr::Astore {
            slot: byte_at(code, pc + 1),
        },
        Instr::Iinc { .. } => Instr::Iinc {
            slot: byte_at(code, pc + 1),
            delta: signed_byte_at(code, pc + 2),
        },
        Instr::Ifeq { .. } => Instr::Ifeq {
            distance: signed_two_bytes_at(code, pc + 1),
        },
        Instr::Ifne { .. } => Instr::Ifne {
            distance: signed_two_bytes_at(code, pc + 1),
        },
        Instr::Iflt { .. } => Instr::Iflt {
            distance: signed_two_bytes_at(code, pc + 1),
        },
        Instr::Ifge { .. } => Instr::Ifge {
            distance: signed_two_bytes_at(code, pc + 1),
        },
        Instr::Ifgt { .. } => Instr::Ifgt {
            distance: signed_two_bytes_at(code, pc + 1),
        },
        Instr::Ifle { .. } => Instr::Ifle {
            distance: signed_two_bytes_at(code, pc + 1),
        },
        Instr::IfIcmpeq { .. } => Instr::IfIcmpeq {
            distance: signed_two_bytes_at(code, pc + 1),
        },
        Instr::IfIcmpne { .. } => Instr::IfIcmpne {
            distance: signed_two_bytes_at(code, pc + 1),
        },
        Instr::IfIcmplt { .. } => Instr::IfIcmplt {
            distance: signed_two_bytes_at(code, pc + 1),
        },
        Instr::IfIcmpge { .. } => Instr::IfIcmpge {
            distance: signed_two_bytes_at(code, pc + 1),
        },
        Instr::IfIcmpgt { .. } => Instr::IfIcmpgt {
            distance: signed_two_bytes_at(code, pc + 1),
        },
        Instr::IfIcmple { .. } => Instr::IfIcmple {
            distance: signed_two_bytes_at(code, pc + 1),
        },
        Instr::Goto { .. } => Instr::Goto {
            distance: signed_two_bytes_at(code, pc + 1),
        },
        Instr::Getstatic { .. } => Instr::Getstatic {
            index: two_bytes_at(code, pc + 1),
        },
        Instr::Putstatic { .. } => Instr::Putstatic {
            index: two_bytes_at(code, pc + 1),
        },
        Instr::Invokevirtual { .. } => Instr::Invokevirtual {
            index: two_bytes_at(code, pc + 1),
        },
        Instr::Invokespecial { .. } => Instr::Invokespecial {
            index: two_bytes_at(code, pc + 1),
        },
        Instr::Invokestatic { .. } => Instr::Invokestatic {
            index: two_bytes_at(code, pc + 1),
        },
        Instr::New { .. } => Instr::New {
            index: two_bytes_at(code, pc + 1),
        },
        plain => plain,
    }
}
