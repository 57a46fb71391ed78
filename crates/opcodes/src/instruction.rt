ghost use Rattle.std.specs.Prelude.{◌≡◌, ◌↔◌, IsTrue};
ghost use Rattle.opcodes.specs.Instructions.{length_of, jump_of, FallsThrough};

/// An instruction, with its operands as they stand in the code (JVMS 6.5).
///
/// A slot is the number of a local variable, an index the number of a constant pool entry, and a
/// distance is counted in bytes from the jump's own opcode.
#[derive(Clone, Copy, Debug, PartialEq, Eq)]
pub enum Instr {
    /// Does nothing (JVMS 6.5, `nop`).
    Nop,
    /// Pushes -1 (JVMS 6.5, `iconst_i`).
    IconstM1,
    /// Pushes 0 (JVMS 6.5, `iconst_i`).
    Iconst0,
    /// Pushes 1 (JVMS 6.5, `iconst_i`).
    Iconst1,
    /// Pushes 2 (JVMS 6.5, `iconst_i`).
    Iconst2,
    /// Pushes 3 (JVMS 6.5, `iconst_i`).
    Iconst3,
    /// Pushes 4 (JVMS 6.5, `iconst_i`).
    Iconst4,
    /// Pushes 5 (JVMS 6.5, `iconst_i`).
    Iconst5,
    /// Pushes `value` (JVMS 6.5, `bipush`).
    Bipush { value: i8 },
    /// Pushes `value` (JVMS 6.5, `sipush`).
    Sipush { value: i16 },
    /// Pushes the pool entry at `index` (JVMS 6.5, `ldc`).
    Ldc { index: u8 },
    /// Pushes the pool entry at `index` (JVMS 6.5, `ldc_w`).
    LdcW { index: u16 },
    /// Pushes the int of local `slot` (JVMS 6.5, `iload`).
    Iload { slot: u8 },
    /// Pushes the reference of local `slot` (JVMS 6.5, `aload`).
    Aload { slot: u8 },
    /// Pushes the int of local 0 (JVMS 6.5, `iload_n`).
    Iload0,
    /// Pushes the int of local 1 (JVMS 6.5, `iload_n`).
    Iload1,
    /// Pushes the int of local 2 (JVMS 6.5, `iload_n`).
    Iload2,
    /// Pushes the int of local 3 (JVMS 6.5, `iload_n`).
    Iload3,
    /// Pushes the reference of local 0 (JVMS 6.5, `aload_n`).
    Aload0,
    /// Pushes the reference of local 1 (JVMS 6.5, `aload_n`).
    Aload1,
    /// Pushes the reference of local 2 (JVMS 6.5, `aload_n`).
    Aload2,
    /// Pushes the reference of local 3 (JVMS 6.5, `aload_n`).
    Aload3,
    /// Pops an int into local `slot` (JVMS 6.5, `istore`).
    Istore { slot: u8 },
    /// Pops a reference into local `slot` (JVMS 6.5, `astore`).
    Astore { slot: u8 },
    /// Pops an int into local 0 (JVMS 6.5, `istore_n`).
    Istore0,
    /// Pops an int into local 1 (JVMS 6.5, `istore_n`).
    Istore1,
    /// Pops an int into local 2 (JVMS 6.5, `istore_n`).
    Istore2,
    /// Pops an int into local 3 (JVMS 6.5, `istore_n`).
    Istore3,
    /// Pops a reference into local 0 (JVMS 6.5, `astore_n`).
    Astore0,
    /// Pops a reference into local 1 (JVMS 6.5, `astore_n`).
    Astore1,
    /// Pops a reference into local 2 (JVMS 6.5, `astore_n`).
    Astore2,
    /// Pops a reference into local 3 (JVMS 6.5, `astore_n`).
    Astore3,
    /// Pops the top of the stack (JVMS 6.5, `pop`).
    Pop,
    /// Pushes the top of the stack again (JVMS 6.5, `dup`).
    Dup,
    /// Exchanges the two topmost values (JVMS 6.5, `swap`).
    Swap,
    /// Adds two ints (JVMS 6.5, `iadd`).
    Iadd,
    /// Subtracts two ints (JVMS 6.5, `isub`).
    Isub,
    /// Multiplies two ints (JVMS 6.5, `imul`).
    Imul,
    /// Negates an int (JVMS 6.5, `ineg`).
    Ineg,
    /// Shifts an int to the left (JVMS 6.5, `ishl`).
    Ishl,
    /// Shifts an int to the right, keeping its sign (JVMS 6.5, `ishr`).
    Ishr,
    /// Shifts an int to the right, filling with zeros (JVMS 6.5, `iushr`).
    Iushr,
    /// Ands two ints bit by bit (JVMS 6.5, `iand`).
    Iand,
    /// Ors two ints bit by bit (JVMS 6.5, `ior`).
    Ior,
    /// Exclusively ors two ints bit by bit (JVMS 6.5, `ixor`).
    Ixor,
    /// Adds `delta` to the int of local `slot` (JVMS 6.5, `iinc`).
    Iinc { slot: u8, delta: i8 },
    /// Narrows an int to a byte (JVMS 6.5, `i2b`).
    I2b,
    /// Narrows an int to a char (JVMS 6.5, `i2c`).
    I2c,
    /// Narrows an int to a short (JVMS 6.5, `i2s`).
    I2s,
    /// Jumps where an int is 0 (JVMS 6.5, `if_cond`).
    Ifeq { distance: i16 },
    /// Jumps where an int is not 0 (JVMS 6.5, `if_cond`).
    Ifne { distance: i16 },
    /// Jumps where an int is below 0 (JVMS 6.5, `if_cond`).
    Iflt { distance: i16 },
    /// Jumps where an int is 0 or above (JVMS 6.5, `if_cond`).
    Ifge { distance: i16 },
    /// Jumps where an int is above 0 (JVMS 6.5, `if_cond`).
    Ifgt { distance: i16 },
    /// Jumps where an int is 0 or below (JVMS 6.5, `if_cond`).
    Ifle { distance: i16 },
    /// Jumps where two ints are equal (JVMS 6.5, `if_icmp_cond`).
    IfIcmpeq { distance: i16 },
    /// Jumps where two ints differ (JVMS 6.5, `if_icmp_cond`).
    IfIcmpne { distance: i16 },
    /// Jumps where the first int is below the second (JVMS 6.5, `if_icmp_cond`).
    IfIcmplt { distance: i16 },
    /// Jumps where the first int is the second or above (JVMS 6.5, `if_icmp_cond`).
    IfIcmpge { distance: i16 },
    /// Jumps where the first int is above the second (JVMS 6.5, `if_icmp_cond`).
    IfIcmpgt { distance: i16 },
    /// Jumps where the first int is the second or below (JVMS 6.5, `if_icmp_cond`).
    IfIcmple { distance: i16 },
    /// Jumps (JVMS 6.5, `goto`).
    Goto { distance: i16 },
    /// Returns an int from the method (JVMS 6.5, `ireturn`).
    Ireturn,
    /// Returns from a method without a result (JVMS 6.5, `return`).
    Return,
    /// Pushes the static field that the pool names at `index` (JVMS 6.5, `getstatic`).
    Getstatic { index: u16 },
    /// Pops into the static field that the pool names at `index` (JVMS 6.5, `putstatic`).
    Putstatic { index: u16 },
    /// Calls the instance method that the pool names at `index`, by the object's class (JVMS 6.5, `invokevirtual`).
    Invokevirtual { index: u16 },
    /// Calls the constructor that the pool names at `index` (JVMS 6.5, `invokespecial`).
    Invokespecial { index: u16 },
    /// Calls the static method that the pool names at `index` (JVMS 6.5, `invokestatic`).
    Invokestatic { index: u16 },
    /// Makes an object of the class that the pool names at `index` (JVMS 6.5, `new`).
    New { index: u16 },
    /// Locks an object's monitor (JVMS 6.5, `monitorenter`).
    Monitorenter,
    /// Unlocks an object's monitor (JVMS 6.5, `monitorexit`).
    Monitorexit,
}

impl Instr {
    /// How many bytes the instruction takes in the code, its opcode included.
    pub fn length(&self) -> u32
        ensures { result ≡ length_of self.now }
    {
        match self {
            Instr::Bipush { .. }
            | Instr::Ldc { .. }
            | Instr::Iload { .. }
            | Instr::Aload { .. }
            | Instr::Istore { .. }
            | Instr::Astore { .. } => 2,
            Instr::Sipush { .. }
            | Instr::LdcW { .. }
            | Instr::Iinc { .. }
            | Instr::Ifeq { .. }
            | Instr::Ifne { .. }
            | Instr::Iflt { .. }
            | Instr::Ifge { .. }
            | Instr::Ifgt { .. }
            | Instr::Ifle { .. }
            | Instr::IfIcmpeq { .. }
            | Instr::IfIcmpne { .. }
            | Instr::IfIcmplt { .. }
            | Instr::IfIcmpge { .. }
            | Instr::IfIcmpgt { .. }
            | Instr::IfIcmple { .. }
            | Instr::Goto { .. }
            | Instr::Getstatic { .. }
            | Instr::Putstatic { .. }
            | Instr::Invokevirtual { .. }
            | Instr::Invokespecial { .. }
            | Instr::Invokestatic { .. }
            | Instr::New { .. } => 3,
            _ => 1,
        }
    }

    /// How far the instruction may jump, counted from its own opcode.
    pub fn jump(&self) -> Option<i16>
        ensures { result ≡ jump_of self.now }
    {
        match self {
            Instr::Ifeq { distance }
            | Instr::Ifne { distance }
            | Instr::Iflt { distance }
            | Instr::Ifge { distance }
            | Instr::Ifgt { distance }
            | Instr::Ifle { distance }
            | Instr::IfIcmpeq { distance }
            | Instr::IfIcmpne { distance }
            | Instr::IfIcmplt { distance }
            | Instr::IfIcmpge { distance }
            | Instr::IfIcmpgt { distance }
            | Instr::IfIcmple { distance }
            | Instr::Goto { distance } => Some(*distance),
            _ => None,
        }
    }

    /// Whether the next instruction may come next: not so behind a goto and a return.
    pub fn falls_through(&self) -> bool
        ensures { IsTrue result ↔ FallsThrough self.now }
    {
        !matches!(self, Instr::Goto { .. } | Instr::Ireturn | Instr::Return)
    }
}
