//! Class files of three classes with one constant pool, and the codes of their methods.

use std::alloc::{AllocError, Global};

/// An entry of the pool; an index counts entries from 1.
enum Entry {
    Text(&'static [u8]),
    Class(u8),
    Field(u8, u8),
    Method(u8, u8),
    Pair(u8, u8),
}

const POOL: [Entry; 98] = [
    Entry::Text(b"M"),
    Entry::Class(1),
    Entry::Text(b"N"),
    Entry::Class(3),
    Entry::Text(b"T"),
    Entry::Class(5),
    Entry::Text(b"java/lang/Object"),
    Entry::Class(7),
    Entry::Text(b"java/lang/Thread"),
    Entry::Class(9),
    Entry::Text(b"Code"),
    Entry::Text(b"main"),
    Entry::Text(b"([Ljava/lang/String;)V"),
    Entry::Text(b"run"),
    Entry::Text(b"()V"),
    Entry::Text(b"<init>"),
    Entry::Pair(16, 15),
    Entry::Method(10, 17),
    Entry::Method(6, 17),
    Entry::Text(b"start"),
    Entry::Pair(20, 15),
    Entry::Method(6, 21),
    Entry::Text(b"join"),
    Entry::Pair(23, 15),
    Entry::Method(6, 24),
    Entry::Text(b"x"),
    Entry::Text(b"I"),
    Entry::Pair(26, 27),
    Entry::Field(2, 28),
    Entry::Text(b"y"),
    Entry::Pair(30, 27),
    Entry::Field(2, 31),
    Entry::Text(b"java/lang/System"),
    Entry::Class(33),
    Entry::Text(b"out"),
    Entry::Text(b"Ljava/io/PrintStream;"),
    Entry::Pair(35, 36),
    Entry::Field(34, 37),
    Entry::Text(b"java/io/PrintStream"),
    Entry::Class(39),
    Entry::Text(b"println"),
    Entry::Text(b"(I)V"),
    Entry::Pair(41, 42),
    Entry::Method(40, 43),
    Entry::Text(b"a"),
    Entry::Pair(45, 15),
    Entry::Method(2, 46),
    Entry::Method(4, 46),
    Entry::Text(b"b"),
    Entry::Pair(49, 15),
    Entry::Method(2, 50),
    Entry::Method(4, 50),
    Entry::Text(b"<clinit>"),
    Entry::Pair(1, 27),
    Entry::Pair(3, 27),
    Entry::Pair(5, 27),
    Entry::Pair(11, 27),
    Entry::Pair(12, 27),
    Entry::Pair(14, 27),
    Entry::Pair(15, 27),
    Entry::Pair(16, 27),
    Entry::Pair(20, 27),
    Entry::Pair(23, 27),
    Entry::Pair(27, 27),
    Entry::Pair(35, 27),
    Entry::Pair(41, 27),
    Entry::Pair(42, 27),
    Entry::Pair(45, 27),
    Entry::Pair(49, 27),
    Entry::Field(2, 54),
    Entry::Field(2, 55),
    Entry::Field(2, 56),
    Entry::Field(2, 57),
    Entry::Field(2, 58),
    Entry::Field(2, 59),
    Entry::Field(2, 60),
    Entry::Field(2, 61),
    Entry::Field(2, 62),
    Entry::Field(2, 63),
    Entry::Field(2, 64),
    Entry::Field(2, 65),
    Entry::Field(2, 66),
    Entry::Field(2, 67),
    Entry::Field(2, 68),
    Entry::Field(2, 69),
    Entry::Text(b"isAlive"),
    Entry::Text(b"()Z"),
    Entry::Pair(86, 87),
    Entry::Method(6, 88),
    Entry::Text(b"java/lang/Runnable"),
    Entry::Class(90),
    Entry::Method(8, 17),
    Entry::Method(4, 17),
    Entry::Text(b"(Ljava/lang/Runnable;)V"),
    Entry::Pair(16, 94),
    Entry::Method(10, 95),
    Entry::Method(10, 21),
    Entry::Method(4, 21),
];

/// The indices of a class and of its superclass, whether it is an interface, and whether it names java/lang/Runnable.
#[derive(Clone, Copy)]
pub struct Head {
    pub this: u8,
    pub parent: u8,
    pub interface: bool,
    pub runnable: bool,
}

impl Head {
    /// A class that is no interface.
    pub const fn new(this: u8, parent: u8) -> Head {
        Head {
            this,
            parent,
            interface: false,
            runnable: false,
        }
    }
}

/// The flags of the second field, and the index of its descriptor.
#[derive(Clone, Copy)]
pub struct Field {
    pub flags: u8,
    pub descriptor: u8,
}

impl Field {
    pub const fn new(flags: u8, descriptor: u8) -> Field {
        Field { flags, descriptor }
    }
}

/// The indices of the names of sixteen more fields, whose Fieldrefs have the indices from 70 on.
pub const MORE: [u8; 16] = [1, 3, 5, 11, 12, 14, 15, 16, 20, 23, 27, 35, 41, 42, 45, 49];

/// A method: its flags, the indices of its name and of its descriptor, its code, and how high its stack is at most.
#[derive(Clone, Copy)]
pub struct Part {
    pub flags: u8,
    pub name: u8,
    pub descriptor: u8,
    pub code: &'static [u8],
    pub stack: u8,
}

fn add_entry(out: &mut Vec<u8>, entry: &Entry) -> Result<(), AllocError> {
    match entry {
        Entry::Text(text) => {
            out.extend_from_slice(&[1, 0, u8::try_from(text.len()).unwrap_or(0)])?;
            out.extend_from_slice(text)?;
        }
        Entry::Class(name) => out.extend_from_slice(&[7, 0, *name])?,
        Entry::Field(class, pair) => out.extend_from_slice(&[9, 0, *class, 0, *pair])?,
        Entry::Method(class, pair) => out.extend_from_slice(&[10, 0, *class, 0, *pair])?,
        Entry::Pair(name, descriptor) => {
            out.extend_from_slice(&[12, 0, *name, 0, *descriptor])?;
        }
    }
    Ok(())
}

fn add_method(out: &mut Vec<u8>, part: &Part) -> Result<(), AllocError> {
    let size = u8::try_from(part.code.len()).unwrap_or(0);
    out.extend_from_slice(&[0, part.flags, 0, part.name, 0, part.descriptor, 0, 1, 0, 11])?;
    out.extend_from_slice(&[
        0,
        0,
        0,
        size.wrapping_add(12),
        0,
        part.stack,
        0,
        2,
        0,
        0,
        0,
        size,
    ])?;
    out.extend_from_slice(part.code)?;
    out.extend_from_slice(&[0, 0, 0, 0])?;
    Ok(())
}

/// The bytes of a class with the static ints x, which is volatile, and y, and those that `more` names, and with these methods,
/// each of two locals.
pub fn class_bytes(
    alloc: Global,
    head: Head,
    second: Field,
    more: &[u8],
    parts: &[Part],
) -> Result<Vec<u8>, AllocError> {
    let mut out = Vec::new(alloc);
    out.extend_from_slice(&[0xca, 0xfe, 0xba, 0xbe, 0, 0, 0, 49, 0, 99])?;
    for item in &POOL {
        add_entry(&mut out, item)?;
    }
    let interface = if head.interface { 2 } else { 0 };
    let fields = u8::try_from(more.len()).unwrap_or(0).wrapping_add(2);
    out.extend_from_slice(&[interface, 0x21, 0, head.this, 0, head.parent])?;
    if head.runnable {
        out.extend_from_slice(&[0, 1, 0, 91])?;
    } else {
        out.extend_from_slice(&[0, 0])?;
    }
    out.extend_from_slice(&[0, fields, 0, 0x48, 0, 26, 0, 27, 0, 0])?;
    out.extend_from_slice(&[0, second.flags, 0, 30, 0, second.descriptor, 0, 0])?;
    for name in more {
        out.extend_from_slice(&[0, 8, 0, *name, 0, 27, 0, 0])?;
    }
    out.extend_from_slice(&[0, u8::try_from(parts.len()).unwrap_or(0)])?;
    for part in parts {
        add_method(&mut out, part)?;
    }
    out.extend_from_slice(&[0, 0])?;
    Ok(out)
}
