//! Class files of three classes with one constant pool, and the codes of their methods.

use std::alloc::{AllocError, Global};

/// An entry of the pool; an index counts entries from 1.
enum Entry {
    Text(&'static [u8]),
    Class(u8),
    Field(u8, u8),
    Method(u8, u8),
    Pair(u8, u8),
}

const POOL: [Entry; 36] = [
    Entry::Text(b"M"),
    Entry::Class(1),
    Entry::Text(b"N"),
    Entry::Class(3),
    Entry::Text(b"T"),
    Entry::Class(5),
    Entry::Text(b"java/lang/Object"),
    Entry::Class(7),
    Entry::Text(b"java/lang/Thread"),
    Entry::Class(9),
    Entry::Text(b"Code"),
    Entry::Text(b"main"),
    Entry::Text(b"([Ljava/lang/String;)V"),
    Entry::Text(b"run"),
    Entry::Text(b"()V"),
    Entry::Text(b"a"),
    Entry::Text(b"b"),
    Entry::Text(b"c"),
    Entry::Text(b"wait"),
    Entry::Text(b"x"),
    Entry::Text(b"I"),
    Entry::Text(b"<init>"),
    Entry::Pair(16, 15),
    Entry::Method(2, 23),
    Entry::Pair(17, 15),
    Entry::Method(2, 25),
    Entry::Pair(18, 15),
    Entry::Method(4, 27),
    Entry::Pair(19, 15),
    Entry::Method(8, 29),
    Entry::Pair(20, 21),
    Entry::Field(2, 31),
    Entry::Pair(22, 15),
    Entry::Method(6, 33),
    Entry::Method(4, 23),
    Entry::Method(2, 27),
];

/// A method: its flags, the indices of its name and of its descriptor, and its code.
#[derive(Clone, Copy)]
pub struct Part {
    pub flags: u8,
    pub name: u8,
    pub descriptor: u8,
    pub code: &'static [u8],
}

fn add_entry(out: &mut Vec<u8>, entry: &Entry) -> Result<(), AllocError> {
    match entry {
        Entry::Text(text) => {
            out.extend_from_slice(&[1, 0, u8::try_from(text.len()).unwrap_or(0)])?;
            out.extend_from_slice(text)?;
        }
        Entry::Class(name) => out.extend_from_slice(&[7, 0, *name])?,
        Entry::Field(class, pair) => out.extend_from_slice(&[9, 0, *class, 0, *pair])?,
        Entry::Method(class, pair) => out.extend_from_slice(&[10, 0, *class, 0, *pair])?,
        Entry::Pair(name, descriptor) => {
            out.extend_from_slice(&[12, 0, *name, 0, *descriptor])?;
        }
    }
    Ok(())
}

fn add_method(out: &mut Vec<u8>, part: &Part) -> Result<(), AllocError> {
    let size = u8::try_from(part.code.len()).unwrap_or(0);
    out.extend_from_slice(&[0, part.flags, 0, part.name, 0, part.descriptor, 0, 1, 0, 11])?;
    out.extend_from_slice(&[0, 0, 0, size.wrapping_add(12), 0, 2, 0, 2, 0, 0, 0, size])?;
    out.extend_from_slice(part.code)?;
    out.extend_from_slice(&[0, 0, 0, 0])?;
    Ok(())
}

/// The bytes of a class with the static final int x and these methods.
pub fn class_bytes(
    alloc: Global,
    this: u8,
    parent: u8,
    parts: &[Part],
) -> Result<Vec<u8>, AllocError> {
    let mut out = Vec::new(alloc);
    out.extend_from_slice(&[0xca, 0xfe, 0xba, 0xbe, 0, 0, 0, 49, 0, 37])?;
    for item in &POOL {
        add_entry(&mut out, item)?;
    }
    out.extend_from_slice(&[0, 0x21, 0, this, 0, parent, 0, 0])?;
    out.extend_from_slice(&[0, 1, 0, 0x18, 0, 20, 0, 21, 0, 0])?;
    out.extend_from_slice(&[0, u8::try_from(parts.len()).unwrap_or(0)])?;
    for part in parts {
        add_method(&mut out, part)?;
    }
    out.extend_from_slice(&[0, 0])?;
    Ok(out)
}
