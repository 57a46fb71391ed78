//! Programs of two classes: M with main and the static int x, and the thread class T.

ghost use Rattle.std.specs.Prelude.{IfOk};
ghost use Rattle.class_format.specs.ClassText.{IsValid};
ghost use Rattle.thread_runs.specs.Sound.{HasSoundRuns};

use class_format::{ClassRecord, read_class, valid_has_text};
use linked_laws::laws::are_ordered;
use linking::{ClassList, link};
use plain_runs::laws::runs_are_plain;
use program::Program;
use std::alloc::{AllocError, Global};
use std::test::Fail;
use typed_runs::laws::traces_are_linked;

/// An entry of the pool; an index counts entries from 1.
enum Entry {
    Text(&'static [u8]),
    Class(u8),
    Field(u8, u8),
    Method(u8, u8),
    Pair(u8, u8),
}

/// The pool of both classes. 16 is the constructor of Thread, 17 that of T, 20, 23 and 43 are start, join and isAlive, 27 is x,
/// 33 is System.out and 39 println.
const POOL: [Entry; 43] = [
    Entry::Text(b"M"),
    Entry::Class(1),
    Entry::Text(b"T"),
    Entry::Class(3),
    Entry::Text(b"java/lang/Object"),
    Entry::Class(5),
    Entry::Text(b"java/lang/Thread"),
    Entry::Class(7),
    Entry::Text(b"Code"),
    Entry::Text(b"main"),
    Entry::Text(b"([Ljava/lang/String;)V"),
    Entry::Text(b"run"),
    Entry::Text(b"()V"),
    Entry::Text(b"<init>"),
    Entry::Pair(14, 13),
    Entry::Method(8, 15),
    Entry::Method(4, 15),
    Entry::Text(b"start"),
    Entry::Pair(18, 13),
    Entry::Method(4, 19),
    Entry::Text(b"join"),
    Entry::Pair(21, 13),
    Entry::Method(4, 22),
    Entry::Text(b"x"),
    Entry::Text(b"I"),
    Entry::Pair(24, 25),
    Entry::Field(2, 26),
    Entry::Text(b"java/lang/System"),
    Entry::Class(28),
    Entry::Text(b"out"),
    Entry::Text(b"Ljava/io/PrintStream;"),
    Entry::Pair(30, 31),
    Entry::Field(29, 32),
    Entry::Text(b"java/io/PrintStream"),
    Entry::Class(34),
    Entry::Text(b"println"),
    Entry::Text(b"(I)V"),
    Entry::Pair(36, 37),
    Entry::Method(35, 38),
    Entry::Text(b"isAlive"),
    Entry::Text(b"()Z"),
    Entry::Pair(40, 41),
    Entry::Method(4, 42),
];

/// The code of the constructor of T.
const INIT: &[u8] = &[0x2a, 0xb7, 0, 16, 0xb1];

fn add_entry(out: &mut Vec<u8>, entry: &Entry) -> Result<(), AllocError> {
    match entry {
        Entry::Text(text) => {
            out.extend_from_slice(&[1, 0, u8::try_from(text.len()).unwrap_or(0)])?;
            out.extend_from_slice(text)?;
        }
        Entry::Class(name) => out.extend_from_slice(&[7, 0, *name])?,
        Entry::Field(class, pair) => out.extend_from_slice(&[9, 0, *class, 0, *pair])?,
        Entry::Method(class, pair) => out.extend_from_slice(&[10, 0, *class, 0, *pair])?,
        Entry::Pair(name, descriptor) => {
            out.extend_from_slice(&[12, 0, *name, 0, *descriptor])?;
        }
    }
    Ok(())
}

/// Adds the head of a class: its pool, its flags, its name and that of its superclass.
fn add_head(out: &mut Vec<u8>, this: u8, parent: u8) -> Result<(), AllocError> {
    out.extend_from_slice(&[0xca, 0xfe, 0xba, 0xbe, 0, 0, 0, 49, 0, 44])?;
    for item in &POOL {
        add_entry(out, item)?;
    }
    out.extend_from_slice(&[0, 0x21, 0, this, 0, parent, 0, 0])
}

/// Adds a method of two locals and a stack of two.
fn add_method(
    out: &mut Vec<u8>,
    flags: u8,
    name: u8,
    descriptor: u8,
    code: &[u8],
) -> Result<(), AllocError> {
    let size = u8::try_from(code.len()).unwrap_or(0);
    out.extend_from_slice(&[0, flags, 0, name, 0, descriptor, 0, 1, 0, 9])?;
    out.extend_from_slice(&[0, 0, 0, size.wrapping_add(12)])?;
    out.extend_from_slice(&[0, 2, 0, 2, 0, 0, 0, size])?;
    out.extend_from_slice(code)?;
    out.extend_from_slice(&[0, 0, 0, 0])
}

/// The class M, whose main has this code.
fn main_class(alloc: Global, main: &[u8]) -> Result<Vec<u8>, AllocError> {
    let mut out = Vec::new(alloc);
    add_head(&mut out, 2, 6)?;
    out.extend_from_slice(&[0, 1, 0, 8, 0, 24, 0, 25, 0, 0, 0, 1])?;
    add_method(&mut out, 9, 10, 11, main)?;
    out.extend_from_slice(&[0, 0])?;
    Ok(out)
}

/// The class T, whose run()V has this code.
fn thread_class(alloc: Global, run: &[u8]) -> Result<Vec<u8>, AllocError> {
    let mut out = Vec::new(alloc);
    add_head(&mut out, 4, 8)?;
    out.extend_from_slice(&[0, 0, 0, 2])?;
    add_method(&mut out, 1, 14, 13, INIT)?;
    add_method(&mut out, 1, 12, 13, run)?;
    out.extend_from_slice(&[0, 0])?;
    Ok(out)
}

/// The record of a class file.
fn class(alloc: Global, bytes: &[u8]) -> Result<ClassRecord, Fail>
    ensures { IfOk result IsValid }
{
    valid_has_text();
    Ok(read_class(alloc, bytes)?)
}

/// The program whose main and whose run()V of T have these codes.
pub fn linked(alloc: Global, main: &[u8], run: &[u8]) -> Result<Program, Fail>
    ensures { IfOk result HasSoundRuns }
{
    let mut classes = ClassList::new(alloc);
    classes.push(class(alloc, &main_class(alloc, main)?)?)?;
    classes.push(class(alloc, &thread_class(alloc, run)?)?)?;
    are_ordered();
    runs_are_plain();
    traces_are_linked();
    Ok(link(alloc, &classes)?)
}
