//! Classes for tests, made part by part.

use class_format::{
    Attribute, Attributes, ByteText, ClassRecord, CodeBody, FormatRefusal, Handlers, Indices,
    Member, Members, PoolEntries, PoolEntry,
};
use std::alloc::Global;

/// A field or a method with at most one attribute.
pub struct Part {
    pub flags: u16,
    pub name: &'static [u8],
    pub descriptor: &'static [u8],
    pub attribute: Option<&'static [u8]>,
    /// The instructions of a Code attribute.
    pub code: Option<&'static [u8]>,
}

pub struct Class {
    pub flags: u16,
    pub name: &'static [u8],
    pub parent: &'static [u8],
    pub fields: &'static [Part],
    pub methods: &'static [Part],
}

/// The index of java/lang/Thread.<init>()V, and of java/lang/Thread.run()V, in each pool.
pub const THREAD_INIT: u8 = 7;

pub const THREAD_RUN: u8 = 10;

/// Adds a text, and gives its index.
fn add_text(alloc: Global, pool: &mut PoolEntries, text: &[u8]) -> Result<u16, FormatRefusal> {
    pool.push(PoolEntry::Utf8(ByteText::copied(alloc, text)?))?;
    Ok(u16::try_from(pool.len()).unwrap_or(0))
}

/// Adds a class, and gives its index.
fn add_class(alloc: Global, pool: &mut PoolEntries, name: &[u8]) -> Result<u16, FormatRefusal> {
    let name = add_text(alloc, pool, name)?;
    pool.push(PoolEntry::Class(name))?;
    Ok(u16::try_from(pool.len()).unwrap_or(0))
}

/// A pool with the methods of java/lang/Thread that the codes name.
fn thread_pool(alloc: Global) -> Result<PoolEntries, FormatRefusal> {
    let mut pool = PoolEntries::new(alloc);
    let thread = add_class(alloc, &mut pool, b"java/lang/Thread")?;
    let init = add_text(alloc, &mut pool, b"<init>")?;
    let run = add_text(alloc, &mut pool, b"run")?;
    let descriptor = add_text(alloc, &mut pool, b"()V")?;
    pool.push(PoolEntry::NameAndType(init, descriptor))?;
    pool.push(PoolEntry::Method(thread, 6))?;
    add_text(alloc, &mut pool, b"spare")?;
    pool.push(PoolEntry::NameAndType(run, descriptor))?;
    pool.push(PoolEntry::Method(thread, 9))?;
    Ok(pool)
}

fn code_of(alloc: Global, pool: &mut PoolEntries, code: &[u8]) -> Result<Attribute, FormatRefusal> {
    Ok(Attribute::Code(CodeBody {
        name: add_text(alloc, pool, b"Code")?,
        max_stack: 2,
        max_locals: 2,
        code: ByteText::copied(alloc, code)?,
        handlers: Handlers::new(alloc),
        attributes: Attributes::new(alloc),
    }))
}

fn member(alloc: Global, pool: &mut PoolEntries, part: &Part) -> Result<Member, FormatRefusal> {
    let mut attributes = Attributes::new(alloc);
    if let Some(name) = part.attribute {
        let name = add_text(alloc, pool, name)?;
        attributes.push(Attribute::Other {
            name,
            bytes: ByteText::new(alloc),
        })?;
    }
    if let Some(code) = part.code {
        attributes.push(code_of(alloc, pool, code)?)?;
    }
    Ok(Member {
        flags: part.flags,
        name: add_text(alloc, pool, part.name)?,
        descriptor: add_text(alloc, pool, part.descriptor)?,
        attributes,
    })
}

fn members(
    alloc: Global,
    pool: &mut PoolEntries,
    parts: &[Part],
) -> Result<Members, FormatRefusal> {
    let mut members = Members::new(alloc);
    for part in parts {
        members.push(member(alloc, pool, part)?)?;
    }
    Ok(members)
}

/// The record of a class.
pub fn record(alloc: Global, class: &Class) -> Result<ClassRecord, FormatRefusal> {
    let mut pool = thread_pool(alloc)?;
    let this = add_class(alloc, &mut pool, class.name)?;
    let parent = add_class(alloc, &mut pool, class.parent)?;
    let fields = members(alloc, &mut pool, class.fields)?;
    let methods = members(alloc, &mut pool, class.methods)?;
    Ok(ClassRecord {
        pool,
        flags: class.flags,
        this,
        parent,
        interfaces: Indices::new(alloc),
        fields,
        methods,
        attributes: Attributes::new(alloc),
    })
}
