//! The parts of a class file (JVMS, chapter 4). Numbers are as they stand in the file; an index counts pool entries from 1.

use crate::byte_text::ByteText;
use crate::indices::Indices;
use crate::listed::Listed;

/// An entry of the constant pool (JVMS 4.4). The entry with number n stands at place n - 1.
#[derive(Debug, Drop)]
pub enum PoolEntry {
    /// The bytes of a text, in no particular encoding.
    Utf8(ByteText),
    Integer(u32),
    Float(u32),
    /// The high and the low four bytes.
    Long(u32, u32),
    /// The high and the low four bytes.
    Double(u32, u32),
    /// The index of the name, a Utf8.
    Class(u16),
    /// A string constant: the index of its text, a Utf8.
    Text(u16),
    /// The index of a Class and of a NameAndType.
    Field(u16, u16),
    /// The index of a Class and of a NameAndType.
    Method(u16, u16),
    /// The index of a Class and of a NameAndType.
    InterfaceMethod(u16, u16),
    /// The indices of the name and of the descriptor, both Utf8.
    NameAndType(u16, u16),
    /// The second number of a Long or Double.
    Gap,
}

/// The constant pool, from the entry with number 1 on.
pub type PoolEntries = Listed<PoolEntry>;

/// A class file (JVMS 4.1).
#[derive(Debug, Drop)]
pub struct ClassRecord {
    pub pool: PoolEntries,
    /// The access flags.
    pub flags: u16,
    /// The index of the class's own entry, a Class.
    pub this: u16,
    /// The index of the superclass, a Class.
    pub parent: u16,
    /// The indices of the interfaces, each a Class.
    pub interfaces: Indices,
    pub fields: Members,
    pub methods: Members,
    pub attributes: Attributes,
}

/// A field (JVMS 4.5) or a method (JVMS 4.6).
#[derive(Debug, Drop)]
pub struct Member {
    /// The access flags.
    pub flags: u16,
    /// The index of the name, a Utf8.
    pub name: u16,
    /// The index of the descriptor, a Utf8.
    pub descriptor: u16,
    pub attributes: Attributes,
}

/// Fields or methods.
pub type Members = Listed<Member>;

/// An attribute (JVMS 4.7).
#[cycle(attribute)]
#[derive(Debug, Drop)]
pub enum Attribute {
    /// A method's Code attribute.
    Code(CodeBody),
    /// Any other attribute, and each one inside a Code attribute: the index of its name, a Utf8, and its content.
    Other { name: u16, bytes: ByteText },
}

/// The attributes of a class, a member or a Code attribute.
pub type Attributes = Listed<Attribute>;

/// The content of a Code attribute (JVMS 4.7.3).
#[cycle(attribute)]
#[derive(Debug, Drop)]
pub struct CodeBody {
    /// The index of the attribute's name, the Utf8 "Code".
    pub name: u16,
    pub max_stack: u16,
    pub max_locals: u16,
    /// The instructions, 1 to 65535 bytes.
    pub code: ByteText,
    pub handlers: Handlers,
    /// Attributes that are all `Other`.
    pub attributes: Attributes,
}

/// An entry of a Code attribute's exception table (JVMS 4.7.3), as it stands in the file.
#[derive(Clone, Copy, Debug)]
pub struct Handler {
    pub start: u16,
    pub end: u16,
    pub target: u16,
    pub catch: u16,
}

/// The exception table of a Code attribute.
pub type Handlers = Listed<Handler>;
